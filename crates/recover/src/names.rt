//! What is said of each name.
use crate::calls::{Heard, hear, leaves_of};
use crate::covering::Taste;
use crate::entries::copy_of;
use crate::leaves::{Called, Leaf};
use crate::machine_branches::Listed;
use crate::said::Said;
use crate::unlike::{Side, unlike};
use crate::unsaid::Unsaid;
use crate::work::Work;
use call_tables::call_name;
use kernel_check::Accepted;
use machines::is_narrow;
use std::alloc::{AllocError, Global};

/// A name, and what is said of its call on one machine. Of the machines that have it, this is one with arguments of 64 bits,
/// if there is one.
#[derive(Drop)]
pub(crate) struct Named {
    pub(crate) name: &'static str,
    call: Called,
    heard: Heard,
}

impl Named {
    pub(crate) fn said(&self) -> &[Said] {
        &self.heard.said
    }

    fn side(&self) -> Side<'_> {
        Side {
            call: self.call,
            leaves: &self.heard.leaves,
        }
    }
}

// Copies of what is said.
fn copies_of(alloc: Global, said: &[Said]) -> Result<Vec<Said>, AllocError> {
    let mut copies = Vec::new(alloc);
    for one in said {
        copies.push(copy_of(alloc, one)?)?;
    }
    Ok(copies)
}

// The greatest argument that calls of both machines compare.
fn greatest(one: Called, other: Called) -> u64 {
    if is_narrow(one.token) || is_narrow(other.token) {
        0xffff_ffff
    } else {
        u64::MAX
    }
}

// Joins what is said of the call of another machine with the same name.
fn join(
    alloc: Global,
    work: &mut Work,
    program: &Accepted<'_>,
    known: &mut Named,
    call: Called,
    other: Heard,
) -> Result<(), Unsaid> {
    work.spend(other.said.len())?;
    if known.heard.said == other.said {
        return Ok(());
    }
    let side = Side {
        call,
        leaves: &other.leaves,
    };
    let most = greatest(known.call, call);
    if let Some((one, other)) = unlike(alloc, work, program, (known.side(), side), most)? {
        return Err(Unsaid::UnlikeMachines(one, other));
    }
    if is_narrow(known.call.token) {
        known.heard = other;
        known.call = call;
    }
    Ok(())
}

// What is said of a call that goes these ways: as of a call that goes the same ways, if one was heard.
fn heard_of(
    alloc: Global,
    work: &mut Work,
    program: &Accepted<'_>,
    found: &[Named],
    (call, leaves): (Called, Vec<Leaf>),
    manner: (u32, Taste),
) -> Result<Heard, Unsaid> {
    work.spend(found.len())?;
    for known in found {
        if known.heard.leaves == leaves {
            let said = copies_of(alloc, known.said())?;
            return Ok(Heard { said, leaves });
        }
    }
    hear(alloc, work, program, (call, leaves), manner)
}

// Adds a call of a machine.
fn push_call(
    alloc: Global,
    work: &mut Work,
    program: &Accepted<'_>,
    found: &mut Vec<Named>,
    (machine, number): (&Listed, u32),
    manner: (u32, Taste),
) -> Result<(), Unsaid> {
    let Some(name) = call_name(machine.arch, number) else {
        return Ok(());
    };
    let call = Called {
        token: machine.arch.token(),
        number,
    };
    let leaves = leaves_of(alloc, work, program, call)?;
    for known in found.iter_mut() {
        if known.name == name {
            if known.heard.leaves == leaves {
                return Ok(());
            }
            let heard = hear(alloc, work, program, (call, leaves), manner)?;
            return join(alloc, work, program, known, call, heard);
        }
    }
    let heard = heard_of(alloc, work, program, found, (call, leaves), manner)?;
    found.push(Named { name, call, heard })?;
    Ok(())
}

/// What is said of each name of a call of these machines.
pub(crate) fn names_of(
    alloc: Global,
    work: &mut Work,
    program: &Accepted<'_>,
    machines: &[Listed],
    manner: (u32, Taste),
) -> Result<Vec<Named>, Unsaid> {
    let mut found = Vec::new(alloc);
    for machine in machines {
        for number in &machine.named {
            push_call(alloc, work, program, &mut found, (machine, *number), manner)?;
        }
    }
    Ok(found)
}
