//! What is said of one call.
use crate::cells::Cell;
use crate::classes::{Grain, words_of};
use crate::covering::Taste;
use crate::leaves::{Called, Leaf, apart, record_of, settled};
use crate::paths::paths_of;
use crate::said::{Manner, Said, only_word, said_of};
use crate::text::is_given;
use crate::unsaid::{Shown, Unsaid};
use crate::work::{Stopped, Work};
use bpf_interp::verdict;
use call_record::{Record, Word};
use kernel_check::Accepted;
use machines::is_narrow;
use std::alloc::{AllocError, Global};

/// What is said of a call, and the ways through the filter that it was found from.
#[derive(Drop)]
pub(crate) struct Heard {
    pub(crate) said: Vec<Said>,
    pub(crate) leaves: Vec<Leaf>,
}

/// A record, with the verdict that the filter gives it.
pub(crate) fn show(program: &Accepted<'_>, call: Record) -> Shown {
    Shown {
        call,
        given: verdict(program, &call),
    }
}

/// The record of a call with these arguments.
pub(crate) fn record_with(call: Called, args: [u64; 6]) -> Record {
    let Called { token, number } = call;
    Record {
        nr: number,
        arch: token,
        ip: 0,
        args,
    }
}

/// The record of a call with 0 in all arguments.
pub(crate) fn plain_record(call: Called) -> Record {
    record_with(call, [0; 6])
}

// Whether a section can give a leaf's verdict.
fn can_be_said(word: u32) -> bool {
    is_given(Word(word))
}

// Refuses verdicts that no section can give.
fn refuse_words(program: &Accepted<'_>, leaves: &[Leaf]) -> Result<(), Unsaid> {
    for leaf in leaves {
        if !can_be_said(leaf.word) {
            return Err(Unsaid::NoAction(show(program, record_of(leaf))));
        }
    }
    Ok(())
}

// The leaves that have not all numbers of a word.
fn leaves_testing(alloc: Global, leaves: &[Leaf], word: u8) -> Result<Vec<Leaf>, AllocError> {
    let mut found = Vec::new(alloc);
    for leaf in leaves {
        if leaf.cell(word) != Cell::ALL {
            found.push(*leaf)?;
        }
    }
    Ok(found)
}

// Two calls that differ in one word alone, with unlike verdicts. No record goes two ways, so neither way has all numbers of the word.
fn two_apart(
    alloc: Global,
    work: &mut Work,
    program: &Accepted<'_>,
    leaves: &[Leaf],
    word: u8,
) -> Result<Option<(Shown, Shown)>, Stopped> {
    let found = leaves_testing(alloc, leaves, word)?;
    let Some((one, other)) = apart(work, &found, word)? else {
        return Ok(None);
    };
    Ok(Some((show(program, one), show(program, other))))
}

// The leaves with a 0 in the instruction pointer, if no verdict depends on it.
fn without_pointer(
    alloc: Global,
    work: &mut Work,
    program: &Accepted<'_>,
    leaves: Vec<Leaf>,
) -> Result<Vec<Leaf>, Unsaid> {
    let mut left = leaves;
    for word in [2u8, 3] {
        if let Some((one, other)) = two_apart(alloc, work, program, &left, word)? {
            return Err(Unsaid::Pointer(one, other));
        }
        left = settled(alloc, work, &left, word, Cell::ALL)?;
    }
    Ok(left)
}

// The leaves with a 0 in the upper half of each argument, if no verdict depends on these.
fn without_upper(
    alloc: Global,
    work: &mut Work,
    program: &Accepted<'_>,
    leaves: Vec<Leaf>,
) -> Result<Vec<Leaf>, Unsaid> {
    let mut left = leaves;
    for index in 0..6u8 {
        let (_low, high) = words_of(index);
        if let Some((one, other)) = two_apart(alloc, work, program, &left, high)? {
            return Err(Unsaid::HighHalf(one, other));
        }
        left = settled(alloc, work, &left, high, Cell::ZERO)?;
    }
    Ok(left)
}

// One leaf of all records.
fn always(alloc: Global, word: u32) -> Result<Vec<Leaf>, AllocError> {
    let mut found = Vec::new(alloc);
    found.push(Leaf {
        cells: [Cell::ALL; 16],
        word,
    })?;
    Ok(found)
}

// The leaves of any machine and number.
fn of_any_call(alloc: Global, leaves: &[Leaf]) -> Result<Vec<Leaf>, AllocError> {
    let mut found = Vec::new(alloc);
    for leaf in leaves {
        found.push(leaf.with(0, Cell::ALL).with(1, Cell::ALL))?;
    }
    Ok(found)
}

/// The ways of a call through the filter, as far as a section may tell them apart. They are told as those of any call.
pub(crate) fn leaves_of(
    alloc: Global,
    work: &mut Work,
    program: &Accepted<'_>,
    call: Called,
) -> Result<Vec<Leaf>, Unsaid> {
    let paths = paths_of(alloc, work, program, call)?;
    if !paths.are_all {
        return Err(Unsaid::Unfollowed(show(program, plain_record(call))));
    }
    refuse_words(program, &paths.leaves)?;
    if let Some(word) = only_word(&paths.leaves) {
        return Ok(always(alloc, word)?);
    }
    let mut leaves = without_pointer(alloc, work, program, paths.leaves)?;
    if is_narrow(call.token) {
        leaves = without_upper(alloc, work, program, leaves)?;
    }
    Ok(of_any_call(alloc, &leaves)?)
}

/// What is said of a call that goes these ways, beside a default verdict.
pub(crate) fn hear(
    alloc: Global,
    work: &mut Work,
    program: &Accepted<'_>,
    (call, leaves): (Called, Vec<Leaf>),
    (default, taste): (u32, Taste),
) -> Result<Heard, Unsaid> {
    for grain in [Grain::Ways, Grain::Cells, Grain::Blocks] {
        let manner = Manner {
            default,
            grain,
            taste,
        };
        if let Some(said) = said_of(alloc, work, &leaves, manner, 6)? {
            return Ok(Heard { said, leaves });
        }
    }
    Err(Unsaid::Conditions(show(program, plain_record(call))))
}
