//! The parts in which a filter asks for the rules of its calls, as the filter itself has them.

use crate::asked::AskedCall;
use crate::fault::OutlineError;
use crate::maker::Maker;
use crate::passes::Way;
use crate::probing::{Pace, Section};
use crate::rules::Rules;
use bpf_insn::Program;
use profile::Profile;
use std::alloc::{AllocError, Global};

// Adds a rule of a call, which is the last one of a list, or a new one.
fn add_rule(
    alloc: Global,
    calls: &mut Vec<AskedCall>,
    call: (u32, u32),
    rule: u32,
) -> Result<(), AllocError> {
    let (token, number) = call;
    let is_new = match calls.last() {
        Some(last) => last.token != token || last.number != number,
        None => true,
    };
    if is_new {
        let mut parts = Vec::new(alloc);
        parts.push(Vec::new(alloc))?;
        calls.push(AskedCall {
            token,
            number,
            parts,
            is_merged: false,
        })?;
    }
    if let Some(last) = calls.last_mut()
        && let Some(part) = last.parts.last_mut()
    {
        part.push(rule)?;
    }
    Ok(())
}

// The calls of which rules ask for arguments and say another verdict than the default, each in one part.
fn calls_of(alloc: Global, profile: &Profile) -> Result<Vec<AskedCall>, AllocError> {
    let rules = Rules::of(alloc, profile)?;
    let mut calls = Vec::new(alloc);
    for (token, number, place) in rules.all() {
        if let Some(rule) = profile.rules().get(*place as usize)
            && rule.word != profile.default_word()
            && !rule.conds.is_empty()
        {
            add_rule(alloc, &mut calls, (*token, *number), *place)?;
        }
    }
    Ok(calls)
}

// Those of some rules that are not among others.
fn without(alloc: Global, rules: &[u32], others: &[u32]) -> Result<Vec<u32>, AllocError> {
    let mut left = Vec::new(alloc);
    for rule in rules {
        if !others.contains(rule) {
            left.push(*rule)?;
        }
    }
    Ok(left)
}

// How many of the next beginnings are tried as the end of a part.
const MOST_TRIED: usize = 4;

// Where a part may begin: which rules are asked for in it, and which are left for the parts before it. Also, which of such beginnings is
// the next one, if there is one.
#[derive(Drop)]
struct Beginning {
    from: usize,
    asked: Vec<u32>,
    rest: Vec<u32>,
    next: Option<usize>,
}

// The parts from the last beginning of a list on, one after the other.
fn parts_from(alloc: Global, list: &[Beginning]) -> Result<Vec<Vec<u32>>, AllocError> {
    let mut parts = Vec::new(alloc);
    let mut place = list.len().checked_sub(1);
    for _ in 0..list.len() {
        let Some(own) = place else {
            break;
        };
        if let Some(beginning) = list.get(own) {
            parts.push(Vec::from_slice(alloc, &beginning.asked)?)?;
            place = beginning.next;
        }
    }
    Ok(parts)
}

impl<'a> Maker<'a> {
    // A beginning where a section begins, if the filter asks in it for some of these rules. None is left before the first one.
    fn beginning(
        &mut self,
        section: Section<'_>,
        rules: &[u32],
        next: Option<usize>,
        pace: &mut Pace,
    ) -> Result<Option<Beginning>, OutlineError> {
        let asked = self.asked_in(section, rules, pace)?;
        let rest = without(self.alloc, rules, &asked)?;
        let is_first = section.way.passes.first() == Some(&section.from);
        if asked.is_empty() || is_first && !rest.is_empty() {
            return Ok(None);
        }
        Ok(Some(Beginning {
            from: section.from,
            asked,
            rest,
            next,
        }))
    }

    // A beginning where a section begins. It ends at the nearest beginning of a list that serves, or at the section's
    // end.
    fn nearest(
        &mut self,
        section: Section<'_>,
        rules: &[u32],
        list: &[Beginning],
        pace: &mut Pace,
    ) -> Result<Option<Beginning>, OutlineError> {
        let mut next = list.len();
        for _ in 0..MOST_TRIED {
            next = next.saturating_sub(1);
            let Some(end) = list.get(next) else {
                break;
            };
            let shorter = section.up_to(end.from);
            let found = self.beginning(shorter, &end.rest, Some(next), pace)?;
            if found.is_some() {
                return Ok(found);
            }
        }
        self.beginning(section, rules, None, pace)
    }

    // All beginnings of the parts of a call, the last one first.
    fn beginnings(
        &mut self,
        way: &Way,
        call: usize,
        rules: &[u32],
        pace: &mut Pace,
    ) -> Result<Vec<Beginning>, OutlineError> {
        let mut list = Vec::new(self.alloc);
        for from in way.passes.iter().rev() {
            let section = Section::beginning_at(way, call, *from);
            if let Some(found) = self.nearest(section, rules, &list, pace)? {
                list.push(found)?;
            }
        }
        Ok(list)
    }

    // The parts of a call, each as short as may be; or one, if the first part is not found.
    fn parts_of(
        &mut self,
        own: &AskedCall,
        call: usize,
        pace: &mut Pace,
    ) -> Result<Vec<Vec<u32>>, OutlineError> {
        let Some(rules) = own.parts.first() else {
            return Err(OutlineError::Unlike);
        };
        let way = self.way_of((own.token, own.number))?;
        let list = self.beginnings(&way, call, rules, pace)?;
        if let Some(first) = list.last()
            && first.rest.is_empty()
        {
            return Ok(parts_from(self.alloc, &list)?);
        }
        let mut parts = Vec::new(self.alloc);
        parts.push(Vec::from_slice(self.alloc, rules)?)?;
        Ok(parts)
    }
}

/// The calls of which rules ask for arguments, with the parts in which a filter asks for these.
pub fn asked_by(
    alloc: Global,
    profile: &Profile,
    program: &Program<'_>,
) -> Result<Vec<AskedCall>, OutlineError> {
    let whole = calls_of(alloc, profile)?;
    let mut maker = Maker::new(alloc, profile, *program, &whole, false)?;
    let mut calls = Vec::new(alloc);
    let mut pace = Pace::new();
    for (place, own) in whole.iter().enumerate() {
        calls.push(AskedCall {
            token: own.token,
            number: own.number,
            parts: maker.parts_of(own, place, &mut pace)?,
            is_merged: false,
        })?;
    }
    Ok(calls)
}
