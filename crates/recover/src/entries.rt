//! Entries: names of which the same is said.
use crate::names::Named;
use crate::said::Said;
use crate::work::{Stopped, Work};
use std::alloc::{AllocError, Global};

/// Names, and what is said of their calls.
#[derive(Drop)]
pub(crate) struct Entry {
    pub(crate) names: Vec<&'static str>,
    pub(crate) said: Said,
}

/// A copy of what is said.
pub(crate) fn copy_of(alloc: Global, said: &Said) -> Result<Said, AllocError> {
    Ok(Said {
        word: said.word,
        conds: Vec::from_slice(alloc, &said.conds)?,
    })
}

// How many entries a section has at most.
const MOST_ENTRIES: usize = 1024;

// Adds a name to the entry that says this, or to a new one.
fn push_said(
    alloc: Global,
    work: &mut Work,
    found: &mut Vec<Entry>,
    name: &'static str,
    said: &Said,
) -> Result<(), Stopped> {
    work.spend(found.len())?;
    for entry in found.iter_mut() {
        if entry.said == *said {
            entry.names.push(name)?;
            return Ok(());
        }
    }
    if found.len() >= MOST_ENTRIES {
        return Err(Stopped::Spent);
    }
    let mut names = Vec::new(alloc);
    names.push(name)?;
    found.push(Entry {
        names,
        said: copy_of(alloc, said)?,
    })?;
    Ok(())
}

/// The entries of what is said of names: those without conditions first, and the names of each in order.
pub(crate) fn entries_of(
    alloc: Global,
    work: &mut Work,
    named: &[Named],
) -> Result<Vec<Entry>, Stopped> {
    let mut found = Vec::new(alloc);
    for has_conditions in [false, true] {
        for one in named {
            for said in one.said() {
                if said.conds.is_empty() != has_conditions {
                    push_said(alloc, work, &mut found, one.name, said)?;
                }
            }
        }
    }
    for entry in found.iter_mut() {
        entry.names.sort()?;
    }
    Ok(found)
}
