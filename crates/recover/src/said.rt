//! What the entries of a call say: verdicts under conditions.
use crate::classes::{Argument, Classes, Grain, classes_of};
use crate::covering::{Aim, Taste, covering};
use crate::leaves::Leaf;
use crate::pieces::Piece;
use crate::work::{Stopped, Work};
use profile::Cond;
use std::alloc::{AllocError, Global};

/// A verdict, and the conditions under which it is given.
#[derive(Drop, PartialEq, Eq)]
pub(crate) struct Said {
    pub(crate) word: u32,
    pub(crate) conds: Vec<Cond>,
}

/// The verdict of all that nothing else is said of, and how arguments are looked at.
#[derive(Clone, Copy)]
pub(crate) struct Manner {
    pub(crate) default: u32,
    pub(crate) grain: Grain,
    pub(crate) taste: Taste,
}

// What is said for some classes of an argument: those for which it was found, and those for which it is true.
#[derive(Drop)]
struct Candidate {
    said: Said,
    aim: Aim,
}

// Whether all conditions hold of some records of a leaf.
fn meets(leaf: &Leaf, said: &Said) -> bool {
    said.conds
        .iter()
        .all(|cond| Piece::of_leaf(leaf, cond.index).may_meet(cond))
}

// How many steps it takes to ask a condition of a leaf.
const STEPS: usize = 8;

// Whether what is said is true of leaves.
fn is_true(work: &mut Work, leaves: &[Leaf], said: &Said) -> Result<bool, Stopped> {
    for leaf in leaves {
        work.spend_each(said.conds.len().saturating_add(1), STEPS)?;
        if leaf.word != said.word && meets(leaf, said) {
            return Ok(false);
        }
    }
    Ok(true)
}

// For which classes it is true.
fn allowed(
    alloc: Global,
    work: &mut Work,
    classes: &Classes,
    said: &Said,
) -> Result<Vec<bool>, Stopped> {
    let mut found = Vec::new(alloc);
    for leaves in &classes.leaves {
        found.push(is_true(work, leaves, said)?)?;
    }
    Ok(found)
}

// Tells that a class is needed.
fn need(aim: &mut Aim, class: usize) {
    if let Some(is_needed) = aim.needed.get_mut(class) {
        *is_needed = true;
    }
}

// No class yet.
fn none_of(alloc: Global, count: usize) -> Result<Vec<bool>, AllocError> {
    let mut found = Vec::new(alloc);
    for _ in 0..count {
        found.push(false)?;
    }
    Ok(found)
}

// Adds that something is said for a class.
fn push_found(
    alloc: Global,
    work: &mut Work,
    list: &mut Vec<Candidate>,
    (classes, class): (&Classes, usize),
    said: Said,
) -> Result<(), Stopped> {
    work.spend(list.len())?;
    for found in list.iter_mut() {
        if found.said == said {
            need(&mut found.aim, class);
            return Ok(());
        }
    }
    let mut aim = Aim {
        needed: none_of(alloc, classes.leaves.len())?,
        allowed: allowed(alloc, work, classes, &said)?,
    };
    need(&mut aim, class);
    list.push(Candidate { said, aim })?;
    Ok(())
}

// What is said, under one more condition.
fn under(alloc: Global, cond: Cond, said: &Said) -> Result<Said, AllocError> {
    let mut conds = Vec::new(alloc);
    conds.push(cond)?;
    for other in &said.conds {
        conds.push(*other)?;
    }
    Ok(Said {
        word: said.word,
        conds,
    })
}

// Adds what is said under conditions on an argument; false if no conditions are found.
fn push_under(
    alloc: Global,
    work: &mut Work,
    all: &mut Vec<Said>,
    (argument, taste): (&Argument, Taste),
    found: Candidate,
) -> Result<bool, Stopped> {
    let Candidate { said, aim } = found;
    if aim.allows_all() {
        all.push(said)?;
        return Ok(true);
    }
    let Some(conds) = covering(alloc, work, argument, &aim, taste)? else {
        return Ok(false);
    };
    for cond in &conds {
        all.push(under(alloc, *cond, &said)?)?;
    }
    Ok(true)
}

// How much is said of a call at most: each is an entry.
const MOST_SAID: usize = 1024;

// What is said under conditions on an argument.
fn combined(
    alloc: Global,
    work: &mut Work,
    (argument, taste): (&Argument, Taste),
    list: Vec<Candidate>,
) -> Result<Option<Vec<Said>>, Stopped> {
    let mut all = Vec::new(alloc);
    for found in list {
        if !push_under(alloc, work, &mut all, (argument, taste), found)? {
            return Ok(None);
        }
        if all.len() > MOST_SAID {
            return Err(Stopped::Spent);
        }
    }
    Ok(Some(all))
}

// What is said where one verdict is given.
fn said_always(alloc: Global, word: u32, default: u32) -> Result<Vec<Said>, AllocError> {
    let mut said = Vec::new(alloc);
    if word != default {
        said.push(Said {
            word,
            conds: Vec::new(alloc),
        })?;
    }
    Ok(said)
}

/// The one verdict of leaves, if they have no other.
pub(crate) fn only_word(leaves: &[Leaf]) -> Option<u32> {
    let first = leaves.first()?;
    if leaves.iter().all(|leaf| leaf.word == first.word) {
        Some(first.word)
    } else {
        None
    }
}

/// Verdicts under conditions that say the verdict of each leaf, unless it is the default one, by so many last arguments. None if no
/// conditions are found.
pub(crate) fn said_of(
    alloc: Global,
    work: &mut Work,
    leaves: &[Leaf],
    manner: Manner,
    left: u8,
) -> Result<Option<Vec<Said>>, Stopped> {
    work.spend(leaves.len())?;
    if let Some(word) = only_word(leaves) {
        return Ok(Some(said_always(alloc, word, manner.default)?));
    }
    if left == 0 {
        return Ok(None);
    }
    let index = 6u8.saturating_sub(left);
    let Some(classes) = classes_of(alloc, work, leaves, index, manner.grain)? else {
        return Ok(None);
    };
    let mut list = Vec::new(alloc);
    for (class, leaves) in classes.leaves.iter().enumerate() {
        let Some(said) = said_of(alloc, work, leaves, manner, left - 1)? else {
            return Ok(None);
        };
        for one in said {
            push_found(alloc, work, &mut list, (&classes, class), one)?;
        }
    }
    combined(alloc, work, (&classes.argument, manner.taste), list)
}
