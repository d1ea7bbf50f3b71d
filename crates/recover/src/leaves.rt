//! Calls that go one way through a filter.
use crate::cells::Cell;
use crate::classes::words_of;
use crate::work::{Stopped, Work};
use call_record::{Record, halves};
use std::alloc::Global;

/// A call of a machine.
#[derive(Clone, Copy)]
pub(crate) struct Called {
    pub(crate) token: u32,
    pub(crate) number: u32,
}

/// Records that go one way through the filter, by the numbers of each word, and the verdict at its end.
#[derive(Clone, Copy, PartialEq, Eq)]
pub(crate) struct Leaf {
    pub(crate) cells: [Cell; 16],
    pub(crate) word: u32,
}

// How many steps it takes to compare two leaves.
const STEPS: usize = 4;

// The first word of the first argument.
const ARGUMENTS: u8 = 4;

impl Leaf {
    /// The numbers of a word.
    pub(crate) fn cell(&self, word: u8) -> Cell {
        self.cells.get(word as usize).copied().unwrap_or(Cell::ALL)
    }

    /// Whether a number of an argument is one of those of the leaf.
    pub(crate) fn has(&self, index: u8, number: u64) -> bool {
        let (low, high) = words_of(index);
        let (below, above) = halves(number);
        self.cell(low).contains(below) && self.cell(high).contains(above)
    }

    /// The leaf's records, with these numbers of a word in place of its own.
    pub(crate) fn with(&self, word: u8, cell: Cell) -> Leaf {
        let mut leaf = *self;
        if let Some(own) = leaf.cells.get_mut(word as usize) {
            *own = cell;
        }
        leaf
    }

    // Whether some records are of both, or are so in all words but one. The words of arguments tell most leaves apart.
    fn meets_but(&self, other: &Leaf, word: Option<u8>) -> bool {
        for step in 0..16u8 {
            let at = ARGUMENTS.wrapping_add(step) % 16;
            if word != Some(at) && !self.cell(at).meets_cell(other.cell(at)) {
                return false;
            }
        }
        true
    }
}

/// Two words as a number of 64 bits, the low one first.
pub(crate) fn wide(low: u32, high: u32) -> u64 {
    (u64::from(high) << 32) | u64::from(low)
}

// The words of a record of a leaf that is, if there is one, of another leaf too in all words but one.
fn common_words(leaf: &Leaf, other: &Leaf, but: u8) -> [u32; 16] {
    let mut words = [0u32; 16];
    for at in 0..16u8 {
        let cell = if at == but {
            leaf.cell(at)
        } else {
            other.cell(at)
        };
        if let Some(word) = words.get_mut(at as usize) {
            *word = leaf.cell(at).least_common(cell).unwrap_or(0);
        }
    }
    words
}

// The arguments in the words of a record.
fn args_in(words: &[u32; 16]) -> [u64; 6] {
    [
        wide(words[4], words[5]),
        wide(words[6], words[7]),
        wide(words[8], words[9]),
        wide(words[10], words[11]),
        wide(words[12], words[13]),
        wide(words[14], words[15]),
    ]
}

// The record of these fields.
fn record_with(nr: u32, arch: u32, ip: u64, args: [u64; 6]) -> Record {
    Record { nr, arch, ip, args }
}

// The record that has these words.
fn record_in(words: &[u32; 16]) -> Record {
    record_with(words[0], words[1], wide(words[2], words[3]), args_in(words))
}

// A record of a leaf that is, if there is one, of another leaf too in all words but one.
fn common_record(leaf: &Leaf, other: &Leaf, but: u8) -> Record {
    record_in(&common_words(leaf, other, but))
}

/// A record of a leaf.
pub(crate) fn record_of(leaf: &Leaf) -> Record {
    common_record(leaf, leaf, 0)
}

// A leaf with another verdict that has records which differ from some of a leaf in one word alone.
fn other_verdict(leaves: &[Leaf], leaf: &Leaf, word: u8) -> Option<Leaf> {
    leaves.iter().copied().find(|other| other.word != leaf.word
        && leaf.meets_but(other, Some(word)))
}

/// Two records that differ in one word alone, and end with unlike verdicts.
pub(crate) fn apart(
    work: &mut Work,
    leaves: &[Leaf],
    word: u8,
) -> Result<Option<(Record, Record)>, Stopped> {
    for leaf in leaves {
        work.spend_each(leaves.len(), STEPS)?;
        if let Some(other) = other_verdict(leaves, leaf, word) {
            let one = common_record(leaf, &other, word);
            return Ok(Some((one, common_record(&other, leaf, word))));
        }
    }
    Ok(None)
}

/// Whether all records that are of both lists end with one verdict.
pub(crate) fn say_the_same(
    work: &mut Work,
    some: &[Leaf],
    others: &[Leaf],
) -> Result<bool, Stopped> {
    for leaf in some {
        work.spend_each(others.len(), STEPS)?;
        if others.iter().any(|other| leaf.word != other.word && leaf.meets_but(other, None)) {
            return Ok(false);
        }
    }
    Ok(true)
}

/// Adds a leaf that is not there yet.
pub(crate) fn push_leaf(work: &mut Work, found: &mut Vec<Leaf>, leaf: Leaf) -> Result<(), Stopped> {
    work.spend_each(found.len(), STEPS)?;
    if !found.iter().any(|other| *other == leaf) {
        found.push(leaf)?;
    }
    Ok(())
}

/// The leaves with a 0 in a word on which no verdict depends, with these numbers in it.
pub(crate) fn settled(
    alloc: Global,
    work: &mut Work,
    leaves: &[Leaf],
    word: u8,
    cell: Cell,
) -> Result<Vec<Leaf>, Stopped> {
    let mut found = Vec::new(alloc);
    if leaves.iter().all(|leaf| leaf.cell(word) == cell) {
        found.extend_from_slice(leaves)?;
        return Ok(found);
    }
    for leaf in leaves {
        if leaf.cell(word).contains(0) {
            push_leaf(work, &mut found, leaf.with(word, cell))?;
        }
    }
    Ok(found)
}
