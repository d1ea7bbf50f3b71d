//! Blocks that ask for bits of one word, put together.
//!
//! Conditions under several masks may say together that bits are not one number, or that the word is in a range. One comparison
//! or two tell it. Before the blocks are put together, block after block asks for the bits of one mask. Nothing is proved of
//! what comes of it: who takes it has it checked.

use crate::outline::Block;
use crate::question::Subject;
use crate::ranges::{Leaf, Range, range_at};
use std::alloc::{AllocError, Global};

/// A way to go on: at one leaf if bits are a number, and else at the other.
#[derive(Clone, Copy)]
struct Step {
    subject: Subject,
    number: u32,
    on: Leaf,
    off: Leaf,
}

/// The ways of a block: two if it asks for one bit.
#[derive(Clone, Copy)]
struct Steps {
    first: Option<Step>,
    second: Option<Step>,
}

/// What is written of a block.
#[derive(Drop)]
pub(crate) struct Merged {
    pub(crate) subject: Subject,
    pub(crate) ranges: Vec<Range>,
}

impl Steps {
    const NONE: Steps = Steps {
        first: None,
        second: None,
    };
}

impl Step {
    fn of(subject: Subject, number: u32, on: &Leaf, off: &Leaf) -> Step {
        Step {
            subject,
            number,
            on: *on,
            off: *off,
        }
    }

    // Both, if this one goes on at the other: the bits of both are then asked for at once.
    fn and(&self, next: &Step) -> Option<Step> {
        let (own, other) = (self.subject, next.subject);
        let common = own.mask & other.mask;
        if own.word != other.word || !self.off.is_like(&next.off) {
            return None;
        }
        if self.number & common != next.number & common {
            return None;
        }
        let subject = Subject {
            word: own.word,
            mask: own.mask | other.mask,
        };
        let number = self.number | next.number;
        Some(Step::of(subject, number, &next.on, &self.off))
    }

    // Both this step and a step of the block that it goes on at, the first that can be put together with it.
    fn joined(&self, all: &[Steps]) -> Option<Step> {
        let Leaf::Block(block) = self.on else {
            return None;
        };
        let next = all.get(block)?;
        if let Some(other) = &next.first
            && let Some(both) = self.and(other)
        {
            return Some(both);
        }
        match &next.second {
            Some(other) => self.and(other),
            None => None,
        }
    }

    // The ranges of the bits.
    fn ranges(&self, alloc: Global) -> Result<Vec<Range>, AllocError> {
        let mut ranges = Vec::new(alloc);
        if let Some(last) = self.number.checked_sub(1) {
            add(&mut ranges, 0, last, &self.off)?;
        }
        add(&mut ranges, self.number, self.number, &self.on)?;
        if let Some(first) = self.number.checked_add(1) {
            add(&mut ranges, first, u32::MAX, &self.off)?;
        }
        Ok(ranges)
    }
}

// Adds a range behind others, as a part of the last one if both are decided alike.
fn add(ranges: &mut Vec<Range>, first: u32, last: u32, leaf: &Leaf) -> Result<(), AllocError> {
    if let Some(before) = ranges.last_mut()
        && before.leaf.is_like(leaf)
    {
        before.last = last;
        return Ok(());
    }
    let leaf = *leaf;
    ranges.push(Range { first, last, leaf })?;
    Ok(())
}

// The ways of a block that asks for one bit: it is unset, or set.
fn steps_by_bit(subject: Subject, ranges: &[Range]) -> Steps {
    let (Some(unset), Some(set)) = (range_at(ranges, 0), range_at(ranges, subject.mask)) else {
        return Steps::NONE;
    };
    Steps {
        first: Some(Step::of(subject, 0, &unset.leaf, &set.leaf)),
        second: Some(Step::of(subject, subject.mask, &set.leaf, &unset.leaf)),
    }
}

// The way of a block that goes on at one leaf but for one number.
fn step_by_number(subject: Subject, ranges: &[Range]) -> Option<Step> {
    let rest = ranges.last()?;
    let mut found = None;
    for range in ranges {
        if !range.is_like(rest) {
            if found.is_some() || !range.is_single() {
                return None;
            }
            found = Some(*range);
        }
    }
    let only = found?;
    Some(Step::of(subject, only.first, &only.leaf, &rest.leaf))
}

fn steps_of(block: &Block) -> Steps {
    let subject = block.subject;
    if subject.mask.is_power_of_two() {
        return steps_by_bit(subject, &block.ranges);
    }
    Steps {
        first: step_by_number(subject, &block.ranges),
        second: None,
    }
}

// A way, put together with the next one if that is possible; and whether it is.
fn joined(step: Option<Step>, all: &[Steps]) -> (Option<Step>, bool) {
    let Some(own) = step else {
        return (None, false);
    };
    match own.joined(all) {
        Some(both) => (Some(both), true),
        None => (Some(own), false),
    }
}

/// The numbers of a whole word, and what decides them.
#[derive(Drop)]
struct Words {
    word: u32,
    ranges: Vec<Range>,
}

// The ranges of the whole word, if a mask has all bits from one on.
fn widened(alloc: Global, subject: Subject, ranges: &[Range]) -> Result<Option<Words>, AllocError> {
    let Subject { word, mask } = subject;
    let below = mask ^ u32::MAX;
    if below & below.wrapping_add(1) != 0 {
        return Ok(None);
    }
    let mut all = Vec::new(alloc);
    let mut next = Some(0);
    for range in ranges {
        let last = (range.last & mask) | below;
        if let Some(first) = next
            && first <= last
        {
            add(&mut all, first, last, &range.leaf)?;
            next = last.checked_add(1);
        }
    }
    Ok(Some(Words { word, ranges: all }))
}

// Adds what of some ranges lies between two numbers.
fn add_within(
    all: &mut Vec<Range>,
    pieces: &[Range],
    first: u32,
    last: u32,
) -> Result<(), AllocError> {
    for piece in pieces {
        let (from, to) = (piece.first.max(first), piece.last.min(last));
        if from <= to {
            add(all, from, to, &piece.leaf)?;
        }
    }
    Ok(())
}

// The ranges of a whole word. A range that goes on at a block of the same word is replaced by the ranges of this block. Also
// returns whether there is such a range.
fn composed(
    alloc: Global,
    own: &Words,
    all: &[Option<Words>],
) -> Result<(Words, bool), AllocError> {
    let (mut ranges, mut changed) = (Vec::new(alloc), false);
    for range in &own.ranges {
        match next_of(&range.leaf, own.word, all) {
            Some(next) => {
                add_within(&mut ranges, &next.ranges, range.first, range.last)?;
                changed = true;
            }
            None => add(&mut ranges, range.first, range.last, &range.leaf)?,
        }
    }
    let word = own.word;
    Ok((Words { word, ranges }, changed))
}

// The ranges of a block, if they are those of this word.
fn next_of<'a>(leaf: &Leaf, word: u32, all: &'a [Option<Words>]) -> Option<&'a Words> {
    let Leaf::Block(block) = leaf else {
        return None;
    };
    match all.get(*block) {
        Some(Some(next)) if next.word == word => Some(next),
        _ => None,
    }
}

/// The blocks that were looked at: how each goes on, and what is written of it.
#[derive(Drop)]
struct Merging {
    steps: Vec<Steps>,
    words: Vec<Option<Words>>,
    merged: Vec<Merged>,
    changed: bool,
}

impl Merging {
    fn new(alloc: Global) -> Merging {
        Merging {
            steps: Vec::new(alloc),
            words: Vec::new(alloc),
            merged: Vec::new(alloc),
            changed: false,
        }
    }

    // What a block asks for once its ways are put together with those of blocks before it.
    fn by_steps(&mut self, alloc: Global, block: &Block) -> Result<Merged, AllocError> {
        let Steps { first, second } = steps_of(block);
        let (first, is_first) = joined(first, &self.steps);
        let (second, is_second) = joined(second, &self.steps);
        self.steps.push(Steps { first, second })?;
        let found = if is_first { first } else { second };
        if let Some(step) = found
            && (is_first || is_second)
        {
            self.changed = true;
            return Ok(Merged {
                subject: step.subject,
                ranges: step.ranges(alloc)?,
            });
        }
        Ok(Merged {
            subject: block.subject,
            ranges: Vec::from_slice(alloc, &block.ranges)?,
        })
    }

    // Makes what is written of a block a search of the whole word, if blocks of the same word are behind it. Answers the ranges of
    // the whole word.
    fn compose(&mut self, alloc: Global, own: &mut Merged) -> Result<Option<Words>, AllocError> {
        let Some(words) = widened(alloc, own.subject, &own.ranges)? else {
            return Ok(None);
        };
        let (whole, is_changed) = composed(alloc, &words, &self.words)?;
        if is_changed {
            self.changed = true;
            own.subject = Subject {
                word: whole.word,
                mask: u32::MAX,
            };
            own.ranges = Vec::from_slice(alloc, &whole.ranges)?;
        }
        Ok(Some(whole))
    }

    // Adds what is written of a block.
    fn add(&mut self, alloc: Global, block: &Block) -> Result<(), AllocError> {
        let mut own = self.by_steps(alloc, block)?;
        let whole = self.compose(alloc, &mut own)?;
        self.merged.push(own)?;
        self.words.push(whole)?;
        Ok(())
    }
}

// Whether a block goes on at one that asks for other bits of the same word.
fn is_followed(block: &Block, blocks: &[Block]) -> bool {
    for range in &block.ranges {
        if let Leaf::Block(place) = range.leaf
            && let Some(next) = blocks.get(place)
            && next.subject.word == block.subject.word
        {
            return true;
        }
    }
    false
}

/// Whether some of these blocks may be put together.
pub(crate) fn can_merge(blocks: &[Block]) -> bool {
    for block in blocks {
        if is_followed(block, blocks) {
            return true;
        }
    }
    false
}

/// What is written of blocks, of which some are put together; none, if there are no such.
pub(crate) fn merge(alloc: Global, blocks: &[Block]) -> Result<Option<Vec<Merged>>, AllocError> {
    if !can_merge(blocks) {
        return Ok(None);
    }
    let mut merging = Merging::new(alloc);
    for block in blocks {
        merging.add(alloc, block)?;
    }
    let Merging {
        steps: _,
        words: _,
        merged,
        changed,
    } = merging;
    if changed { Ok(Some(merged)) } else { Ok(None) }
}

/// Marks the blocks that ranges go on at.
pub(crate) fn mark(needed: &mut [bool], ranges: &[Range]) {
    for range in ranges {
        if let Leaf::Block(place) = range.leaf
            && let Some(found) = needed.get_mut(place)
        {
            *found = true;
        }
    }
}

/// Marks the blocks that marked ones go on at.
pub(crate) fn mark_next(needed: &mut [bool], merged: &[Merged]) {
    let mut place = merged.len();
    for block in merged.iter().rev() {
        place = place.saturating_sub(1);
        if let Some(true) = needed.get(place) {
            mark(needed, &block.ranges);
        }
    }
}
