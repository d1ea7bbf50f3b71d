//! What decides calls of which rules ask for arguments, as blocks.
//!
//! A block asks for bits of one word. It goes on at a verdict or at another block: the range that has the number of these bits
//! decides. So what is known of a word is used by all rules, and what a failed half leaves of them is a block as well. Where
//! the same is left to ask, it is the same block, whichever calls and machines come to it.
ghost use Rattle.std.specs.Prelude.{◌≡◌, ◌≤◌, ◌<◌, ◌^◌, ◌++◌, ◌∷◌, ◌⊎◌, [], None, take, drop, length, vec_len, All, IfOk, IfSome, IsSome, IsTrue, OnOk};
ghost use Rattle.rule_compile.specs.inner.Built.{IsFoundAt, IsKept};
ghost use Rattle.rule_compile.specs.inner.Left.{AreRules, AsksFor, weight};
ghost use Rattle.rule_compile.specs.inner.Runs.{IsBefore};
ghost use Rattle.rule_compile.specs.inner.Stands.{AreRanged, AreSound, HasMore, IsFound};

use crate::asked::{Open, Rest, are_alike};
use crate::index::{Index, key_of};
use crate::known::Known;
use crate::measures::cost_of;
use crate::outline::{Block, Call, Outline};
use crate::question::Subject;
use crate::ranges::{Leaf, Ranges};
use crate::remaining::left;
use crate::starts::{end_of, starts_of, subject_of};
use bpf_insn::MAX_INSNS;
use std::alloc::{AllocError, Global};

/// Blocks. Each goes on at blocks before it.
#[derive(Drop)]
pub(crate) struct Blocks {
    pub(crate) blocks: Vec<Block>,
    index: Index,
    // The calls that they decide, and the questions of which these are known.
    pub(crate) calls: Vec<Call>,
    pub(crate) known: Vec<Known>,
    /// How many ranges may be looked at, until the rules are no more asked all at once; none: as many as there are.
    pub(crate) room: Option<usize>,
}

impl Blocks {
    /// No blocks.
    pub(crate) fn new(alloc: Global) -> Blocks
        ensures none { vec_len result.blocks ≡ 0 }
        ensures no_call { result.calls.items ≡ [] }
        ensures sound { AreSound result }
    {
        Blocks {
            blocks: Vec::new(alloc),
            index: Index::new(alloc),
            calls: Vec::new(alloc),
            known: Vec::new(alloc),
            room: None,
        }
    }

    /// The blocks, and the calls that they decide.
    pub(crate) fn into_outline(self) -> Outline
        ensures blocks { result.blocks.items ≡ self.blocks.items }
        ensures calls { result.calls.items ≡ self.calls.items }
    {
        let Blocks {
            blocks,
            index: _,
            calls,
            known: _,
            room: _,
        } = self;
        Outline { blocks, calls }
    }

    /// How many ranges the blocks have from a place on.
    pub(crate) fn ranges_from(&self, place: usize) -> usize {
        let mut count = 0usize;
        for block in self.blocks.iter().skip(place) {
            count = count.saturating_add(block.ranges.len());
        }
        count
    }

    /// Takes the blocks out from a place on.
    pub(crate) fn set_aside(&mut self, place: usize) -> Result<Vec<Block>, AllocError>
        requires { place ≤ vec_len self.old.blocks }
        ensures kept { OnOk result (self.new.blocks.items ≡ take place self.old.blocks.items) }
        ensures aside { IfOk result (λ aside. aside.items ≡ drop place self.old.blocks.items) }
        ensures known { OnOk result (self.new.known.items ≡ self.old.known.items) }
        ensures calls { OnOk result (self.new.calls.items ≡ self.old.calls.items) }
    {
        let aside = self.blocks.split_off(place)?;
        self.index.forget(aside.len());
        Ok(aside)
    }

    /// Drops the blocks from a place on.
    pub(crate) fn drop_from(&mut self, place: usize)
        ensures kept { self.new.blocks.items ≡ take place self.old.blocks.items }
        ensures known { self.new.known.items ≡ self.old.known.items }
        ensures calls { self.new.calls.items ≡ self.old.calls.items }
    {
        self.index.forget(self.blocks.len().saturating_sub(place));
        self.blocks.truncate(place);
    }

    /// Puts blocks back that were taken out.
    pub(crate) fn put_back(
        &mut self,
        alloc: Global,
        mut aside: Vec<Block>,
    ) -> Result<(), AllocError>
        ensures blocks { OnOk result (self.new.blocks.items ≡ self.old.blocks.items ++ aside.items) }
        ensures known { OnOk result (self.new.known.items ≡ self.old.known.items) }
        ensures calls { OnOk result (self.new.calls.items ≡ self.old.calls.items) }
    {
        self.index.push_all(alloc, &aside)?;
        self.blocks.append(&mut aside)?;
        Ok(())
    }

    /// The block that looks at all questions for the same bits at once, unless it is too long.
    #[cycle(decide)]
    pub(crate) fn decide(
        &mut self,
        alloc: Global,
        rules: &[Open],
        other: &Leaf,
        steps: usize,
    ) -> Result<Option<Leaf>, AllocError>
        requires steps { weight rules.now ≤ steps }
        requires sound { AreSound self.old }
        requires rules { AreRules rules.now }
        requires other { IsBefore (vec_len self.old.blocks) other.now }
        ensures sound { OnOk result (AreSound self.new) }
        ensures more { OnOk result (HasMore self.old.blocks.items self.new.blocks.items) }
        ensures known { OnOk result (self.new.known.items ≡ self.old.known.items) }
        ensures calls { OnOk result (self.new.calls.items ≡ self.old.calls.items) }
        ensures found { IfOk result (λ leaf. IfSome leaf (IsFound self.new.blocks.items rules.now other.now)) }
        ensures always { self.old.room ≡ None → IfOk result IsSome }
        ensures room { self.old.room ≡ None → OnOk result (self.new.room ≡ None) }
    {
        let Some(subject) = subject_of(rules) else {
            return Ok(Some(*other));
        };
        if let Some(block) = self.find(rules, other) {
            return Ok(Some(Leaf::Block(block)));
        }
        let starts = starts_of(alloc, rules, subject)?;
        if !self.has_room(cost_of(rules, starts.len())) {
            return Ok(None);
        }
        let mut ranges = Ranges::new(alloc);
        for (place, start) in starts.iter().enumerate() {
            let Some(leaf) = self.leaf_at(alloc, rules, other, steps, subject, *start)? else {
                return Ok(None);
            };
            ranges.add(subject, end_of(&starts, place), leaf)?;
        }
        Ok(Some(self.push(alloc, subject, ranges, rules, other)?))
    }

    // What decides where these bits are this number.
    #[cycle(decide)]
    fn leaf_at(
        &mut self,
        alloc: Global,
        rules: &[Open],
        other: &Leaf,
        steps: usize,
        subject: Subject,
        start: u32,
    ) -> Result<Option<Leaf>, AllocError>
        requires steps { weight rules.now ≤ steps }
        requires asks { AsksFor rules.now subject }
        requires sound { AreSound self.old }
        requires rules { AreRules rules.now }
        requires other { IsBefore (vec_len self.old.blocks) other.now }
        ensures sound { OnOk result (AreSound self.new) }
        ensures more { OnOk result (HasMore self.old.blocks.items self.new.blocks.items) }
        ensures known { OnOk result (self.new.known.items ≡ self.old.known.items) }
        ensures calls { OnOk result (self.new.calls.items ≡ self.old.calls.items) }
        ensures found { IfOk result (λ leaf. IfSome leaf (IsFoundAt self.new.blocks.items rules.now other.now subject start)) }
        ensures always { self.old.room ≡ None → IfOk result IsSome }
        ensures room { self.old.room ≡ None → OnOk result (self.new.room ≡ None) }
    {
        match left(alloc, rules, subject, start)? {
            Rest::Met(_, word) => Ok(Some(Leaf::Verdict(word))),
            Rest::Open(open) => self.decide(alloc, &open, other, steps - 1),
        }
    }

    // Whether so many ranges more may be looked at: then they count as looked at. Each block takes an instruction at least, so with more
    // blocks than a filter has instructions the plan is too long. One up to twice as long might still be shortened; that is given up.
    fn has_room(&mut self, count: usize) -> bool
        ensures blocks { self.new.blocks.items ≡ self.old.blocks.items }
        ensures known { self.new.known.items ≡ self.old.known.items }
        ensures calls { self.new.calls.items ≡ self.old.calls.items }
        ensures none { self.old.room ≡ None → (IsTrue result × (self.new.room ≡ None)) }
    {
        let Some(room) = self.room else {
            return true;
        };
        if count > room || self.blocks.len() > MAX_INSNS {
            return false;
        }
        self.room = Some(room - count);
        true
    }

    // Adds a block, unless it always goes on alike.
    fn push(
        &mut self,
        alloc: Global,
        subject: Subject,
        ranges: Ranges,
        rules: &[Open],
        other: &Leaf,
    ) -> Result<Leaf, AllocError>
        requires sound { AreSound self.old }
        requires other { IsBefore (vec_len self.old.blocks) other.now }
        requires rules { AreRules rules.now }
        requires asks { AsksFor rules.now subject }
        requires ranged { AreRanged self.old.blocks.items rules.now other.now subject ranges.ranges.items (2 ^ 32) }
        ensures sound { OnOk result (AreSound self.new) }
        ensures more { OnOk result (HasMore self.old.blocks.items self.new.blocks.items) }
        ensures known { OnOk result (self.new.known.items ≡ self.old.known.items) }
        ensures calls { OnOk result (self.new.calls.items ≡ self.old.calls.items) }
        ensures found { IfOk result (IsFound self.new.blocks.items rules.now other.now) }
        ensures room { OnOk result (self.new.room ≡ self.old.room) }
    {
        let ranges = ranges.into_vec();
        if let [only] = ranges.as_slice() {
            return Ok(only.leaf);
        }
        let block = self.blocks.len();
        let rules = Vec::from_slice(alloc, rules)?;
        let other = *other;
        self.put(
            alloc,
            Block {
                subject,
                ranges,
                rules,
                other,
            },
        )?;
        Ok(Leaf::Block(block))
    }

    // Adds a block.
    fn put(&mut self, alloc: Global, block: Block) -> Result<(), AllocError>
        ensures blocks { OnOk result (self.new.blocks.items ≡ self.old.blocks.items ++ block ∷ []) }
        ensures known { OnOk result (self.new.known.items ≡ self.old.known.items) }
        ensures calls { OnOk result (self.new.calls.items ≡ self.old.calls.items) }
        ensures room { OnOk result (self.new.room ≡ self.old.room) }
    {
        self.index.push(alloc, key_of(&block.rules, &block.other))?;
        self.blocks.push(block)?;
        Ok(())
    }

    // Whether the block stands for this, which has this key.
    fn stands_for(&self, place: usize, key: u32, rules: &[Open], other: &Leaf) -> bool
        ensures { IsTrue result → IsKept self.now.blocks.items rules.now other.now place }
    {
        if !self.index.has_key(place, key) {
            return false;
        }
        let Some(block) = self.blocks.get(place) else {
            return false;
        };
        if !block.other.is_like(other) {
            return false;
        }
        are_alike(&block.rules, rules)
    }

    // The block that stands for this.
    fn find(&self, rules: &[Open], other: &Leaf) -> Option<usize>
        ensures { IfSome result (IsKept self.now.blocks.items rules.now other.now) }
    {
        let key = key_of(rules, other);
        let mut place = self.index.last(key);
        for _ in 0..self.blocks.len() {
            let found = place?;
            if self.stands_for(found, key, rules, other) {
                return Some(found);
            }
            place = self.index.before(found);
        }
        None
    }
}
