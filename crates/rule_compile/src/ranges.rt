//! What decides the calls of one machine, as ranges of call numbers.
ghost use Rattle.std.specs.Prelude.{◌≡◌, ◌↔◌, ◌≤◌, ◌<◌, ◌^◌, [], length, max, vec_len, All, IfOk, IfSome, IsSome, IsTrue, OnOk};
ghost use Rattle.std.specs.Prelude.{ℕ};
ghost use Rattle.machines.specs.Arch.{token_of};
ghost use Rattle.profile.specs.Policy.{IsClear};
ghost use Rattle.rule_compile.specs.Decides.{Tiles};
ghost use Rattle.rule_compile.specs.Shape.{IsPlain};
ghost use Rattle.rule_compile.specs.inner.Numbers.{AreOwn, AreUnconditional, HasVerdict, IsExtended, IsLastAlike, IsListed, IsNext, LeafFor, Reached, said_of};
ghost use Rattle.rule_compile.specs.inner.Noted.{AreCalls, NotesNumber};
ghost use Rattle.rule_compile.specs.inner.Ranges.{IsLike};
ghost use Rattle.rule_compile.specs.inner.Runs.{AreBefore, IsBefore};
ghost use Rattle.rule_compile.specs.inner.Stands.{AreSound, AreThose, DecidesCalls, DecidesNumber, HasMore, HaveNoCondition, IsLeafOf};
ghost use Rattle.rule_compile.specs.inner.Told.{ToldSoFar};

use crate::asked::Placed;
use crate::blocks::Blocks;
use crate::question::Subject;
use call_record::Word;
use machines::Arch;
use profile::{Profile, Rule, foreign_numbers};
use std::alloc::{AllocError, Global};

/// What decides a call.
#[derive(Clone, Copy, PartialEq, Eq)]
pub enum Leaf {
    /// It gets this verdict.
    Verdict(Word),
    /// The block at this place decides, by the arguments.
    Block(usize),
}

impl Leaf {
    // What decides the calls of a number, by the rules for it, where it is a verdict. Where one of them has
    // no conditions, the others that match have its verdict, since no record matches two rules with unlike
    // verdicts.
    fn of(own: &[Placed<'_>], default: Word) -> Option<Leaf>
        ensures leaf { IfSome result (IsLeafOf own.now default) }
        ensures some { HaveNoCondition own.now → IsSome result }
    {
        let mut conditions = false;
        for placed in own {
            if placed.rule.conds.is_empty() {
                return Some(Leaf::Verdict(placed.rule.word));
            }
            if placed.rule.word != default {
                conditions = true;
            }
        }
        if conditions {
            return None;
        }
        Some(Leaf::Verdict(default))
    }

    // Whether each call gets the verdict.
    fn is_verdict(&self, word: Word) -> bool
        ensures { IsTrue result ↔ (self.now ≡ Leaf.Verdict word) }
    {
        match self {
            Leaf::Verdict(own) => *own == word,
            Leaf::Block(_) => false,
        }
    }

    // Whether the block decides.
    fn is_block(&self, block: usize) -> bool
        ensures { IsTrue result ↔ (self.now ≡ Leaf.Block block) }
    {
        match self {
            Leaf::Verdict(_) => false,
            Leaf::Block(own) => *own == block,
        }
    }

    /// Whether both decide alike.
    pub fn is_like(&self, other: &Leaf) -> bool
        ensures { IsTrue result ↔ (self.now ≡ other.now) }
    {
        match other {
            Leaf::Verdict(word) => self.is_verdict(*word),
            Leaf::Block(block) => self.is_block(*block),
        }
    }
}

/// Neighbouring numbers that are decided alike.
#[derive(Clone, Copy)]
pub struct Range {
    pub first: u32,
    pub last: u32,
    pub leaf: Leaf,
}

impl Range {
    /// Whether the calls of both are decided alike.
    pub(crate) fn is_like(&self, other: &Range) -> bool
        ensures { IsTrue result ↔ IsLike self.now other.now }
    {
        self.leaf.is_like(&other.leaf)
    }

    /// Whether the range is one number.
    pub(crate) fn is_single(&self) -> bool
        ensures { IsTrue result ↔ (self.now.first ≡ self.now.last) }
    {
        self.first == self.last
    }
}

/// The place of the range that has a number, of ranges that have all numbers.
pub(crate) fn place_of(ranges: &[Range], number: u32) -> usize {
    ranges.partition_point(|range| range.last < number)
}

/// The range that has a number, of ranges that have all numbers.
pub(crate) fn range_at(ranges: &[Range], number: u32) -> Option<Range> {
    match ranges.get(place_of(ranges, number)) {
        Some(range) => Some(*range),
        None => None,
    }
}

/// How many call numbers there are: they are words of 32 bits.
const NUMBERS: u64 = 1 << 32;

/// Ranges from number 0 on.
#[derive(Drop)]
pub(crate) struct Ranges {
    ranges: Vec<Range>,
    /// The least number that is in none of them.
    end: u64,
}

impl Ranges {
    /// No ranges.
    pub(crate) fn new(alloc: Global) -> Ranges
        ensures ranges { result.ranges.items ≡ [] }
        ensures end { result.end ≡ 0 }
    {
        Ranges {
            ranges: Vec::new(alloc),
            end: 0,
        }
    }

    // The first number of the last range, where this is decided as the next one.
    fn first_alike(&self, next: &Range) -> Option<u32>
        ensures { IfSome result (IsLastAlike self.now.ranges.items next.now.leaf) }
    {
        let before = self.ranges.last()?;
        if before.leaf.is_like(&next.leaf) {
            return Some(before.first);
        }
        None
    }

    /// Adds the numbers up to an end, if any of them are missing. They go to the last range if they are decided alike, and else
    /// are a range of their own.
    pub(crate) fn extend(&mut self, end: u64, leaf: Leaf) -> Result<(), AllocError>
        requires { end ≤ 2 ^ 32 }
        ensures end { OnOk result (self.new.end ≡ max self.old.end end) }
        ensures extended { OnOk result (IsExtended self.old.ranges.items self.old.end end leaf self.new.ranges.items) }
    {
        if end <= self.end {
            return Ok(());
        }
        let first = self.end as u32;
        let last = (end - 1) as u32;
        let mut range = Range { first, last, leaf };
        if let Some(first) = self.first_alike(&range) {
            self.ranges.pop();
            range.first = first;
            self.ranges.push(range)?;
            self.end = end;
            return Ok(());
        }
        self.ranges.push(range)?;
        self.end = end;
        Ok(())
    }

    /// Adds the numbers of some bits up to an end, where any of them are missing. Of bits under a mask each range is one of its own.
    pub(crate) fn add(&mut self, subject: Subject, end: u64, leaf: Leaf) -> Result<(), AllocError>
        requires { end ≤ 2 ^ 32 }
        ensures end { OnOk result (self.new.end ≡ max self.old.end end) }
        ensures extended { OnOk result (IsExtended self.old.ranges.items self.old.end end leaf self.new.ranges.items) }
    {
        if subject.mask == u32::MAX {
            return self.extend(end, leaf);
        }
        self.push(end, leaf)
    }

    // Adds the numbers up to an end, where any of them are missing, as a range of their own.
    fn push(&mut self, end: u64, leaf: Leaf) -> Result<(), AllocError>
        requires { end ≤ 2 ^ 32 }
        ensures end { OnOk result (self.new.end ≡ max self.old.end end) }
        ensures extended { OnOk result (IsExtended self.old.ranges.items self.old.end end leaf self.new.ranges.items) }
    {
        if end > self.end {
            let first = self.end as u32;
            let last = (end - 1) as u32;
            self.ranges.push(Range { first, last, leaf })?;
            self.end = end;
        }
        Ok(())
    }

    /// The ranges in order.
    pub(crate) fn into_vec(self) -> Vec<Range>
        ensures { result.items ≡ self.ranges.items }
    {
        let Ranges { ranges, end: _ } = self;
        ranges
    }

    // Adds the numbers up to an end that are missing, of which none is foreign.
    fn add_own(
        &mut self,
        alloc: Global,
        profile: &Profile,
        machine: Arch,
        end: u64,
        blocks: &mut Blocks,
    ) -> Result<(), AllocError>
        requires upto { self.old.end ≤ end }
        requires small { end ≤ 2 ^ 32 }
        requires own { AreOwn profile.now machine self.old.end end }
        requires sound { AreSound blocks.old }
        ensures sound { OnOk result (AreSound blocks.new) }
        ensures more { OnOk result (HasMore blocks.old.blocks.items blocks.new.blocks.items) }
        ensures told { ToldSoFar profile.now machine blocks.old.blocks.items self.old.end self.old.ranges.items → OnOk result (ToldSoFar profile.now machine blocks.new.blocks.items self.new.end self.new.ranges.items) }
        ensures end { OnOk result (self.new.end ≡ end) }
        ensures calls { IsListed profile.now machine → AreCalls profile.now blocks.old → OnOk result (AreCalls profile.now blocks.new) }
        ensures no_block { IsPlain profile.now → OnOk result (blocks.new ≡ blocks.old) }
        ensures reached { (most : ℕ) → 513 ≤ most → Reached profile.now machine most end self.old.end self.old.ranges.items → OnOk result (Reached profile.now machine most end end self.new.ranges.items) }
    {
        'own: while self.end < end {
            self.add_next(alloc, profile, machine, end, blocks)?;
        }
        Ok(())
    }

    // Adds the numbers up to the next one that has a rule, and that one, or all up to the end.
    fn add_next(
        &mut self,
        alloc: Global,
        profile: &Profile,
        machine: Arch,
        end: u64,
        blocks: &mut Blocks,
    ) -> Result<(), AllocError>
        requires before { self.old.end < end }
        requires small { end ≤ 2 ^ 32 }
        requires own { AreOwn profile.now machine self.old.end end }
        requires sound { AreSound blocks.old }
        ensures sound { OnOk result (AreSound blocks.new) }
        ensures more { OnOk result (HasMore blocks.old.blocks.items blocks.new.blocks.items) }
        ensures told { ToldSoFar profile.now machine blocks.old.blocks.items self.old.end self.old.ranges.items → OnOk result (ToldSoFar profile.now machine blocks.new.blocks.items self.new.end self.new.ranges.items) }
        ensures further { OnOk result ((self.old.end < self.new.end) × (self.new.end ≤ end)) }
        ensures calls { IsListed profile.now machine → AreCalls profile.now blocks.old → OnOk result (AreCalls profile.now blocks.new) }
        ensures no_block { IsPlain profile.now → OnOk result (blocks.new ≡ blocks.old) }
        ensures reached { (most : ℕ) → 513 ≤ most → Reached profile.now machine most end self.old.end self.old.ranges.items → OnOk result (Reached profile.now machine most end self.new.end self.new.ranges.items) }
    {
        let token = machine.token();
        let default = profile.default_word();
        profile.rules();
        let next = next_of(profile, token, self.end, end);
        self.extend(next, Leaf::Verdict(default))?;
        if next == end {
            return Ok(());
        }
        let leaf = leaf_of(alloc, profile, token, next as u32, blocks)?;
        self.extend(next + 1, leaf)?;
        Ok(())
    }
}

// What decides the calls of a number of the machine with the token. The blocks that decide are added
// to the others.
fn leaf_of(
    alloc: Global,
    profile: &Profile,
    token: u32,
    number: u32,
    blocks: &mut Blocks,
) -> Result<Leaf, AllocError>
    requires sound { AreSound blocks.old }
    ensures sound { OnOk result (AreSound blocks.new) }
    ensures more { OnOk result (HasMore blocks.old.blocks.items blocks.new.blocks.items) }
    ensures before { IfOk result (IsBefore (vec_len blocks.new.blocks)) }
    ensures decides { IfOk result (DecidesNumber profile.now.rules token number profile.now.default_word blocks.new.blocks.items) }
    ensures no_block { AreUnconditional profile.now.rules → OnOk result (blocks.new ≡ blocks.old) }
    ensures verdict { AreUnconditional profile.now.rules → IfOk result (LeafFor profile.now.rules token number profile.now.default_word) }
    ensures notes { OnOk result (NotesNumber blocks.old blocks.new profile.now.rules token number profile.now.default_word) }
{
    let default = profile.default_word();
    let own = rules_for(alloc, profile, token, number)?;
    match Leaf::of(&own, default) {
        Some(leaf) => Ok(leaf),
        None => blocks.leaf_of(alloc, token, number, &own, default),
    }
}

// The rules for a number of the machine with the token, in order.
fn rules_for(
    alloc: Global,
    profile: &Profile,
    token: u32,
    number: u32,
) -> Result<Vec<Placed<'_>>, AllocError>
    ensures { IfOk result (λ own. AreThose profile.now.rules token number own.items) }
{
    let rules = profile.rules();
    let mut own = Vec::new(alloc);
    let mut next = profile.latest(token, number);
    while let Some(place) = next {
        let rule = &rules[place];
        own.push(Placed { place, rule })?;
        next = profile.earlier(place);
    }
    own.reverse();
    Ok(own)
}

/// All call numbers of the machine, in order. No two neighbouring ranges are decided alike. The blocks
/// that decide are added to the others.
pub(crate) fn ranges_of(
    alloc: Global,
    profile: &Profile,
    machine: Arch,
    blocks: &mut Blocks,
) -> Result<Vec<Range>, AllocError>
    requires clear { IsClear profile.now.rules }
    requires sound { AreSound blocks.old }
    ensures sound { OnOk result (AreSound blocks.new) }
    ensures more { OnOk result (HasMore blocks.old.blocks.items blocks.new.blocks.items) }
    ensures before { IfOk result (λ ranges. AreBefore (vec_len blocks.new.blocks) ranges.items) }
    ensures calls { IsListed profile.now machine → AreCalls profile.now blocks.old → OnOk result (AreCalls profile.now blocks.new) }
    ensures decides { IsListed profile.now machine → IfOk result (λ ranges. All (DecidesCalls profile.now (token_of machine) blocks.new.blocks.items) ranges.items) }
    ensures no_block { IsPlain profile.now → OnOk result (blocks.new ≡ blocks.old) }
    ensures tiled { IfOk result (λ ranges. Tiles 0 ranges.items (2 ^ 32)) }
    ensures some { IfOk result (λ ranges. 1 ≤ length ranges.items) }
    ensures few { IsPlain profile.now → IfOk result (λ ranges. length ranges.items ≤ 515) }
    ensures has_verdicts { IsPlain profile.now → IsListed profile.now machine → IfOk result (λ ranges. All (HasVerdict (said_of profile.now (token_of machine))) ranges.items) }
{
    let mut ranges = Ranges::new(alloc);
    for foreign in foreign_numbers(profile.machines(), machine) {
        ranges.add_own(alloc, profile, machine, u64::from(foreign.first), blocks)?;
        ranges.extend(
            u64::from(foreign.last) + 1,
            Leaf::Verdict(Word::KILL_THREAD),
        )?;
    }
    ranges.add_own(alloc, profile, machine, NUMBERS, blocks)?;
    Ok(ranges.ranges)
}

// The least number, from one on, that has a rule of the machine with the token, or else the end. Mostly it is the first one.
fn next_of(profile: &Profile, token: u32, from: u64, end: u64) -> u64
    requires before { from < end }
    requires small { end ≤ 2 ^ 32 }
    ensures { IsNext profile.now.rules token from end result }
{
    if profile.latest(token, from as u32).is_some() {
        return from;
    }
    next_number(profile.rules(), token, from, end)
}

// The least number, from one on, that has a rule of the machine with the token, or else the end. All rules are looked
// at.
fn next_number(rules: &[Rule], token: u32, from: u64, end: u64) -> u64
    requires { from ≤ end }
    ensures { IsNext rules.now token from end result }
{
    let mut next = end;
    for rule in rules {
        let number = u64::from(rule.nr);
        if number < next && is_after(rule, token, from) {
            next = number;
        }
    }
    next
}

// Whether the rule is for a number of the machine with the token, from one number on.
fn is_after(rule: &Rule, token: u32, from: u64) -> bool
    ensures { IsTrue result ↔ (from ≤ rule.now.nr) × (token_of rule.now.arch ≡ token) }
{
    from <= u64::from(rule.nr) && rule.arch.token() == token
}
