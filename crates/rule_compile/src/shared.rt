//! Filters in which searches for numbers share what they have in common.
//!
//! Machines with one token have one search (`folded`). Numbers that are decided alike on two machines stand once. Such are those from 424
//! on, which Linux gives out for all machines. Blocks that ask for bits of one word are put together (`merged`). Nothing is proved of such
//! a filter: who takes one has it checked.
ghost use Rattle.std.specs.Prelude.{◌↔◌, IfOk, IfSome, IsTrue, OnOk};
ghost use Rattle.profile.specs.Policy.{IsClear};
ghost use Rattle.rule_compile.specs.inner.Code.{Grows, IsTarget};
ghost use Rattle.rule_compile.specs.inner.Runs.{AreBefore, AreIn, IsBefore};
ghost use Rattle.rule_compile.specs.inner.Stands.{AreSound};

use crate::assembler::Assembler;
use crate::blocks::Blocks;
use crate::filter::Planned;
use crate::folded::{BIT, Folded, Pair};
use crate::label::{Exits, Target};
use crate::levels::{DEPTH, levels_of};
use crate::question::Subject;
use crate::ranges::{Leaf, Range, ranges_of};
use crate::runs::{longest_run, replaced};
use crate::search::{any_bit, decided, search};
use crate::together::write_together;
use crate::written::Written;
use bpf_insn::Test;
use call_record::Word;
use call_record::offset::{MACHINE, NUMBER};
use machines::Arch;
use profile::Profile;
use std::alloc::{AllocError, Global};

// The offset of no word: what is loaded counts as no whole word.
const NOTHING: u32 = u32::MAX;

// So many ranges are no longer worth to stand once.
const FEW: usize = 3;

/// How the numbers with a token are decided.
#[derive(Drop)]
pub(crate) struct Numbers {
    token: u32,
    /// Whether the number is searched for without the bit.
    is_folded: bool,
    pub(crate) ranges: Vec<Range>,
}

// Whether what decides is a verdict, or one of so many blocks.
fn is_before(leaf: &Leaf, count: usize) -> bool
    ensures { IsTrue result ↔ IsBefore count leaf.now }
{
    match leaf {
        Leaf::Verdict(_) => true,
        Leaf::Block(block) => *block < count,
    }
}

/// Whether each range is decided by a verdict, or by one of so many blocks.
pub(crate) fn are_before(ranges: &[Range], count: usize) -> bool
    ensures { IsTrue result ↔ AreBefore count ranges.now }
{
    ranges.iter().all(|range| is_before(&range.leaf, count))
}

/// Adds what stands at a target to the blocks that are written, and answers that it decides.
pub(crate) fn keep(
    code: &Assembler,
    written: &mut Vec<Written>,
    target: Target,
    height: usize,
) -> Result<Leaf, AllocError>
    requires placed { AreIn code.now written.old.items }
    requires target { IsTarget code.now target }
    ensures placed { OnOk result (AreIn code.now written.new.items) }
{
    let place = written.len();
    written.push(Written { target, height })?;
    Ok(Leaf::Block(place))
}

// Writes the block of a pair, which asks for the bit.
fn write_pair(
    code: &mut Assembler,
    written: &mut Vec<Written>,
    pair: &Pair,
) -> Result<(), AllocError>
    requires placed { AreIn code.old written.old.items }
    ensures placed { OnOk result (AreIn code.new written.new.items) }
{
    let count = written.len();
    if !is_before(&pair.unset, count) || !is_before(&pair.set, count) {
        return Ok(());
    }
    let subject = Subject {
        word: NUMBER,
        mask: BIT,
    };
    let unset = Range {
        first: 0,
        last: 0,
        leaf: pair.unset,
    };
    let set = Range {
        first: BIT,
        last: BIT,
        leaf: pair.set,
    };
    let Written { target, height } = any_bit(code, written, subject, &unset, &set)?;
    keep(code, written, target, height)?;
    Ok(())
}

// Has the numbers of two machines with one token searched for at once.
fn fold(
    code: &mut Assembler,
    alloc: Global,
    written: &mut Vec<Written>,
    numbers: &mut Numbers,
) -> Result<(), AllocError>
    requires placed { AreIn code.old written.old.items }
    ensures placed { OnOk result (AreIn code.new written.new.items) }
{
    let folded = Folded::of(alloc, &numbers.ranges, written.len())?;
    for pair in &folded.pairs {
        write_pair(code, written, pair)?;
    }
    numbers.ranges = folded.ranges.into_vec();
    Ok(())
}

/// Finds what decides the number in A.
pub(crate) fn write_search(
    code: &mut Assembler,
    alloc: Global,
    written: &[Written],
    ranges: &[Range],
    in_rows: bool,
) -> Result<Option<Written>, AllocError>
    requires placed { AreIn code.old written.now }
    ensures grows { OnOk result (Grows code.old code.new) }
    ensures placed { IfOk result (λ found. IfSome found (λ own. IsTarget code.new own.target)) }
{
    if ranges.is_empty() || !are_before(ranges, written.len()) {
        return Ok(None);
    }
    let plan = levels_of(alloc, ranges, written, in_rows)?;
    let target = search(code, written, ranges, &plan.levels, DEPTH, NOTHING)?;
    Ok(Some(Written {
        target,
        height: plan.height,
    }))
}

// Has the longest run of ranges that two machines have in common stand once.
fn share(
    code: &mut Assembler,
    alloc: Global,
    written: &mut Vec<Written>,
    one: &mut Numbers,
    other: &mut Numbers,
) -> Result<(), AllocError>
    requires placed { AreIn code.old written.old.items }
    ensures placed { OnOk result (AreIn code.new written.new.items) }
{
    let run = longest_run(&one.ranges, &other.ranges);
    let (end, other_end) = (
        run.one.saturating_add(run.count),
        run.other.saturating_add(run.count),
    );
    if run.count <= FEW || end > one.ranges.len() {
        return Ok(());
    }
    let common = &one.ranges[run.one..end];
    if let Some(Written { target, height }) = write_search(code, alloc, written, common, false)? {
        let leaf = keep(code, written, target, height)?;
        one.ranges = replaced(alloc, &one.ranges, run.one, end, &leaf)?;
        other.ranges = replaced(alloc, &other.ranges, run.other, other_end, &leaf)?;
    }
    Ok(())
}

// Has all machines share what they have in common.
fn share_all(
    code: &mut Assembler,
    alloc: Global,
    written: &mut Vec<Written>,
    all: &mut [Numbers],
) -> Result<(), AllocError>
    requires placed { AreIn code.old written.old.items }
    ensures placed { OnOk result (AreIn code.new written.new.items) }
{
    for numbers in all.iter_mut() {
        if numbers.is_folded {
            fold(code, alloc, written, numbers)?;
        }
    }
    for place in 1..all.len() {
        let (before, from) = all.split_at_mut(place);
        if let Some(other) = from.first_mut() {
            for one in before.iter_mut() {
                share(code, alloc, written, one, other)?;
            }
        }
    }
    Ok(())
}

// Loads the number, and finds what decides it.
fn write_numbers(
    code: &mut Assembler,
    alloc: Global,
    written: &mut Vec<Written>,
    numbers: &Numbers,
) -> Result<Option<Leaf>, AllocError>
    requires placed { AreIn code.old written.old.items }
    ensures placed { OnOk result (AreIn code.new written.new.items) }
{
    let found = write_search(code, alloc, written, &numbers.ranges, false)?;
    let Some(
        Written {
            target: Target::Place(place),
            height,
        },
    ) = found
    else {
        return Ok(None);
    };
    code.begin_at(place)?;
    if numbers.is_folded {
        code.mask(BIT ^ u32::MAX)?;
    }
    let target = Target::Place(code.load(NUMBER)?);
    Ok(Some(keep(code, written, target, height.saturating_add(2))?))
}

// Where what decides stands, if it is written.
fn target_of(code: &Assembler, written: &[Written], leaf: &Leaf) -> Option<Target>
    requires placed { AreIn code.now written.now }
    ensures placed { IfSome result (IsTarget code.now) }
{
    if !is_before(leaf, written.len()) {
        return None;
    }
    let range = Range {
        first: 0,
        last: 0,
        leaf: *leaf,
    };
    Some(decided(code, written, &range, None))
}

// Goes on by whether the token that is loaded is this one.
fn write_token(
    code: &mut Assembler,
    written: &mut Vec<Written>,
    token: u32,
    yes: &Leaf,
    no: &Leaf,
) -> Result<Option<Leaf>, AllocError>
    requires placed { AreIn code.old written.old.items }
    ensures placed { OnOk result (AreIn code.new written.new.items) }
{
    let (Some(yes), Some(no)) = (target_of(code, written, yes), target_of(code, written, no)) else {
        return Ok(None);
    };
    let start = code.branch(Test::Equal, token, Exits { yes, no })?;
    Ok(Some(keep(code, written, Target::Place(start), 0)?))
}

// Goes on at what decides the numbers with the token that is loaded, or at the return of a foreign record.
fn write_all(
    code: &mut Assembler,
    alloc: Global,
    written: &mut Vec<Written>,
    all: &[Numbers],
) -> Result<Option<Leaf>, AllocError>
    requires placed { AreIn code.old written.old.items }
    ensures placed { OnOk result (AreIn code.new written.new.items) }
{
    let mut to = Leaf::Verdict(Word::KILL_THREAD);
    for numbers in all.iter().rev() {
        let Some(yes) = write_numbers(code, alloc, written, numbers)? else {
            return Ok(None);
        };
        let Some(found) = write_token(code, written, numbers.token, &yes, &to)? else {
            return Ok(None);
        };
        to = found;
    }
    Ok(Some(to))
}

// Whether two machines of a profile have this token.
fn has_two(machines: &[Arch], token: u32) -> bool {
    let mut found = 0u32;
    for machine in machines {
        if machine.token() == token {
            found = found.saturating_add(1);
        }
    }
    found > 1
}

// The numbers of each token. The blocks that decide are added to the others.
fn gather(alloc: Global, profile: &Profile, blocks: &mut Blocks) -> Result<Vec<Numbers>, AllocError>
    requires clear { IsClear profile.now.rules }
    requires sound { AreSound blocks.old }
    ensures sound { OnOk result (AreSound blocks.new) }
{
    let mut all: Vec<Numbers> = Vec::new(alloc);
    for machine in profile.machines() {
        let token = machine.token();
        if all.iter().any(|numbers| numbers.token == token) {
            continue;
        }
        let ranges = ranges_of(alloc, profile, *machine, blocks)?;
        let is_folded = has_two(profile.machines(), token);
        all.push(Numbers {
            token,
            is_folded,
            ranges,
        })?;
    }
    Ok(all)
}

/// A program in which searches share what they can, and what is known of it.
#[derive(Drop)]
pub(crate) struct Shared {
    pub(crate) planned: Planned,
    /// Whether blocks were put together that stand apart in its outline.
    pub(crate) is_merged: bool,
}

/// The program in which machines and blocks share what they can, if it could be written.
pub(crate) fn plan_shared(alloc: Global, profile: &Profile) -> Result<Option<Shared>, AllocError> {
    let mut blocks = Blocks::new(alloc);
    profile.rules();
    let mut all = gather(alloc, profile, &mut blocks)?;
    let (mut code, mut written) = (Assembler::new(alloc), Vec::new(alloc));
    let Some(is_merged) = write_together(&mut code, alloc, &mut written, &blocks, &all)? else {
        return Ok(None);
    };
    share_all(&mut code, alloc, &mut written, &mut all)?;
    let Some(leaf) = write_all(&mut code, alloc, &mut written, &all)? else {
        return Ok(None);
    };
    let Some(Target::Place(place)) = target_of(&code, &written, &leaf) else {
        return Ok(None);
    };
    code.begin_at(place)?;
    code.load(MACHINE)?;
    let planned = Planned {
        insns: code.into_insns(),
        outline: blocks.into_outline(),
    };
    Ok(Some(Shared { planned, is_merged }))
}
