//! The filter of a profile.
ghost use Rattle.std.specs.Prelude.{◌≡◌, ◌↔◌, ◌≤◌, ◌<◌, ℕ, List, [], None, Some, length, vec_len, All, OnOk, IfErr, IfOk, IsErrOf, MatchOption};
ghost use Rattle.bpf_insn.specs.Bytes.{insns_of, max_insns, spelling, view_fault};
ghost use Rattle.call_record.specs.Words.{IsRecord};
ghost use Rattle.machines.specs.Arch.{token_of};
ghost use Rattle.profile.specs.Policy.{IsClear};
ghost use Rattle.profile.specs.Said.{said};
ghost use Rattle.rule_compile.specs.Outline.{IsOutlineOf};
ghost use Rattle.rule_compile.specs.Plan.{IsPlanOf, IsPlannedTooLong};
ghost use Rattle.rule_compile.specs.Right.{IsRightFilter};
ghost use Rattle.rule_compile.specs.Shape.{IsCallFilter, IsPlain, has_token};
ghost use Rattle.rule_compile.specs.inner.Calls.{Apart, CallsOf};
ghost use Rattle.rule_compile.specs.inner.Noted.{AreCalls};
ghost use Rattle.rule_compile.specs.inner.Numbers.{IsListed};
ghost use Rattle.rule_compile.specs.inner.Runs.{AreIn, AreWritten, gives_from};
ghost use Rattle.rule_compile.specs.inner.Stands.{AreSound, TellsCalls, TellsThese};
ghost use Rattle.rule_compile.specs.inner.Steadily.{AreSteady, IsAlwaysSteady, IsSteadyAt};
ghost use Rattle.rule_compile.specs.Steady.{IsSteady, Nothing, Whole};

use crate::assembler::Assembler;
use crate::blocks::Blocks;
use crate::fault::CompileError;
use crate::label::{Exits, Target};
use crate::outline::Outline;
use crate::ranges::ranges_of;
use crate::search::{search_word, write_blocks};
use crate::written::Written;
use bpf_insn::{Insn, MAX_INSNS, Test, encode_into};
use call_record::Word;
use call_record::offset::{MACHINE, NUMBER};
use machines::Arch;
use profile::Profile;
use std::alloc::{AllocError, Global};

/// A filter of the profile, as the bytes of its instructions. The kernel accepts it. Its verdict on each call record is that of
/// the profile, conditions included.
///
/// Assume that no rule has a condition, each number is a small one of a table, and the machines have two tokens at most. Then
/// there is a filter if there is memory, and its paths are few and short.
pub fn compile(alloc: Global, profile: &Profile) -> Result<Vec<u8>, CompileError>
    ensures program { IfOk result (λ bytes. view_fault bytes.items ≡ None) }
    ensures right { IfOk result (λ bytes. IsRightFilter profile.now (insns_of bytes.items)) }
    ensures steady { IfOk result (λ bytes. IsSteady (insns_of bytes.items) 0 Nothing) }
    ensures shape { IsPlain profile.now → IfOk result (λ bytes. IsCallFilter profile.now (insns_of bytes.items)) }
    ensures never { IsPlain profile.now → IfErr result (λ error. error ≡ CompileError.OutOfMemory) }
    ensures planned { IsErrOf result CompileError.TooLong → IsPlannedTooLong profile.now }
{
    let Made { bytes, outline: _ } = make(alloc, profile)?;
    Ok(bytes)
}

/// A right filter, and what the compiler knows of it.
#[derive(Drop)]
pub struct Made {
    /// The bytes of its instructions.
    pub bytes: Vec<u8>,
    /// What is asked where, and for which rules.
    pub outline: Outline,
}

/// The filter that `compile` gives, with its outline.
pub fn make(alloc: Global, profile: &Profile) -> Result<Made, CompileError>
    ensures program { IfOk result (λ made. view_fault made.bytes.items ≡ None) }
    ensures right { IfOk result (λ made. IsRightFilter profile.now (insns_of made.bytes.items)) }
    ensures steady { IfOk result (λ made. IsSteady (insns_of made.bytes.items) 0 Nothing) }
    ensures shape { IsPlain profile.now → IfOk result (λ made. IsCallFilter profile.now (insns_of made.bytes.items)) }
    ensures never { IsPlain profile.now → IfErr result (λ error. error ≡ CompileError.OutOfMemory) }
    ensures planned { IsErrOf result CompileError.TooLong → IsPlannedTooLong profile.now }
    ensures outline { IfOk result (λ made. IsOutlineOf profile.now made.outline) }
{
    let planned = plan(alloc, profile)?;
    planned.into_filter(alloc)
}

/// A right program for a profile, of any length, and what the compiler knows of it.
#[derive(Drop)]
pub struct Planned {
    /// Its instructions.
    pub insns: Vec<Insn>,
    /// What is asked where, and for which rules.
    pub outline: Outline,
}

impl Planned {
    /// The filter of these instructions, if they are no more than the kernel takes.
    pub fn into_filter(self, alloc: Global) -> Result<Made, CompileError>
        ensures too_long { IsErrOf result CompileError.TooLong ↔ (max_insns < length self.insns.items) }
        ensures spelled { IfOk result (λ made. made.bytes.items ≡ spelling self.insns.items) }
        ensures read { IfOk result (λ made. insns_of made.bytes.items ≡ self.insns.items) }
        ensures program { 1 ≤ length self.insns.items → IfOk result (λ made. view_fault made.bytes.items ≡ None) }
        ensures outline { IfOk result (λ made. made.outline ≡ self.outline) }
    {
        let Planned { insns, outline } = self;
        if insns.len() > MAX_INSNS {
            return Err(CompileError::TooLong);
        }
        let mut bytes = vec![in alloc; 0u8; 8 * insns.len()]?;
        encode_into(&insns, &mut bytes);
        Ok(Made { bytes, outline })
    }
}

/// What is planned for the profile. It has no limit but memory.
pub fn plan(alloc: Global, profile: &Profile) -> Result<Planned, AllocError>
    ensures plans { IfOk result (λ plan. IsPlanOf profile.now plan.insns.items) }
    ensures outline { IfOk result (λ plan. IsOutlineOf profile.now plan.outline) }
{
    let mut code = Assembler::new(alloc);
    let mut blocks = Blocks::new(alloc);
    filter(&mut code, alloc, profile, &mut blocks)?;
    Ok(Planned {
        insns: code.into_insns(),
        outline: blocks.into_outline(),
    })
}

// The whole code. A record of no listed machine is foreign.
fn filter(
    code: &mut Assembler,
    alloc: Global,
    profile: &Profile,
    blocks: &mut Blocks,
) -> Result<(), AllocError>
    requires empty { code.old ≡ [] }
    requires no_block { vec_len blocks.old.blocks ≡ 0 }
    requires no_call { blocks.old.calls.items ≡ [] }
    requires sound { AreSound blocks.old }
    ensures gives { OnOk result ((r : List ℕ) → IsRecord r → gives_from code.new 0 0 r ≡ Some (said profile.now r)) }
    ensures some { OnOk result (1 ≤ length code.new) }
    ensures steady { OnOk result (IsSteady code.new 0 Nothing) }
    ensures sound { OnOk result (AreSound blocks.new) }
    ensures calls { OnOk result (AreCalls profile.now blocks.new) }
    ensures shape { IsPlain profile.now → OnOk result (IsCallFilter profile.now code.new) }
{
    let machines = profile.machines();
    let mut written = Vec::new(alloc);
    match tell_machines_apart(code, alloc, profile, machines, blocks, &mut written)? {
        Target::Place(place) => {
            code.begin_at(place)?;
            code.load(MACHINE)?;
            Ok(())
        }
        Target::Return(word) => {
            let place = code.near_return(word)?;
            code.begin_at(place)
        }
    }
}

// Goes on at the calls of the machine whose token is loaded, or at the return of a foreign record.
fn tell_machines_apart(
    code: &mut Assembler,
    alloc: Global,
    profile: &Profile,
    machines: &[Arch],
    blocks: &mut Blocks,
    written: &mut Vec<Written>,
) -> Result<Target, AllocError>
    requires clear { IsClear profile.now.rules }
    requires sound { AreSound blocks.old }
    requires placed { AreIn code.old written.old.items }
    ensures sound { OnOk result (AreSound blocks.new) }
    ensures placed { OnOk result (AreIn code.new written.new.items) }
    ensures written { AreWritten blocks.old.blocks.items code.old written.old.items → OnOk result (AreWritten blocks.new.blocks.items code.new written.new.items) }
    ensures tells { All (IsListed profile.now) machines.now → AreWritten blocks.old.blocks.items code.old written.old.items → IfOk result (TellsThese profile.now machines.now code.new) }
    ensures steady { AreSteady code.old written.old.items → OnOk result (AreSteady code.new written.new.items) }
    ensures tells_steadily { AreSteady code.old written.old.items → IfOk result (λ to. IsSteadyAt code.new to Whole) }
    ensures apart { IfOk result (Apart profile.now machines.now (vec_len blocks.old.blocks) code.old code.new) }
    ensures no_block { IsPlain profile.now → OnOk result (blocks.new ≡ blocks.old) }
    ensures calls { All (IsListed profile.now) machines.now → AreCalls profile.now blocks.old → OnOk result (AreCalls profile.now blocks.new) }
{
    let [machine, others @ ..] = machines else {
        return Ok(Target::Return(Word::KILL_THREAD));
    };
    let no = tell_machines_apart(code, alloc, profile, others, blocks, written)?;
    if has_token(others, machine.token()) {
        return Ok(no);
    }
    match native(calls_of(code, alloc, profile, *machine, blocks, written)?) {
        None => Ok(no),
        Some(yes) => {
            let exits = Exits { yes, no };
            let start = code.branch(Test::Equal, machine.token(), exits)?;
            Ok(Target::Place(start))
        }
    }
}

// Whether one of the machines has the token: its calls are told there.
fn has_token(machines: &[Arch], token: u32) -> bool
    ensures { result ≡ has_token token machines.now }
{
    machines.iter().any(|arch| arch.token() == token)
}

// The calls of a machine, if not each of them gets the verdict of a foreign record.
fn native(calls: Target) -> Option<Target>
    ensures { MatchOption result (calls ≡ Target.Return 0) (λ native. native ≡ calls) }
{
    match calls {
        Target::Return(word) => {
            if word == Word::KILL_THREAD {
                return None;
            }
            Some(Target::Return(word))
        }
        Target::Place(place) => Some(Target::Place(place)),
    }
}

// The calls of one machine.
fn calls_of(
    code: &mut Assembler,
    alloc: Global,
    profile: &Profile,
    machine: Arch,
    blocks: &mut Blocks,
    written: &mut Vec<Written>,
) -> Result<Target, AllocError>
    requires clear { IsClear profile.now.rules }
    requires sound { AreSound blocks.old }
    requires placed { AreIn code.old written.old.items }
    ensures sound { OnOk result (AreSound blocks.new) }
    ensures placed { OnOk result (AreIn code.new written.new.items) }
    ensures written { AreWritten blocks.old.blocks.items code.old written.old.items → OnOk result (AreWritten blocks.new.blocks.items code.new written.new.items) }
    ensures tells { IsListed profile.now machine → AreWritten blocks.old.blocks.items code.old written.old.items → IfOk result (TellsCalls profile.now (token_of machine) code.new) }
    ensures steady { AreSteady code.old written.old.items → OnOk result (AreSteady code.new written.new.items) }
    ensures always { AreSteady code.old written.old.items → IfOk result (IsAlwaysSteady code.new) }
    ensures calls { IfOk result (CallsOf profile.now machine (vec_len blocks.old.blocks) code.old code.new) }
    ensures no_block { IsPlain profile.now → OnOk result (blocks.new ≡ blocks.old) }
    ensures noted { IsListed profile.now machine → AreCalls profile.now blocks.old → OnOk result (AreCalls profile.now blocks.new) }
{
    let ranges = ranges_of(alloc, profile, machine, blocks)?;
    write_blocks(code, alloc, blocks, written)?;
    let found = search_word(code, alloc, &ranges, written, NUMBER)?;
    Ok(found.target)
}
