//! The paths of a filter, from where it begins on.
ghost use Rattle.std.specs.Prelude.{◌≡◌, ◌<◌, ◌≤◌, ◌+◌, ◌^◌, ◌⊎◌, ℕ, Some, false, true, IfErr, IfOk, IfSome, OnOk, length, slice_get};
ghost use Rattle.bpf_insn.specs.Causes.{IsPlain};
ghost use Rattle.bpf_insn.specs.Code.{operation_of};
ghost use Rattle.kernel_check.specs.Lent.{accepted_insns};
ghost use Rattle.profile.specs.Policy.{IsProfile, Policy};
ghost use Rattle.rule_compile.specs.Shape.{IsCallFilter, IsPlain as IsPlainProfile};
ghost use Rattle.rule_compile.specs.Steady.{IsSteady, Nothing};
ghost use Rattle.cert_state.specs.Entailment.{IsDead};
ghost use Rattle.cert_state.specs.Literals.{AreValues, IsLit};
ghost use Rattle.cert_state.specs.Transfer.{transfer};
ghost use Rattle.cert_check.specs.Right.{IsRight};
ghost use Rattle.cert_check.specs.Rules.{verdict_by};
ghost use Rattle.cert_check.specs.Settled.{StatedIsSettled};
ghost use Rattle.cert_check.specs.Valid.{IsValidCertificate};
ghost use Rattle.call_record.specs.Words.{IsRecord};
ghost use Rattle.call_record.specs.Record.{words};
ghost use Rattle.certify.specs.Fault.{IsSize, TellsTruly, TellsWrong};
ghost use Rattle.certify.specs.Telling.{IsTelling};
ghost use Rattle.certify.specs.inner.Follow.{AreSound, AreTwo, GivesThere, IsCut, IsFollowed, IsFork, IsReturn, IsStep};
ghost use Rattle.certify.specs.declared.fault.PathsError.TheVariants.{OutOfMemory};
ghost use Rattle.certify.specs.inner.Led.{AreLed};
ghost use Rattle.certify.specs.inner.Limits.{LacksRoom};
ghost use Rattle.certify.specs.inner.Meant.{IsMeant};
ghost use Rattle.certify.specs.inner.Plain.{AreShares, HaveRoom, IsParted, IsWhole, PartsAtReturn, TakesAt, TakesAtReturn};
ghost use Rattle.certify.specs.inner.Places.{AreInside, ArePaths, IsPlace, known_at};

use crate::action::{Action, action_of, verdict_at};
use crate::cuts::Cut;
use crate::fault::PathsError;
use crate::masks::cut_before;
use crate::paths::Paths;
use crate::place::{Next, Place};
use crate::told::told_or_cut;
use crate::unlike::{is_wrong_on, likely_record, tried};
use bpf_insn::Insn;
use call_record::{Record, Word, words_are_a_record};
use cert_check::{Scratch, is_settled, stated_is_settled};
use cert_form::Kind;
use cert_state::dead;
use kernel_check::Accepted;
use profile::Profile;
use std::alloc::Global;

// The number that stands for no second node.
const NO_NODE: u32 = u32::MAX;

// The position after so many instructions are skipped, which is in the program.
fn after(pc: u16, skip: u32) -> u16
    requires { pc + 1 + skip < 2 ^ 16 }
    ensures { result ≡ pc + 1 + skip }
{
    pc + 1 + skip as u16
}

// A record of which each word is stated settles a profile.
fn settles(profile: &Profile, call: &Record)
    ensures settled { StatedIsSettled }
    ensures is_profile { IsProfile profile.now }
    ensures is_record { IsRecord (words call.now) }
{
    stated_is_settled();
    profile.rules();
    words_are_a_record(call);
}

// Adds two places, one after the other.
fn add_two(paths: &mut Paths, from: Place, one: Next, other: Next) -> Result<(u32, u32), PathsError>
    requires paths { ArePaths paths.old }
    requires from { IsPlace paths.old.entries.items from }
    requires one { IfSome one.learned IsLit × AreValues one.regs }
    requires other { IfSome other.learned IsLit × AreValues other.regs }
    ensures paths { OnOk result (ArePaths paths.new) }
    ensures two { IfOk result (λ two. AreTwo paths.old paths.new from one other two.0 two.1) }
    ensures size { IfErr result IsSize }
    ensures refused { IfErr result (LacksRoom paths.old from 2) }
{
    let first = paths.add(from, one)?;
    let second = paths.add(from, other)?;
    Ok((first, second))
}

// The node of a place where what is known is cut in two.
fn split(paths: &mut Paths, from: Place, cut: Cut) -> Result<Kind, PathsError>
    requires paths { ArePaths paths.old }
    requires from { IsPlace paths.old.entries.items from }
    ensures paths { OnOk result (ArePaths paths.new) }
    ensures cut { IfOk result (IsCut paths.old paths.new from) }
    ensures parts { (policy : Policy) (word : ℕ) (nodes : ℕ)
        → PartsAtReturn policy (known_at paths.old.entries.items from) word nodes cut.one cut.other
        → IfOk result (λ _. IsParted policy paths.old paths.new from word nodes) }
    ensures size { IfErr result IsSize }
    ensures refused { IfErr result (LacksRoom paths.old from 2) }
{
    let (one, other) = (cut.one, cut.other);
    let (first, second) = add_two(paths, from, from.knowing(one), from.knowing(other))?;
    Ok(Kind::Split(one, other, first, second))
}

// The node of a place at a return of this verdict: what is known is cut until the profile is settled. A record on which the
// filter is seen to be wrong ends that. If all words were cut, the one record that is left is such a record, if it comes there.
fn at_return(
    paths: &mut Paths,
    profile: &Profile,
    program: &Accepted<'_>,
    from: Place,
    word: u32,
    scratch: &mut Scratch,
) -> Result<Kind, PathsError>
    requires paths { ArePaths paths.old }
    requires from { IsPlace paths.old.entries.items from }
    requires alive { IsDead (known_at paths.old.entries.items from) → ⊥ }
    ensures paths { OnOk result (ArePaths paths.new) }
    ensures done { IfOk result (λ kind. IsReturn profile.now paths.old paths.new from word kind ⊎ IsCut paths.old paths.new from kind) }
    ensures truly { IfErr result (TellsTruly profile.now (accepted_insns program.now)) }
    ensures wrong { GivesThere (accepted_insns program.now) (known_at paths.old.entries.items from) word
        → IfErr result (TellsWrong profile.now (accepted_insns program.now)) }
    // Of a profile without conditions and its filter the parts take no more, and only memory is wanting.
    ensures parts { (nodes : ℕ) → IsMeant profile.now (accepted_insns program.now)
        → TakesAtReturn profile.now (known_at paths.old.entries.items from) word nodes
        → IfOk result (λ _. (paths.new ≡ paths.old) ⊎ IsParted profile.now paths.old paths.new from word nodes) }
    ensures memory { (nodes : ℕ) → IsMeant profile.now (accepted_insns program.now)
        → TakesAtReturn profile.now (known_at paths.old.entries.items from) word nodes
        → length paths.old.places.items + nodes ≤ 16385 → IfErr result (λ e. e ≡ OutOfMemory) }
{
    let known = paths.known(from);
    if is_settled(profile, &known, Word(word), scratch) {
        return Ok(Kind::Return);
    }
    let likely = likely_record(&known);
    if is_wrong_on(profile, program, &likely) {
        return Err(PathsError::Unlike(u32::from(from.pc), likely));
    }
    match told_or_cut(profile, &known) {
        Err(cut) => split(paths, from, cut),
        Ok(call) => {
            settles(profile, &call);
            Err(tried(profile, program, from.pc, call))
        }
    }
}

// Why there is no node at a return of which the verdict is not known.
fn at_unknown(paths: &Paths, profile: &Profile, program: &Accepted<'_>, from: Place) -> PathsError
    requires { ArePaths paths.now }
    ensures { TellsTruly profile.now (accepted_insns program.now) result }
{
    let likely = likely_record(&paths.known(from));
    tried(profile, program, from.pc, likely)
}

// The node of a place at a comparison.
fn at_branch(paths: &mut Paths, from: Place, insn: Insn) -> Result<Kind, PathsError>
    requires paths { ArePaths paths.old }
    requires from { IsPlace paths.old.entries.items from }
    requires plain { IsPlain insn }
    requires taken { from.pc + 1 + insn.jt < 2 ^ 16 }
    requires not_taken { from.pc + 1 + insn.jf < 2 ^ 16 }
    ensures paths { OnOk result (ArePaths paths.new) }
    ensures fork { IfOk result (IsFork paths.old paths.new from insn) }
    ensures size { IfErr result IsSize }
    ensures refused { IfErr result (LacksRoom paths.old from 2) }
{
    let known = paths.known(from);
    let regs = from.after(&insn);
    let taken = Next {
        pc: after(from.pc, u32::from(insn.jt)),
        regs,
        learned: from.fact(&known, &insn, true),
    };
    let not_taken = Next {
        pc: after(from.pc, u32::from(insn.jf)),
        regs,
        learned: from.fact(&known, &insn, false),
    };
    let (first, second) = add_two(paths, from, taken, not_taken)?;
    Ok(Kind::Step(first, second))
}

// The node of a place at a comparison, or where a word is cut before it, so that the comparison tells all that it asks.
fn at_fork(paths: &mut Paths, from: Place, insn: Insn) -> Result<Kind, PathsError>
    requires paths { ArePaths paths.old }
    requires from { IsPlace paths.old.entries.items from }
    requires plain { IsPlain insn }
    requires taken { from.pc + 1 + insn.jt < 2 ^ 16 }
    requires not_taken { from.pc + 1 + insn.jf < 2 ^ 16 }
    ensures paths { OnOk result (ArePaths paths.new) }
    ensures done { IfOk result (λ kind. IsFork paths.old paths.new from insn kind ⊎ IsCut paths.old paths.new from kind) }
    ensures whole { IsWhole from.regs.a → IfOk result (IsFork paths.old paths.new from insn) }
    ensures size { IfErr result IsSize }
    ensures refused { IfErr result (LacksRoom paths.old from 2) }
{
    match cut_before(&paths.known(from), from.regs.a, &insn) {
        Some(cut) => split(paths, from, cut),
        None => at_branch(paths, from, insn),
    }
}

// The node of a place from which a path goes on at one position, after so many instructions are skipped.
fn step(paths: &mut Paths, from: Place, insn: Insn, skip: u32) -> Result<Kind, PathsError>
    requires paths { ArePaths paths.old }
    requires from { IsPlace paths.old.entries.items from }
    requires plain { IsPlain insn }
    requires inside { from.pc + 1 + skip < 2 ^ 16 }
    ensures paths { OnOk result (ArePaths paths.new) }
    ensures step { IfOk result (IsStep paths.old paths.new from (from.pc + 1 + skip) (transfer from.regs insn)) }
    ensures size { IfErr result IsSize }
    ensures refused { IfErr result (LacksRoom paths.old from 1) }
{
    let regs = from.after(&insn);
    let next = Next {
        pc: after(from.pc, skip),
        regs,
        learned: None,
    };
    Ok(Kind::Step(paths.add(from, next)?, NO_NODE))
}

// The node of a place at a return.
fn at_end(
    paths: &mut Paths,
    profile: &Profile,
    program: &Accepted<'_>,
    from: Place,
    insn: Insn,
    scratch: &mut Scratch,
) -> Result<Kind, PathsError>
    requires paths { ArePaths paths.old }
    requires from { IsPlace paths.old.entries.items from }
    requires alive { IsDead (known_at paths.old.entries.items from) → ⊥ }
    ensures paths { OnOk result (ArePaths paths.new) }
    ensures done { IfOk result (λ kind. (word : ℕ) × (verdict_by (operation_of insn.code) from.regs insn ≡ Some word)
        × (IsReturn profile.now paths.old paths.new from word kind ⊎ IsCut paths.old paths.new from kind)) }
    ensures truly { IfErr result (TellsTruly profile.now (accepted_insns program.now)) }
    ensures wrong { (word : ℕ) → verdict_by (operation_of insn.code) from.regs insn ≡ Some word
        → GivesThere (accepted_insns program.now) (known_at paths.old.entries.items from) word
        → IfErr result (TellsWrong profile.now (accepted_insns program.now)) }
    ensures parts { (word : ℕ) (nodes : ℕ) → verdict_by (operation_of insn.code) from.regs insn ≡ Some word
        → IsMeant profile.now (accepted_insns program.now)
        → TakesAtReturn profile.now (known_at paths.old.entries.items from) word nodes
        → IfOk result (λ _. (paths.new ≡ paths.old) ⊎ IsParted profile.now paths.old paths.new from word nodes) }
    ensures memory { (word : ℕ) (nodes : ℕ) → verdict_by (operation_of insn.code) from.regs insn ≡ Some word
        → IsMeant profile.now (accepted_insns program.now)
        → TakesAtReturn profile.now (known_at paths.old.entries.items from) word nodes
        → length paths.old.places.items + nodes ≤ 16385 → IfErr result (λ e. e ≡ OutOfMemory) }
{
    match verdict_at(from, &insn) {
        Some(word) => at_return(paths, profile, program, from, word, scratch),
        None => Err(at_unknown(paths, profile, program, from)),
    }
}

// What the node of a place does that is not dead, by the instruction there.
fn at_insn(
    paths: &mut Paths,
    profile: &Profile,
    program: &Accepted<'_>,
    from: Place,
    insn: Insn,
    scratch: &mut Scratch,
) -> Result<Kind, PathsError>
    requires paths { ArePaths paths.old }
    requires inside { AreInside (accepted_insns program.now) paths.old }
    requires from { slice_get paths.old.places.items (length paths.old.kinds.items) ≡ Some from }
    requires place { IsPlace paths.old.entries.items from }
    requires alive { IsDead (known_at paths.old.entries.items from) → ⊥ }
    requires found { slice_get (accepted_insns program.now) from.pc ≡ Some insn }
    requires plain { IsPlain insn }
    ensures paths { OnOk result (ArePaths paths.new) }
    ensures followed { IfOk result (IsFollowed profile.now (accepted_insns program.now) paths.old paths.new from) }
    ensures truly { IfErr result (TellsTruly profile.now (accepted_insns program.now)) }
    ensures told { AreLed (accepted_insns program.now) paths.old → IfErr result (TellsWrong profile.now (accepted_insns program.now)) }
    // Of a profile without conditions and its filter the places that are added take no more, and only memory is wanting.
    ensures shares { (nodes : ℕ) → IsMeant profile.now (accepted_insns program.now)
        → TakesAt profile.now (accepted_insns program.now) paths.old.entries.items from nodes → 1 ≤ nodes
        → IfOk result (λ _. AreShares profile.now (accepted_insns program.now) paths.old paths.new nodes) }
    ensures memory { (nodes : ℕ) → IsMeant profile.now (accepted_insns program.now)
        → TakesAt profile.now (accepted_insns program.now) paths.old.entries.items from nodes → 1 ≤ nodes
        → length paths.old.places.items + nodes ≤ 16385 → IfErr result (λ e. e ≡ OutOfMemory) }
{
    match action_of(&insn) {
        Action::Ends => at_end(paths, profile, program, from, insn, scratch),
        Action::Forks => at_fork(paths, from, insn),
        Action::Goes(skip) => step(paths, from, insn, skip),
    }
}

// What a place's node does. The places that it leads to are added.
fn follow(
    paths: &mut Paths,
    profile: &Profile,
    program: &Accepted<'_>,
    from: Place,
    scratch: &mut Scratch,
) -> Result<Kind, PathsError>
    requires paths { ArePaths paths.old }
    requires inside { AreInside (accepted_insns program.now) paths.old }
    requires from { slice_get paths.old.places.items (length paths.old.kinds.items) ≡ Some from }
    ensures paths { OnOk result (ArePaths paths.new) }
    ensures followed { IfOk result (IsFollowed profile.now (accepted_insns program.now) paths.old paths.new from) }
    ensures truly { IfErr result (TellsTruly profile.now (accepted_insns program.now)) }
    ensures told { AreLed (accepted_insns program.now) paths.old → IfErr result (TellsWrong profile.now (accepted_insns program.now)) }
    // Of a profile without conditions and its filter the places that are added take no more, and only memory is wanting.
    ensures shares { (nodes : ℕ) → IsMeant profile.now (accepted_insns program.now)
        → TakesAt profile.now (accepted_insns program.now) paths.old.entries.items from nodes → 1 ≤ nodes
        → IfOk result (λ _. AreShares profile.now (accepted_insns program.now) paths.old paths.new nodes) }
    ensures memory { (nodes : ℕ) → IsMeant profile.now (accepted_insns program.now)
        → TakesAt profile.now (accepted_insns program.now) paths.old.entries.items from nodes → 1 ≤ nodes
        → length paths.old.places.items + nodes ≤ 16385 → IfErr result (λ e. e ≡ OutOfMemory) }
{
    if dead(&paths.known(from)) {
        return Ok(Kind::Dead);
    }
    let Some(insn) = program.insn_at(from.pc) else {
        return Err(PathsError::Unsettled(u32::from(from.pc)));
    };
    at_insn(paths, profile, program, from, insn, scratch)
}

// Follows the first place that has no node yet. The result is false where each has one.
fn follow_next(
    paths: &mut Paths,
    profile: &Profile,
    program: &Accepted<'_>,
    scratch: &mut Scratch,
) -> Result<bool, PathsError>
    requires sound { AreSound profile.now (accepted_insns program.now) paths.old }
    ensures sound { OnOk result (AreSound profile.now (accepted_insns program.now) paths.new) }
    ensures all { IfOk result (λ more. more ≡ false → length paths.new.kinds.items ≡ length paths.new.places.items) }
    ensures led { AreLed (accepted_insns program.now) paths.old → OnOk result (AreLed (accepted_insns program.now) paths.new) }
    ensures truly { IfErr result (TellsTruly profile.now (accepted_insns program.now)) }
    ensures told { AreLed (accepted_insns program.now) paths.old → IfErr result (TellsWrong profile.now (accepted_insns program.now)) }
    ensures one_more { IfOk result (λ more. more ≡ true → length paths.new.kinds.items ≡ length paths.old.kinds.items + 1) }
    ensures room { IsMeant profile.now (accepted_insns program.now) → HaveRoom profile.now (accepted_insns program.now) paths.old
        → OnOk result (HaveRoom profile.now (accepted_insns program.now) paths.new) }
    ensures memory { IsMeant profile.now (accepted_insns program.now) → HaveRoom profile.now (accepted_insns program.now) paths.old
        → IfErr result (λ e. e ≡ OutOfMemory) }
{
    let Some(from) = paths.next_place() else {
        return Ok(false);
    };
    let kind = follow(paths, profile, program, from, scratch)?;
    paths.give(kind)?;
    Ok(true)
}

// Follows each path to its end.
fn follow_all(
    paths: &mut Paths,
    profile: &Profile,
    program: &Accepted<'_>,
    scratch: &mut Scratch,
) -> Result<(), PathsError>
    requires sound { AreSound profile.now (accepted_insns program.now) paths.old }
    ensures sound { OnOk result (AreSound profile.now (accepted_insns program.now) paths.new) }
    ensures all { OnOk result (length paths.new.kinds.items ≡ length paths.new.places.items) }
    ensures truly { IfErr result (TellsTruly profile.now (accepted_insns program.now)) }
    ensures told { AreLed (accepted_insns program.now) paths.old → IfErr result (TellsWrong profile.now (accepted_insns program.now)) }
    ensures memory { IsMeant profile.now (accepted_insns program.now) → HaveRoom profile.now (accepted_insns program.now) paths.old
        → IfErr result (λ e. e ≡ OutOfMemory) }
{
    loop {
        if !follow_next(paths, profile, program, scratch)? {
            return Ok(());
        }
    }
}

/// The certificate that follows each path of a filter: it keeps each rule of the checker. What an error reports is so. A record that it
/// carries is one on which the filter is wrong, whatever the filter computes. If each comparison tells all that it asks, an error reports
/// such a record, or a lack of memory, or the format's limits.
pub fn by_paths(
    alloc: Global,
    profile: &Profile,
    program: &Accepted<'_>,
) -> Result<Vec<u8>, PathsError>
    ensures valid { IfOk result (λ bytes. IsValidCertificate profile.now (accepted_insns program.now) bytes.items) }
    // A record that is returned is a counterexample to the filter.
    ensures truly { IfErr result (TellsTruly profile.now (accepted_insns program.now)) }
    // A filter of which each comparison tells all that it asks is certified, or reported to be wrong. This needs room in memory
    // and in the format. Each filter that compares steadily is such a filter.
    ensures told { IsTelling (accepted_insns program.now)
        → IfErr result (TellsWrong profile.now (accepted_insns program.now)) }
    ensures steady { IsSteady (accepted_insns program.now) 0 Nothing
        → IfErr result (TellsWrong profile.now (accepted_insns program.now)) }
    ensures never { IsTelling (accepted_insns program.now) → IsRight profile.now (accepted_insns program.now)
        → IfErr result IsSize }
    // A profile without conditions whose filter has the shape is certified, unless memory is wanting.
    ensures own { IsPlainProfile profile.now → IsCallFilter profile.now (accepted_insns program.now)
        → IfOk result (λ bytes. IsValidCertificate profile.now (accepted_insns program.now) bytes.items) }
    ensures memory { IsPlainProfile profile.now → IsCallFilter profile.now (accepted_insns program.now)
        → IfErr result (λ e. e ≡ OutOfMemory) }
{
    profile.rules();
    let mut paths = Paths::new(alloc)?;
    let mut scratch = Scratch::new();
    follow_all(&mut paths, profile, program, &mut scratch)?;
    paths.written(alloc)
}
