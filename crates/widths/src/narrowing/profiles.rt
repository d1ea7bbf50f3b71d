//! Narrowed profiles.
ghost use Rattle.std.specs.Prelude.{◌≡◌, ◌↔◌, ◌≤◌, ◌<◌, IfOk, IfErr, IfSome, IsTrue, All, Contains, length};
ghost use Rattle.widths.specs.Counts.{IsCutCause, most_narrowed};
ghost use Rattle.widths.specs.Alike.{IsNarrowed};
ghost use Rattle.widths.specs.Lowered.{with_rules};
ghost use Rattle.widths.specs.Narrowed.{AreNarrowed};
ghost use Rattle.widths.specs.inner.Sizes.{IsSize, cut_cause};

use crate::narrowing::fault::CutError;
use crate::narrowing::rules::narrowed_rules;
use call_record::Word;
use machines::Arch;
use profile::{BuildError, Profile, Rule};
use std::alloc::Global;

// Whether two rules are the same. Verdicts first: they tell most apart.
fn same(a: &Rule, b: &Rule) -> bool
    ensures { IsTrue result ↔ (a.now ≡ b.now) }
{
    if a.word != b.word {
        return false;
    }
    a == b
}

// The place of a rule among those from a place on up to another.
fn place_in(rules: &[Rule], rule: &Rule, start: usize, end: usize) -> Option<usize>
    requires { end ≤ length rules.now }
    ensures has { IfSome result (λ _. Contains rules.now rule.now) }
    ensures within { IfSome result (λ place. place < end) }
{
    for place in start..end {
        if same(&rules[place], rule) {
            return Some(place);
        }
    }
    None
}

// The place of a rule in a list, which is looked for from a place on, and then before it.
fn place_near(rules: &[Rule], rule: &Rule, near: usize) -> Option<usize>
    requires { near ≤ length rules.now }
    ensures has { IfSome result (λ _. Contains rules.now rule.now) }
    ensures within { IfSome result (λ place. place < length rules.now) }
{
    let found = place_in(rules, rule, near, rules.len());
    if found.is_some() {
        return found;
    }
    place_in(rules, rule, 0, near)
}

// Whether a list of rules has all the others.
fn has_all(rules: &[Rule], others: &[Rule]) -> bool
    ensures { IsTrue result → All (Contains rules.now) others.now }
{
    let mut near = 0;
    for other in others {
        let Some(place) = place_near(rules, other, near) else {
            return false;
        };
        near = place;
    }
    true
}

// Whether two lists have the same machines.
fn same_machines(a: &[Arch], b: &[Arch]) -> bool
    ensures { IsTrue result → a.now ≡ b.now }
{
    a == b
}

fn same_word(a: Word, b: Word) -> bool
    ensures { IsTrue result → a ≡ b }
{
    a == b
}

/// Whether a profile is seen to be the narrowed one of another with other rules. It has to have the machines of the other, its default and
/// the narrowed ones of these rules.
pub fn is_narrowed_of(profile: &Profile, own: &[Rule], narrowed: &Profile, rules: &[Rule]) -> bool
    requires { AreNarrowed own.now rules.now }
    ensures { IsTrue result → IsNarrowed (with_rules profile.now own.now) narrowed.now }
{
    if !same_word(narrowed.default_word(), profile.default_word()) {
        return false;
    }
    if !same_machines(narrowed.machines(), profile.machines()) {
        return false;
    }
    if !has_all(narrowed.rules(), rules) {
        return false;
    }
    has_all(rules, narrowed.rules())
}

/// Whether a profile is seen to be the narrowed one of another: it has its machines, its default and its narrowed rules.
pub fn is_narrowed(profile: &Profile, narrowed: &Profile, rules: &[Rule]) -> bool
    requires { AreNarrowed profile.now.rules rules.now }
    ensures { IsTrue result → IsNarrowed profile.now narrowed.now }
{
    is_narrowed_of(profile, profile.rules(), narrowed, rules)
}

// Why no profile is built of narrowed rules.
fn cause_of(error: BuildError) -> CutError
    requires { IsSize error }
    ensures { result ≡ cut_cause error }
{
    match error {
        BuildError::TooMany => CutError::TooMany,
        BuildError::OutOfMemory => CutError::OutOfMemory,
        BuildError::NativeMissing => unreachable!(),
        BuildError::MixedFamilies => unreachable!(),
        BuildError::ForeignRule(_) => unreachable!(),
        BuildError::Overlap(_, _) => unreachable!(),
    }
}

// The profile of narrowed rules.
fn built(alloc: Global, profile: &Profile, rules: Vec<Rule>) -> Result<Profile, CutError>
    requires narrowed { AreNarrowed profile.now.rules rules.items }
    requires few { length rules.items ≤ most_narrowed profile.now.rules }
    ensures ok { IfOk result (IsNarrowed profile.now) }
    ensures err { IfErr result (IsCutCause (most_narrowed profile.now.rules)) }
{
    match Profile::build(
        alloc,
        profile.native(),
        profile.machines(),
        profile.default_word(),
        rules,
    ) {
        Ok(narrowed) => Ok(narrowed),
        Err(error) => Err(cause_of(error)),
    }
}

/// The narrowed profile: it says of a record what the profile says of it with the bits at 0 that are not read.
pub fn narrowed(alloc: Global, profile: &Profile) -> Result<Profile, CutError>
    ensures ok { IfOk result (IsNarrowed profile.now) }
    ensures err { IfErr result (IsCutCause (most_narrowed profile.now.rules)) }
{
    let rules = narrowed_rules(alloc, profile.rules())?;
    built(alloc, profile, rules)
}
