//! Whether a profile says of each record what the rule says that counts.
ghost use Rattle.std.specs.Prelude.{IsTrue, IfOk, All, Contains};
ghost use Rattle.engines.specs.Settled as spec;

use crate::settling::calls::Calls;
use crate::settling::choice::{Choice, precedes};
use crate::settling::covering::covers;
use crate::settling::rules::is_among;
use profile::{Profile, Rule};
use std::alloc::{AllocError, Global};

// Whether each of the rules that were kept is one of the rules.
fn are_among(kept: &[Rule], rules: &[Rule], calls: &Calls) -> bool
    ensures { IsTrue result → All (Contains rules.now) kept.now }
{
    for rule in kept {
        if !is_among(rules, calls.places(rule), rule) {
            return false;
        }
    }
    true
}

// Whether the rule at a place of the list is kept, and counts for all that a rule matches, which stands at the place `i`.
fn counts_for(
    choice: Choice,
    rules: &[Rule],
    i: usize,
    rule: &Rule,
    j: usize,
    kept: &[Rule],
    calls: &Calls,
) -> bool
    ensures { IsTrue result → spec.GivesWay choice rules.now kept.now i rule.now }
{
    if j >= rules.len() {
        return false;
    }
    let other = &rules[j];
    if !is_among(kept, calls.places(other), other) {
        return false;
    }
    if !covers(other, rule) {
        return false;
    }
    precedes(choice, j, other, i, rule)
}

// Whether the rule at the place `i` is kept, or the one at the place `j` is, which counts for all that it matches.
fn gives_way(
    choice: Choice,
    rules: &[Rule],
    i: usize,
    rule: &Rule,
    j: usize,
    kept: &[Rule],
    calls: &Calls,
) -> bool
    ensures { IsTrue result → spec.GivesWay choice rules.now kept.now i rule.now }
{
    if is_among(kept, calls.places(rule), rule) {
        return true;
    }
    counts_for(choice, rules, i, rule, j, kept, calls)
}

// Whether that is so of each rule.
fn each_gives_way(
    choice: Choice,
    rules: &[Rule],
    winners: &[usize],
    kept: &[Rule],
    calls: &Calls,
) -> bool
    ensures { IsTrue result → spec.EachGivesWay choice rules.now kept.now }
{
    for i in 0..rules.len() {
        let j = winners.get(i).copied().unwrap_or(i);
        if !gives_way(choice, rules, i, &rules[i], j, kept, calls) {
            return false;
        }
    }
    true
}

// Whether a profile says of each record what the rule says that counts, looked for by the places of both lists of rules.
fn settles(
    choice: Choice,
    rules: &[Rule],
    before: &Calls,
    winners: &[usize],
    profile: &Profile,
    after: &Calls,
) -> bool
    ensures { IsTrue result → spec.Settles choice rules.now profile.now }
{
    let kept = profile.rules();
    if !are_among(kept, rules, before) {
        return false;
    }
    each_gives_way(choice, rules, winners, kept, after)
}

/// Whether a profile says of each record what the rule says that counts. Each rule gives way to the one whose place is told for it. False
/// is no promise.
pub fn is_settled(
    alloc: Global,
    choice: Choice,
    rules: &[Rule],
    winners: &[usize],
    profile: &Profile,
) -> Result<bool, AllocError>
    ensures { IfOk result (λ b. IsTrue b → spec.Settles choice rules.now profile.now) }
{
    let before = Calls::of(alloc, rules)?;
    let after = Calls::of(alloc, profile.rules())?;
    Ok(settles(choice, rules, &before, winners, profile, &after))
}
