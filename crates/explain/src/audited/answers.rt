//! What a bundle may answer to a call.
ghost use Rattle.std.specs.Prelude.{◌≡◌};
ghost use Rattle.std.specs.List.{list_any};
ghost use Rattle.explain.specs.Answers as spec;

use crate::audited::lines::{is_native, is_of};
use call_record::Word;
use profile::{Profile, Rule};

// Whether a rule is for a call, and gives an action.
fn gives(rule: &Rule, token: u32, nr: u32, action: Word) -> bool
    ensures { result ≡ spec.gives token nr action rule.now }
{
    if !is_of(rule, token, nr) {
        return false;
    }
    rule.word.action() == action
}

// Whether one of the rules does.
fn any_gives(rules: &[Rule], token: u32, nr: u32, action: Word) -> bool
    ensures { result ≡ list_any (spec.gives token nr action) rules.now }
{
    rules.iter().any(|rule| gives(rule, token, nr, action))
}

// Whether a rule is for a call whatever its arguments are.
fn is_always(rule: &Rule, token: u32, nr: u32) -> bool
    ensures { result ≡ spec.is_always token nr rule.now }
{
    if !is_of(rule, token, nr) {
        return false;
    }
    rule.conds.is_empty()
}

// Whether one of the rules is.
fn any_always(rules: &[Rule], token: u32, nr: u32) -> bool
    ensures { result ≡ list_any (spec.is_always token nr) rules.now }
{
    rules.iter().any(|rule| is_always(rule, token, nr))
}

// Whether a profile may give an action to a call as its default.
fn default_may(profile: &Profile, token: u32, nr: u32, action: Word) -> bool
    ensures { result ≡ spec.default_may profile.now token nr action }
{
    if profile.default_word().action() == action {
        return !any_always(profile.rules(), token, nr);
    }
    false
}

/// Whether a profile may give an action to a call. It may by one of the rules for the call, or as its default. The default does not count
/// if a rule is for the call whatever its arguments are.
pub(crate) fn may_answer(profile: &Profile, token: u32, nr: u32, action: Word) -> bool
    ensures { result ≡ spec.may_answer profile.now token nr action }
{
    if !is_native(profile, token, nr) {
        return action == Word::KILL_THREAD;
    }
    if default_may(profile, token, nr, action) {
        return true;
    }
    any_gives(profile.rules(), token, nr, action)
}

/// What a profile may not answer to a call it never answers to a record of the call.
pub fn what_may_not_never_does()
    ensures { spec.WhatMayNotNeverDoes }
{}
