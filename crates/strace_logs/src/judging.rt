//! Whether a profile allows what logs show, and has rules for no other calls.
ghost use Rattle.std.specs.Prelude.{◌≡◌, ℕ, List, Some, IsTrue};
ghost use Rattle.std.specs.List.{All};
ghost use Rattle.call_record.specs.Verdict.{allow};
ghost use Rattle.call_tables.specs.Tables.{table_of};
ghost use Rattle.call_tables.specs.Table.{number_in};
ghost use Rattle.machines.specs.declared.arch.Arch.{Arch};
ghost use Rattle.strace_logs.specs.inner.Seen.{AreSeen};
ghost use Rattle.strace_logs.specs.Taken.{AllowsEach, IsForEach, IsLow, IsWithin, OneAllows};
ghost use Rattle.strace_logs.specs.Learned.{IsNamed, IsOfRecord};
ghost use Rattle.strace_logs.specs.Wish.{rest_word};

use crate::calls::Seen;
use crate::keeps::WHOLE;
use crate::lists::{Otherwise, Runtime, is_listed};
use call_record::{Word, words_are_a_record};
use call_tables::{call_name, call_number};
use profile::{Cond, Op, Profile, Rule, are_for};

// Whether a condition looks at so many of the lowest bits of an argument alone.
fn is_low(bits: u32, cond: &Cond) -> bool
    ensures { IsTrue result → IsLow bits cond.now }
{
    if bits == WHOLE {
        return true;
    }
    if bits > WHOLE || cond.op != Op::MaskedEq {
        return false;
    }
    cond.value < 1 << bits
}

// Whether a condition looks at so many of the lowest bits of its argument alone.
fn is_within(bits: &[u32; 6], cond: &Cond) -> bool
    ensures { IsTrue result → IsWithin bits.now cond.now }
{
    is_low(bits[usize::from(cond.index)], cond)
}

// Whether all conditions do.
fn are_within(bits: &[u32; 6], conds: &[Cond]) -> bool
    ensures { IsTrue result → All (IsWithin bits.now) conds.now }
{
    for cond in conds {
        if !is_within(bits, cond) {
            return false;
        }
    }
    true
}

// Whether a rule is for each of these calls: for one of them, by no other arguments than those that they have in common.
fn is_for_each(seen: &Seen, rule: &Rule) -> bool
    ensures { IsTrue result → IsForEach seen.now rule.now }
{
    let record = seen.record();
    words_are_a_record(&record);
    if !rule.matches(&record) {
        return false;
    }
    are_within(&seen.bits, rule.conds.as_slice())
}

// Whether a rule allows each of these calls.
fn allows(seen: &Seen, rule: &Rule) -> bool
    ensures word { IsTrue result → rule.now.word ≡ allow }
    ensures for_each { IsTrue result → IsForEach seen.now rule.now }
{
    if rule.word != Word::ALLOW {
        return false;
    }
    is_for_each(seen, rule)
}

// Whether one of the rules allows each of these calls.
fn one_allows(rules: &[Rule], seen: &Seen) -> bool
    ensures { IsTrue result → OneAllows rules.now seen.now }
{
    for rule in rules {
        if allows(seen, rule) {
            return true;
        }
    }
    false
}

// Whether a profile allows each of these calls.
fn allows_each(profile: &Profile, seen: &Seen) -> bool
    ensures { IsTrue result → AllowsEach profile.now seen.now }
{
    if !are_for(profile.machines(), seen.arch.token(), seen.nr) {
        return false;
    }
    one_allows(profile.rules(), seen)
}

/// Whether a profile allows each call that was gathered.
pub(crate) fn allows_seen(profile: &Profile, calls: &[Seen]) -> bool
    ensures { IsTrue result → All (AllowsEach profile.now) calls.now }
{
    for seen in calls {
        if !allows_each(profile, seen) {
            return false;
        }
    }
    true
}

// Whether a call has a name.
fn has_name(call: &Seen, name: &str) -> bool
    ensures { IsTrue result → number_in (table_of call.now.arch) name.now ≡ Some call.now.nr }
{
    match call_number(call.arch, name) {
        Some(number) => number == call.nr,
        None => false,
    }
}

// Whether one of the calls that logs show has a name.
fn is_of_record(calls: &[Seen], name: &str) -> bool
    ensures { (native : Arch) (texts : List (List ℕ)) → AreSeen native texts calls.now → IsTrue result
        → IsOfRecord native texts name.now }
{
    for call in calls {
        if has_name(call, name) {
            return true;
        }
    }
    false
}

// Whether a rule is for a call by a name of these or of the lists.
fn is_named(calls: &[Seen], runtime: Option<Runtime>, rule: &Rule) -> bool
    ensures { (native : Arch) (texts : List (List ℕ)) → AreSeen native texts calls.now → IsTrue result
        → IsNamed native texts runtime rule.now }
{
    let Some(name) = call_name(rule.arch, rule.nr) else {
        return false;
    };
    if is_listed(runtime, name) {
        return true;
    }
    is_of_record(calls, name)
}

/// Whether each rule is for a call by a name of these or of the lists.
pub(crate) fn are_named(calls: &[Seen], runtime: Option<Runtime>, rules: &[Rule]) -> bool
    ensures { (native : Arch) (texts : List (List ℕ)) → AreSeen native texts calls.now → IsTrue result
        → All (IsNamed native texts runtime) rules.now }
{
    for rule in rules {
        if !is_named(calls, runtime, rule) {
            return false;
        }
    }
    true
}

/// Whether the default of a profile is the verdict that was asked for.
pub(crate) fn is_rest(profile: &Profile, otherwise: Otherwise) -> bool
    ensures { IsTrue result → profile.now.default_word ≡ rest_word otherwise }
{
    profile.default_word() == otherwise.word()
}
