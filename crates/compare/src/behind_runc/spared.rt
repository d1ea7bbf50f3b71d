//! Whether a profile spares the calls that a stub answers.
ghost use Rattle.std.specs.Prelude.{◌≡◌, ◌↔◌, ◌⊎◌, IsTrue, All, Any};
ghost use Rattle.machines.specs.Numbers.{HasCall};
ghost use Rattle.compare.specs.Spared.{AreSpared, IsNoCall, IsVacant, Spares, is_mild};
ghost use Rattle.compare.specs.inner.Spans.{AreBeyond, AreLeft, AreLeftIn, cut, spans};

use crate::behind_runc::stub::Calls;
use call_record::{Word, lets_through};
use machines::{Arch, LEAST_X32_NUMBER, Numbers};
use profile::{Profile, Rule, are_for};

// Stretches of numbers, in each of which all are of the same machines.
const SPANS: &[Numbers] = &[
    Numbers { first: 0, last: 0 },
    Numbers {
        first: 1,
        last: LEAST_X32_NUMBER - 1,
    },
    Numbers {
        first: LEAST_X32_NUMBER,
        last: 0x7fff_ffff,
    },
    NO_CALLS,
    Numbers {
        first: 0xc000_0000,
        last: u32::MAX - 1,
    },
    Numbers {
        first: u32::MAX,
        last: u32::MAX,
    },
];

// The numbers with the token of x86-64 that are no call.
const NO_CALLS: Numbers = Numbers {
    first: 0x8000_0000,
    last: 0xbfff_ffff,
};

// Whether a verdict refuses the call, and kills no process and no thread.
fn is_mild(verdict: Word) -> bool
    ensures { result ≡ is_mild verdict }
{
    if lets_through(verdict) {
        return false;
    }
    let action = verdict.action();
    if action == Word::KILL_PROCESS {
        return false;
    }
    action != Word::KILL_THREAD
}

// Whether a number is no call of any machine.
fn is_no_call(token: u32, number: u32) -> bool
    ensures { IsTrue result ↔ IsNoCall token number }
{
    if token != Arch::X86_64.token() {
        return false;
    }
    NO_CALLS.contain(number)
}

// Whether a number is a call of a listed machine, or of none at all.
fn is_listed(machines: &[Arch], token: u32, number: u32) -> bool
    ensures { IsTrue result ↔ (Any (HasCall token number) machines.now ⊎ IsNoCall token number) }
{
    if are_for(machines, token, number) {
        return true;
    }
    is_no_call(token, number)
}

// Whether a machine has the call of this token and number.
fn has_call(arch: Arch, token: u32, number: u32) -> bool
    ensures { IsTrue result ↔ HasCall token number arch }
{
    if arch.token() != token {
        return false;
    }
    arch.has_number(number)
}

// Whether no call has a number: 0 on s390x and s390.
fn is_vacant(token: u32, number: u32) -> bool
    ensures { IsTrue result ↔ IsVacant token number }
{
    if number != 0 {
        return false;
    }
    if token == Arch::LinuxS390x.token() {
        return true;
    }
    token == Arch::LinuxS390.token()
}

// Whether a rule is for none of these numbers. Suppose that it is for the machine that has the first of them, and that a call has that one.
// Then the rule must be for a number below them.
fn are_beyond(rule: &Rule, token: u32, numbers: Numbers) -> bool
    ensures { IsTrue result ↔ AreBeyond token numbers rule.now }
{
    if rule.arch.token() != token {
        return true;
    }
    if numbers.contain(rule.nr) {
        return false;
    }
    if !has_call(rule.arch, token, numbers.first) {
        return true;
    }
    if is_vacant(token, numbers.first) {
        return true;
    }
    rule.nr < numbers.first
}

fn are_beyond_all(rules: &[Rule], token: u32, numbers: Numbers) -> bool
    ensures { IsTrue result ↔ All (AreBeyond token numbers) rules.now }
{
    rules.iter().all(|rule| are_beyond(rule, token, numbers))
}

// Whether a profile spares the calls of some numbers, which are of the same machines.
fn are_spared(profile: &Profile, token: u32, numbers: Numbers) -> bool
    ensures { IsTrue result ↔ AreLeft profile.now token numbers }
{
    if !is_listed(profile.machines(), token, numbers.first) {
        return false;
    }
    are_beyond_all(profile.rules(), token, numbers)
}

// The numbers that are in a stretch.
fn cut(numbers: Numbers, span: Numbers) -> Numbers
    ensures { result ≡ cut numbers span }
{
    Numbers {
        first: numbers.first.max(span.first),
        last: numbers.last.min(span.last),
    }
}

// Whether a profile spares those of the calls that are in a stretch.
fn are_spared_in(profile: &Profile, calls: &Calls, span: Numbers) -> bool
    ensures { IsTrue result ↔ AreLeftIn profile.now calls.now span }
{
    let part = cut(calls.numbers, span);
    if part.first > part.last {
        return true;
    }
    are_spared(profile, calls.token, part)
}

fn spans() -> &'static [Numbers]
    ensures { result.now ≡ spans }
{
    SPANS
}

// Whether a profile spares those of the calls that are in one of the stretches.
fn are_spared_in_each(profile: &Profile, calls: &Calls, spans: &[Numbers]) -> bool
    ensures { IsTrue result ↔ All (AreLeftIn profile.now calls.now) spans.now }
{
    spans
        .iter()
        .all(|span| are_spared_in(profile, calls, *span))
}

// Whether a profile spares each of the calls, of which this is the last.
fn spares_to(profile: &Profile, calls: &Calls, last: u32) -> bool
    requires { last ≡ calls.now.numbers.last }
    ensures { IsTrue result ↔ AreSpared profile.now calls.now }
{
    are_spared_in_each(profile, calls, spans())
}

fn spares_each(profile: &Profile, calls: &Calls) -> bool
    ensures { IsTrue result ↔ AreSpared profile.now calls.now }
{
    spares_to(profile, calls, calls.numbers.last)
}

fn spares_all(profile: &Profile, answered: &[Calls]) -> bool
    ensures { IsTrue result ↔ All (AreSpared profile.now) answered.now }
{
    answered.iter().all(|calls| spares_each(profile, calls))
}

/// Whether a profile names none of the calls that a stub answers, and its default refuses them without a kill.
pub fn spares(profile: &Profile, answered: &[Calls]) -> bool
    ensures { IsTrue result ↔ Spares profile.now answered.now }
{
    if !is_mild(profile.default_word()) {
        return false;
    }
    spares_all(profile, answered)
}
