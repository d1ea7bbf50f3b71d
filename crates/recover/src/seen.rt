//! What was seen of a filter is looked at again before it is told.
ghost use Rattle.std.specs.Prelude.{◌≡◌, IfSome, None, true};
ghost use Rattle.kernel_check.specs.Lent.{accepted_insns};
ghost use Rattle.recover.specs.Unsaid.{AreAlike, AreUnlike, HaveOneName, IsAnswer, IsNamed, IsSeen, IsUnnamed};
ghost use Rattle.wording.specs.Phrases.{machine_with};

use crate::text::is_given;
use crate::unsaid::{Shown, Unsaid};
use bpf_interp::verdict;
use call_record::{Record, Word, words_are_a_record};
use call_tables::call_name;
use kernel_check::Accepted;
use machines::{Family, compared, is_narrow};
use wording::machine_with;

// Whether a filter gives a call the verdict that is shown.
fn answers(program: &Accepted<'_>, one: &Shown) -> bool
    ensures { result ≡ true → IsAnswer (accepted_insns program.now) one.now }
{
    words_are_a_record(&one.call);
    verdict(program, &one.call) == one.given
}

// Whether it gives two calls unlike verdicts.
fn are_unlike(program: &Accepted<'_>, one: &Shown, other: &Shown) -> bool
    ensures { result ≡ true → AreUnlike (accepted_insns program.now) one.now other.now }
{
    answers(program, one) && answers(program, other) && one.given != other.given
}

// Whether two calls have one machine and one number, and arguments that are compared alike.
fn are_alike(narrow: bool, one: &Record, other: &Record) -> bool
    ensures { result ≡ true → AreAlike narrow one.now other.now }
{
    for index in 0..6 {
        if compared(narrow, one.args[index]) != compared(narrow, other.args[index]) {
            return false;
        }
    }
    one.arch == other.arch && one.nr == other.nr
}

// Whether a machine of the family has a call, and no name for it.
fn is_unnamed(family: Family, call: &Record) -> bool
    ensures { result ≡ true → IsUnnamed family call.now }
{
    match machine_with(family, call.arch, call.nr) {
        Some(arch) => arch.has_number(call.nr) && call_name(arch, call.nr).is_none(),
        None => false,
    }
}

// The name under which a machine of the family has a call.
fn name_of(family: Family, call: &Record) -> Option<&'static str>
    ensures { IfSome result (λ name. IsNamed family call.now name.now) }
{
    match machine_with(family, call.arch, call.nr) {
        Some(arch) => call_name(arch, call.nr),
        None => None,
    }
}

// Whether two calls stand under one name, with the same arguments.
fn have_one_name(family: Family, one: &Record, other: &Record) -> bool
    ensures { result ≡ true → HaveOneName family one.now other.now }
{
    match (name_of(family, one), name_of(family, other)) {
        (Some(name), Some(another)) => name == another && one.args == other.args,
        _ => false,
    }
}

// Whether no machine of the family has a call's token.
fn is_of_none(family: Family, call: &Record) -> bool
    ensures { result ≡ true → machine_with family call.now.arch call.now.nr ≡ None }
{
    machine_with(family, call.arch, call.nr).is_none()
}

// Whether what two calls show is so.
fn is_so_of_two(program: &Accepted<'_>, family: Family, found: &Unsaid) -> bool
    ensures { result ≡ true → IsSeen family (accepted_insns program.now) found.now }
{
    match found {
        Unsaid::Unnamed(one, other) => {
            are_unlike(program, one, other)
                && is_unnamed(family, &one.call)
                && is_unnamed(family, &other.call)
        }
        Unsaid::Pointer(one, other) => {
            are_unlike(program, one, other) && are_alike(false, &one.call, &other.call)
        }
        Unsaid::HighHalf(one, other) => {
            are_unlike(program, one, other)
                && are_alike(true, &one.call, &other.call)
                && is_narrow(one.call.arch)
        }
        Unsaid::UnlikeMachines(one, other) => {
            are_unlike(program, one, other) && have_one_name(family, &one.call, &other.call)
        }
        _ => false,
    }
}

// Whether what is told of a filter is so.
fn is_so(program: &Accepted<'_>, family: Family, found: &Unsaid) -> bool
    ensures { result ≡ true → IsSeen family (accepted_insns program.now) found.now }
{
    match found {
        Unsaid::OtherMachine(one) => {
            answers(program, one) && one.given != Word::KILL_THREAD && is_of_none(family, &one.call)
        }
        Unsaid::NoAction(one) => answers(program, one) && !is_given(one.given),
        Unsaid::Conditions(one) => answers(program, one),
        Unsaid::Unfollowed(one) => answers(program, one),
        Unsaid::TooLarge => true,
        Unsaid::OutOfMemory => true,
        _ => is_so_of_two(program, family, found),
    }
}

/// What was seen of a filter, if it is so, or else no more than that no section was found.
pub(crate) fn seen(program: &Accepted<'_>, family: Family, found: Unsaid) -> Unsaid
    ensures { IsSeen family (accepted_insns program.now) result }
{
    if is_so(program, family, &found) {
        return found;
    }
    Unsaid::TooLarge
}
