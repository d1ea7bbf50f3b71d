//! Lines of a log.
ghost use Rattle.std.specs.Prelude.{◌≡◌};
ghost use Rattle.std.specs.Option.{option_map};
ghost use Rattle.strace_logs.specs.Line as spec;
ghost use Rattle.strace_logs.specs.Unread as unread;

use crate::strace::arguments::{arguments, given};
use crate::strace::call::Call;
use crate::strace::machine_words::machine_of;
use crate::strace::numbers::number;
use machines::Arch;
use texts::split;

// Whether strace writes a number in the place of a name.
fn is_unnamed(name: &str) -> bool
    ensures { result ≡ spec.is_unnamed name.now }
{
    name.strip_prefix("syscall_0x").is_some()
}

// The machine of a call. It is the native one if calls without names are asked for, and this is one.
fn machine_by(unnamed: bool, native: Arch, name: &str, nr: u32) -> Option<Arch>
    ensures { result ≡ spec.machine_by unnamed native name.now nr }
{
    if unnamed && is_unnamed(name) {
        Some(native)
    } else {
        machine_of(native, name, nr)
    }
}

// The call of a name and a number, by what stands behind `(`.
#[tactic(auto, unfolding(crate::specs::Line::called))]
fn called<'a>(unnamed: bool, native: Arch, name: &str, nr: u32, text: &'a str) -> Option<Call<'a>>
    ensures { option_map (λ call. (call.arch, call.nr, call.args)) result ≡ spec.called unnamed native name.now nr text.now }
{
    let arch = machine_by(unnamed, native, name, nr)?;
    let given = given(text)?;
    Some(Call {
        arch,
        nr,
        args: arguments(given),
        given,
    })
}

// The call of a number, by what stands behind `]`.
#[tactic(auto, unfolding(crate::specs::Line::numbered))]
fn numbered(unnamed: bool, native: Arch, nr: u32, text: &str) -> Option<Call<'_>>
    ensures { option_map (λ call. (call.arch, call.nr, call.args)) result ≡ spec.numbered unnamed native nr text.now }
{
    let (front, behind) = split(text, '(')?;
    let name = front.strip_prefix(" ")?;
    called(unnamed, native, name, nr, behind)
}

// The call that a line of a log tells, if it tells one.
#[tactic(auto, unfolding(crate::specs::Line::call_by))]
fn call_by(unnamed: bool, native: Arch, line: &str) -> Option<Call<'_>>
    ensures { option_map (λ call. (call.arch, call.nr, call.args)) result ≡ spec.call_by unnamed native line.now }
{
    let (_, behind) = split(line, '[')?;
    let (digits, text) = split(behind, ']')?;
    let nr = number(digits)?;
    numbered(unnamed, native, nr, text)
}

// The call that a line of a log tells by its name, if it tells one.
fn call_on(native: Arch, line: &str) -> Option<Call<'_>>
    ensures { option_map (λ call. (call.arch, call.nr, call.args)) result ≡ spec.call_on native line.now }
{
    call_by(false, native, line)
}

/// The call that a line of a log tells by its name, or by its number alone.
pub fn shown_on(native: Arch, line: &str) -> Option<Call<'_>>
    ensures { option_map (λ call. (call.arch, call.nr, call.args)) result ≡ spec.shown_on native line.now }
{
    call_by(true, native, line)
}

/// The call that a line of a log tells by its name, if it is text and tells one.
pub fn call_in(native: Arch, line: &[u8]) -> Option<Call<'_>>
    ensures { option_map (λ call. (call.arch, call.nr, call.args)) result ≡ spec.call_in native line.now }
{
    match str::from_utf8(line) {
        Ok(text) => call_on(native, text),
        Err(_) => None,
    }
}

// Whether a text begins as what strace writes behind the number of a line that tells no call: the end of one, a signal, an exit.
fn is_mark(text: &str) -> bool
    ensures { result ≡ unread.is_mark text.now }
{
    if text.strip_prefix(" <... ").is_some() {
        return true;
    }
    if text.strip_prefix(" --- ").is_some() {
        return true;
    }
    text.strip_prefix(" +++ ").is_some()
}

/// Whether a line tells no call, but the end of one, a signal or an exit; or is strace's own, or empty.
pub fn is_remark(line: &str) -> bool
    ensures { result ≡ unread.is_remark line.now }
{
    if line.strip_prefix("strace: ").is_some() {
        return true;
    }
    match split(line, ']') {
        Some((_, text)) => is_mark(text),
        None => line.is_empty(),
    }
}
