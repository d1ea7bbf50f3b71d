//! What a listener responds to a call: the end of its line.
ghost use Rattle.std.specs.Prelude.{◌≡◌, ℕ, List, MatchOption};
ghost use Rattle.std.specs.Option.{option_map};
ghost use Rattle.script.specs.inner.Reading.{number_at};
ghost use Rattle.machines.specs.Arch.{family_of};
ghost use Rattle.machines.specs.declared.arch.Family.TheVariants.{Whole};
ghost use Rattle.processes.specs.declared.outcome.Response.{Response};
ghost use Rattle.session.specs.Responses.{Parted, Responds};
ghost use Rattle.session.specs.inner.Responding.{ended_at, error_at, last_split, numbered_end, worded};

use machines::{Arch, Family};
use processes::Response;
use script::MAX_LINE;
use texts::{decimal, hexadecimal};

// The number that a text is, read as a script's numbers are.
#[tactic(auto, unfolding(script::specs::inner::Reading::number_at))]
fn number(text: &str) -> Option<u64>
    ensures { result ≡ number_at text.now }
{
    match text.strip_prefix("0x") {
        Some(digits) => hexadecimal(digits),
        None => decimal(text),
    }
}

// What stands before the last space of a text, and what stands behind it.
fn last_field(text: &str) -> Option<(&str, &str)>
    ensures { option_map (λ parts. (parts.0.now, parts.1.now)) result ≡ last_split text.now }
{
    text.rsplit_once(' ')
}

// An error of Linux, by its number.
fn error(number: u64) -> Option<Response>
    ensures { result ≡ error_at number }
{
    if number == 0 {
        return None;
    }
    if number > 4095 {
        return None;
    }
    Some(Response::Error(number as u16))
}

// What a word and a number say.
fn said(word: &str, number: u64) -> Option<Response>
    ensures { result ≡ worded word.now number }
{
    if word == "value" {
        return Some(Response::Value(number));
    }
    if word == "error" {
        return error(number);
    }
    None
}

// The word before a number, as a response, and what stands before both.
#[tactic(auto, unfolding(crate::specs::inner::Responding::numbered_end))]
fn numbered(text: &str, number: u64) -> Option<(&str, Response)>
    ensures { option_map (λ p. (p.0.now, p.1)) result ≡ numbered_end text.now number }
{
    let (before, word) = last_field(text)?;
    let response = said(word, number)?;
    Some((before, response))
}

// The response at the end of a text, and what stands before it.
#[tactic(auto, unfolding(crate::specs::inner::Responding::ended_at))]
fn ended(text: &str) -> Option<(&str, Response)>
    ensures { option_map (λ p. (p.0.now, p.1)) result ≡ ended_at text.now }
{
    let (before, last) = last_field(text)?;
    if let Some(number) = number(last) {
        return numbered(before, number);
    }
    if last == "continue" {
        return Some((before, Response::Continue));
    }
    None
}

// The call and the response that a line says, if it says both.
fn responding(line: &[u8]) -> Option<(&str, Response)>
    ensures { MatchOption result ((call : List ℕ) (response : Response) → Responds line.now call response → ⊥) (λ p. Responds line.now p.0.now p.1) }
{
    if line.len() > MAX_LINE {
        return None;
    }
    let Ok(text) = str::from_utf8(line) else {
        return None;
    };
    let Some(_arguments) = text.strip_prefix("call ") else {
        return None;
    };
    ended(text)
}

// A line of a machine with listeners.
fn parted_whole(line: &[u8]) -> (&[u8], Option<Response>)
    ensures { Parted Whole line.now result.0.now result.1 }
{
    match responding(line) {
        Some((call, response)) => (call.as_bytes(), Some(response)),
        None => (line, None),
    }
}

/// What a listener responds to the call of a line, and the line without it. A line that says no response is whole.
pub(crate) fn parted(native: Arch, line: &[u8]) -> (&[u8], Option<Response>)
    ensures { Parted (family_of native) line.now result.0.now result.1 }
{
    match native.family() {
        Family::Chosen => (line, None),
        Family::Whole => parted_whole(line),
    }
}
