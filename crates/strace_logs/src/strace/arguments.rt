//! The arguments of a call.
ghost use Rattle.std.specs.Prelude.{◌≡◌, ◌<◌};
ghost use Rattle.std.specs.Option.{option_map};
ghost use Rattle.strace_logs.specs.Line.{argument_at, arguments_at, cut, given_at, or_zero, rest_at};
ghost use Rattle.strace_logs.specs.Line.{are_raw_at, is_raw, is_raw_at};

use crate::strace::numbers::value;
use texts::split;

// A text at the first such character; where there is none, the text, and nothing.
#[tactic(auto, unfolding(crate::specs::Line::cut))]
fn cut(text: &str, separator: char) -> (&str, &str)
    requires { separator < 128 }
    ensures { (result.0.now, result.1.now) ≡ cut separator text.now }
{
    match split(text, separator) {
        Some(parts) => parts,
        None => (text, ""),
    }
}

// The number that a text begins with, before a space and a comma, if it begins with one.
#[tactic(auto, unfolding(crate::specs::Line::argument_at))]
fn first(text: &str) -> Option<u64>
    ensures { or_zero result ≡ argument_at text.now }
{
    let (field, _) = cut(text, ' ');
    let (digits, _) = cut(field, ',');
    value(digits)
}

// What stands behind the first space.
#[tactic(auto, unfolding(crate::specs::Line::rest_at))]
fn rest(text: &str) -> &str
    ensures { result.now ≡ rest_at text.now }
{
    let (_, rest) = cut(text, ' ');
    rest
}

// That number, or 0.
fn argument(text: &str) -> u64
    ensures { result ≡ argument_at text.now }
{
    match first(text) {
        Some(value) => value,
        None => 0,
    }
}

/// Six arguments: 0 where strace wrote none.
#[tactic(auto, unfolding(crate::specs::Line::arguments_at))]
pub(crate) fn arguments(text: &str) -> [u64; 6]
    ensures { result ≡ arguments_at text.now }
{
    let b = rest(text);
    let c = rest(b);
    let d = rest(c);
    let e = rest(d);
    let f = rest(e);
    [
        argument(text),
        argument(b),
        argument(c),
        argument(d),
        argument(e),
        argument(f),
    ]
}

/// The argument at a place, counted from 0, if strace wrote one there.
pub(crate) fn written(text: &str, place: u8) -> Option<u64> {
    let mut left = text;
    for _ in 0..place {
        left = rest(left);
    }
    first(left)
}

// Whether the field that a text begins with is a number, if there is one.
#[tactic(auto, unfolding(crate::specs::Line::is_raw_at))]
fn is_raw_first(text: &str) -> bool
    ensures { result ≡ is_raw_at text.now }
{
    let (field, _) = cut(text, ' ');
    let (digits, _) = cut(field, ',');
    field.is_empty() || value(digits).is_some()
}

// Whether six fields are.
#[tactic(auto, unfolding(crate::specs::Line::are_raw_at))]
fn are_raw(text: &str) -> bool
    ensures { result ≡ are_raw_at text.now }
{
    let b = rest(text);
    let c = rest(b);
    let d = rest(c);
    let e = rest(d);
    let f = rest(e);
    is_raw_first(text)
        && is_raw_first(b)
        && is_raw_first(c)
        && is_raw_first(d)
        && is_raw_first(e)
        && is_raw_first(f)
}

/// Whether each argument that a line writes is a number, as `-e raw=all` has it.
#[tactic(auto, unfolding(crate::specs::Line::is_raw))]
pub(crate) fn is_raw(line: &str) -> bool
    ensures { result ≡ is_raw line.now }
{
    let Some((_, behind)) = split(line, '(') else {
        return true;
    };
    match given(behind) {
        Some(inside) => are_raw(inside),
        None => true,
    }
}

/// What stands before `)`, or else before the mark of a call that is not over.
pub(crate) fn given(text: &str) -> Option<&str>
    ensures { option_map (λ inside. inside.now) result ≡ given_at text.now }
{
    match split(text, ')') {
        Some((inside, _)) => Some(inside),
        None => match split(text, '<') {
            Some((inside, _)) => Some(inside),
            None => None,
        },
    }
}
