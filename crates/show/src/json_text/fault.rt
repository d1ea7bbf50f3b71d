//! Where and why a text is no JSON.
use json::is_number;
use serde_json::{Error, Value};
use std::alloc::Global;
use std::fmt;

/// Where a text is no JSON, and why.
#[derive(Clone, Copy, Drop)]
pub struct TextFault {
    pub line: usize,
    pub column: usize,
    cause: &'static str,
}

impl fmt::Display for TextFault {
    fn fmt<W: fmt::Write>(&self, f: &mut fmt::Formatter<W>) -> fmt::Result {
        let TextFault {
            line,
            column,
            cause,
        } = *self;
        write!(f, "line {line}, column {column}: {cause}")
    }
}

// The line and the column, from 1, of the byte at a place.
pub(crate) fn point_of(text: &[u8], at: usize) -> (usize, usize) {
    let before = text.get(..at).unwrap_or(text);
    let mut point = (1usize, 1usize);
    for byte in before {
        point = if *byte == b'\n' {
            (point.0.saturating_add(1), 1)
        } else {
            (point.0, point.1.saturating_add(1))
        };
    }
    point
}

// The place of a line and a column.
fn place_at(text: &[u8], point: (usize, usize)) -> usize {
    let mut here = (1usize, 1usize);
    for (at, byte) in text.iter().enumerate() {
        if here == point {
            return at;
        }
        here = if *byte == b'\n' {
            (here.0.saturating_add(1), 1)
        } else {
            (here.0, here.1.saturating_add(1))
        };
    }
    text.len()
}

// The bytes up to a place, and those from it on.
fn split_at(text: &[u8], at: usize) -> (&[u8], &[u8]) {
    let before = text.get(..at).unwrap_or(text);
    (before, text.get(at..).unwrap_or(&[]))
}

fn is_of_number(byte: u8) -> bool {
    byte.is_ascii_digit() || matches!(byte, b'-' | b'+' | b'.' | b'e' | b'E')
}

// How many bytes at the end may be of a number.
fn count_of_number(bytes: &[u8]) -> usize {
    let mut count = 0usize;
    for byte in bytes {
        count = if is_of_number(*byte) {
            count.saturating_add(1)
        } else {
            0
        };
    }
    count
}

// Whether bytes are a number that no reader takes.
fn is_too_large(alloc: Global, number: &[u8]) -> bool {
    match str::from_utf8(number) {
        Ok(text) => is_number(text) && Value::from_slice(alloc, number).is_err(),
        Err(_) => false,
    }
}

// Where a number begins that no reader takes, if one ends at a place.
fn large_number(alloc: Global, before: &[u8]) -> Option<usize> {
    let start = before.len().saturating_sub(count_of_number(before));
    let (_, number) = split_at(before, start);
    if is_too_large(alloc, number) {
        Some(start)
    } else {
        None
    }
}

// How deep the bytes have been nested, and whether they end in a text.
#[derive(Clone, Copy)]
struct Nesting {
    depth: usize,
    deepest: usize,
    in_text: bool,
    is_escaped: bool,
}

// What is known after a byte of a text between quotation marks.
fn after_in_text(nesting: Nesting, byte: u8) -> Nesting {
    Nesting {
        in_text: nesting.is_escaped || byte != b'"',
        is_escaped: !nesting.is_escaped && byte == b'\\',
        ..nesting
    }
}

// What is known after a byte.
fn after(nesting: Nesting, byte: u8) -> Nesting {
    if nesting.in_text {
        return after_in_text(nesting, byte);
    }
    let depth = match byte {
        b'{' | b'[' => nesting.depth.saturating_add(1),
        b'}' | b']' => nesting.depth.saturating_sub(1),
        _ => nesting.depth,
    };
    Nesting {
        depth,
        deepest: nesting.deepest.max(depth),
        in_text: byte == b'"',
        ..nesting
    }
}

// Whether bytes are nested deeper than a reader follows.
fn is_deep(bytes: &[u8]) -> bool {
    let mut nesting = Nesting {
        depth: 0,
        deepest: 0,
        in_text: false,
        is_escaped: false,
    };
    for byte in bytes {
        nesting = after(nesting, *byte);
    }
    nesting.deepest > 127
}

const MARK: &[u8] = b"\xef\xbb\xbf";

// Why a whole text is no JSON, if it is none from its beginning on.
fn cause_of_whole(text: &[u8]) -> Option<&'static str> {
    if text.starts_with(MARK) {
        return Some("no JSON: a byte order mark, which JSON does not begin with");
    }
    if text.trim_ascii().is_empty() {
        return Some("no JSON: the text is empty");
    }
    None
}

// Why a text is no JSON at a place at which a reader stopped, and where that begins.
fn cause_at(alloc: Global, text: &[u8], at: usize, is_cut: bool) -> (&'static str, usize) {
    if str::from_utf8(text).is_err() {
        return ("no JSON: the text has bytes that are no UTF-8", at);
    }
    let (before, rest) = split_at(text, at);
    if is_deep(before) {
        return (
            "no JSON that is read: nested deeper than 127",
            at.saturating_sub(1),
        );
    }
    if let Some(start) = large_number(alloc, before) {
        return ("no JSON that is read: a number above 10^308", start);
    }
    if is_cut {
        return ("no JSON: the text ends too early", text.len());
    }
    match rest.first() {
        Some(b'/') => ("no JSON: a comment, which JSON does not have", at),
        Some(b'#') => ("no JSON: a comment, which JSON does not have", at),
        _ => ("no JSON", at),
    }
}

/// Where and why a text is no JSON, by the error of the reader of values.
pub fn fault_of(alloc: Global, text: &[u8], error: &Error) -> TextFault {
    if let Some(cause) = cause_of_whole(text) {
        return TextFault {
            line: 1,
            column: 1,
            cause,
        };
    }
    let at = place_at(text, (error.line(), error.column().max(1)));
    let (cause, at) = cause_at(alloc, text, at, error.is_eof());
    let (line, column) = point_of(text, at);
    TextFault {
        line,
        column,
        cause,
    }
}
