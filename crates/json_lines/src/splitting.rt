//! The lines of an answer.
ghost use Rattle.std.specs.Prelude.{◌≡◌, ◌≤◌, IfOk, length};
ghost use Rattle.std.specs.Option.{option_map};
ghost use Rattle.texts.specs.Splits.{split_at};
ghost use Rattle.json_lines.specs.Lines as spec;
ghost use Rattle.json_lines.specs.inner.Tokens as inner;
ghost use Rattle.json_lines.specs.inner.Views.{texts};

use std::alloc::{AllocError, Global};

const LINE_FEED: u8 = 10;

/// A text at the first such byte, if it has one.
pub fn split(text: &[u8], byte: u8) -> Option<(&[u8], &[u8])>
    ensures { option_map (λ parts. (parts.0.now, parts.1.now)) result ≡ split_at byte text.now }
{
    for (at, here) in text.iter().enumerate() {
        if *here == byte {
            return Some((&text[..at], &text[at + 1..]));
        }
    }
    None
}

/// The parts of a text, each without the byte that ends it.
pub fn parts_of<'a>(alloc: Global, text: &'a [u8], end: u8) -> Result<Vec<&'a [u8]>, AllocError>
    ensures { IfOk result (λ parts. texts parts.items ≡ spec.parts_by end text.entry.now) }
{
    let mut parts = Vec::new(alloc);
    let mut rest = text;
    'part: while let Some((part, more)) = split(rest, end) {
        parts.push(part)?;
        rest = more;
    }
    if rest.is_empty() {
        return Ok(parts);
    }
    parts.push(rest)?;
    Ok(parts)
}

/// The lines of a text.
pub fn lines_of<'a>(alloc: Global, text: &'a [u8]) -> Result<Vec<&'a [u8]>, AllocError>
    ensures { IfOk result (λ lines. texts lines.items ≡ spec.lines_of text.entry.now) }
{
    parts_of(alloc, text, LINE_FEED)
}

// Whether a line is a detail.
fn is_detail(line: &[u8]) -> bool
    ensures { result ≡ inner.is_detail line.now }
{
    line.starts_with(b"  ")
}

/// How many details lines begin with.
pub fn count_of_details(lines: &[&[u8]]) -> usize
    ensures count { result ≡ inner.count (texts lines.now) }
    ensures within { result ≤ length lines.now }
{
    for (at, line) in lines.iter().enumerate() {
        if !is_detail(line) {
            return at;
        }
    }
    lines.len()
}

/// What a detail says.
pub fn said<'a>(line: &'a [u8]) -> &'a [u8]
    ensures { result.now ≡ inner.said line.entry.now }
{
    &line[line.len().min(2)..]
}
