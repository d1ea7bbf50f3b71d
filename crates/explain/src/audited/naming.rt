//! Which process a line of a kernel's audit names.
ghost use Rattle.std.specs.Prelude.{◌≡◌, ◌++◌, IfOk, string_bytes};
ghost use Rattle.std.specs.List.{list_all};
ghost use Rattle.std.specs.Option.{option_map};
ghost use Rattle.texts.specs.Splits.{behind};
ghost use Rattle.explain.specs.Audit.{process_on};
ghost use Rattle.explain.specs.Naming as spec;

use crate::audited::event::text_of;
use crate::audited::fields::{rest_behind, split_word};
use std::alloc::{AllocError, Global};

// Whether a byte is visible ASCII.
fn is_visible(byte: u8) -> bool
    ensures { result ≡ spec.is_visible byte }
{
    if byte <= b' ' {
        return false;
    }
    byte < 0x7f
}

// Whether each byte of a text is.
fn is_plain(text: &str) -> bool
    ensures { result ≡ list_all spec.is_visible text.now }
{
    text.as_bytes().iter().all(|byte| is_visible(*byte))
}

// A value as it stands, or a mark in its place.
fn shown(value: Option<&str>) -> &str
    ensures { result.now ≡ spec.shown (option_map (λ text. text.now) value.entry) }
{
    match value {
        Some(text) => {
            if is_plain(text) {
                return text;
            }
            "?"
        }
        None => "?",
    }
}

// Adds what follows a key in a word, if the word begins with the key.
fn put_named(text: &mut String, key: &str, word: &[u8]) -> Result<(), AllocError>
    ensures { IfOk result (λ _. string_bytes text.new ≡ string_bytes text.old ++ spec.named_by key.now (behind key.now word.now)) }
{
    match rest_behind(key.as_bytes(), word) {
        Some(value) => {
            text.push_str(" ")?;
            text.push_str(key)?;
            text.push_str(shown(text_of(value)))
        }
        None => Ok(()),
    }
}

// Adds what a word tells of the process.
fn put_word(text: &mut String, word: &[u8]) -> Result<(), AllocError>
    ensures { IfOk result (λ _. string_bytes text.new ≡ string_bytes text.old ++ spec.naming word.now) }
{
    put_named(text, "pid=", word)?;
    put_named(text, "comm=", word)?;
    put_named(text, "exe=", word)
}

/// What the words of a line tell of the process: its number, its name and its program.
pub(crate) fn process_of(alloc: Global, line: &[u8]) -> Result<String, AllocError>
    ensures { IfOk result (λ text. string_bytes text ≡ process_on line.now) }
{
    let mut text = String::new(alloc);
    let mut rest = line;
    'word: while let Some((word, more)) = split_word(rest) {
        put_word(&mut text, word)?;
        rest = more;
    }
    put_word(&mut text, rest)?;
    Ok(text)
}
