//! What stands in a section beside its profile: the flags with which a runtime loads the filter, and where its listener is.
ghost use Rattle.std.specs.Prelude.{◌≡◌, ◌++◌, IfOk, map};
ghost use Rattle.json.specs.Value.{value_view};
ghost use Rattle.section.specs.Beside as spec;

use crate::unread::{list_of, put_shown};
use json::{Error, Scratch, Value};
use machines::{Arch, Family};
use std::alloc::{AllocError, Global};

// A text; of another value the empty one.
fn text_of<'v>(value: &'v Value<'_>) -> &'v str
    ensures { result.now ≡ spec.text_of (value_view value.now) }
{
    match value {
        Value::String(text) => text,
        _ => "",
    }
}

// Adds a text in visible characters behind a space.
fn put_word(lines: &mut Vec<u8>, value: &Value<'_>) -> Result<(), AllocError>
    ensures { IfOk result (λ _. lines.new.items ≡ lines.old.items ++ spec.word_of (value_view value.now)) }
{
    lines.extend_from_slice(b" ")?;
    put_shown(lines, text_of(value).as_bytes())
}

// Adds texts, each behind a space.
fn put_words(lines: &mut Vec<u8>, values: &[Value<'_>]) -> Result<(), AllocError>
    ensures { IfOk result (λ _. lines.new.items ≡ lines.old.items ++ spec.words_of (map value_view values.now)) }
{
    for value in values {
        put_word(lines, value)?;
    }
    Ok(())
}

// Adds the line of the flags.
fn put_flags(lines: &mut Vec<u8>, flags: &[Value<'_>]) -> Result<(), AllocError>
    ensures { IfOk result (λ _. lines.new.items ≡ lines.old.items ++ spec.flags_line (map value_view flags.now)) }
{
    if flags.is_empty() {
        return Ok(());
    }
    lines.extend_from_slice(b"flags")?;
    put_words(lines, flags)?;
    lines.extend_from_slice(b"\n")
}

// Adds the line of a text.
fn put_text(lines: &mut Vec<u8>, what: &str, text: &str) -> Result<(), AllocError>
    ensures { IfOk result (λ _. lines.new.items ≡ lines.old.items ++ spec.text_line what.now text.now) }
{
    if text.is_empty() {
        return Ok(());
    }
    lines.extend_from_slice(what.as_bytes())?;
    put_shown(lines, text.as_bytes())?;
    lines.extend_from_slice(b"\n")
}

// Adds the line of the flags, if there are some.
fn put_flags_of(lines: &mut Vec<u8>, section: &Value<'_>) -> Result<(), AllocError>
    ensures { IfOk result (λ _. lines.new.items ≡ lines.old.items ++ spec.flags_of (value_view section.now)) }
{
    match section.get("flags") {
        Some(flags) => put_flags(lines, list_of(flags)),
        None => Ok(()),
    }
}

// Adds the line of the listener's path, if there is one.
fn put_path_of(lines: &mut Vec<u8>, section: &Value<'_>) -> Result<(), AllocError>
    ensures { IfOk result (λ _. lines.new.items ≡ lines.old.items ++ spec.path_of (value_view section.now)) }
{
    match section.get("listenerPath") {
        Some(path) => put_text(lines, "listener ", text_of(path)),
        None => Ok(()),
    }
}

// Adds the line of the listener's metadata, if there are some.
fn put_metadata_of(lines: &mut Vec<u8>, section: &Value<'_>) -> Result<(), AllocError>
    ensures { IfOk result (λ _. lines.new.items ≡ lines.old.items ++ spec.metadata_of (value_view section.now)) }
{
    match section.get("listenerMetadata") {
        Some(text) => put_text(lines, "metadata ", text_of(text)),
        None => Ok(()),
    }
}

// Adds the lines of a section.
fn put_section(lines: &mut Vec<u8>, section: &Value<'_>) -> Result<(), AllocError>
    ensures { IfOk result (λ _. lines.new.items ≡ lines.old.items ++ spec.section_lines (value_view section.now)) }
{
    put_flags_of(lines, section)?;
    put_path_of(lines, section)?;
    put_metadata_of(lines, section)
}

// Adds the lines of what stands under `linux`.
fn put_linux(lines: &mut Vec<u8>, value: &Value<'_>) -> Result<(), AllocError>
    ensures { IfOk result (λ _. lines.new.items ≡ lines.old.items ++ spec.linux_lines (value_view value.now)) }
{
    match value.get("seccomp") {
        Some(section) => put_section(lines, section),
        None => Ok(()),
    }
}

// Adds the lines of a bundle.
fn put_bundle(lines: &mut Vec<u8>, value: &Value<'_>) -> Result<(), AllocError>
    ensures { IfOk result (λ _. lines.new.items ≡ lines.old.items ++ spec.bundle_lines (value_view value.now)) }
{
    match value.get("linux") {
        Some(linux) => put_linux(lines, linux),
        None => Ok(()),
    }
}

// The lines of a value.
fn lines_of_value(alloc: Global, value: &Value<'_>) -> Result<Vec<u8>, AllocError>
    ensures { IfOk result (λ lines. lines.items ≡ spec.bundle_lines (value_view value.now)) }
{
    let mut lines = Vec::new(alloc);
    put_bundle(&mut lines, value)?;
    Ok(lines)
}

// The lines of a text.
fn lines_of(alloc: Global, bytes: &[u8]) -> Result<Vec<u8>, AllocError>
    ensures { IfOk result (λ lines. spec.AreLinesOf bytes.now lines.items) }
{
    let mut scratch = Scratch::new(alloc);
    match Value::from_slice(alloc, bytes, &mut scratch) {
        Ok(value) => lines_of_value(alloc, &value),
        Err(Error::Invalid) => Ok(Vec::new(alloc)),
        Err(_no_memory) => Err(AllocError),
    }
}

/// A line for the flags of a bundle's section, one for the path of its listener, and one for the metadata, if these are there. No
/// verdict depends on them. For the machines of the chosen lists no lines are told.
pub fn beside_of(alloc: Global, native: Arch, bundle: &[u8]) -> Result<Vec<u8>, AllocError>
    ensures { IfOk result (λ lines. spec.AreBeside native bundle.now lines.items) }
{
    match native.family() {
        Family::Chosen => Ok(Vec::new(alloc)),
        Family::Whole => lines_of(alloc, bundle),
    }
}
