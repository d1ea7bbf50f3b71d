//! What `ccell compare` tells of flags and listeners, which stand beside the profiles of bundles.
ghost use Rattle.std.specs.Prelude.{◌≡◌, ◌++◌, IfOk};
ghost use Rattle.cli.specs.Compared.{TellsCompared, TellsSides, end_beside, side_head, side_rest, side_text, sides_text};

use profile_json::Document;
use section::beside_of;
use std::alloc::{AllocError, Global};
use wording::{End, Told};

// Adds which of two bundles is spoken of.
fn put_head(text: &mut Vec<u8>, side: &str) -> Result<(), AllocError>
    ensures { IfOk result (λ _. text.new.items ≡ text.old.items ++ side_head side.now) }
{
    text.extend_from_slice(b"beside its profile the ")?;
    text.extend_from_slice(side.as_bytes())?;
    Ok(())
}

// Adds what it has.
fn put_rest(text: &mut Vec<u8>, lines: &[u8]) -> Result<(), AllocError>
    ensures { IfOk result (λ _. text.new.items ≡ text.old.items ++ side_rest lines.now) }
{
    match lines {
        [] => text.extend_from_slice(b" bundle has nothing\n"),
        [_, ..] => {
            text.extend_from_slice(b" bundle has\n")?;
            text.extend_from_slice(lines)?;
            Ok(())
        }
    }
}

// Adds what one of two bundles has beside its profile.
fn put_side(text: &mut Vec<u8>, side: &str, lines: &[u8]) -> Result<(), AllocError>
    ensures { IfOk result (λ _. text.new.items ≡ text.old.items ++ side_text side.now lines.now) }
{
    put_head(text, side)?;
    put_rest(text, lines)
}

// What both have, unless it is the same.
fn sides_of(alloc: Global, old: &[u8], new: &[u8]) -> Result<Vec<u8>, AllocError>
    ensures { IfOk result (λ text. text.items ≡ sides_text old.now new.now) }
{
    let mut text = Vec::new(alloc);
    if old == new {
        return Ok(text);
    }
    put_side(&mut text, "old", old)?;
    put_side(&mut text, "new", new)?;
    Ok(text)
}

// How it ends: with `atmost` it is done only if both have the same beside their profiles. Without flags some engines turn mitigations off.
fn end_of(at_most: bool, old: &[u8], new: &[u8], end: End) -> End
    ensures { result ≡ end_beside at_most old.now new.now end }
{
    if at_most {
        return end.only_if(old == new);
    }
    end
}

// What was told of two bundles, behind what they have beside their profiles.
fn behind_sides(
    alloc: Global,
    first: &Document,
    second: &Document,
    told: Told,
    at_most: bool,
) -> Result<Told, AllocError>
    ensures { second.now.native ≡ first.now.native
        → IfOk result (TellsSides at_most first.now.native first.now.bytes second.now.bytes told) }
{
    let old = beside_of(alloc, first.native(), first.bytes())?;
    let new = beside_of(alloc, second.native(), second.bytes())?;
    let mut bytes = sides_of(alloc, &old, &new)?;
    bytes.extend_from_slice(&told.bytes)?;
    Ok(Told {
        bytes,
        end: end_of(at_most, &old, &new, told.end),
    })
}

/// Compares the profiles of two bundles that were read for one machine, and tells of their flags and listeners if these are unlike.
pub(crate) fn compared_beside(
    alloc: Global,
    first: &Document,
    second: &Document,
    at_most: bool,
) -> Result<Told, AllocError>
    ensures { second.now.native ≡ first.now.native
        → IfOk result (TellsCompared at_most first.now.native first.now.bytes second.now.bytes) }
{
    let told = compare::compare(alloc, first, second, at_most)?;
    if told.end.is_refused() {
        return Ok(told);
    }
    behind_sides(alloc, first, second, told, at_most)
}
