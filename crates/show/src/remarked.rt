//! What is told of a file that a command read as a bundle and refused: what it is, or at which place it is wrong.
ghost use Rattle.std.specs.Prelude.{◌≡◌, ◌++◌, IfOk, codes, string_bytes};
ghost use Rattle.profile_json.specs.Fault.{fault_of};
ghost use Rattle.profile_json.specs.Place.{BreaksAt};
ghost use Rattle.show.specs.Read.{IsPlaceLine};
ghost use Rattle.show.specs.Remarked as spec;

use crate::reading::place_line;
use machines::Arch;
use profile_json::{Document, ProfileError, Refusal};
use section::{line_of, take};
use std::alloc::{AllocError, Global};

// The line that says what a text is, and behind it what readers do not take alike in it.
fn with_unlike(alloc: Global, line: &str, unlike: &[u8]) -> Result<Vec<u8>, AllocError>
    ensures { IfOk result (λ text. text.items ≡ line.now ++ unlike.now) }
{
    let mut text = Vec::new(alloc);
    text.extend_from_slice(line.as_bytes())?;
    text.extend_from_slice(unlike)?;
    Ok(text)
}

// The line of the place at which the bundle of a file is wrong.
fn refused_at(
    alloc: Global,
    name: &str,
    document: &Document,
    refusal: &Refusal,
) -> Result<Vec<u8>, AllocError>
    ensures { IfOk result (λ text. spec.IsPlaceText refusal.now.place name.now text.items) }
{
    let line = place_line(alloc, document, refusal)?;
    let text = format!(in alloc; "ccell: {name}: {line}")?;
    Ok(text.into_bytes())
}

// The place at which a bundle is wrong; nothing is told of one that is read.
fn place_told(alloc: Global, name: &str, document: &Document) -> Result<Vec<u8>, AllocError>
    ensures { IfOk result (λ text. spec.IsRefusalText document.now.native document.now.bytes name.now text.items) }
{
    match document.outcome() {
        Ok(_read) => Ok(Vec::new(alloc)),
        Err(refusal) => match refusal.error {
            ProfileError::OutOfMemory => Err(AllocError),
            _ => refused_at(alloc, name, document, refusal),
        },
    }
}

/// What is told of the bytes of a file of a name, which a command reads as a bundle for a native machine and refuses. Of a text that is
/// neither a bundle nor a section, or that readers do not take alike, it is what the text is. Of a bundle it is the place of the fault,
/// unless the answer has told it.
pub fn remark_on(
    alloc: Global,
    native: Arch,
    name: &str,
    bytes: Vec<u8>,
    has_told: bool,
) -> Result<Vec<u8>, AllocError>
    ensures { IfOk result (λ text. spec.IsRemarkOn native name.now bytes.items text.items) }
{
    let taken = take(alloc, native, bytes)?;
    match line_of(taken.kind) {
        Some(line) => with_unlike(alloc, line, &taken.unlike),
        None => {
            if has_told {
                return Ok(Vec::new(alloc));
            }
            place_told(alloc, name, &taken.document)
        }
    }
}
