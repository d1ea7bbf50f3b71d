//! What `ccell read`, `ccell annotate` and `ccell draw` tell.
ghost use Rattle.std.specs.Prelude.{◌≡◌, [], ◌∷◌, ℕ, List, IfOk, string_bytes, true};
ghost use Rattle.machines.specs.declared.arch.Arch.{Arch as TheArch};
ghost use Rattle.byte_order.specs.Turned.{read_as};
ghost use Rattle.show.specs.Read.{IsReadOut};
ghost use Rattle.show.specs.Shown.{IsDrawn};
ghost use Rattle.show.specs.Text.{IsTextOf};
ghost use Rattle.cli.specs.Read as spec;
ghost use Rattle.cli.specs.Read.{HasHint, HasNames, TellsRead, TellsRules};
ghost use Rattle.cli.specs.Told.{OfBundle, TellsFilter, of_one};
ghost use Rattle.cli.specs.inner.Telling.{IsToldOf};
ghost use Rattle.wording.specs.declared.told.Told.{Told as TheTold};

use crate::files::{Files, read_document, read_filter};
use crate::naming::with_names;
use crate::stops::Stop;
use compare::lint::Hinted;
use machines::Arch;
use profile_json::Document;
use show::bundle_text;
use std::alloc::{AllocError, Global};
use wording::{End, Told, refused_profile};

// What is shown of a filter: the lines of its listing, with what they mean, or behind `cost` what it costs the calls.
fn shown_as(alloc: Global, native: Arch, filter: &[u8], word: &str) -> Result<Told, AllocError>
    ensures { IfOk result (TellsFilter filter.now) }
{
    if word == "cost" {
        return show::costs(alloc, native, filter);
    }
    show::annotated(alloc, native, filter)
}

/// What is shown of a filter, as the word behind it asks.
pub(crate) fn annotated<'a, F: Files>(
    alloc: Global,
    native: Arch,
    filter: &'a str,
    word: &str,
    files: &mut F,
) -> Result<Told, Stop<'a>>
    ensures { IsToldOf (F.folder files.old) (filter.entry.now ∷ []) (of_one (λ file. TellsFilter (read_as native file))) result }
{
    match read_filter(alloc, native, files, filter) {
        Ok(bytes) => match shown_as(alloc, native, &bytes, word) {
            Ok(told) => Ok(told),
            Err(_no_memory) => Err(Stop::OutOfMemory),
        },
        Err(stop) => Err(stop),
    }
}

/// A filter as a graph.
pub(crate) fn drawn<'a, F: Files>(
    alloc: Global,
    native: Arch,
    filter: &'a str,
    files: &mut F,
) -> Result<Told, Stop<'a>>
    ensures { IsToldOf (F.folder files.old) (filter.entry.now ∷ []) (of_one (λ file. IsDrawn (read_as native file))) result }
{
    match read_filter(alloc, native, files, filter) {
        Ok(bytes) => match show::drawn(alloc, native, &bytes) {
            Ok(told) => Ok(told),
            Err(_no_memory) => Err(Stop::OutOfMemory),
        },
        Err(stop) => Err(stop),
    }
}

// Behind what a bundle means, if a call gets past it.
fn past_line(is: bool) -> &'static str
    ensures { result.now ≡ spec.past_line is }
{
    if is {
        "ccell lint reports calls that get past this bundle\n"
    } else {
        ""
    }
}

// Behind what a bundle means, if a call is stopped by it.
fn stopped_line(is: bool) -> &'static str
    ensures { result.now ≡ spec.stopped_line is }
{
    if is {
        "ccell lint reports calls that this bundle stops by bits that Linux does not read\n"
    } else {
        ""
    }
}

// What was told, with the lines of what `lint` has to report behind it.
fn with_hint(told: Told, hint: Hinted) -> Result<Told, AllocError>
    ensures { IfOk result (HasHint hint told) }
{
    let Told { mut bytes, end } = told;
    bytes.extend_from_slice(past_line(hint.past).as_bytes())?;
    bytes.extend_from_slice(stopped_line(hint.stopped).as_bytes())?;
    Ok(Told { bytes, end })
}

// What was told. If the bundle is not refused, the lines of what `lint` has to report stand behind it.
fn hinted(alloc: Global, document: &Document, told: Told) -> Result<Told, AllocError>
    ensures { (meaning : TheTold) → IsReadOut document.now.native document.now.bytes meaning
        → HasNames document.now.native document.now.bytes meaning told
        → IfOk result (TellsRead document.now.native document.now.bytes) }
{
    if !told.end.is_done() {
        return Ok(told);
    }
    let hint = compare::lint::hint(alloc, document)?;
    with_hint(told, hint)
}

// What a bundle means, or where it is wrong, the names of its constants, and whether `lint` has a call to report.
fn described(alloc: Global, document: &Document) -> Result<Told, AllocError>
    ensures { IfOk result (TellsRead document.now.native document.now.bytes) }
{
    let meaning = show::describe(alloc, document)?;
    let told = with_names(alloc, document, meaning)?;
    hinted(alloc, document, told)
}

/// What a bundle means, or where it is wrong.
pub(crate) fn describe<'a, F: Files>(
    alloc: Global,
    native: Arch,
    bundle: &'a str,
    files: &mut F,
) -> Result<Told, Stop<'a>>
    ensures { IsToldOf (F.folder files.old) (bundle.entry.now ∷ []) (of_one (OfBundle native (TellsRead native))) result }
{
    match read_document(alloc, native, files, bundle) {
        Ok(document) => match described(alloc, &document) {
            Ok(told) => Ok(told),
            Err(_no_memory) => Err(Stop::OutOfMemory),
        },
        Err(stop) => Err(stop),
    }
}

// A text that is told.
fn told_text(text: String) -> Told
    ensures { (native : TheArch) (bundle : List ℕ) → IsTextOf native bundle (string_bytes text) → TellsRules native bundle result }
{
    Told {
        bytes: text.into_bytes(),
        end: End::Done,
    }
}

// The text of the profile that a bundle means, or why it is refused.
fn rules_of(alloc: Global, document: &Document) -> Result<Told, AllocError>
    ensures { IfOk result (TellsRules document.now.native document.now.bytes) }
{
    match bundle_text(alloc, document) {
        Ok(text) => Ok(told_text(text)),
        Err(error) => refused_profile(alloc, error),
    }
}

/// The text of the profile that a bundle means, for another program, or why it is refused.
pub(crate) fn rules<'a, F: Files>(
    alloc: Global,
    native: Arch,
    bundle: &'a str,
    files: &mut F,
) -> Result<Told, Stop<'a>>
    ensures { IsToldOf (F.folder files.old) (bundle.entry.now ∷ []) (of_one (OfBundle native (TellsRules native))) result }
{
    match read_document(alloc, native, files, bundle) {
        Ok(document) => match rules_of(alloc, &document) {
            Ok(told) => Ok(told),
            Err(_no_memory) => Err(Stop::OutOfMemory),
        },
        Err(stop) => Err(stop),
    }
}
