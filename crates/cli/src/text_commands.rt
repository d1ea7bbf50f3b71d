//! Commands that tell: what the library tells of arguments and of files, and how it is written.
ghost use Rattle.std.specs.Prelude.{IfOk, Option, [], ◌∷◌, ◌≡◌, ◌⊎◌, Err, OnErr, codes, map, true};
ghost use Rattle.std.specs.Str.{bytes_eq};
ghost use Rattle.byte_order.specs.Turned.{read_as};
ghost use Rattle.compare.specs.FiltersTold.{IsTold};
ghost use Rattle.explain.specs.Told.{IsAssembled, IsRecorded};
ghost use Rattle.review.specs.Reviewed.{IsReviewed};
ghost use Rattle.cli.specs.Compared.{TellsCompared};
ghost use Rattle.cli.specs.Dispatch.{AnswersCompare, outcome_by as the_outcome};
ghost use Rattle.cli.specs.Parts.{read as parts_read};
ghost use Rattle.cli.specs.Stop.{ends_told};
ghost use Rattle.cli.specs.Read.{TellsLinted};
ghost use Rattle.cli.specs.Files.{Folder};
ghost use Rattle.cli.specs.Told.{OfArguments, OfBundle, OfBundles, of_none, of_one, of_two};
ghost use Rattle.cli.specs.inner.Telling.{IsToldOf, TellsOn, told_in};

use crate::adapting::OutputAndReport;
use crate::beside::compared_beside;
use crate::files::{Files, read, read_document};
use crate::naming::with_names;
use crate::parts::Parts;
use crate::stops::Stop;
use byte_order::read_as;
use machines::Arch;
use profile_json::Document;
use std::alloc::{AllocError, Global};
use texts::{Sink, write_all};
use wording::{End, Told};

// How the program ends, by how the command does.
fn outcome_by<'a>(end: End) -> Result<bool, Stop<'a>>
    ensures { result ≡ the_outcome end }
{
    match end {
        End::Done => Ok(true),
        End::Doubtful => Err(Stop::Doubtful),
        End::No => Ok(false),
        End::Refused => Err(Stop::Refused),
    }
}

/// Writes what is told.
pub(crate) fn tell<'a, O: Sink>(told: Result<Told, Stop<'a>>, out: &mut O) -> Result<bool, Stop<'a>>
    ensures { TellsOn O.held O.failures out.old out.new told.entry result }
{
    match told {
        Ok(told) => match write_all(&told.bytes, out) {
            Ok(()) => outcome_by(told.end),
            Err(fault) => Err(Stop::from(fault)),
        },
        Err(stop) => Err(stop),
    }
}

// Whether an answer was written.
fn is_told(outcome: &Result<bool, Stop<'_>>) -> bool
    ensures { result ≡ true → OnErr outcome.now (ends_told outcome.now ≡ true) }
{
    matches!(outcome, Ok(_) | Err(Stop::Refused) | Err(Stop::Doubtful))
}

/// Writes a bundle that was made, or why there is none, and tells on standard error what was changed or added.
pub(crate) fn tell_both<'a, O: Sink, E: Sink>(
    both: Result<OutputAndReport, Stop<'a>>,
    out: &mut O,
    err: &mut E,
) -> Result<bool, Stop<'a>>
    ensures told { TellsOn O.held O.failures out.old out.new (told_in both.entry) result }
    ensures stopped { OnErr result ((ends_told result ≡ true) ⊎ (err.new ≡ err.old)) }
{
    match both {
        Ok(OutputAndReport { told, changes }) => {
            let result = tell(Ok(told), out);
            if is_told(&result) {
                let _ = write_all(changes.as_bytes(), err);
            }
            result
        }
        Err(stop) => Err(stop),
    }
}

/// The record of a call.
pub(crate) fn record<'a>(alloc: Global, native: Arch, call: &[&str]) -> Result<Told, Stop<'a>>
    ensures { (folder : Option Folder) → IsToldOf folder [] (of_none (OfArguments (IsRecorded native) (map (λ c. c.now) call.now))) result }
{
    match explain::record(alloc, native, call) {
        Ok(told) => Ok(told),
        Err(_no_memory) => Err(Stop::OutOfMemory),
    }
}

/// The bytes of the filter of a listing.
pub(crate) fn assembled<'a, F: Files>(
    alloc: Global,
    listing: &'a str,
    files: &mut F,
) -> Result<Told, Stop<'a>>
    ensures { IsToldOf (F.folder files.old) (listing.entry.now ∷ []) (of_one IsAssembled) result }
{
    match read(alloc, files, listing) {
        Ok(text) => match explain::assembled(alloc, &text) {
            Ok(told) => Ok(told),
            Err(_no_memory) => Err(Stop::OutOfMemory),
        },
        Err(stop) => Err(stop),
    }
}

// Which calls get past a bundle, what stands in it and is not read, and the names of its constants.
fn linted_text(alloc: Global, document: &Document) -> Result<Told, AllocError>
    ensures { IfOk result (TellsLinted document.now.native document.now.bytes) }
{
    let found = compare::lint::lint(alloc, document)?;
    let told = show::refusing_unread(alloc, document.native(), document.bytes(), found)?;
    with_names(alloc, document, told)
}

/// Which calls get past a bundle by bits that the kernel does not read.
pub(crate) fn linted<'a, F: Files>(
    alloc: Global,
    native: Arch,
    bundle: &'a str,
    files: &mut F,
) -> Result<Told, Stop<'a>>
    ensures { IsToldOf (F.folder files.old) (bundle.entry.now ∷ []) (of_one (OfBundle native (TellsLinted native))) result }
{
    match read_document(alloc, native, files, bundle) {
        Ok(document) => match linted_text(alloc, &document) {
            Ok(told) => Ok(told),
            Err(_no_memory) => Err(Stop::OutOfMemory),
        },
        Err(stop) => Err(stop),
    }
}

/// What a bundle leaves open of the calls by which a kernel is attacked most.
pub(crate) fn reviewed<'a, F: Files>(
    alloc: Global,
    native: Arch,
    bundle: &'a str,
    files: &mut F,
) -> Result<Told, Stop<'a>>
    ensures { IsToldOf (F.folder files.old) (bundle.entry.now ∷ []) (of_one (OfBundle native (IsReviewed native))) result }
{
    match read_document(alloc, native, files, bundle) {
        Ok(document) => match review::review(alloc, &document) {
            Ok(told) => Ok(told),
            Err(_no_memory) => Err(Stop::OutOfMemory),
        },
        Err(stop) => Err(stop),
    }
}

// Compares two bundles, of which the first one was read.
fn compared_with<'a, F: Files>(
    alloc: Global,
    first: &Document,
    new: &'a str,
    at_most: bool,
    files: &mut F,
) -> Result<Told, Stop<'a>>
    ensures { IsToldOf (F.folder files.old) (new.entry.now ∷ []) (of_one (OfBundle first.now.native
        (TellsCompared at_most first.now.native first.now.bytes))) result }
{
    match read_document(alloc, first.native(), files, new) {
        Ok(second) => match compared_beside(alloc, first, &second, at_most) {
            Ok(told) => Ok(told),
            Err(_no_memory) => Err(Stop::OutOfMemory),
        },
        Err(stop) => Err(stop),
    }
}

// Compares what a new bundle says with what an old one says, or tells whether it allows no more.
fn compared<'a, F: Files>(
    alloc: Global,
    native: Arch,
    old: &'a str,
    new: &'a str,
    at_most: bool,
    files: &mut F,
) -> Result<Told, Stop<'a>>
    ensures { IsToldOf (F.folder files.old) (old.entry.now ∷ new.entry.now ∷ []) (of_two (OfBundles native (TellsCompared at_most native))) result }
{
    match read_document(alloc, native, files, old) {
        Ok(first) => compared_with(alloc, &first, new, at_most, files),
        Err(stop) => Err(stop),
    }
}

// Tells calls of which one filter answers another verdict than the other, as the files have them for a machine.
fn filters_told(
    alloc: Global,
    native: Arch,
    first: &[u8],
    second: &[u8],
) -> Result<Told, AllocError>
    ensures { IfOk result (IsTold native (read_as native first.now) (read_as native second.now)) }
{
    let old = read_as(alloc, native, first)?;
    let new = read_as(alloc, native, second)?;
    compare::compare_filters(alloc, native, &old, &new)
}

// Compares two filters, of which the first one was read.
fn filters_compared_with<'a, F: Files>(
    alloc: Global,
    native: Arch,
    first: &[u8],
    new: &'a str,
    files: &mut F,
) -> Result<Told, Stop<'a>>
    ensures { IsToldOf (F.folder files.old) (new.entry.now ∷ []) (of_one (λ new. IsTold native (read_as native first.now) (read_as native new))) result }
{
    match read(alloc, files, new) {
        Ok(second) => match filters_told(alloc, native, first, &second) {
            Ok(told) => Ok(told),
            Err(_no_memory) => Err(Stop::OutOfMemory),
        },
        Err(stop) => Err(stop),
    }
}

// Tells calls of which a new filter answers another verdict than an old one.
fn filters_compared<'a, F: Files>(
    alloc: Global,
    native: Arch,
    old: &'a str,
    new: &'a str,
    files: &mut F,
) -> Result<Told, Stop<'a>>
    ensures { IsToldOf (F.folder files.old) (old.entry.now ∷ new.entry.now ∷ []) (of_two (λ old new. IsTold native (read_as native old) (read_as native new))) result }
{
    match read(alloc, files, old) {
        Ok(first) => filters_compared_with(alloc, native, &first, new, files),
        Err(stop) => Err(stop),
    }
}

/// Compares two files, as the word behind them asks.
pub(crate) fn compare_as<'a, F: Files, O: Sink>(
    alloc: Global,
    parts: Parts<'a>,
    files: &mut F,
    out: &mut O,
) -> Result<bool, Stop<'a>>
    ensures { AnswersCompare O.held O.failures (F.folder files.old) out.old out.new (bytes_eq parts.entry.four.now (codes "filters")) (parts_read parts.entry) result }
{
    if parts.four == "filters" {
        return tell(
            filters_compared(alloc, parts.native, parts.two, parts.three, files),
            out,
        );
    }
    let at_most = parts.four == "atmost";
    tell(
        compared(alloc, parts.native, parts.two, parts.three, at_most, files),
        out,
    )
}
