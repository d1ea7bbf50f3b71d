//! What `ccell review` tells: of one bundle as lines, and of one or two as a page.
ghost use Rattle.std.specs.Prelude.{◌≡◌, ◌∷◌, [], IfOk, codes};
ghost use Rattle.std.specs.Str.{bytes_eq};
ghost use Rattle.page.specs.Page.{read as page_read};
ghost use Rattle.cli.specs.Dispatch.{AnswersReview};
ghost use Rattle.cli.specs.Paged as spec;
ghost use Rattle.cli.specs.Parts.{read as parts_read};
ghost use Rattle.cli.specs.Told.{OfBundle, OfBundles, of_one, of_two};
ghost use Rattle.cli.specs.inner.Telling.{IsToldOf};

use crate::beside::compared_beside;
use crate::exporting::exported;
use crate::files::{Files, read_document};
use crate::parts::{Form, Parts};
use crate::stops::Stop;
use crate::text_commands::{reviewed, tell};
use byte_order::read_as;
use machines::Arch;
use page::{Side, page_of_one, page_of_two};
use profile_json::Document;
use std::alloc::{AllocError, Global};
use texts::Sink;
use wording::{End, Told};

// The graph of the filter that is exported.
fn graph_of(alloc: Global, document: &Document) -> Result<Told, AllocError>
    ensures { IfOk result (spec.DrawsExport document.now.native document.now.bytes) }
{
    let file = exported(alloc, document, Form::Raw)?;
    if !file.end.is_done() {
        return Ok(file);
    }
    let filter = read_as(alloc, document.native(), &file.bytes)?;
    show::drawn(alloc, document.native(), &filter)
}

// What a page shows of a bundle.
fn side_of<'a>(name: &'a str, review: &'a Told, graph: &'a Told) -> Side<'a>
    ensures { page_read result ≡ spec.side_of name.entry.now review.entry.now graph.entry.now }
{
    Side {
        name,
        review: &review.bytes,
        graph: &graph.bytes,
        is_drawn: graph.end.is_done(),
    }
}

// The page of a bundle of which this is told.
fn page_of(
    alloc: Global,
    name: &str,
    document: &Document,
    review: &Told,
) -> Result<Told, AllocError>
    ensures { IfOk result (spec.IsPaged document.now.native name.now document.now.bytes review.now) }
{
    let graph = graph_of(alloc, document)?;
    let bytes = page_of_one(alloc, &side_of(name, review, &graph))?;
    Ok(Told {
        bytes,
        end: End::Done,
    })
}

// The page of a bundle, or why it is refused.
fn page_text(alloc: Global, name: &str, document: &Document) -> Result<Told, AllocError>
    ensures { IfOk result (spec.TellsPage document.now.native name.now document.now.bytes) }
{
    let review = review::review(alloc, document)?;
    if !review.end.is_done() {
        return Ok(review);
    }
    page_of(alloc, name, document, &review)
}

// A bundle, and what is told of it.
#[derive(Clone, Copy)]
struct Reviewed<'a> {
    name: &'a str,
    document: &'a Document,
    review: &'a Told,
}

// The page of two bundles of which these are told.
fn page_of_both(alloc: Global, old: &Reviewed<'_>, new: &Reviewed<'_>) -> Result<Told, AllocError>
    ensures { new.now.document.now.native ≡ old.now.document.now.native
        → IfOk result (spec.ArePaged old.now.document.now.native old.now.name.now new.now.name.now
        old.now.document.now.bytes new.now.document.now.bytes old.now.review.now new.now.review.now) }
{
    let compared = compared_beside(alloc, old.document, new.document, false)?;
    let old_graph = graph_of(alloc, old.document)?;
    let new_graph = graph_of(alloc, new.document)?;
    let old_side = side_of(old.name, old.review, &old_graph);
    let new_side = side_of(new.name, new.review, &new_graph);
    let bytes = page_of_two(alloc, &old_side, &new_side, &compared.bytes)?;
    Ok(Told {
        bytes,
        end: End::Done,
    })
}

// The names of two files.
type Names<'a> = (&'a str, &'a str);

// The page of two bundles, or why one is refused.
fn pages_text(
    alloc: Global,
    names: Names<'_>,
    old: &Document,
    new: &Document,
) -> Result<Told, AllocError>
    ensures { new.now.native ≡ old.now.native
        → IfOk result (spec.TellsPages old.now.native names.entry.0.now names.entry.1.now old.now.bytes new.now.bytes) }
{
    let first = review::review(alloc, old)?;
    let second = review::review(alloc, new)?;
    if !first.end.is_done() {
        return Ok(first);
    }
    if !second.end.is_done() {
        return Ok(second);
    }
    let old = Reviewed {
        name: names.0,
        document: old,
        review: &first,
    };
    let new = Reviewed {
        name: names.1,
        document: new,
        review: &second,
    };
    page_of_both(alloc, &old, &new)
}

// The page of the bundle of a file.
fn paged<'a, F: Files>(
    alloc: Global,
    native: Arch,
    bundle: &'a str,
    files: &mut F,
) -> Result<Told, Stop<'a>>
    ensures { IsToldOf (F.folder files.old) (bundle.entry.now ∷ []) (of_one (OfBundle native (spec.TellsPage native bundle.entry.now))) result }
{
    match read_document(alloc, native, files, bundle) {
        Ok(document) => match page_text(alloc, bundle, &document) {
            Ok(told) => Ok(told),
            Err(_no_memory) => Err(Stop::OutOfMemory),
        },
        Err(stop) => Err(stop),
    }
}

// The page of two bundles, of which the first one was read.
fn both_paged_with<'a, F: Files>(
    alloc: Global,
    names: Names<'a>,
    first: &Document,
    files: &mut F,
) -> Result<Told, Stop<'a>>
    ensures { IsToldOf (F.folder files.old) (names.entry.1.now ∷ []) (of_one (OfBundle first.now.native
        (spec.TellsPages first.now.native names.entry.0.now names.entry.1.now first.now.bytes))) result }
{
    match read_document(alloc, first.native(), files, names.1) {
        Ok(second) => match pages_text(alloc, names, first, &second) {
            Ok(told) => Ok(told),
            Err(_no_memory) => Err(Stop::OutOfMemory),
        },
        Err(stop) => Err(stop),
    }
}

// The page of the bundles of two files.
fn both_paged<'a, F: Files>(
    alloc: Global,
    native: Arch,
    names: Names<'a>,
    files: &mut F,
) -> Result<Told, Stop<'a>>
    ensures { IsToldOf (F.folder files.old) (names.entry.0.now ∷ names.entry.1.now ∷ [])
        (of_two (OfBundles native (spec.TellsPages native names.entry.0.now names.entry.1.now))) result }
{
    match read_document(alloc, native, files, names.0) {
        Ok(first) => both_paged_with(alloc, names, &first, files),
        Err(stop) => Err(stop),
    }
}

/// Tells what one bundle or two leave open, as the words behind the first ask.
pub(crate) fn review_as<'a, F: Files, O: Sink>(
    alloc: Global,
    parts: Parts<'a>,
    files: &mut F,
    out: &mut O,
) -> Result<bool, Stop<'a>>
    ensures { AnswersReview O.held O.failures (F.folder files.old) out.old out.new
        (bytes_eq parts.entry.four.now (codes "html")) (bytes_eq parts.entry.three.now (codes "html")) (parts_read parts.entry) result }
{
    if parts.four == "html" {
        return tell(
            both_paged(alloc, parts.native, (parts.two, parts.three), files),
            out,
        );
    }
    if parts.three == "html" {
        return tell(paged(alloc, parts.native, parts.two, files), out);
    }
    if parts.three.is_empty() {
        return tell(reviewed(alloc, parts.native, parts.two, files), out);
    }
    Err(Stop::Usage)
}
