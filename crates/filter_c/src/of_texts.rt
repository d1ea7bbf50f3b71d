//! What is made and judged of the text of a bundle, which is read once.
ghost use Rattle.std.specs.Prelude.{◌≡◌, IfOk};
ghost use Rattle.maker.specs.Certified.{Certifies};
ghost use Rattle.maker.specs.Exported.{Exports};
ghost use Rattle.maker.specs.Finding.{WritesFinding};

use machines::Arch;
use maker::{Form, certify_bundle, check_line, export_bundle};
use profile_json::Document;
use std::alloc::{AllocError, Global};
use texts::{Sink, WriteFault};

// A text, which is read for a native machine.
fn document_of(alloc: Global, native: Arch, bundle: &[u8]) -> Result<Document, AllocError>
    ensures native { IfOk result (λ document. document.native ≡ native) }
    ensures bytes { IfOk result (λ document. document.bytes ≡ bundle.now) }
{
    let mut bytes = Vec::new(alloc);
    bytes.extend_from_slice(bundle)?;
    Ok(Document::new(alloc, bytes, native))
}

/// Writes the filter of a bundle in a form, once it is compiled, certified and checked, or the line that says why it has none.
pub(crate) fn export_text<S: Sink>(
    alloc: Global,
    native: Arch,
    bundle: &[u8],
    form: Form,
    sink: &mut S,
) -> Result<bool, WriteFault>
    ensures { Exports S.held S.failures sink.old sink.new native bundle.now form result }
{
    let Ok(document) = document_of(alloc, native, bundle) else {
        return Err(WriteFault::OutOfMemory);
    };
    export_bundle(alloc, &document, form, sink)
}

/// Writes the line that says what is found of a bundle, a filter and a certificate.
pub(crate) fn check_text<S: Sink>(
    alloc: Global,
    native: Arch,
    bundle: &[u8],
    filter: &[u8],
    cert: &[u8],
    sink: &mut S,
) -> Result<bool, WriteFault>
    ensures { WritesFinding S.held S.failures sink.old sink.new native bundle.now filter.now cert.now result }
{
    let Ok(document) = document_of(alloc, native, bundle) else {
        return Err(WriteFault::OutOfMemory);
    };
    check_line(alloc, &document, filter, cert, sink)
}

/// Writes a certificate that a filter answers what a bundle says, or the line that says why there is none.
pub(crate) fn certify_text<S: Sink>(
    alloc: Global,
    native: Arch,
    bundle: &[u8],
    filter: &[u8],
    sink: &mut S,
) -> Result<bool, WriteFault>
    ensures { Certifies S.held S.failures sink.old sink.new native bundle.now filter.now result }
{
    let Ok(document) = document_of(alloc, native, bundle) else {
        return Err(WriteFault::OutOfMemory);
    };
    certify_bundle(alloc, &document, filter, sink)
}
