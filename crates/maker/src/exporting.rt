//! From a bundle to a checked filter, which is written in one of its forms: what `ccell export` writes.
ghost use Rattle.maker.specs.Exported.{Exports, ExportsFilter};
ghost use Rattle.maker.specs.Plain.{IsPlainBundle};

use crate::checked_bundle::CheckedBundle;
use crate::export::{Form, export_form};
use crate::make_error::refuse;
use profile_json::Document;
use std::alloc::Global;
use texts::{Sink, WriteFault};

/// Writes the filter of a bundle in a form, once it is compiled, certified and checked. If one of these refuses, the line that says so
/// is written, and the answer is false.
pub fn export_bundle<S: Sink>(
    alloc: Global,
    document: &Document,
    form: Form,
    sink: &mut S,
) -> Result<bool, WriteFault>
    ensures exports { Exports S.held S.failures sink.old sink.new document.now.native document.now.bytes form result }
    // Of a bundle that means a plain profile the filter is written, unless memory is refused or the sink fails.
    ensures own { IsPlainBundle document.now.native document.now.bytes
        → ExportsFilter S.held S.failures sink.old sink.new document.now.native document.now.bytes form result }
{
    let mut checked_bundle = CheckedBundle::new();
    match checked_bundle.fill(alloc, document) {
        Ok(checked) => {
            export_form(alloc, &checked, form, sink)?;
            Ok(true)
        }
        Err(make_error) => refuse(alloc, &make_error, sink),
    }
}
