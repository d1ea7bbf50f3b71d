//! What `ccell export` writes: for a big-endian machine, the file is turned once it is whole.
ghost use Rattle.std.specs.Prelude.{◌≡◌, IfOk};
ghost use Rattle.machines.specs.Arch.{is_big_endian};
ghost use Rattle.cli.specs.Dispatch.{ExportsFor, ExportsTurned};
ghost use Rattle.cli.specs.Exported.{TellsExported, file_in};

use crate::parts::Form;
use crate::stops::Stop;
use byte_order::written_as;
use machines::Arch;
use maker::export_bundle;
use profile_json::Document;
use std::alloc::{AllocError, Global};
use texts::{Sink, ToWrite, write_all};
use wording::{End, Told};

// The bytes of a filter as the machine has them, and any other answer as it is.
fn file_of(
    alloc: Global,
    native: Arch,
    form: Form,
    done: bool,
    kept: &[u8],
) -> Result<Vec<u8>, AllocError>
    ensures { IfOk result (λ file. file.items ≡ file_in native form done kept.now) }
{
    match form {
        Form::Raw if done => written_as(alloc, native, kept),
        _ => {
            let mut copy = Vec::new(alloc);
            copy.extend_from_slice(kept)?;
            Ok(copy)
        }
    }
}

/// What is written of a bundle for its machine.
pub(crate) fn exported(alloc: Global, document: &Document, form: Form) -> Result<Told, AllocError>
    ensures { IfOk result (TellsExported document.now.native form document.now.bytes) }
{
    let mut kept = ToWrite::new(Vec::new(alloc));
    match export_bundle(alloc, document, form, &mut kept) {
        Ok(done) => {
            let bytes = file_of(alloc, document.native(), form, done, &kept.writer)?;
            Ok(Told {
                bytes,
                end: End::of(done),
            })
        }
        Err(_no_memory) => Err(AllocError),
    }
}

// Writes it.
fn export_turned<'a, O: Sink>(
    alloc: Global,
    document: &Document,
    form: Form,
    out: &mut O,
) -> Result<bool, Stop<'a>>
    ensures { ExportsTurned O.held O.failures out.old out.new document.now.native document.now.bytes form result }
{
    match exported(alloc, document, form) {
        Ok(told) => match write_all(&told.bytes, out) {
            Ok(()) => Ok(told.end.is_done()),
            Err(fault) => Err(Stop::from(fault)),
        },
        Err(_no_memory) => Err(Stop::OutOfMemory),
    }
}

/// Writes the filter of a bundle in a form, once it is checked, or why it has none.
pub(crate) fn export_for<'a, O: Sink>(
    alloc: Global,
    document: &Document,
    form: Form,
    out: &mut O,
) -> Result<bool, Stop<'a>>
    ensures { ExportsFor O.held O.failures out.old out.new
        (is_big_endian document.now.native) document.now.native document.now.bytes form result }
{
    if document.native().is_big_endian() {
        return export_turned(alloc, document, form, out);
    }
    Ok(export_bundle(alloc, document, form, out)?)
}
