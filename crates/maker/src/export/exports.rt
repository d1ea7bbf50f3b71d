//! A checked filter, written in three forms.
ghost use Rattle.bpf_insn.specs.Bytes.{spelling};
ghost use Rattle.bpf_asm.specs.Listing.{listing};
ghost use Rattle.cert_check.specs.Checked.{cert_of, program_of};
ghost use Rattle.maker.specs.Forms.{bytes_in};
ghost use Rattle.texts.specs.Sink.{Writes, WritesMade};

use crate::export::form::Form;
use bpf_asm::disassemble;
use cert_check::Checked;
use std::alloc::Global;
use texts::{Sink, WriteFault, write_all};

/// Writes the bytes of the filter, which is what a kernel loads.
pub fn export_raw<S: Sink>(checked: &Checked<'_>, sink: &mut S) -> Result<(), WriteFault>
    ensures { Writes S.held S.failures sink.old sink.new (spelling (program_of checked.now)) result }
{
    let program = checked.program().program();
    write_all(program.bytes(), sink)
}

/// Writes the bytes of the certificate.
pub fn export_cert<S: Sink>(checked: &Checked<'_>, sink: &mut S) -> Result<(), WriteFault>
    ensures { Writes S.held S.failures sink.old sink.new (cert_of checked.now) result }
{
    write_all(checked.cert(), sink)
}

/// Writes the listing of the filter. It takes memory for it, before the first byte.
pub fn export_listing<S: Sink>(
    alloc: Global,
    checked: &Checked<'_>,
    sink: &mut S,
) -> Result<(), WriteFault>
    ensures { WritesMade S.held S.failures sink.old sink.new (listing (program_of checked.now)) result }
{
    let program = checked.program().program();
    let text = disassemble(alloc, &program)?;
    write_all(text.as_str().as_bytes(), sink)
}

/// Writes the filter in a form.
pub fn export_form<S: Sink>(
    alloc: Global,
    checked: &Checked<'_>,
    form: Form,
    sink: &mut S,
) -> Result<(), WriteFault>
    ensures { WritesMade S.held S.failures sink.old sink.new (bytes_in form checked.now) result }
{
    match form {
        Form::Raw => export_raw(checked, sink),
        Form::Listing => export_listing(alloc, checked, sink),
        Form::Certificate => export_cert(checked, sink),
    }
}
