//! What commands answer.
ghost use Rattle.std.specs.Prelude.{◌≡◌, ◌≢◌, ◌++◌, IfOk, codes, length};
ghost use Rattle.bpf_asm.specs.Fault.{text_of as asm_text};
ghost use Rattle.bpf_asm.specs.declared.fault.AsmError.TheVariants.{OutOfMemory as NoMemory};
ghost use Rattle.call_record.specs.Record.{words as words_in};
ghost use Rattle.call_record.specs.Words.{words_of};
ghost use Rattle.explain.specs.Told as spec;
ghost use Rattle.wording.specs.Told.{RefusesBy};
ghost use Rattle.wording.specs.declared.told.End.TheVariants.{Done};

use crate::asked::{asked, call_in};
use crate::refused::{refused_call, refused_words};
use crate::telling::explanation;
use bpf_asm::{AsmError, assemble};
use call_record::Record;
use machines::Arch;
use profile_json::Document;
use std::alloc::{AllocError, Global};
use wording::{End, Told, refused_profile};

// The line that tells why a command did not do what it was asked for.
fn refused(alloc: Global, why: &str) -> Result<Told, AllocError>
    ensures { IfOk result (RefusesBy (codes "refused " ++ why.now)) }
{
    let line = format!(in alloc; "refused {why}\n")?;
    Ok(Told {
        bytes: line.into_bytes(),
        end: End::Refused,
    })
}

// The line that tells why a text is no listing.
fn refused_listing(alloc: Global, error: AsmError) -> Result<Told, AllocError>
    ensures told { IfOk result (RefusesBy (codes "refused listing " ++ asm_text error)) }
    ensures fault { IfOk result (λ told. error ≢ NoMemory) }
{
    if let AsmError::OutOfMemory = error {
        return Err(AllocError);
    }
    let line = format!(in alloc; "refused listing {error}\n")?;
    Ok(Told {
        bytes: line.into_bytes(),
        end: End::Refused,
    })
}

/// Explains what a bundle says of the call record that command line arguments ask for, and why.
pub fn explain(alloc: Global, document: &Document, arguments: &[&str]) -> Result<Told, AllocError>
    ensures { IfOk result (spec.IsExplained document.now.native document.now.bytes arguments.now) }
{
    let native = document.native();
    let Some(call) = call_in(alloc, native, arguments)? else {
        return refused_call(alloc, native, arguments);
    };
    match explanation(alloc, document, &call) {
        Ok(text) => Ok(Told {
            bytes: text.into_bytes(),
            end: End::Done,
        }),
        Err(error) => refused_profile(alloc, error),
    }
}

// The bytes of a record.
fn recorded(alloc: Global, call: &Record) -> Result<Told, AllocError>
    ensures same { IfOk result (λ told. words_of told.bytes.items ≡ words_in call.now) }
    ensures whole { IfOk result (λ told. length told.bytes.items ≡ 64) }
    ensures end { IfOk result (λ told. told.end ≡ Done) }
{
    let bytes = call.to_bytes();
    let bytes = Vec::from_slice(alloc, &bytes)?;
    Ok(Told {
        bytes,
        end: End::Done,
    })
}

/// The 64 bytes of the call record that command line arguments ask for.
pub fn record(alloc: Global, native: Arch, arguments: &[&str]) -> Result<Told, AllocError>
    ensures { IfOk result (spec.IsRecorded native arguments.now) }
{
    let Some(call) = asked(alloc, native, arguments)? else {
        return refused_words(alloc, native, arguments);
    };
    let told = recorded(alloc, &call)?;
    Ok(told)
}

/// The bytes of the program whose listing a text is.
pub fn assembled(alloc: Global, listing: &[u8]) -> Result<Told, AllocError>
    ensures { IfOk result (spec.IsAssembled listing.now) }
{
    let Ok(text) = str::from_utf8(listing) else {
        return refused(alloc, "listing, which is no UTF-8");
    };
    match assemble(alloc, text) {
        Ok(bytes) => Ok(Told {
            bytes,
            end: End::Done,
        }),
        Err(error) => refused_listing(alloc, error),
    }
}

const VERSION: &str = "ccell 0.1.0\n\
    reads OCI Runtime Specification 1.0.2, 1.1.0, 1.2.0 and 1.2.1\n\
    calls of Linux 7.3 on x86-64, x86, x32, AArch64, ARM, riscv64, ppc64le, loongarch64, s390x and s390\n\
    proved and built with rattle-kit-13f logic dac8208d650f15bf; docs/PROMISES.md says what is proved\n";

/// The edition of the program, and with what it was proved.
pub fn version(alloc: Global) -> Result<Told, AllocError>
    ensures { IfOk result spec.IsVersion }
{
    Ok(Told {
        bytes: Vec::from_slice(alloc, VERSION.as_bytes())?,
        end: End::Done,
    })
}
