//! What `ccell certify` does, as the words behind the files ask.
ghost use Rattle.std.specs.Prelude.{◌≡◌, ◌⊎◌, IfOk, Ok, OnErr, true};
ghost use Rattle.cli.specs.Parts.{read};
ghost use Rattle.cli.specs.Dispatch.{AnswersCertify, CertifiesAs, CertifiesWith, ExplainsAs, ExplainsCertify, ExplainsWith};
ghost use Rattle.cli.specs.Dispatch.{asks_all, asks_but, asks_runc};

use crate::files::{Files, read_document, read_filter};
use crate::leaving_aside::CertifyOptions;
use crate::parts::{Parts, asks, asks_but, leave_of};
use crate::stops::Stop;
use crate::{all, all_behind, behind, comparing, leaving_aside};
use profile_json::Document;
use std::alloc::Global;
use texts::{Sink, WriteFault};

// Writes a certificate, or why there is none, where no calls may be left aside.
fn judge_with<O: Sink, E: Sink>(
    alloc: Global,
    document: &Document,
    filter: &[u8],
    asked: CertifyOptions,
    out: &mut O,
    err: &mut E,
) -> Result<bool, WriteFault>
    ensures written { CertifiesWith O.held O.failures out.old out.new asked.runc asked.all
        document.now.native document.now.bytes filter.now result }
    ensures stopped { OnErr result (err.new ≡ err.old) }
    ensures quiet { result ≡ Ok true → (asked.runc ≡ true) ⊎ (err.new ≡ err.old) }
    // The record that is explained is the one that was told.
    ensures explained { IfOk result (ExplainsWith O.held O.failures E.held E.failures out.old out.new err.old err.new asked.runc asked.all
        document.now.native document.now.bytes filter.now) }
{
    if asked.runc && asked.all {
        return all_behind::judge(alloc, document, filter, out, err);
    }
    if asked.runc {
        return behind::judge(alloc, document, filter, out, err);
    }
    if asked.all {
        return all::judge(alloc, document, filter, out, err);
    }
    comparing::certify(alloc, document, filter, out, err)
}

// Writes a certificate, or why there is none, as the words behind the files ask.
fn judge_as<O: Sink, E: Sink>(
    alloc: Global,
    parts: &Parts<'_>,
    document: &Document,
    filter: &[u8],
    out: &mut O,
    err: &mut E,
) -> Result<bool, WriteFault>
    ensures written { CertifiesAs O.held O.failures out.old out.new (asks_but (read parts.now)) (read parts.now)
        document.now.native document.now.bytes filter.now result }
    ensures stopped { OnErr result (err.new ≡ err.old) }
    ensures quiet { result ≡ Ok true → (asks_runc (read parts.now) ≡ true) ⊎ (err.new ≡ err.old) }
    ensures explained { IfOk result (ExplainsAs O.held O.failures E.held E.failures out.old out.new err.old err.new
        (asks_but (read parts.now)) (read parts.now) document.now.native document.now.bytes filter.now) }
{
    let asked = CertifyOptions {
        runc: asks(parts, "runc"),
        all: asks(parts, "all"),
    };
    if asks_but(parts) {
        return leaving_aside::judge(alloc, document, filter, leave_of(parts), asked, out, err);
    }
    judge_with(alloc, document, filter, asked, out, err)
}

/// Certifies a filter, as the words behind the files ask.
pub(crate) fn certify<'a, F: Files, O: Sink, E: Sink>(
    alloc: Global,
    parts: Parts<'a>,
    files: &mut F,
    out: &mut O,
    err: &mut E,
) -> Result<bool, Stop<'a>>
    ensures answers { AnswersCertify O.held O.failures (F.folder files.old) out.old out.new (read parts.entry) result }
    ensures stopped { OnErr result (err.new ≡ err.old) }
    ensures quiet { result ≡ Ok true → (asks_runc (read parts.entry) ≡ true) ⊎ (err.new ≡ err.old) }
    ensures explained { ExplainsCertify O.held O.failures E.held E.failures (F.folder files.old) out.old out.new err.old err.new
        (read parts.entry) result }
{
    let document = read_document(alloc, parts.native, files, parts.two)?;
    let filter = read_filter(alloc, parts.native, files, parts.three)?;
    Ok(judge_as(alloc, &parts, &document, &filter, out, err)?)
}
