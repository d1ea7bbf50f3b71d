//! What `ccell explain` does.
ghost use Rattle.std.specs.Prelude.{◌≡◌, ◌⊎◌, ◌∷◌, [], IfOk, true, map};
ghost use Rattle.std.specs.Option.{option_map};
ghost use Rattle.cli.specs.Dispatch as spec;
ghost use Rattle.cli.specs.Told.{OfBundle, of_one};
ghost use Rattle.cli.specs.inner.Telling.{IsAuditOf, IsToldOf, TellsText};

use crate::auditing::audited;
use crate::files::{Files, read_document};
use crate::stops::Stop;
use explain::explain_any;
use machines::Arch;
use profile_json::Document;
use std::alloc::{AllocError, Global};
use texts::Source;
use wording::Told;

// Whether the lines of a kernel's log are asked about, in place of a call.
fn asks_audit(call: &[&str]) -> bool
    ensures { result ≡ spec.asks_audit (map (λ c. c.now) call.now) }
{
    match call {
        [word] => *word == "audit",
        _ => false,
    }
}

// The call that is asked about whatever its arguments are.
fn any_of<'a>(call: &[&'a str]) -> Option<&'a str>
    ensures { option_map (λ what. what.now) result ≡ spec.any_call (map (λ c. c.now) call.now) }
{
    match call {
        [what, last] => {
            if *last == "any" {
                return Some(*what);
            }
            None
        }
        _ => None,
    }
}

// Tells what a bundle says of a call, by its arguments or whatever they are.
fn explained(alloc: Global, document: &Document, call: &[&str]) -> Result<Told, AllocError>
    ensures { IfOk result (spec.explained_as document.now.native (map (λ c. c.now) call.now)
        (spec.any_call (map (λ c. c.now) call.now)) document.now.bytes) }
{
    match any_of(call) {
        Some(what) => explain_any(alloc, document, what),
        None => explain::explain(alloc, document, call),
    }
}

// Tells what a bundle that was read says of a call, unless memory runs out.
fn told<'a>(alloc: Global, document: &Document, call: &[&str]) -> Result<Told, Stop<'a>>
    ensures { TellsText (spec.explained_as document.now.native (map (λ c. c.now) call.now)
        (spec.any_call (map (λ c. c.now) call.now)) document.now.bytes) result }
{
    match explained(alloc, document, call) {
        Ok(told) => Ok(told),
        Err(_no_memory) => Err(Stop::OutOfMemory),
    }
}

/// Tells what a bundle says of a call, and why, or the same of the lines of a kernel's log on standard input.
pub fn explain<'a, F: Files, I: Source>(
    alloc: Global,
    native: Arch,
    bundle: &'a str,
    call: &[&str],
    files: &mut F,
    input: &mut I,
) -> Result<Told, Stop<'a>>
    ensures audit { spec.asks_audit (map (λ c. c.now) call.now) ≡ true
        → IsAuditOf I.left I.failures (F.folder files.old) input.old input.new native bundle.entry.now result }
    ensures call { (spec.asks_audit (map (λ c. c.now) call.now) ≡ true)
        ⊎ ((input.new ≡ input.old) × IsToldOf (F.folder files.old) (bundle.entry.now ∷ [])
        (of_one (OfBundle native (spec.explained_as native (map (λ c. c.now) call.now) (spec.any_call (map (λ c. c.now) call.now))))) result) }
{
    match read_document(alloc, native, files, bundle) {
        Ok(document) => {
            if asks_audit(call) {
                return audited(alloc, &document, input);
            }
            told(alloc, &document, call)
        }
        Err(stop) => Err(stop),
    }
}
