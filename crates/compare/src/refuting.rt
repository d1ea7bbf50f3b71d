//! The call record that refutes a filter, explained.
ghost use Rattle.std.specs.Prelude.{IfSome, string_bytes};
ghost use Rattle.explain.specs.Explanation.{Explains};

use explain::explanation;
use maker::Counterexample;
use profile_json::Document;
use std::alloc::Global;

/// Explains what a bundle says of the very record that was found to refute a filter, if there is memory.
pub fn explain_found(alloc: Global, document: &Document, found: &Counterexample) -> Option<String>
    ensures { IfSome result (λ text. Explains document.now.native document.now.bytes found.now.call (string_bytes text)) }
{
    match explanation(alloc, document, &found.call) {
        Ok(text) => Some(text),
        Err(_) => None,
    }
}
