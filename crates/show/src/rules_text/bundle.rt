//! The text of what a bundle means.
ghost use Rattle.std.specs.Prelude.{IfErr, IfOk, IfSome, string_bytes};
ghost use Rattle.profile_json.specs.Breaks.{Breaks};
ghost use Rattle.profile_json.specs.Fault.{fault_of};
ghost use Rattle.show.specs.Text.{IsTextOf};

use crate::rules_text::lines::text_of;
use profile_json::{Document, ProfileError};
use std::alloc::Global;

/// The text of the profile that a bundle means.
pub fn bundle_text(alloc: Global, document: &Document) -> Result<String, ProfileError>
    ensures ok { IfOk result (λ text. IsTextOf document.now.native document.now.bytes (string_bytes text)) }
    // Unless memory ran out, the fault stands in the bundle.
    ensures err { IfErr result (λ e. IfSome (fault_of e) (Breaks document.now.bytes document.now.native)) }
{
    let read = document.bundle()?;
    Ok(text_of(alloc, &read.profile)?)
}
