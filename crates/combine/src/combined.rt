//! From bundles to the one that means what they mean together.
ghost use Rattle.std.specs.Prelude.{IfOk, IfErr, map, string_bytes};
ghost use Rattle.combine.specs.Uncombined.{IsUncombined};
ghost use Rattle.together.specs.Combined.{IsCombined};

use crate::draft::drafted;
use crate::uncombined::Uncombined;
use machines::Arch;
use std::alloc::Global;
use together::{Way, if_together, profiles_of};

/// The bundle whose profile says of each call record what counts of the verdicts that bundles say of it, or why there is none. What is
/// written is read again, and handed out only if it is found to say so.
pub fn combine(
    alloc: Global,
    native: Arch,
    way: Way,
    bundles: &[Vec<u8>],
) -> Result<String, Uncombined>
    ensures combined { IfOk result (λ made. IsCombined native way (map (λ b. b.items) bundles.now) (string_bytes made)) }
    ensures reason { IfErr result (IsUncombined native way (map (λ b. b.items) bundles.now)) }
{
    let profiles = profiles_of(alloc, native, bundles)?;
    let bundle = drafted(alloc, native, way, &profiles)?;
    let made = if_together(alloc, native, way, &profiles, bundle)?;
    Ok(made)
}
