//! What is written of profiles before it is judged.
ghost use Rattle.std.specs.Prelude.{[], IfErr, List};
ghost use Rattle.profile.specs.Policy.{Policy};
ghost use Rattle.combine.specs.Uncombined.{IsUndrafted};

use crate::product::product;
use crate::uncombined::Uncombined;
use bpf_insn::{Insn, MAX_INSNS, encode_into};
use machines::Arch;
use profile::Profile;
use profile_json::{Bundle, ProfileError, read_bundle};
use recover::{Passed, Unsaid, draft_of};
use rule_compile::plan;
use std::alloc::{AllocError, Global};
use together::Way;

// The instructions of a profile's filter.
fn insns_of(alloc: Global, profile: &Profile) -> Result<Vec<Insn>, AllocError> {
    let planned = plan(alloc, profile)?;
    Ok(planned.insns)
}

// No call is passed over.
const ALL_CALLS: Passed = Passed {
    unnamed: false,
    x32: false,
    has_stub: false,
};

// The bundle that seems to say a filter. It is not judged here: what is made at the end is.
fn bundle_of(alloc: Global, native: Arch, insns: &[Insn]) -> Result<String, Uncombined>
    ensures { (ps : List Policy) → IfErr result (IsUndrafted native ps) }
{
    if insns.len() > MAX_INSNS {
        return Err(Uncombined::TooLong);
    }
    let mut filter = vec![in alloc; 0u8; 8 * insns.len()]?;
    encode_into(insns, &mut filter);
    match draft_of(alloc, native, &filter, ALL_CALLS) {
        Ok(bundle) => Ok(bundle),
        Err(Unsaid::OutOfMemory) => Err(Uncombined::OutOfMemory),
        Err(unsaid) => Err(Uncombined::Together(unsaid)),
    }
}

// The instructions of the filter of a bundle that was written.
fn insns_again(alloc: Global, native: Arch, bundle: &str) -> Result<Vec<Insn>, Uncombined>
    ensures { (ps : List Policy) → IfErr result (IsUndrafted native ps) }
{
    match read_bundle(alloc, bundle.as_bytes(), native) {
        Ok(Bundle { profile, .. }) => Ok(insns_of(alloc, &profile)?),
        Err(ProfileError::OutOfMemory) => Err(Uncombined::OutOfMemory),
        Err(error) => Err(Uncombined::Unread(error)),
    }
}

/// The bundle that seems to say what profiles say together.
pub(crate) fn drafted(
    alloc: Global,
    native: Arch,
    way: Way,
    profiles: &[Profile],
) -> Result<String, Uncombined>
    ensures { IfErr result (IsUndrafted native profiles.now) }
{
    let Some((first, others)) = profiles.split_first() else {
        return Err(Uncombined::Nothing);
    };
    let mut bundle = bundle_of(alloc, native, &insns_of(alloc, first)?)?;
    for profile in others {
        let own = insns_of(alloc, profile)?;
        let before = insns_again(alloc, native, &bundle)?;
        let insns = product(alloc, way, &before, &own)?;
        bundle = bundle_of(alloc, native, &insns)?;
    }
    Ok(bundle)
}
