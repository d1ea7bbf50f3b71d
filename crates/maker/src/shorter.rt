//! What is proposed first, and taken if the checker says yes. It is a filter that is shorter than the compiler's own. Or, of a profile
//! without conditions, it is the compiler's own with the certificate of its outline. That certificate is smaller than the one that follows
//! each path.
ghost use Rattle.std.specs.Prelude.{◌≡◌, IfErr};
ghost use Rattle.certify.specs.declared.error.CertifyError.TheVariants as maker;
ghost use Rattle.maker.specs.declared.make_error.MakeError.TheVariants.{OutOfMemory};

use crate::evidence::{
    Hand, are_plain, by_merged, bytes_of, has_too_many, propose_shared, shortened,
};
use crate::make_error::MakeError;
use crate::proposal::Proposal;
use bpf_insn::Program;
use certify::{CertifyError, certify_accepted};
use kernel_check::{Accepted, accept};
use profile::Profile;
use rule_compile::{Known, Outline, Planned, Shorter};
use std::alloc::{AllocError, Global};

// A certificate that follows each path. None is looked for if a call has more rules than a node has claims: it would come out too large.
fn by_paths(
    alloc: Global,
    profile: &Profile,
    accepted: &Accepted<'_>,
    own: &Planned,
) -> Result<Vec<u8>, CertifyError> {
    match has_too_many(alloc, &own.outline) {
        Ok(true) => Err(CertifyError::TooLarge),
        Ok(false) => certify_accepted(alloc, profile, accepted),
        Err(_) => Err(CertifyError::OutOfMemory),
    }
}

// A certificate of a filter in which questions for bits of one word were put together: from its outline, or one that follows each path if
// the filter is another one. Where that of the outline came out too large, one that follows each path would be larger.
fn of_merged(
    alloc: Global,
    profile: &Profile,
    accepted: &Accepted<'_>,
    own: &Planned,
    outline: &Outline,
) -> Result<Vec<u8>, CertifyError> {
    match by_merged(alloc, profile, *accepted, outline) {
        Ok(Hand::Certificate(bytes)) => Ok(bytes),
        Ok(Hand::TooLarge) => Err(CertifyError::TooLarge),
        Ok(Hand::Nothing) => by_paths(alloc, profile, accepted, own),
        Err(error) => Err(error),
    }
}

// A certificate, by what is known of the filter.
fn certificate_of(
    alloc: Global,
    profile: &Profile,
    accepted: &Accepted<'_>,
    own: &Planned,
    known: &Known,
) -> Result<Vec<u8>, CertifyError> {
    match known {
        Known::AsOwn => propose_shared(alloc, profile, accepted, &own.outline),
        Known::Outline(outline) => propose_shared(alloc, profile, accepted, outline),
        Known::Merged(outline) => of_merged(alloc, profile, accepted, own, outline),
    }
}

// The compiler's own filter of a profile without conditions. Of any other profile its outline is followed anyway.
fn own_if_plain(
    alloc: Global,
    profile: &Profile,
    own: &Planned,
) -> Result<Option<Shorter>, AllocError> {
    if !are_plain(profile.rules()) {
        return Ok(None);
    }
    match bytes_of(alloc, &own.insns)? {
        Some(bytes) => Ok(Some(Shorter {
            bytes,
            known: Known::AsOwn,
        })),
        None => Ok(None),
    }
}

// The filter that is proposed first, if there is one.
fn first(alloc: Global, profile: &Profile, own: &Planned) -> Result<Option<Shorter>, AllocError> {
    match shortened(alloc, profile, own)? {
        Some(made) => Ok(Some(made)),
        None => own_if_plain(alloc, profile, own),
    }
}

/// The filter that is proposed first, if there is one, and a certificate of which the checker was not asked.
pub(crate) fn shorter(
    alloc: Global,
    profile: &Profile,
    own: &Planned,
) -> Result<Option<Proposal>, MakeError>
    ensures { IfErr result (λ make_error. make_error ≡ OutOfMemory) }
{
    let Ok(found) = first(alloc, profile, own) else {
        return Err(MakeError::OutOfMemory);
    };
    let Some(made) = found else {
        return Ok(None);
    };
    let Ok(program) = Program::view(&made.bytes) else {
        return Ok(None);
    };
    let Ok(accepted) = accept(&program) else {
        return Ok(None);
    };
    match certificate_of(alloc, profile, &accepted, own, &made.known) {
        Ok(certificate) => Ok(Some(Proposal {
            filter: made.bytes,
            certificate,
        })),
        Err(CertifyError::OutOfMemory) => Err(MakeError::OutOfMemory),
        Err(_) => Ok(None),
    }
}
