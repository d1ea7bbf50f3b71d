//! What is proposed of the compiler's own filters, of which the checker was not asked.
ghost use Rattle.std.specs.Prelude.{◌≡◌, ◌↔◌, [], All, IfErr, IsTrue};
ghost use Rattle.kernel_check.specs.Lent.{accepted_insns};
ghost use Rattle.certify.specs.Certificates.{OwnLacksMemory, RightLacksRoom};
ghost use Rattle.maker.specs.inner.Proposed.{MakesOwnValid};

use crate::evidence::hand::Hand;
use crate::evidence::own::by_outline;
use certify::{CertifyError, certify_accepted};
use kernel_check::Accepted;
use profile::{Profile, Rule};
use rule_compile::Outline;
use std::alloc::Global;

/// Whether no rule has a condition.
pub(crate) fn are_plain(rules: &[Rule]) -> bool
    ensures { IsTrue result ↔ All (λ rule. rule.conds.items ≡ []) rules.now }
{
    rules.iter().all(|rule| rule.conds.is_empty())
}

// What is proposed of a profile without conditions: the certificate that follows each path, or else the one that its outline gives.
fn of_plain(
    alloc: Global,
    profile: &Profile,
    program: &Accepted<'_>,
    outline: &Outline,
) -> Result<Vec<u8>, CertifyError>
    ensures own { MakesOwnValid profile.now (accepted_insns program.now) result }
    ensures sure { RightLacksRoom profile.now (accepted_insns program.now) result }
    ensures never { OwnLacksMemory profile.now (accepted_insns program.now) result }
{
    let error = match certify_accepted(alloc, profile, program) {
        Ok(bytes) => return Ok(bytes),
        Err(CertifyError::OutOfMemory) => return Err(CertifyError::OutOfMemory),
        Err(error) => error,
    };
    match by_outline(alloc, profile, *program, outline) {
        Ok(Hand::Certificate(bytes)) => Ok(bytes),
        Ok(_) => Err(error),
        Err(no_memory) => Err(no_memory),
    }
}

// What is proposed, by what the outline gave: the certificate that follows each path, where it gave none. Where its own came out too large,
// that one would be larger.
fn or_followed(
    alloc: Global,
    profile: &Profile,
    program: &Accepted<'_>,
    hand: Hand,
) -> Result<Vec<u8>, CertifyError>
    ensures { RightLacksRoom profile.now (accepted_insns program.now) result }
{
    match hand {
        Hand::Certificate(bytes) => Ok(bytes),
        Hand::TooLarge => Err(CertifyError::TooLarge),
        Hand::Nothing => certify_accepted(alloc, profile, program),
    }
}

/// What the makers propose of the filter that the compiler made of the profile, with its outline: the checker was not asked. It
/// says yes where the profile is plain and the filter has the shape of such a profile's.
pub(crate) fn propose(
    alloc: Global,
    profile: &Profile,
    program: &Accepted<'_>,
    outline: &Outline,
) -> Result<Vec<u8>, CertifyError>
    ensures own { MakesOwnValid profile.now (accepted_insns program.now) result }
    // Of a right filter that compares steadily, as each of the compiler's is, an error tells of memory or of the format's limits.
    ensures sure { RightLacksRoom profile.now (accepted_insns program.now) result }
    ensures never { OwnLacksMemory profile.now (accepted_insns program.now) result }
{
    if are_plain(profile.rules()) {
        return of_plain(alloc, profile, program, outline);
    }
    match by_outline(alloc, profile, *program, outline) {
        Ok(hand) => or_followed(alloc, profile, program, hand),
        Err(error) => Err(error),
    }
}

/// What the makers propose of a filter that `shorten` gives, with its outline: the checker was not asked.
pub(crate) fn propose_shared(
    alloc: Global,
    profile: &Profile,
    program: &Accepted<'_>,
    outline: &Outline,
) -> Result<Vec<u8>, CertifyError> {
    match by_outline(alloc, profile, *program, outline) {
        Ok(Hand::Certificate(bytes)) => Ok(bytes),
        Ok(_) => Err(CertifyError::TooLarge),
        Err(error) => Err(error),
    }
}
