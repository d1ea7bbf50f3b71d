//! Certificates of any filter.
ghost use Rattle.std.specs.Prelude.{◌≡◌, OnOk};
ghost use Rattle.bpf_insn.specs.Program.{insns};
ghost use Rattle.kernel_check.specs.Accepted.{IsAccepted};
ghost use Rattle.kernel_check.specs.Lent.{accepted_insns};
ghost use Rattle.certify.specs.Certificates.{MakesValid, OwnLacksMemory, RightLacksRoom, TellingLacksRoom};
ghost use Rattle.certify.specs.Error.{IsOfSize};
ghost use Rattle.certify.specs.Fault.{IsSize};
ghost use Rattle.certify.specs.declared.error.CertifyError.TheVariants.{OutOfMemory};

use crate::error::CertifyError;
use crate::fault::PathsError;
use crate::following::by_paths;
use bpf_insn::Program;
use kernel_check::{Accepted, accept};
use profile::Profile;
use std::alloc::Global;

// Why there is no certificate, if none follows each path of the filter.
fn told(error: PathsError) -> CertifyError
    ensures size { IsSize error → IsOfSize result }
    ensures memory { error ≡ PathsError.OutOfMemory → result ≡ OutOfMemory }
{
    match error {
        PathsError::Unlike(pc, _) => CertifyError::Undecided(pc),
        PathsError::Unsettled(pc) => CertifyError::Undecided(pc),
        PathsError::TooLarge => CertifyError::TooLarge,
        PathsError::OutOfMemory => CertifyError::OutOfMemory,
    }
}

/// A certificate that the filter gives each call record the verdict that the profile says. The checker says yes to it.
///
/// That there is none says nothing of the filter, but for two kinds. If the filter is right, and each of its comparisons tells all that it
/// asks, an error is due to memory or the format's limits. Each comparison of the compiler's filters tells all that it asks. If no rule has
/// a condition, and the filter has the shape of such a profile's, memory was refused.
#[tactic(auto, using(crate::proofs::RightLaws::right_of_telling))]
pub fn certify_accepted(
    alloc: Global,
    profile: &Profile,
    program: &Accepted<'_>,
) -> Result<Vec<u8>, CertifyError>
    // The certificate keeps each rule of the checker.
    ensures valid { MakesValid profile.now (accepted_insns program.now) result }
    // A right filter of which each comparison tells all that it asks is certified, if memory and the format have room for it. Each
    // that compares steadily is one.
    ensures telling { TellingLacksRoom profile.now (accepted_insns program.now) result }
    ensures sure { RightLacksRoom profile.now (accepted_insns program.now) result }
    ensures never { OwnLacksMemory profile.now (accepted_insns program.now) result }
{
    match by_paths(alloc, profile, program) {
        Ok(certificate) => Ok(certificate),
        Err(error) => Err(told(error)),
    }
}

/// A certificate that the kernel accepts the program, and that it gives each call record the verdict that the profile
/// says. A program that the kernel would not accept is undecided.
pub fn certify(
    alloc: Global,
    profile: &Profile,
    program: &Program<'_>,
) -> Result<Vec<u8>, CertifyError>
    ensures accepted { OnOk result (IsAccepted (insns program.now)) }
    // The certificate keeps each rule of the checker.
    ensures valid { MakesValid profile.now (insns program.now) result }
    // Take a right filter that the kernel accepts, and of which each comparison tells all that it asks. It is certified, if memory and the
    // format have room for it. Each that compares steadily is one.
    ensures telling { IsAccepted (insns program.now) → TellingLacksRoom profile.now (insns program.now) result }
    ensures sure { IsAccepted (insns program.now) → RightLacksRoom profile.now (insns program.now) result }
    ensures never { OwnLacksMemory profile.now (insns program.now) result }
{
    match accept(program) {
        Ok(accepted) => certify_accepted(alloc, profile, &accepted),
        Err(refused) => Err(CertifyError::Undecided(refused.pc)),
    }
}
