//! Why a filter is not decided where calls are left aside.
ghost use Rattle.std.specs.Prelude.{◌≡◌};
ghost use Rattle.maker.specs.declared.make_error.MakeError.TheVariants.{Certify};
ghost use Rattle.aside.specs.inner.Lead.{IsUndecided};

use certify::CertifyError;
use maker::MakeError;
use rule_compile::CompileError;

// Why a filter is not decided. A position is counted without the instructions in front.
fn behind_front(error: CertifyError, front: u32) -> MakeError
    ensures { IsUndecided result }
{
    match error {
        CertifyError::Undecided(pc) => {
            MakeError::Certify(CertifyError::Undecided(pc.saturating_sub(front)))
        }
        CertifyError::TooLarge => MakeError::Certify(CertifyError::TooLarge),
        CertifyError::OutOfMemory => MakeError::OutOfMemory,
    }
}

/// Why there is no evidence on a filter, of why there is none on it with so many instructions in front. With these it may be longer than a
/// filter may be.
pub(crate) fn undecided(make_error: &MakeError, front: u32) -> MakeError
    ensures { IsUndecided result }
{
    match *make_error {
        MakeError::Certify(error) => behind_front(error, front),
        MakeError::OutOfMemory => MakeError::OutOfMemory,
        _ => MakeError::Certify(CertifyError::TooLarge),
    }
}

/// Why there is none where no filter is compiled that it could be judged with.
pub(crate) fn uncompiled(error: &CompileError) -> MakeError
    ensures { IsUndecided result }
{
    match *error {
        CompileError::OutOfMemory => MakeError::OutOfMemory,
        _ => MakeError::Certify(CertifyError::TooLarge),
    }
}
