//! Why a bundle has no checked filter.
ghost use Rattle.profile_json.specs.declared.fault.ProfileError.TheVariants as refusal;
ghost use Rattle.rule_compile.specs.declared.fault.CompileError.TheVariants as compiler;
ghost use Rattle.certify.specs.declared.error.CertifyError.TheVariants as maker;
ghost use Rattle.cert_check.specs.declared.fault.CheckError.TheVariants as checker;
ghost use Rattle.maker.specs.Exported.{IsToldAs, Refuses};
ghost use Rattle.maker.specs.declared.make_error.MakeError.TheVariants.{Profile, Compile, Certify, Check};

use cert_check::CheckError;
use certify::CertifyError;
use profile_json::ProfileError;
use rule_compile::CompileError;
use std::alloc::Global;
use std::fmt;
use texts::{Sink, WriteFault, write_all};
use thiserror::Error;

/// Why a bundle has no checked filter. Its text is the line that says so.
#[derive(Clone, Copy, Debug, Error)]
pub enum MakeError {
    /// The bundle is refused.
    Profile(ProfileError),
    /// No filter is compiled.
    Compile(CompileError),
    /// No certificate is made.
    Certify(CertifyError),
    /// The checker says no.
    Check(CheckError),
    /// There is not enough memory.
    OutOfMemory,
}

impl fmt::Display for MakeError {
    ghost use Rattle.std.specs.Prelude.{Some};
    ghost use Rattle.maker.specs.Exported.{text_of};

    ghost output = { λ make_error. Some (text_of make_error) };

    fn fmt<W: fmt::Write>(&self, f: &mut fmt::Formatter<W>) -> fmt::Result {
        match *self {
            MakeError::Profile(error) => write!(f, "refused profile {error}"),
            MakeError::Compile(error) => write!(f, "refused compile {error}"),
            MakeError::Certify(error) => write!(f, "refused certify {error}"),
            MakeError::Check(error) => write!(f, "no {error}"),
            MakeError::OutOfMemory => write!(f, "out of memory"),
        }
    }
}

impl From<ProfileError> for MakeError {
    ghost from_gives = { IsToldAs Profile refusal.OutOfMemory };

    fn from(error: ProfileError) -> MakeError {
        match error {
            ProfileError::OutOfMemory => MakeError::OutOfMemory,
            _ => MakeError::Profile(error),
        }
    }
}

impl From<CompileError> for MakeError {
    ghost from_gives = { IsToldAs Compile compiler.OutOfMemory };

    fn from(error: CompileError) -> MakeError {
        match error {
            CompileError::OutOfMemory => MakeError::OutOfMemory,
            _ => MakeError::Compile(error),
        }
    }
}

impl From<CertifyError> for MakeError {
    ghost from_gives = { IsToldAs Certify maker.OutOfMemory };

    fn from(error: CertifyError) -> MakeError {
        match error {
            CertifyError::OutOfMemory => MakeError::OutOfMemory,
            _ => MakeError::Certify(error),
        }
    }
}

impl From<CheckError> for MakeError {
    ghost from_gives = { IsToldAs Check checker.OutOfMemory };

    fn from(error: CheckError) -> MakeError {
        match error {
            CheckError::OutOfMemory => MakeError::OutOfMemory,
            _ => MakeError::Check(error),
        }
    }
}

/// Writes the line that says why there is no checked filter. The answer is false.
pub fn refuse<S: Sink>(
    alloc: Global,
    make_error: &MakeError,
    sink: &mut S,
) -> Result<bool, WriteFault>
    ensures { Refuses S.held S.failures sink.old sink.new make_error.now result }
{
    if let MakeError::OutOfMemory = make_error {
        return Err(WriteFault::OutOfMemory);
    }
    let Ok(line) = format!(in alloc; "{make_error}\n") else {
        return Err(WriteFault::OutOfMemory);
    };
    write_all(line.as_bytes(), sink)?;
    Ok(false)
}
