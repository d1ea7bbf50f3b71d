//! What commands answer.
ghost use Rattle.std.specs.Prelude.{◌≡◌, ◌≢◌, ◌++◌, IfOk, codes, false};
ghost use Rattle.wording.specs.Told as spec;
ghost use Rattle.profile_json.specs.Fault.{text_of};
ghost use Rattle.profile_json.specs.declared.fault.ProfileError.TheVariants.{OutOfMemory};

use profile_json::ProfileError;
use std::alloc::{AllocError, Global};

/// How a command ends.
#[derive(Clone, Copy)]
pub enum End {
    /// The answer is yes, or it was done.
    Done,
    /// It was done, and a name that was left out is near to a known one.
    Doubtful,
    /// The answer is no, or it was not done.
    No,
    /// What was given cannot be read.
    Refused,
}

impl End {
    ghost use Rattle.std.specs.Prelude.{◌≡◌};
    ghost use Rattle.wording.specs.Told as spec;

    /// Done if something holds, and no otherwise.
    pub fn of(holds: bool) -> End
        ensures { result ≡ spec.end_of holds }
    {
        if holds { End::Done } else { End::No }
    }

    /// This end, if something holds. Otherwise *done* and *doubtful* become *no*.
    pub fn only_if(self, holds: bool) -> End
        ensures { result ≡ spec.end_if holds self }
    {
        if holds {
            return self;
        }
        match self {
            End::Done => End::No,
            End::Doubtful => End::No,
            End::No => End::No,
            End::Refused => End::Refused,
        }
    }

    /// This end, or *doubtful* in the place of *done* if something is doubtful.
    pub fn doubted(self, is_doubtful: bool) -> End
        ensures { result ≡ spec.end_doubted is_doubtful self }
    {
        if !is_doubtful {
            return self;
        }
        match self {
            End::Done => End::Doubtful,
            End::Doubtful => End::Doubtful,
            End::No => End::No,
            End::Refused => End::Refused,
        }
    }

    /// Whether what was done is doubtful.
    pub fn is_doubtful(self) -> bool {
        matches!(self, End::Doubtful)
    }

    /// Whether what was given is refused.
    pub fn is_refused(self) -> bool
        ensures { result ≡ spec.was_refused self }
    {
        match self {
            End::Done => false,
            End::Doubtful => false,
            End::No => false,
            End::Refused => true,
        }
    }

    /// Whether it was done.
    pub fn is_done(self) -> bool
        ensures { result ≡ spec.was_done self }
    {
        match self {
            End::Done => true,
            End::Doubtful => true,
            End::No => false,
            End::Refused => false,
        }
    }
}

/// What a command answers: bytes for standard output, and how it ends.
#[derive(Drop)]
pub struct Told {
    pub bytes: Vec<u8>,
    pub end: End,
}

/// The line that tells why a bundle is refused. Want of memory is no reason, and an error here.
pub fn refused_profile(alloc: Global, error: ProfileError) -> Result<Told, AllocError>
    ensures told { IfOk result (spec.RefusesBy (codes "refused profile " ++ text_of error)) }
    ensures fault { IfOk result (λ told. error ≢ OutOfMemory) }
    ensures done { IfOk result (λ told. spec.was_done told.end ≡ false) }
{
    if let ProfileError::OutOfMemory = error {
        return Err(AllocError);
    }
    let line = format!(in alloc; "refused profile {error}\n")?;
    Ok(Told {
        bytes: line.into_bytes(),
        end: End::Refused,
    })
}
