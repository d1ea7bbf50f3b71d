//! Why a bundle is refused.
ghost use Rattle.std.specs.Prelude.{◌≡◌, ◌++◌, codes};
ghost use Rattle.std.specs.Char.{encode_utf8};
ghost use Rattle.std.specs.Fmt.{WritesOnOk};
ghost use Rattle.profile_json.specs.CallName as spec;
ghost use Rattle.profile_json.specs.declared.fault.ProfileError.TheVariants.{OutOfMemory};

use arrayvec::ArrayString;
use std::alloc::{AllocError, AllocFailed};
use std::fmt;
use thiserror::Error;

/// Why a bundle was refused.
#[derive(Clone, Copy, Debug, PartialEq, Eq, Error)]
pub enum ProfileError {
    /// The text is no JSON.
    Syntax,
    /// `ociVersion` is no edition that is read.
    Version,
    /// There is no `linux.seccomp`.
    NoSeccomp,
    /// A value is not of the type that its key asks for.
    WrongType,
    /// A member that is needed is missing.
    MissingKey,
    /// An action has no known name.
    UnknownAction,
    /// An architecture has no known name.
    UnknownArch,
    /// The architectures lack the native machine.
    NativeMissing,
    /// A call name stands in no table. It is cut to whole characters of at most 64 bytes.
    UnknownCall(ArrayString<64>),
    /// An entry names no call.
    EmptyNames,
    /// `errnoRet` or `defaultErrnoRet` stands beside an action that takes no data.
    ErrnoNotTaken,
    /// `errnoRet` or `defaultErrnoRet` is above 4095.
    ErrnoRange,
    /// An operator has no known name.
    UnknownOp,
    /// An argument's index is above 5.
    BadIndex,
    /// An entry names one argument twice.
    RepeatedIndex,
    /// A datum of MASKED_EQ has bits outside the mask.
    StrayDatum,
    /// Two entries, by their places from 0, give unlike verdicts to one record of this call.
    Overlap {
        name: ArrayString<64>,
        first: usize,
        second: usize,
    },
    /// A key is used that is not supported.
    UnsupportedKey,
    /// More than 256 entries (1,024 in whole tables), 128 names in an entry (512 in whole tables), or 8,192 different rules.
    TooMany,
    OutOfMemory,
}

impl ProfileError {
    ghost use Rattle.std.specs.Prelude.{◌≡◌};
    ghost use Rattle.profile_json.specs.Fault.{label_of};

    /// The number and the name by which it is told.
    pub fn label(self) -> (u32, &'static str)
        ensures number { result.0 ≡ (label_of self).0 }
        ensures name { result.1.now ≡ (label_of self).1 }
    {
        match self {
            ProfileError::Syntax => (1, "Syntax"),
            ProfileError::Version => (2, "Version"),
            ProfileError::NoSeccomp => (3, "NoSeccomp"),
            ProfileError::WrongType => (4, "WrongType"),
            ProfileError::MissingKey => (5, "MissingKey"),
            ProfileError::UnknownAction => (6, "UnknownAction"),
            ProfileError::UnknownArch => (7, "UnknownArch"),
            ProfileError::NativeMissing => (8, "NativeMissing"),
            ProfileError::UnknownCall(_) => (9, "UnknownCall"),
            ProfileError::EmptyNames => (10, "EmptyNames"),
            ProfileError::ErrnoNotTaken => (11, "ErrnoNotTaken"),
            ProfileError::ErrnoRange => (12, "ErrnoRange"),
            ProfileError::UnknownOp => (13, "UnknownOp"),
            ProfileError::BadIndex => (14, "BadIndex"),
            ProfileError::RepeatedIndex => (15, "RepeatedIndex"),
            ProfileError::StrayDatum => (16, "StrayDatum"),
            ProfileError::Overlap { .. } => (17, "Overlap"),
            ProfileError::UnsupportedKey => (18, "UnsupportedKey"),
            ProfileError::TooMany => (19, "TooMany"),
            ProfileError::OutOfMemory => (20, "OutOfMemory"),
        }
    }
}

// A character as it is printed: `?` for the control characters of ASCII.
fn printed_char(c: char) -> char
    ensures { encode_utf8 result ≡ spec.printed_char c }
{
    if c < ' ' || c == '\x7f' { '?' } else { c }
}

// Writes a space and a call name.
fn write_call<W: fmt::Write>(f: &mut fmt::Formatter<W>, name: &str) -> fmt::Result
    ensures { WritesOnOk W.write_str_gives f.old result (codes " " ++ spec.printed name.now) f.new }
{
    write!(f, " ")?;
    let mut left = name.chars();
    while let Some(c) = left.next() {
        f.write_char(printed_char(c))?;
    }
    Ok(())
}

impl fmt::Display for ProfileError {
    ghost use Rattle.std.specs.Prelude.{Some};
    ghost use Rattle.profile_json.specs.Fault.{text_of};

    ghost output = { λ error. Some (text_of error) };

    fn fmt<W: fmt::Write>(&self, f: &mut fmt::Formatter<W>) -> fmt::Result {
        let (number, name) = self.label();
        write!(f, "{number} {name}")?;
        match self {
            ProfileError::UnknownCall(call) => write_call(f, call.as_str()),
            ProfileError::Overlap {
                name: call,
                first,
                second,
            } => {
                write_call(f, call.as_str())?;
                write!(f, " {first} {second}")
            }
            _ => Ok(()),
        }
    }
}

impl From<AllocError> for ProfileError {
    ghost from_gives = { λ _ e. e ≡ OutOfMemory };

    fn from(_e: AllocError) -> ProfileError {
        ProfileError::OutOfMemory
    }
}

impl<T: Drop> From<AllocFailed<T>> for ProfileError {
    ghost from_gives = { λ _ e. e ≡ OutOfMemory };

    fn from(_e: AllocFailed<T>) -> ProfileError {
        ProfileError::OutOfMemory
    }
}
