//! Editions of kernels.
ghost use Rattle.std.specs.Prelude.{◌≡◌, ◌^◌, nat_lt, Some, None, if◌then◌else◌};
ghost use Rattle.std.specs.Str.Parse.{IsNumeral, digits_value};
ghost use Rattle.engines.specs.Words.{edition_called, number_at};

use texts::{is_decimal, split};

/// A kernel's edition, as `6.12`: what stands before the dot and behind it.
#[derive(Clone, Copy, Debug, PartialEq, Eq)]
pub struct Kernel {
    pub major: u32,
    pub minor: u32,
}

/// The edition whose tables of calls there are.
pub(crate) const TABLES: Kernel = Kernel {
    major: 6,
    minor: 18,
};

impl Kernel {
    /// The edition that each kernel has.
    pub(crate) const LEAST: Kernel = Kernel { major: 0, minor: 0 };

    /// Whether this one is an edition or a later one.
    pub(crate) fn has(self, edition: Kernel) -> bool {
        if self.major != edition.major {
            return self.major > edition.major;
        }
        self.minor >= edition.minor
    }
}

// The number that digits write, where 32 bits hold it.
fn value(digits: &str) -> Option<u32>
    requires { IsNumeral 10 digits.now }
    ensures { result ≡ (if nat_lt (digits_value 10 digits.now) (2 ^ 32) then Some (digits_value 10 digits.now) else None) }
{
    u32::from_str_radix(digits, 10).ok()
}

/// The number of decimal digits, where 32 bits hold it.
#[tactic(auto, unfolding(crate::specs::Words::number_at))]
pub(crate) fn number_of(text: &str) -> Option<u32>
    ensures { result ≡ number_at text.now }
{
    if is_decimal(text) { value(text) } else { None }
}

/// The edition of a text.
#[tactic(auto, unfolding(crate::specs::Words::edition_called))]
pub(crate) fn kernel_of(text: &str) -> Option<Kernel>
    ensures { result ≡ edition_called text.now }
{
    match split(text, '.') {
        Some((major, minor)) => Some(Kernel {
            major: number_of(major)?,
            minor: number_of(minor)?,
        }),
        None => None,
    }
}
