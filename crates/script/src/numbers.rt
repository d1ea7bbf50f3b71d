//! Numbers of a script.
ghost use Rattle.std.specs.Prelude.{◌≡◌};
ghost use Rattle.script.specs.inner.Reading.{number_at, number32_at};

use texts::{decimal, hexadecimal};

/// The number that a text is: decimal, or `0x` and hexadecimal.
#[tactic(auto, unfolding(crate::specs::inner::Reading::number_at))]
pub(crate) fn number(text: &str) -> Option<u64>
    ensures { result ≡ number_at text.now }
{
    match text.strip_prefix("0x") {
        Some(digits) => hexadecimal(digits),
        None => decimal(text),
    }
}

/// The number that a text is, if 32 bits hold it.
#[tactic(auto, unfolding(crate::specs::inner::Reading::number32_at))]
pub(crate) fn number32(text: &str) -> Option<u32>
    ensures { result ≡ number32_at text.now }
{
    u32::try_from(number(text)?).ok()
}
