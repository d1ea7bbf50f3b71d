//! Numbers as strace writes them.
ghost use Rattle.std.specs.Prelude.{◌≡◌, codes};
ghost use Rattle.std.specs.Option.{option_map};
ghost use Rattle.texts.specs.Splits.{behind};
ghost use Rattle.strace_logs.specs.Line.{behind_spaces, number_at, value_at};

use texts::{decimal, hexadecimal};

/// The number that a text is: decimal, or `0x` and hexadecimal.
#[tactic(auto, unfolding(crate::specs::Line::value_at))]
pub(crate) fn value(text: &str) -> Option<u64>
    ensures { result ≡ value_at text.now }
{
    match text.strip_prefix("0x") {
        Some(digits) => hexadecimal(digits),
        None => decimal(text),
    }
}

// What stands behind a space in front, if there is one.
fn behind_space(text: &str) -> Option<&str>
    ensures { option_map (λ rest. rest.now) result ≡ behind (codes " ") text.now }
{
    text.strip_prefix(" ")
}

// A text without the spaces in front.
fn behind_spaces(text: &str) -> &str
    ensures { result.now ≡ behind_spaces text.now }
{
    let mut rest = text;
    'space: while let Some(more) = behind_space(rest) {
        rest = more;
    }
    rest
}

/// The number of 32 bits that a text is, behind spaces.
#[tactic(auto, unfolding(crate::specs::Line::number_at))]
pub(crate) fn number(text: &str) -> Option<u32>
    ensures { result ≡ number_at text.now }
{
    u32::try_from(decimal(behind_spaces(text))?).ok()
}
