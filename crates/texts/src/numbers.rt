//! Digits, and the numbers that they write.
ghost use Rattle.std.specs.Prelude.{◌≡◌, ◌≤◌};
ghost use Rattle.std.specs.Char.{is_ascii_digit};
ghost use Rattle.std.specs.Str.Parse.{IsNumeral};
ghost use Rattle.texts.specs.Digits.{are_digits, is_hexadecimal_digit};
ghost use Rattle.texts.specs.Numbers.{decimal_at, hexadecimal_at, number_of};

/// Whether a text is decimal digits, one at least.
pub fn is_decimal(text: &str) -> bool
    ensures { result ≡ are_digits is_ascii_digit text.now }
{
    !text.is_empty() && text.bytes().all(|b| b.is_ascii_digit())
}

/// Whether a text is hexadecimal digits with small letters, one at least.
pub fn is_hexadecimal(text: &str) -> bool
    ensures { result ≡ are_digits is_hexadecimal_digit text.now }
{
    !text.is_empty() && text.bytes().all(|b| matches!(b, b'0'..=b'9' | b'a'..=b'f'))
}

// The number that digits write, where it has no leading zero and 64 bits hold it.
#[tactic(auto, unfolding(crate::specs::Numbers::number_of))]
fn value(digits: &str, radix: u32) -> Option<u64>
    requires least_radix { 2 ≤ radix }
    requires greatest_radix { radix ≤ 36 }
    requires digits { IsNumeral radix digits.now }
    ensures { result ≡ number_of radix digits.now }
{
    if digits.len() > 1 && digits.as_bytes()[0] == b'0' {
        None
    } else {
        u64::from_str_radix(digits, radix).ok()
    }
}

/// The number that a text is in decimal, if it is digits without a leading zero and 64 bits hold it.
#[tactic(auto, unfolding(crate::specs::Numbers::decimal_at))]
pub fn decimal(text: &str) -> Option<u64>
    ensures { result ≡ decimal_at text.now }
{
    if is_decimal(text) {
        value(text, 10)
    } else {
        None
    }
}

/// The number that a text is in hexadecimal with small letters, if it is digits without a leading zero and 64 bits hold
/// it.
#[tactic(auto, unfolding(crate::specs::Numbers::hexadecimal_at))]
pub fn hexadecimal(text: &str) -> Option<u64>
    ensures { result ≡ hexadecimal_at text.now }
{
    if is_hexadecimal(text) {
        value(text, 16)
    } else {
        None
    }
}
