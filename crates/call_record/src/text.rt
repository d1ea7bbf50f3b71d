//! The text of a verdict.
ghost use Rattle.std.specs.Prelude.{◌≡◌, ◌%◌};
ghost use Rattle.std.specs.Char.{digit_char};
ghost use Rattle.call_record.specs.Text.{text_of};

use crate::verdict::Word;
use std::{fmt, str};

// The lowest hexadecimal digit.
fn digit(bits: u32) -> u8
    ensures { result ≡ digit_char (bits % 16) }
{
    let digit = (bits % 16) as u8;
    if digit < 10 {
        b'0' + digit
    } else {
        b'a' + (digit - 10)
    }
}

impl Word {
    /// The text of the verdict: `0x` and eight lower-case hexadecimal digits.
    pub fn text(self) -> [u8; 10]
        ensures { result ≡ text_of self }
    {
        let bits = self.0;
        [
            b'0',
            b'x',
            digit(bits >> 28),
            digit(bits >> 24),
            digit(bits >> 20),
            digit(bits >> 16),
            digit(bits >> 12),
            digit(bits >> 8),
            digit(bits >> 4),
            digit(bits),
        ]
    }
}

impl fmt::Display for Word {
    ghost use Rattle.std.specs.Prelude.{Some};
    ghost use Rattle.call_record.specs.Text.{text_of};

    ghost output = { λ word. Some (text_of word) };

    fn fmt<W: fmt::Write>(&self, f: &mut fmt::Formatter<W>) -> fmt::Result {
        match str::from_utf8(&self.text()) {
            Ok(text) => f.write_str(text),
            Err(_) => unreachable!(),
        }
    }
}
