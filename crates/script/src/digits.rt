//! Bytes as hexadecimal digits.
ghost use Rattle.std.specs.Prelude.{◌≡◌, true};
ghost use Rattle.std.specs.Char.{digit_value};
ghost use Rattle.texts.specs.Digits.{is_hexadecimal_digit};
ghost use Rattle.script.specs.Pairs.{is_paired};

use texts::is_hexadecimal;

// The value of a digit.
fn digit(byte: u8) -> u8
    requires { is_hexadecimal_digit byte ≡ true }
    ensures { result ≡ digit_value byte }
{
    if byte < b'a' {
        byte - b'0'
    } else {
        byte - b'a' + 10
    }
}

/// Bytes, one at least, that stand in a line as hexadecimal digits with small letters, two for each.
#[derive(Clone, Copy)]
pub struct Hex<'a> {
    text: &'a str,
    ghost paired: { is_paired text.now ≡ true },
}

#[tactic(auto, unfolding(crate::specs::Requests::bytes_of, crate::specs::Pairs::is_paired))]
impl<'a> Hex<'a> {
    ghost use Rattle.std.specs.Prelude.{◌≡◌, ◌≤◌, ◌*◌, length, true, Some, None, if◌then◌else◌};
    ghost use Rattle.std.specs.Option.{option_map};
    ghost use Rattle.std.specs.Vec.{vec_capacity};
    ghost use Rattle.script.specs.Requests.{bytes_of};
    ghost use Rattle.script.specs.Pairs.{is_paired, spelled_bytes};

    // The bytes that a text spells, if it does.
    pub(crate) fn read(text: &'a str) -> Option<Hex<'a>>
        ensures { option_map bytes_of result ≡ (if is_paired text.now then Some (spelled_bytes text.now) else None) }
    {
        if text.len() % 2 != 0 {
            return None;
        }
        if is_hexadecimal(text) {
            Some(Hex { text })
        } else {
            None
        }
    }

    /// How many bytes there are.
    pub fn byte_count(&self) -> usize
        ensures { result ≡ length (bytes_of self.now) }
    {
        self.text.len() / 2
    }

    /// Puts the bytes into a vector that has room for them. It takes no memory.
    pub fn put_into(&self, out: &mut Vec<u8>)
        requires { length (bytes_of self.now) ≤ vec_capacity out.old }
        ensures items { out.new.items ≡ bytes_of self.now }
        ensures room { vec_capacity out.new ≡ vec_capacity out.old }
    {
        out.clear();
        let mut left = self.text.as_bytes();
        'pair: while let [high, low, rest @ ..] = left {
            out.push_reserved(digit(*high) * 16 + digit(*low));
            left = rest;
        }
    }
}
