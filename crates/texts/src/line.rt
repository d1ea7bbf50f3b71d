//! Lines that take no memory.
ghost use Rattle.std.specs.Prelude.{◌≡◌, ◌≤◌, ◌+◌, ◌++◌, length};
ghost use Rattle.arrayvec.specs.ArrayVec.{array_vec_len};
ghost use Rattle.texts.specs.Labels.{label_text};

use arrayvec::ArrayVec;
use itoa::{Buffer, Integer};

const ROOM: usize = 64;

/// A line of 64 bytes at most, which takes no memory.
pub type Line = ArrayVec<u8, ROOM>;

/// Adds bytes to a line that has room for them.
pub fn put(line: &mut Line, bytes: &[u8])
    requires { array_vec_len line.old + length bytes.now ≤ 64 }
    ensures items { line.new.items ≡ line.old.items ++ bytes.now }
    ensures len { array_vec_len line.new ≡ array_vec_len line.old + length bytes.now }
{
    let _ = line.try_extend_from_slice(bytes);
}

/// Adds a number's digits.
pub fn put_number<N: Integer>(line: &mut Line, number: N)
    requires { array_vec_len line.old + N.MAX_STR_LEN ≤ 64 }
    ensures items { line.new.items ≡ line.old.items ++ N.text number }
    ensures len { array_vec_len line.new ≤ array_vec_len line.old + N.MAX_STR_LEN }
{
    put(line, Buffer::new().format(number).as_bytes());
}

/// Adds a number and a name, with a space between them.
pub fn put_label(line: &mut Line, number: u32, name: &str)
    requires { array_vec_len line.old + length name.now ≤ 53 }
    ensures items { line.new.items ≡ line.old.items ++ label_text (number, name.now) }
    ensures len { array_vec_len line.new ≤ array_vec_len line.old + length name.now + 11 }
{
    put_number(line, number);
    put(line, b" ");
    put(line, name.as_bytes());
}
