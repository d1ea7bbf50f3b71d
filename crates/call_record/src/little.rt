//! Numbers of 32 and 64 bits at an offset, the lowest byte first.
ghost use Rattle.std.specs.Prelude.{◌≡◌, ◌<◌, ◌+◌, ◌/◌, ◌%◌, ◌^◌, drop};
ghost use Rattle.byteorder.specs.Endian.{little_number};

use byteorder::{ByteOrder, LittleEndian};

/// The word at this offset.
pub(crate) fn narrow_at(bytes: &[u8; 64], at: u32) -> u32
    requires { at < 61 }
    ensures { result ≡ little_number 4 (drop at bytes.now) }
{
    LittleEndian::read_u32(&bytes[at as usize..])
}

/// The two words at this offset as one number, the low word first.
pub(crate) fn wide_at(bytes: &[u8; 64], at: u32) -> u64
    requires { at < 57 }
    ensures low { result % 2 ^ 32 ≡ little_number 4 (drop at bytes.now) }
    ensures high { result / 2 ^ 32 ≡ little_number 4 (drop (at + 4) bytes.now) }
{
    let low = narrow_at(bytes, at);
    let high = narrow_at(bytes, at + 4);
    u64::from(high) << 32 | u64::from(low)
}
