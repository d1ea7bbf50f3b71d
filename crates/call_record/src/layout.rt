//! One call as its fields, as sixteen words and as 64 bytes.
ghost use Rattle.std.specs.Prelude.{◌≡◌, ◌/◌, ◌%◌, ◌^◌};
ghost use Rattle.call_record.specs.Words.{FieldsFit};

use crate::little::{narrow_at, wide_at};
use crate::offset;

/// A call that a task presents to its filters (seccomp(2), `struct seccomp_data`).
#[derive(Clone, Copy, Debug, PartialEq, Eq)]
pub struct Record {
    /// The number of the system call.
    pub nr: u32,
    /// The token of the machine whose call this is.
    pub arch: u32,
    /// The address of the instruction that made the call.
    pub ip: u64,
    /// The arguments of the call.
    pub args: [u64; 6],
    pub ghost in_range: { FieldsFit nr arch ip args },
}

impl Record {
    ghost use Rattle.std.specs.Prelude.{◌≡◌, ◌<◌, ◌+◌, ◌∷◌, Some, slice_get, slice_index, length};
    ghost use Rattle.call_record.specs.Words.{words_of};
    ghost use Rattle.call_record.specs.Record.{words};

    /// The record that these bytes spell.
    pub fn from_bytes(bytes: &[u8; 64]) -> Record
        ensures { words result ≡ words_of bytes.now }
    {
        Record {
            nr: narrow_at(bytes, offset::NUMBER),
            arch: narrow_at(bytes, offset::MACHINE),
            ip: wide_at(bytes, offset::POINTER),
            args: [
                wide_at(bytes, offset::ARGUMENTS),
                wide_at(bytes, offset::ARGUMENTS + 8),
                wide_at(bytes, offset::ARGUMENTS + 16),
                wide_at(bytes, offset::ARGUMENTS + 24),
                wide_at(bytes, offset::ARGUMENTS + 32),
                wide_at(bytes, offset::ARGUMENTS + 40),
            ],
        }
    }

    /// The bytes that spell this record: each field at its [`offset`], with its lowest byte first.
    pub fn to_bytes(&self) -> [u8; 64]
        ensures { words_of result ≡ words self.now }
    {
        let mut bytes = [0; 64];
        for i in 0..16 {
            bytes[4 * i..4 * i + 4].copy_from_slice(&self.word(i).to_le_bytes());
        }
        bytes
    }

    /// The word of 32 bits at offset `4 * i`.
    pub fn word(&self, i: usize) -> u32
        requires { i < 16 }
        ensures { slice_get (words self.now) i ≡ Some result }
    {
        if i == 0 {
            return self.nr;
        }
        if i == 1 {
            return self.arch;
        }
        let wide = self.wide(i / 2 - 1);
        if i % 2 == 0 {
            (wide % (1 << 32)) as u32
        } else {
            (wide >> 32) as u32
        }
    }

    // The instruction pointer, or one of the arguments after it.
    fn wide(&self, j: usize) -> u64
        requires { j < 7 }
        ensures value { slice_index (self.now.ip ∷ self.now.args) j ≡ result }
        ensures some { j < length (self.now.ip ∷ self.now.args) }
    {
        if j == 0 { self.ip } else { self.args[j - 1] }
    }
}

/// The low and the high half of a number.
pub const fn halves(number: u64) -> (u32, u32)
    ensures low { result.0 ≡ number % 2 ^ 32 }
    ensures high { result.1 ≡ number / 2 ^ 32 }
{
    ((number % (1 << 32)) as u32, (number >> 32) as u32)
}
