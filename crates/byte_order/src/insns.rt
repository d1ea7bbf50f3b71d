//! Single instructions.
ghost use Rattle.std.specs.Prelude.{◌≡◌, ◌≤◌, ◌*◌, ◌+◌, length, drop};
ghost use Rattle.bpf_insn.specs.Bytes as little;
ghost use Rattle.byte_order.specs.Big as big;
ghost use Rattle.byte_order.specs.Turned.{other_half, other_word};

use bpf_insn::{Insn, Operation};
use byteorder::{BigEndian, ByteOrder, LittleEndian};

// The instruction at a position, which the bytes reach, with its highest bytes first.
pub(crate) fn big_at(bytes: &[u8], i: usize) -> Insn
    requires { 8 * i + 8 ≤ length bytes.now }
    ensures { result ≡ big.insn_at (drop (8 * i) bytes.now) }
{
    let own = &bytes[8 * i..];
    Insn {
        code: BigEndian::read_u16(own),
        jt: own[2],
        jf: own[3],
        k: BigEndian::read_u32(&own[4..]),
    }
}

// The instruction at a position, which the bytes reach, with its lowest bytes first.
pub(crate) fn little_at(bytes: &[u8], i: usize) -> Insn
    requires { 8 * i + 8 ≤ length bytes.now }
    ensures { result ≡ little.insn_at (drop (8 * i) bytes.now) }
{
    let own = &bytes[8 * i..];
    Insn {
        code: LittleEndian::read_u16(own),
        jt: own[2],
        jf: own[3],
        k: LittleEndian::read_u32(&own[4..]),
    }
}

// The offset of the other half of the same number: those from 8 to 63 are of halves.
fn other_word(offset: u32) -> u32
    ensures { result ≡ other_word offset }
{
    if offset < 8 || offset >= 64 || offset % 4 != 0 {
        return offset;
    }
    if offset % 8 == 0 {
        offset + 4
    } else {
        offset - 4
    }
}

// The instruction that reads the other half, if it reads a half.
pub(crate) fn other_half(insn: Insn) -> Insn
    ensures { result ≡ other_half insn }
{
    match insn.operation() {
        Some(Operation::LoadWord) => Insn {
            k: other_word(insn.k),
            ..insn
        },
        _ => insn,
    }
}

// The bytes of an instruction, the highest of a number first.
pub(crate) fn big_bytes_of(insn: &Insn) -> [u8; 8]
    ensures { result ≡ big.insn_bytes insn.now }
{
    let Insn { code, jt, jf, k } = *insn;
    let [c0, c1] = code.to_be_bytes();
    let [k0, k1, k2, k3] = k.to_be_bytes();
    [c0, c1, jt, jf, k0, k1, k2, k3]
}

// The same, the lowest first.
pub(crate) fn little_bytes_of(insn: &Insn) -> [u8; 8]
    ensures { result ≡ little.insn_bytes insn.now }
{
    let Insn { code, jt, jf, k } = *insn;
    let [c0, c1] = code.to_le_bytes();
    let [k0, k1, k2, k3] = k.to_le_bytes();
    [c0, c1, jt, jf, k0, k1, k2, k3]
}
