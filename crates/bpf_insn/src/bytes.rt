//! Instructions and the eight bytes of each.
ghost use Rattle.std.specs.Prelude.{◌≡◌, ◌≤◌, ◌*◌, ◌+◌, None, length, drop};
ghost use Rattle.bpf_insn.specs.Bytes.{insn_at, insn_bytes, insns_of, max_insns, spelling, view_fault};

use crate::instruction::Insn;
use byteorder::{ByteOrder, LittleEndian};

// The instruction at a position, which the bytes reach.
pub(crate) fn read_at(bytes: &[u8], i: usize) -> Insn
    requires { 8 * i + 8 ≤ length bytes.now }
    ensures { result ≡ insn_at (drop (8 * i) bytes.now) }
{
    let own = &bytes[8 * i..];
    Insn {
        code: LittleEndian::read_u16(own),
        jt: own[2],
        jf: own[3],
        k: LittleEndian::read_u32(&own[4..]),
    }
}

// The bytes of one instruction, which read as it.
fn bytes_of(insn: &Insn) -> [u8; 8]
    ensures spelled { result ≡ insn_bytes insn.now }
    ensures read { insn_at (insn_bytes insn.now) ≡ insn.now }
{
    let Insn { code, jt, jf, k } = *insn;
    let [c0, c1] = code.to_le_bytes();
    let [k0, k1, k2, k3] = k.to_le_bytes();
    [c0, c1, jt, jf, k0, k1, k2, k3]
}

/// Writes the eight bytes of each instruction, in order, into a slice of just that length.
///
/// From 1 to 4096 instructions are a program, which `Program::view` reads as these.
pub fn encode_into(insns: &[Insn], out: &mut [u8])
    requires { length out.old ≡ 8 * length insns.now }
    ensures spelled { out.new ≡ spelling insns.now }
    ensures read { insns_of out.new ≡ insns.now }
    ensures program { 1 ≤ length insns.now → length insns.now ≤ max_insns → view_fault out.new ≡ None }
{
    for (i, insn) in insns.iter().enumerate() {
        out[8 * i..8 * i + 8].copy_from_slice(&bytes_of(insn));
    }
}
