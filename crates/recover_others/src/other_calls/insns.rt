//! Single instructions.
ghost use Rattle.std.specs.Prelude.{◌≡◌};
ghost use Rattle.flatten.specs.inner.Turns.{insn};

use bpf_insn::Insn;

/// The instruction with these fields.
pub(crate) fn insn(code: u16, jt: u8, jf: u8, k: u32) -> Insn
    ensures { result ≡ insn code jt jf k }
{
    Insn { code, jt, jf, k }
}
