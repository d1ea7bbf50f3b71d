//! A program in the bytes that spell it.
ghost use Rattle.std.specs.Prelude.{◌≡◌, None};
ghost use Rattle.bpf_insn.specs.Bytes.{AreInsns, insns_of, spelling, view_fault};

use crate::bytes::read_at;
use crate::fault::ViewError;
use crate::instruction::Insn;

/// The most instructions that a program has (`BPF_MAXINSNS`).
pub const MAX_INSNS: usize = 4096;

/// A program of 1 to 4096 instructions, lent in the bytes that it was read from.
#[derive(Clone, Copy, Debug)]
pub struct Program<'a> {
    bytes: &'a [u8],
    ghost whole: { view_fault bytes.now ≡ None },
    ghost spelled: { spelling (insns_of bytes.now) ≡ bytes.now },
    ghost fields: { AreInsns (insns_of bytes.now) },
}

#[tactic(auto, unfolding(crate::specs::Program::insns))]
impl<'a> Program<'a> {
    ghost use Rattle.std.specs.Prelude.{◌≡◌, ◌≤◌, ◌<◌, Some, None, MatchResult, IfOk, length, slice_get};
    ghost use Rattle.bpf_insn.specs.Bytes.{AreInsns, max_insns, insns_of, spelling, view_fault};
    ghost use Rattle.bpf_insn.specs.Program.{insns};

    /// The program that the bytes spell, eight bytes an instruction.
    pub fn view(bytes: &'a [u8]) -> Result<Program<'a>, ViewError>
        ensures fault { MatchResult result
            (λ _. view_fault bytes.now ≡ None)
            (λ e. view_fault bytes.now ≡ Some e) }
        ensures read { IfOk result (λ program. insns program ≡ insns_of bytes.now) }
        ensures spelled { IfOk result (λ program. spelling (insns program) ≡ bytes.now) }
        ensures fields { IfOk result (λ program. AreInsns (insns program)) }
    {
        if bytes.len() % 8 != 0 {
            return Err(ViewError::NotMultipleOf8);
        }
        if bytes.is_empty() {
            return Err(ViewError::Empty);
        }
        if bytes.len() > 8 * MAX_INSNS {
            return Err(ViewError::TooLong);
        }
        Ok(Program { bytes })
    }

    /// How many instructions there are, from 1 to 4096.
    pub fn len(&self) -> usize
        ensures count { result ≡ length (insns self.now) }
        ensures some { 1 ≤ result }
        ensures limit { result ≤ max_insns }
    {
        self.bytes.len() / 8
    }

    /// The instruction at a position, counted from 0.
    pub fn get(&self, i: usize) -> Insn
        requires { i < length (insns self.now) }
        ensures { slice_get (insns self.now) i ≡ Some result }
    {
        read_at(self.bytes, i)
    }

    /// The very bytes that the program was read from.
    pub fn bytes(&self) -> &'a [u8]
        ensures spelled { result.now ≡ spelling (insns self.now) }
        ensures read { insns_of result.now ≡ insns self.now }
        ensures whole { view_fault result.now ≡ None }
        ensures fields { AreInsns (insns self.now) }
    {
        self.bytes
    }
}
