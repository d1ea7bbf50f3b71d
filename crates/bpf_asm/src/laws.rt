//! Laws of listings.
ghost use Rattle.std.specs.Prelude.{◌≡◌, ◌≤◌, List, ℕ, length};
ghost use Rattle.bpf_insn.specs.declared.instruction.Insn.{Insn};
ghost use Rattle.bpf_asm.specs.declared.fault.LineFault.{LineFault};
ghost use Rattle.bpf_asm.specs.Faults.{FaultAt};
ghost use Rattle.bpf_insn.specs.Bytes.{AreInsns, max_insns};
ghost use Rattle.bpf_insn.specs.Program.{insns};
ghost use Rattle.bpf_asm.specs.Listing.{listing};

use bpf_insn::Program;

/// No two lists of instructions have one listing.
pub fn listings_differ()
    ensures { (p q : List Insn) → AreInsns p → AreInsns q → listing p ≡ listing q → p ≡ q }
{}

/// No two programs have one listing.
pub fn programs_differ(first: &Program<'_>, second: &Program<'_>)
    ensures { listing (insns first.now) ≡ listing (insns second.now) → insns first.now ≡ insns second.now }
{
    let _first = first.bytes();
    let _second = second.bytes();
}

/// Where a fault stands, the text is the listing of no program of 1 to 4096 instructions.
pub fn faults_exclude_programs()
    ensures { (text : List ℕ) (line : ℕ) (fault : LineFault) → FaultAt text line fault
        → (p : List Insn) → AreInsns p → 1 ≤ length p → length p ≤ max_insns → listing p ≡ text → ⊥ }
{}

/// A text has one fault at most, in one line.
pub fn faults_are_one()
    ensures { (text : List ℕ) (line other : ℕ) (fault different : LineFault)
        → FaultAt text line fault → FaultAt text other different → (line ≡ other) × (fault ≡ different) }
{}
