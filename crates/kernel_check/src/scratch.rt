//! Which scratch words may be unwritten where.
//!
//! A mask has bit w for the scratch word w. Jumps go forward, so one pass over the instructions hands
//! each mask on before it is read.
ghost use Rattle.std.specs.Prelude.{ℕ, ◌≡◌, ◌+◌, ◌<◌, ◌≤◌, ◌↔◌, ◌⊎◌, IsTrue, MatchOption, length, slice_index};
ghost use Rattle.std.specs.Int.{bit_at};
ghost use Rattle.bpf_insn.specs.Bytes.{max_insns};
ghost use Rattle.bpf_insn.specs.Code.{operation_of};
ghost use Rattle.bpf_insn.specs.Causes.{ReadsScratch, WritesScratch};
ghost use Rattle.bpf_insn.specs.Program.{insns};
ghost use Rattle.kernel_check.specs.declared.fault.Cause.TheVariants.{Scratch};
ghost use Rattle.kernel_check.specs.Accepted.{HasCause};
ghost use Rattle.kernel_check.specs.Paths.{HandsOn, LeadsTo, WritesWord};
ghost use Rattle.kernel_check.specs.inner.Masks.{IsMarked, OnlyScratch};

use bpf_insn::{Insn, MAX_INSNS, Operation, Program};

// Whether the mask has the scratch word that the instruction reads.
fn reads_from(insn: &Insn, mask: u16) -> bool
    requires { ReadsScratch insn.now → insn.now.k < 16 }
    ensures { IsTrue result ↔ ReadsScratch insn.now × (bit_at mask insn.now.k ≡ 1) }
{
    match insn.operation() {
        Some(Operation::LoadScratch | Operation::LoadScratchX) => (mask >> insn.k) & 1 == 1,
        _ => false,
    }
}

// The mask without the scratch word that the instruction writes.
fn without_written(insn: &Insn, mask: u16) -> u16
    requires { WritesScratch insn.now → insn.now.k < 16 }
    ensures { (w : ℕ) → w < 16
        → (bit_at result w ≡ 1) ↔ (bit_at mask w ≡ 1) × (WritesWord insn.now w → ⊥) }
{
    match insn.operation() {
        Some(Operation::Store | Operation::StoreX) => mask & !(1 << insn.k),
        _ => mask,
    }
}

// The one or two positions that the instruction at position `i` leads to.
fn places_after(insn: &Insn, i: usize) -> Option<(usize, usize)>
    requires { i < max_insns }
    ensures { let op = operation_of insn.now.code in MatchOption result
        ((next : ℕ) → LeadsTo op i insn.now next → ⊥)
        (λ places. (next : ℕ)
        → LeadsTo op i insn.now next ↔ (next ≡ places.0) ⊎ (next ≡ places.1)) }
{
    let Insn { jt, jf, k, .. } = *insn;
    let next = i + 1;
    match insn.operation() {
        Some(Operation::ReturnK | Operation::ReturnA) => None,
        Some(Operation::Jump) => {
            let place = next + k as usize;
            Some((place, place))
        }
        Some(Operation::Branch(_, _)) => Some((next + jt as usize, next + jf as usize)),
        _ => Some((next, next)),
    }
}

// Adds the words of a mask to those of a position.
fn add_at(unwritten: &mut [u16], place: usize, mask: u16)
    requires { place < length unwritten.old }
    ensures size { length unwritten.new ≡ length unwritten.old }
    ensures exact { (j : ℕ) (w : ℕ) → IsMarked unwritten.new j w
        ↔ IsMarked unwritten.old j w ⊎ ((j ≡ place) × (bit_at mask w ≡ 1)) }
{
    unwritten[place] |= mask;
}

// Hands the words of position `i` on to the positions that its instruction leads to.
fn hand_on(unwritten: &mut [u16], insn: &Insn, i: usize)
    requires early { i < max_insns }
    requires inside { i < length unwritten.old }
    requires word { WritesScratch insn.now → insn.now.k < 16 }
    requires led { (next : ℕ) → LeadsTo (operation_of insn.now.code) i insn.now next
        → next < length unwritten.old }
    ensures size { length unwritten.new ≡ length unwritten.old }
    ensures exact { (j : ℕ) (w : ℕ) → w < 16 → IsMarked unwritten.new j w
        ↔ IsMarked unwritten.old j w ⊎ (IsMarked unwritten.old i w × HandsOn insn.now w i j) }
{
    let handed = without_written(insn, unwritten[i]);
    if let Some((first, second)) = places_after(insn, i) {
        add_at(unwritten, first, handed);
        add_at(unwritten, second, handed);
    }
}

// At the first position every word is unwritten, and of the others nothing is known yet.
fn first_masks() -> [u16; MAX_INSNS]
    ensures size { length result ≡ max_insns }
    ensures exact { (j : ℕ) (w : ℕ) → w < 16 → IsMarked result j w ↔ (j ≡ 0) }
{
    let mut unwritten = [0; MAX_INSNS];
    add_at(&mut unwritten, 0, u16::MAX);
    unwritten
}

/// The first position that reads a scratch word which may be unwritten there.
pub(crate) fn first_unwritten_read(program: &Program<'_>) -> Option<u32>
    requires { OnlyScratch (insns program.now) }
    ensures { let p = insns program.now in MatchOption result
        ((i : ℕ) → HasCause p i Scratch → ⊥)
        (λ i. HasCause p i Scratch × ((j : ℕ) → HasCause p j Scratch → i ≤ j)) }
{
    let mut unwritten = first_masks();
    for i in 0..program.len() {
        let insn = program.get(i);
        if reads_from(&insn, unwritten[i]) {
            return Some(i as u32);
        }
        hand_on(&mut unwritten, &insn, i);
    }
    None
}
