//! The instructions of a filter that can be put above others.
ghost use Rattle.std.specs.Prelude.{◌≡◌, ◌≤◌, Err, IfErr, IfOk, MatchOption, Some, false, length, slice_get};
ghost use Rattle.flatten.specs.declared.unflat.Unflat.TheVariants.{TooLong};
ghost use Rattle.bpf_insn.specs.Bytes.{insns_of};
ghost use Rattle.bpf_insn.specs.Program.{insns};
ghost use Rattle.flatten.specs.Stack.{IsFilter};
ghost use Rattle.bpf_insn.specs.declared.instruction.Insn.{Insn as TheInsn};
ghost use Rattle.flatten.specs.Unflat.{SaysOf, is_plain as the_test};
ghost use Rattle.flatten.specs.inner.Turns as spec;

use crate::insns::is_plain;
use crate::unflat::Unflat;
use bpf_insn::{Insn, Program};
use kernel_check::accept;
use std::alloc::{AllocError, Global};

// Where the first instruction of a program stands that is not plain.
fn unplain_at(program: &Program<'_>) -> Option<usize>
    ensures { MatchOption result (spec.ArePlain (insns program.now))
        (λ at. (i : TheInsn) × (slice_get (insns program.now) at ≡ Some i) × (the_test i ≡ false)) }
{
    for at in 0..program.len() {
        if !is_plain(&program.get(at)) {
            return Some(at);
        }
    }
    None
}

// The instructions of a program.
fn listed(alloc: Global, program: &Program<'_>) -> Result<Vec<Insn>, AllocError>
    ensures { IfOk result (λ all. all.items ≡ insns program.now) }
{
    let mut all = Vec::new(alloc);
    for at in 0..program.len() {
        all.push(program.get(at))?;
    }
    Ok(all)
}

/// The instructions of the filter at a place, none of which writes a scratch word or returns what A holds.
pub fn plain_insns(alloc: Global, filter: &[u8], place: usize) -> Result<Vec<Insn>, Unflat>
    ensures filter { IfOk result (λ _. IsFilter filter.now) }
    ensures same { IfOk result (λ all. all.items ≡ insns_of filter.now) }
    ensures plain { IfOk result (λ all. spec.ArePlain all.items) }
    ensures small { IfOk result (λ all. length all.items ≤ 4096) }
    ensures fault { IfErr result (SaysOf place filter.now) }
    ensures short { result ≡ Err TooLong → ⊥ }
{
    let program = match Program::view(filter) {
        Ok(program) => program,
        Err(fault) => return Err(Unflat::Bytes(place, fault)),
    };
    if let Err(refused) = accept(&program) {
        return Err(Unflat::Refused(place, refused));
    }
    if let Some(at) = unplain_at(&program) {
        return Err(Unflat::Unplain(place, at));
    }
    match listed(alloc, &program) {
        Ok(all) => Ok(all),
        Err(_no_memory) => Err(Unflat::OutOfMemory),
    }
}
