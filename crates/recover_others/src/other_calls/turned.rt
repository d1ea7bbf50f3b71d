//! The filter with ALLOW and KILL exchanged: it kills what the filter allows, and allows all else.
ghost use Rattle.std.specs.Prelude.{◌≡◌, ◌++◌, IfOk};
ghost use Rattle.recover_others.specs.inner.Guard as spec;

use crate::other_calls::insns::insn;
use bpf_insn::Insn;
use call_record::Word;
use flatten::{is_return, return_of};
use std::alloc::{AllocError, Global};

// KILL_THREAD in the place of ALLOW, and ALLOW in the place of all else.
fn turn(word: u32) -> u32
    ensures { result ≡ spec.turn word }
{
    if word == Word::ALLOW.0 {
        return Word::KILL_THREAD.0;
    }
    Word::ALLOW.0
}

fn turned_insn(insn: &Insn) -> Insn
    ensures { result ≡ spec.turned_insn insn.now }
{
    if is_return(insn) {
        return return_of(turn(insn.k));
    }
    *insn
}

// Adds the instructions that stand in the places of a program's.
fn put_turned(all: &mut Vec<Insn>, program: &[Insn]) -> Result<(), AllocError>
    ensures { IfOk result (λ _. all.new.items ≡ all.old.items ++ spec.turned program.now) }
{
    for insn in program {
        all.push(turned_insn(insn))?;
    }
    Ok(())
}

/// A program with its verdicts turned, and behind it the program itself. Each begins with A emptied.
pub(crate) fn base_of(alloc: Global, program: &[Insn]) -> Result<Vec<Insn>, AllocError>
    ensures { IfOk result (λ all. all.items ≡ spec.base program.now) }
{
    let mut all = Vec::new(alloc);
    all.push(insn(0x00, 0, 0, 0))?;
    put_turned(&mut all, program)?;
    all.push(insn(0x00, 0, 0, 0))?;
    all.extend_from_slice(program)?;
    Ok(all)
}
