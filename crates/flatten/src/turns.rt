//! What stands in the place of a return, so that the older filters are asked too.
ghost use Rattle.std.specs.Prelude.{◌≡◌, ◌≤◌, ◌<◌, ◌+◌, ◌++◌, ℕ, List, Err, IfOk, true, length};
ghost use Rattle.std.specs.List.{list_all};
ghost use Rattle.bpf_insn.specs.declared.instruction.Insn.{Insn as TheInsn};
ghost use Rattle.flatten.specs.declared.unflat.Limit.TheVariants.{TooLong};
ghost use Rattle.flatten.specs.inner.Turns as spec;

use crate::insns::{both, insn, is_return, return_of};
use crate::unflat::Limit;
use bpf_insn::{Insn, MAX_INSNS};

/// What stands in the place of a return.
#[derive(Clone, Copy)]
pub(crate) enum Turn {
    /// The return of this number.
    Answers(u32),
    /// A jump to this position of the area behind the filter.
    Passes(u32),
}

// What the first return of a program gives way to beside a newer verdict.
fn first_answer(older: &[Insn], word: u32) -> u32 {
    for insn in older {
        if is_return(insn) {
            return both(word, insn.k);
        }
    }
    word
}

// Whether an instruction, if it is a return, gives way to this answer.
fn gives(word: u32, answer: u32, insn: &Insn) -> bool
    ensures { result ≡ spec.gives word answer insn.now }
{
    if !is_return(insn) {
        return true;
    }
    both(word, insn.k) == answer
}

// Whether all returns of a program give way to this answer.
fn all_give(older: &[Insn], word: u32, answer: u32) -> bool
    ensures { result ≡ list_all (spec.gives word answer) older.now }
{
    older.iter().all(|insn| gives(word, answer, insn))
}

// The instruction of an older filter under a newer verdict.
fn mapped(word: u32, insn: &Insn) -> Insn
    ensures { result ≡ spec.mapped_insn word insn.now }
{
    if is_return(insn) {
        return return_of(both(word, insn.k));
    }
    *insn
}

// Adds the instructions of an older filter under a newer verdict.
fn put_mapped(area: &mut Vec<Insn>, older: &[Insn], word: u32) -> Result<(), Limit>
    ensures added { IfOk result (λ _. area.new.items ≡ area.old.items ++ spec.mapped word older.now) }
    ensures short { result ≡ Err TooLong → ⊥ }
{
    for insn in older {
        area.push(mapped(word, insn))?;
    }
    Ok(())
}

// Adds an older filter under a newer verdict, which begins with empty registers.
fn put_block(area: &mut Vec<Insn>, older: &[Insn], word: u32) -> Result<(), Limit>
    ensures added { IfOk result (λ _. area.new.items ≡ area.old.items ++ spec.block word older.now) }
    ensures short { result ≡ Err TooLong → ⊥ }
{
    area.push(insn(0x00, 0))?;
    area.push(insn(0x01, 0))?;
    put_mapped(area, older, word)
}

// Adds it to the area, and gives where it begins.
fn passed(area: &mut Vec<Insn>, older: &[Insn], word: u32) -> Result<Turn, Limit>
    requires plain { spec.ArePlain older.now }
    requires area_plain { spec.ArePlain area.old.items }
    requires small { length area.old.items ≤ 4096 }
    ensures turn { IfOk result (λ turn. (more : List TheInsn) → spec.IsTurn older.now (area.new.items ++ more) word turn) }
    ensures more { IfOk result (λ _. spec.IsMore area.old.items area.new.items) }
    ensures size { IfOk result (λ _. length area.new.items ≤ length area.old.items + (length older.now + 2)) }
    ensures long { result ≡ Err TooLong → 4096 < length area.old.items + (length older.now + 2) }
{
    let at = area.len() as u32;
    put_block(area, older, word)?;
    if area.len() > MAX_INSNS {
        return Err(Limit::TooLong);
    }
    Ok(Turn::Passes(at))
}

/// What stands in the place of a return of this word. It is what the older filters answer in its place, of which the instructions are
/// added to the area. Or it is the one answer that all of theirs give way to.
pub(crate) fn turn_of(area: &mut Vec<Insn>, older: &[Insn], word: u32) -> Result<Turn, Limit>
    requires plain { spec.ArePlain older.now }
    requires area_plain { spec.ArePlain area.old.items }
    requires small { length area.old.items ≤ 4096 }
    ensures turn { IfOk result (λ turn. (more : List TheInsn) → spec.IsTurn older.now (area.new.items ++ more) word turn) }
    ensures more { IfOk result (λ _. spec.IsMore area.old.items area.new.items) }
    ensures size { IfOk result (λ _. length area.new.items ≤ length area.old.items + (length older.now + 2)) }
    ensures long { result ≡ Err TooLong → 4096 < length area.old.items + (length older.now + 2) }
{
    let answer = first_answer(older, word);
    if all_give(older, word, answer) {
        return Ok(Turn::Answers(answer));
    }
    passed(area, older, word)
}
