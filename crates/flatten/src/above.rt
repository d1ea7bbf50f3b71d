//! A filter above another.
ghost use Rattle.std.specs.Prelude.{◌≡◌, ◌≤◌, ◌<◌, ◌++◌, ◌+◌, ◌*◌, [], ◌∷◌, List, Err, IfOk, length};
ghost use Rattle.bpf_insn.specs.declared.instruction.Insn.{Insn as TheInsn};
ghost use Rattle.flatten.specs.declared.unflat.Limit.TheVariants.{TooLong};
ghost use Rattle.flatten.specs.Unflat.{most_above, returns_in};
ghost use Rattle.flatten.specs.inner.Turns as spec;

use crate::insns::{insn, is_return, return_of};
use crate::places::{Turned, turn_at};
use crate::turns::Turn;
use crate::unflat::Limit;
use bpf_insn::{Insn, MAX_INSNS};
use std::alloc::Global;

// The instruction in the place of a return, with so many behind it before the area begins.
fn insn_of(turn: Turn, left: u32) -> Insn
    requires left { left ≤ 4096 }
    requires fits { spec.Fits turn }
    ensures { result ≡ spec.insn_of turn left }
{
    match turn {
        Turn::Answers(answer) => return_of(answer),
        Turn::Passes(at) => insn(0x05, left + at),
    }
}

// The instruction in the place of another.
fn turned(
    turns: &mut Vec<Turned>,
    area: &mut Vec<Insn>,
    older: &[Insn],
    left: usize,
    insn: &Insn,
) -> Result<Insn, Limit>
    requires left { left ≤ 4096 }
    requires plain { spec.ArePlain older.now }
    requires turns { spec.AreTurns older.now area.old.items turns.old.items }
    requires area_plain { spec.ArePlain area.old.items }
    requires small { length area.old.items ≤ 4096 }
    ensures turned { IfOk result (λ o. (more : List TheInsn) → spec.IsTurned older.now (area.new.items ++ more) left insn.now o) }
    ensures turns { IfOk result (λ _. spec.AreTurns older.now area.new.items turns.new.items) }
    ensures more { IfOk result (λ _. spec.IsMore area.old.items area.new.items) }
    ensures size { IfOk result (λ _. length area.new.items ≤ length area.old.items + returns_in (insn.now ∷ []) * (length older.now + 2)) }
    ensures long { result ≡ Err TooLong → 4096 < length area.old.items + returns_in (insn.now ∷ []) * (length older.now + 2) }
{
    if !is_return(insn) {
        return Ok(*insn);
    }
    let turn = turn_at(turns, area, older, insn.k)?;
    Ok(insn_of(turn, left as u32))
}

// Adds the instructions in the places of a newer filter's.
fn put_turned(
    program: &mut Vec<Insn>,
    area: &mut Vec<Insn>,
    alloc: Global,
    newer: &[Insn],
    older: &[Insn],
) -> Result<(), Limit>
    requires newer_small { length newer.now ≤ 4096 }
    requires plain { spec.ArePlain older.now }
    requires program_empty { program.old.items ≡ [] }
    requires area_empty { area.old.items ≡ [] }
    ensures turned { IfOk result (λ _. spec.AreTurned older.now area.new.items newer.now program.new.items) }
    ensures more { IfOk result (λ _. spec.IsMore [] area.new.items) }
    ensures size { IfOk result (λ _. length area.new.items ≤ returns_in newer.now * (length older.now + 2)) }
    ensures long { result ≡ Err TooLong → 4096 < returns_in newer.now * (length older.now + 2) }
{
    let mut turns = Vec::new(alloc);
    for (place, insn) in newer.iter().enumerate() {
        let left = newer.len() - 1 - place;
        let turned = turned(&mut turns, area, older, left, insn)?;
        program.push(turned)?;
    }
    Ok(())
}

/// A program that gives the verdict that counts of a newer filter's and an older one's.
pub(crate) fn above(alloc: Global, newer: &[Insn], older: &[Insn]) -> Result<Vec<Insn>, Limit>
    requires newer_small { length newer.now ≤ 4096 }
    requires newer_plain { spec.ArePlain newer.now }
    requires older_plain { spec.ArePlain older.now }
    ensures above { IfOk result (λ program. spec.IsAbove newer.now older.now program.items) }
    ensures plain { IfOk result (λ program. spec.ArePlain program.items) }
    ensures small { IfOk result (λ program. length program.items ≤ 4096) }
    ensures most { IfOk result (λ program. length program.items ≤ most_above (length older.now) newer.now) }
    ensures long { result ≡ Err TooLong → 4096 < most_above (length older.now) newer.now }
{
    let mut program = Vec::new(alloc);
    let mut area = Vec::new(alloc);
    put_turned(&mut program, &mut area, alloc, newer, older)?;
    if program.len() + area.len() > MAX_INSNS {
        return Err(Limit::TooLong);
    }
    program.extend_from_slice(&area)?;
    Ok(program)
}
