//! Which turn each word has.
ghost use Rattle.std.specs.Prelude.{◌≡◌, ◌≤◌, ◌<◌, ◌+◌, ◌++◌, List, Err, IfOk, IfSome, length};
ghost use Rattle.std.specs.List.{Contains};
ghost use Rattle.bpf_insn.specs.declared.instruction.Insn.{Insn as TheInsn};
ghost use Rattle.flatten.specs.declared.unflat.Limit.TheVariants.{TooLong};
ghost use Rattle.flatten.specs.inner.Turns as spec;

use crate::turns::{Turn, turn_of};
use crate::unflat::Limit;
use bpf_insn::Insn;

/// A word that a filter returns, and what stands in the place of its return.
#[derive(Clone, Copy)]
pub(crate) struct Turned {
    pub(crate) word: u32,
    pub(crate) turn: Turn,
}

// The turn of a word, if it has one.
fn known(turns: &[Turned], word: u32) -> Option<Turn>
    ensures { IfSome result (λ turn. Contains turns.now (record { word = word; turn = turn })) }
{
    for turned in turns {
        if turned.word == word {
            return Some(turned.turn);
        }
    }
    None
}

/// The turn of a word, which is made if it has none.
pub(crate) fn turn_at(
    turns: &mut Vec<Turned>,
    area: &mut Vec<Insn>,
    older: &[Insn],
    word: u32,
) -> Result<Turn, Limit>
    requires plain { spec.ArePlain older.now }
    requires turns { spec.AreTurns older.now area.old.items turns.old.items }
    requires area_plain { spec.ArePlain area.old.items }
    requires small { length area.old.items ≤ 4096 }
    ensures turn { IfOk result (λ turn. (more : List TheInsn) → spec.IsTurn older.now (area.new.items ++ more) word turn) }
    ensures turns { IfOk result (λ _. spec.AreTurns older.now area.new.items turns.new.items) }
    ensures more { IfOk result (λ _. spec.IsMore area.old.items area.new.items) }
    ensures size { IfOk result (λ _. length area.new.items ≤ length area.old.items + (length older.now + 2)) }
    ensures long { result ≡ Err TooLong → 4096 < length area.old.items + (length older.now + 2) }
{
    if let Some(turn) = known(turns, word) {
        return Ok(turn);
    }
    let turn = turn_of(area, older, word)?;
    turns.push(Turned { word, turn })?;
    Ok(turn)
}
