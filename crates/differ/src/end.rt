//! What two sides say where all bits are known.
ghost use Rattle.std.specs.Prelude.{◌≡◌, ◌<◌, ℕ, IfSome, IfNone, slice_index};
ghost use Rattle.profile.specs.Said.{compares};
ghost use Rattle.differ.specs.Left.{AreNeverUnlike, AreUnlikeAt, are_met, holds_of, side_says, verdict};

use crate::direction::{Direction, tells};
use crate::left::{Part, Rest, Side};
use call_record::Word;
use profile::Op;

// Whether a comparison holds of a number.
fn compares(op: Op, value: u64, datum: u64, number: u64) -> bool
    ensures { result ≡ compares op value datum number }
{
    match op {
        Op::Ne => number != value,
        Op::Lt => number < value,
        Op::Le => number <= value,
        Op::Eq => number == value,
        Op::Ge => value <= number,
        Op::Gt => value < number,
        Op::MaskedEq => number & value == datum,
    }
}

// Whether 0 is as asked.
fn holds_at_zero(part: &Part) -> bool
    ensures { result ≡ holds_of (λ i. 0) part.now }
{
    compares(part.ask.op, part.ask.value, part.ask.datum, 0)
}

fn are_met_at_zero(parts: &[Part]) -> bool
    ensures { result ≡ are_met parts.now (λ i. 0) }
{
    parts.iter().all(|part| holds_at_zero(part))
}

// What is said where all arguments are 0.
fn verdict_at_zero(rules: &[Rest], last: Word) -> Word
    ensures { result ≡ verdict last rules.now (λ i. 0) }
{
    let mut word = last;
    for rest in rules {
        if are_met_at_zero(&rest.parts) {
            word = rest.word;
        }
    }
    word
}

/// The arguments where all are 0, if the sides say verdicts of them that are unlike in a direction.
pub(crate) fn at_end(direction: Direction, one: &Side, other: &Side) -> Option<[u64; 6]>
    ensures some { (bits rest : ℕ) → IfSome result (λ args. AreUnlikeAt direction bits 6 rest one.now other.now (slice_index args)) }
    ensures none { (bits rest : ℕ) → IfNone result (AreNeverUnlike direction bits 6 rest one.now other.now) }
{
    let first = verdict_at_zero(&one.rules, one.last);
    let second = verdict_at_zero(&other.rules, other.last);
    if !tells(direction, first, second) {
        return None;
    }
    Some([0; 6])
}
