//! Sides that are never unlike, since one says the least or the greatest of all verdicts.
ghost use Rattle.std.specs.Prelude.{◌≡◌, ℕ, true, false};
ghost use Rattle.call_record.specs.Fate.{is_further};
ghost use Rattle.differ.specs.Direction as spec;
ghost use Rattle.differ.specs.Left.{side_says};

use crate::direction::Direction;
use crate::left::{Side, has_rules};
use call_record::Word;

// Whether a side refuses all records, as far as is seen.
fn is_refused(side: &Side) -> bool
    ensures { result ≡ true → (w : ℕ) (a : ℕ → ℕ) → is_further (side_says side.now a) w ≡ false }
{
    if has_rules(side) {
        return false;
    }
    !side.last.goes_further(Word::KILL_THREAD)
}

// Whether a side lets all records through.
fn is_let_through(side: &Side) -> bool
    ensures { result ≡ true → (v : ℕ) (a : ℕ → ℕ) → is_further v (side_says side.now a) ≡ false }
{
    if has_rules(side) {
        return false;
    }
    !Word::ALLOW.goes_further(side.last)
}

// Whether no call goes further by the one side.
fn is_behind(one: &Side, other: &Side) -> bool
    ensures { result ≡ true → (a : ℕ → ℕ) → is_further (side_says one.now a) (side_says other.now a) ≡ false }
{
    if is_refused(one) {
        return true;
    }
    is_let_through(other)
}

/// Whether one side says the least or the greatest of all records, so that both are never unlike in the direction.
pub(crate) fn is_bounded(direction: Direction, one: &Side, other: &Side) -> bool
    ensures { result ≡ true → (a : ℕ → ℕ) → spec.tells direction (side_says one.now a) (side_says other.now a) ≡ false }
{
    match direction {
        Direction::Any => false,
        Direction::More => is_behind(other, one),
        Direction::Less => is_behind(one, other),
    }
}
