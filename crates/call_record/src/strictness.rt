//! The strictest of the verdicts that the filters of a task answered.
ghost use Rattle.std.specs.Prelude.{◌≡◌, ◌∷◌, []};
ghost use Rattle.call_record.specs.Verdict.{is_stricter, strictest_of};

use crate::verdict::Word;

// Whether the action of one verdict, as a signed number, is less than that of another.
fn is_stricter(word: Word, other: Word) -> bool
    ensures { result ≡ is_stricter word other }
{
    word.action().0.cast_signed() < other.action().0.cast_signed()
}

/// The strictest of two verdicts: the newer filter's, unless the older one's is stricter. Data of an
/// ALLOW verdict are dropped.
pub fn stricter(newer: Word, older: Word) -> Word
    ensures { result ≡ strictest_of (newer ∷ older ∷ []) }
{
    if is_stricter(older, newer) {
        older
    } else if newer.action() == Word::ALLOW {
        Word::ALLOW
    } else {
        newer
    }
}

/// The strictest of the verdicts that a task's filters answered, the newest filter's first: ALLOW
/// without data where each action is ALLOW, and else the first verdict of the strictest action
/// (seccomp(2)).
pub fn strictest(newest_first: &[Word]) -> Word
    ensures { result ≡ strictest_of newest_first.now }
{
    newest_first
        .iter()
        .rev()
        .fold(Word::ALLOW, |older, newer| stricter(*newer, older))
}

/// The filters' verdicts may be folded from the oldest on. The strictest of a list is the stricter of its newest
/// verdict and the strictest of the others.
pub fn strictest_in_turn(newest: Word, older: &[Word])
    ensures { strictest_of (newest ∷ older.now)
        ≡ strictest_of (newest ∷ strictest_of older.now ∷ []) }
{}
