//! Which of two rules counts where a record matches both.
ghost use Rattle.std.specs.Prelude.{◌≡◌, IsTrue};
ghost use Rattle.call_record.specs.Verdict as verdict;
ghost use Rattle.engines.specs.Settled as spec;

use call_record::Word;
use profile::Rule;

/// Which of two entries counts that say unlike things of one record.
#[derive(Clone, Copy, Debug, PartialEq, Eq)]
pub enum Choice {
    /// The one that stands first.
    First,
    /// The one whose action is less strict, and of equally strict ones the first.
    Looser,
    /// The one whose action is stricter, and of equally strict ones the first.
    Stricter,
    /// The one without conditions, and of several the first.
    LikeLibseccomp,
}

// Whether the action of one verdict, as a signed number, is less than that of another (seccomp(2)).
fn is_stricter(word: Word, other: Word) -> bool
    ensures { result ≡ verdict.is_stricter word other }
{
    word.action().0.cast_signed() < other.action().0.cast_signed()
}

/// Whether a rule has no conditions.
pub(crate) fn is_bare(rule: &Rule) -> bool
    ensures { result ≡ spec.is_bare rule.now }
{
    rule.conds.len() == 0
}

fn is_barer(a: &Rule, b: &Rule) -> bool
    ensures { result ≡ spec.outranks Choice.LikeLibseccomp a.now b.now }
{
    if is_bare(b) {
        return false;
    }
    is_bare(a)
}

// Whether the first of two rules counts wherever the two stand.
fn outranks(choice: Choice, a: &Rule, b: &Rule) -> bool
    ensures { result ≡ spec.outranks choice a.now b.now }
{
    match choice {
        Choice::First => false,
        Choice::Looser => is_stricter(b.word, a.word),
        Choice::Stricter => is_stricter(a.word, b.word),
        Choice::LikeLibseccomp => is_barer(a, b),
    }
}

/// Whether the first of two rules, at the places `i` and `j`, counts.
pub(crate) fn precedes(choice: Choice, i: usize, a: &Rule, j: usize, b: &Rule) -> bool
    ensures { IsTrue result → spec.Precedes choice i a.now j b.now }
{
    if outranks(choice, b, a) {
        return false;
    }
    if outranks(choice, a, b) {
        return true;
    }
    i <= j
}
