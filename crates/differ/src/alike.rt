//! Numbers of which conditions answer alike.
ghost use Rattle.std.specs.Prelude.{◌≡◌, ◌↔◌, IsTrue};
ghost use Rattle.profile.specs.Said.{meets};
ghost use Rattle.differ.specs.Cells.{AreAlike, IsMet};

use profile::Cond;

/// Whether a condition holds of a number.
pub(crate) fn meets(cond: &Cond, number: u64) -> bool
    ensures { result ≡ meets cond.now number }
{
    cond.holds(number)
}

// Whether a condition answers alike of two numbers.
fn answers_alike(cond: &Cond, one: u64, other: u64) -> bool
    ensures { IsTrue result ↔ (meets cond.now one ≡ meets cond.now other) }
{
    meets(cond, one) == meets(cond, other)
}

// Whether each condition answers alike of two numbers.
fn are_alike(conds: &[Cond], one: u64, other: u64) -> bool
    ensures { IsTrue result ↔ AreAlike conds.now one other }
{
    conds.iter().all(|cond| answers_alike(cond, one, other))
}

/// Whether one of these numbers is answered as a number is.
pub(crate) fn is_met(conds: &[Cond], list: &[u64], number: u64) -> bool
    ensures { IsTrue result ↔ IsMet conds.now list.now number }
{
    list.iter().any(|other| are_alike(conds, number, *other))
}
