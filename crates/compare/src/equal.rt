//! Whether two profiles have the same machines, default verdict and rules.
ghost use Rattle.std.specs.Prelude.{◌≡◌, ◌↔◌, IsTrue};
ghost use Rattle.std.specs.List.{All, Contains};
ghost use Rattle.compare.specs.Equal.{AreEqual};

use call_record::Word;
use machines::Arch;
use profile::{Profile, Rule};

fn is_same(a: &Rule, b: &Rule) -> bool
    ensures { IsTrue result ↔ (a.now ≡ b.now) }
{
    a == b
}

// Whether a rule is one of these.
pub(crate) fn has(rules: &[Rule], rule: &Rule) -> bool
    ensures { IsTrue result ↔ Contains rules.now rule.now }
{
    rules.iter().any(|other| is_same(other, rule))
}

// Whether each of these rules is one of the others.
pub(crate) fn has_all(rules: &[Rule], these: &[Rule]) -> bool
    ensures { IsTrue result ↔ All (λ rule. Contains rules.now rule) these.now }
{
    for rule in these {
        if !has(rules, rule) {
            return false;
        }
    }
    true
}

pub(crate) fn are_same_machines(these: &[Arch], others: &[Arch]) -> bool
    ensures { IsTrue result ↔ (these.now ≡ others.now) }
{
    these == others
}

pub(crate) fn is_same_word(a: Word, b: Word) -> bool
    ensures { IsTrue result ↔ (a ≡ b) }
{
    a == b
}

/// Whether two profiles have the same machines, default verdict and rules, in whatever order the rules stand.
pub(crate) fn are_equal(first: &Profile, second: &Profile) -> bool
    ensures { IsTrue result ↔ AreEqual first.now second.now }
{
    if !are_same_machines(first.machines(), second.machines()) {
        return false;
    }
    if !is_same_word(first.default_word(), second.default_word()) {
        return false;
    }
    if !has_all(second.rules(), first.rules()) {
        return false;
    }
    has_all(first.rules(), second.rules())
}
