//! Whether two profiles are one.
ghost use Rattle.std.specs.Prelude.{◌≡◌, ◌↔◌, IsTrue};

use call_record::Word;
use machines::Arch;
use profile::{Profile, Rule};

fn are_same_machines(these: &[Arch], others: &[Arch]) -> bool
    ensures { IsTrue result ↔ (these.now ≡ others.now) }
{
    these == others
}

fn are_same_rules(these: &[Rule], others: &[Rule]) -> bool
    ensures { IsTrue result ↔ (these.now ≡ others.now) }
{
    these == others
}

fn is_same_word(a: Word, b: Word) -> bool
    ensures { IsTrue result ↔ (a ≡ b) }
{
    a == b
}

/// Whether two profiles for one native machine are the same.
pub(crate) fn are_same(first: &Profile, second: &Profile) -> bool
    ensures { IsTrue result → first.now.native ≡ second.now.native → first.now ≡ second.now }
{
    if !are_same_machines(first.machines(), second.machines()) {
        return false;
    }
    if !is_same_word(first.default_word(), second.default_word()) {
        return false;
    }
    are_same_rules(first.rules(), second.rules())
}
