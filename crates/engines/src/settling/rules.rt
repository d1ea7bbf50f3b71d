//! Rules looked for in a list.
ghost use Rattle.std.specs.Prelude.{◌≡◌, ◌↔◌, IsTrue, Contains};

use profile::Rule;

// Whether two rules are the same one. Verdicts first: they tell most rules for one call apart.
fn is_same(a: &Rule, b: &Rule) -> bool
    ensures { IsTrue result ↔ (a.now ≡ b.now) }
{
    if a.word != b.word {
        return false;
    }
    a == b
}

// Whether a rule stands at a place of a list.
fn is_at(rules: &[Rule], place: usize, rule: &Rule) -> bool
    ensures { IsTrue result → Contains rules.now rule.now }
{
    if place >= rules.len() {
        return false;
    }
    is_same(&rules[place], rule)
}

/// Whether a rule is one of a list, looked for at these places of it.
pub(crate) fn is_among(rules: &[Rule], places: &[usize], rule: &Rule) -> bool
    ensures { IsTrue result → Contains rules.now rule.now }
{
    for place in places {
        if is_at(rules, *place, rule) {
            return true;
        }
    }
    false
}
