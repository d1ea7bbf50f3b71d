//! Which of a list of rules give unlike verdicts to one record.
ghost use Rattle.std.specs.Prelude.{◌↔◌, ℕ, IsTrue, IfSome, IfNone, All, length, take, ◌<◌};
ghost use Rattle.std.specs.List.{HoldsAt};
ghost use Rattle.profile.specs.Rule.{Clash};
ghost use Rattle.profile.specs.Policy.{IsClear};
ghost use Rattle.profile.specs.Build.{ClashAt, IsFirstClash};
ghost use Rattle.profile.specs.inner.Places.{IsIndexOf};

use crate::index::Index;
use crate::overlaps::overlap;
use crate::rules::Rule;

/// The places of two rules that clash, if any: the second is the least, and then the first.
pub(crate) fn first_clash(rules: &[Rule], index: &Index) -> Option<(usize, usize)>
    requires { IsIndexOf rules.now index.now }
    ensures some { IfSome result (λ places. IsFirstClash rules.now places.0 places.1) }
    ensures none { IfNone result (IsClear rules.now) }
{
    for second in 0..rules.len() {
        if !clashes_before(rules, index, second) {
            continue;
        }
        if let Some(first) = clash_with(&rules[..second], &rules[second]) {
            return Some((first, second));
        }
    }
    None
}

// Whether an earlier rule clashes with the one at a place: only those for the same call can.
fn clashes_before(rules: &[Rule], index: &Index, second: usize) -> bool
    requires index_is { IsIndexOf rules.now index.now }
    requires within { second < length rules.now }
    ensures { IsTrue result ↔ ((first : ℕ) × ClashAt rules.now first second) }
{
    let rule = &rules[second];
    let mut next = index.earlier(second);
    while let Some(place) = next {
        if clash(&rules[place], rule) {
            return true;
        }
        next = index.earlier(place);
    }
    false
}

// The least place of a rule that clashes with this one.
fn clash_with(rules: &[Rule], rule: &Rule) -> Option<usize>
    ensures within { IfSome result (λ place. place < length rules.now) }
    ensures some { IfSome result (λ place. HoldsAt (λ earlier. Clash earlier rule.now) rules.now place) }
    ensures least { IfSome result (λ place. All (λ a. ¬ Clash a rule.now) (take place rules.now)) }
    ensures none { IfNone result (All (λ a. ¬ Clash a rule.now) rules.now) }
{
    rules.iter().position(|earlier| clash(earlier, rule))
}

fn clash(a: &Rule, b: &Rule) -> bool
    ensures { IsTrue result ↔ Clash a.now b.now }
{
    if a.nr != b.nr {
        return false;
    }
    if a.word == b.word {
        return false;
    }
    overlap(a, b)
}
