//! The different rules of a list, each at its first place.
ghost use Rattle.std.specs.Prelude.{◌≡◌, ◌≤◌, ◌↔◌, length, IsTrue, IfOk, IfErr, Contains};
ghost use Rattle.profile.specs.Policy.{most_rules};
ghost use Rattle.profile.specs.inner.Kept.{KeepsAt, IsKeepError};
ghost use Rattle.profile.specs.inner.Places.{IsIndexOf};

use crate::fault::BuildError;
use crate::index::Index;
use crate::rules::Rule;
use std::alloc::Global;

/// How many different rules a profile has at most.
pub const MAX_RULES: usize = 8192;

/// Different rules in order, the place of each in the list that was given, and their index.
#[derive(Drop)]
pub(crate) struct Kept {
    pub rules: Vec<Rule>,
    pub places: Vec<usize>,
    pub index: Index,
}

/// The rules, of which equal ones are kept once.
pub(crate) fn keep_once(alloc: Global, given: Vec<Rule>) -> Result<Kept, BuildError>
    ensures ok { IfOk result (λ kept. KeepsAt given.items kept.rules.items kept.places.items) }
    ensures index { IfOk result (λ kept. IsIndexOf kept.rules.items kept.index) }
    ensures few { IfOk result (λ kept. length kept.rules.items ≤ most_rules) }
    ensures err { IfErr result (IsKeepError given.items) }
{
    let mut rules = Vec::new(alloc);
    let mut places = Vec::new(alloc);
    let mut index = Index::new(alloc);
    for (place, rule) in given.into_iter().enumerate() {
        if contains(&rules, &index, &rule) {
            continue;
        }
        if rules.len() == MAX_RULES {
            return Err(BuildError::TooMany);
        }
        index.push(&rule)?;
        rules.push(rule)?;
        places.push(place)?;
    }
    Ok(Kept {
        rules,
        places,
        index,
    })
}

// Whether the rule is one of those of the index.
fn contains(rules: &[Rule], index: &Index, rule: &Rule) -> bool
    requires { IsIndexOf rules.now index.now }
    ensures { IsTrue result ↔ Contains rules.now rule.now }
{
    let mut next = index.latest(rule.arch.token(), rule.nr);
    while let Some(place) = next {
        if same(&rules[place], rule) {
            return true;
        }
        next = index.earlier(place);
    }
    false
}

// Verdicts first: they tell most rules for one call apart.
fn same(a: &Rule, b: &Rule) -> bool
    ensures { IsTrue result ↔ (a.now ≡ b.now) }
{
    if a.word != b.word {
        return false;
    }
    a == b
}
