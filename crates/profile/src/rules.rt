//! Rules of a profile.
ghost use Rattle.std.specs.Prelude.{◌≡◌, ◌↔◌, ◌==◌, ◌<◌, ◌^◌, ⊤, true, map, IsTrue, All, slice_index};
ghost use Rattle.machines.specs.Width as width;
ghost use Rattle.std.specs.List.{list_any};
ghost use Rattle.profile.specs.Condition.{Meets};
ghost use Rattle.profile.specs.Operator.{are_distinct};

use crate::conditions::Cond;
use arrayvec::ArrayVec;
use call_record::{Record, Word};
use machines::{Arch, compared, is_narrow};
use std::alloc::AllocError;

/// A rule for one call of one machine: the verdict of a record that meets all its conditions.
#[derive(Debug, PartialEq, Eq, Drop)]
pub struct Rule {
    pub arch: Arch,
    /// The number of the system call.
    pub nr: u32,
    /// The conditions, no two of them on one argument.
    pub conds: ArrayVec<Cond, 6>,
    pub word: Word,
    pub ghost in_range: { nr < 2 ^ 32 },
    pub ghost apart: { are_distinct (map (λ c. c.index) conds.items) ≡ true },
}

impl Rule {
    ghost use Rattle.std.specs.Prelude.{IsSome, IfSome};
    ghost use Rattle.profile.specs.Rule.{Matches, is_narrow_rule};
    ghost use Rattle.call_record.specs.Record.{words};

    /// The rule of these parts, or `None` where two conditions are on one argument.
    pub fn new(arch: Arch, nr: u32, conds: ArrayVec<Cond, 6>, word: Word) -> Option<Rule>
        ensures made { IsSome result ↔ IsTrue (are_distinct (map (λ c. c.index) conds.items)) }
        ensures arch_is { IfSome result (λ rule. rule.arch ≡ arch) }
        ensures nr_is { IfSome result (λ rule. rule.nr ≡ nr) }
        ensures conds_are { IfSome result (λ rule. rule.conds ≡ conds) }
        ensures verdict_is { IfSome result (λ rule. rule.word ≡ word) }
    {
        if are_apart(conds.as_slice()) {
            Some(Rule {
                arch,
                nr,
                conds,
                word,
            })
        } else {
            None
        }
    }

    /// Whether arguments of the rule's machine are compared by their low half alone.
    pub fn is_narrow(&self) -> bool
        ensures { result ≡ is_narrow_rule self.now }
    {
        is_narrow(self.arch.token())
    }

    /// Whether the record meets the rule.
    pub fn matches(&self, call: &Record) -> bool
        ensures { IsTrue result ↔ Matches self.now (words call.now) }
    {
        if call.arch != self.arch.token() {
            return false;
        }
        if call.nr != self.nr {
            return false;
        }
        hold(self.conds.as_slice(), self.is_narrow(), &call.args)
    }
}

impl Clone for Rule {
    ghost is_clone = { λ rule copy. copy ≡ rule };

    ghost is_infallible = { λ _. ⊤ };

    fn clone(&self) -> Result<Rule, AllocError> {
        Ok(Rule {
            arch: self.arch,
            nr: self.nr,
            conds: self.conds.clone()?,
            word: self.word,
        })
    }
}

// Whether no two conditions are on one argument.
fn are_apart(mut conds: &[Cond]) -> bool
    ensures { result ≡ are_distinct (map (λ c. c.index) conds.entry.now) }
{
    while let [first, rest @ ..] = conds {
        if has_index(rest, first.index) {
            return false;
        }
        conds = rest;
    }
    true
}

/// Whether one of the conditions is on this argument.
pub fn has_index(conds: &[Cond], index: u8) -> bool
    ensures { result ≡ list_any (λ i. i == index) (map (λ c. c.index) conds.now) }
{
    conds
        .iter()
        .map(|cond| cond.index)
        .any(|other| other == index)
}

// Whether each condition holds of what is compared of its argument.
fn hold(conds: &[Cond], narrow: bool, args: &[u64; 6]) -> bool
    ensures { IsTrue result ↔ All (λ c. Meets c (width.compared narrow (slice_index args.now c.index))) conds.now }
{
    conds.iter().all(|cond| cond.holds(compared(narrow, args[cond.index as usize])))
}
