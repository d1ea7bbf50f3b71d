//! The rules of two profiles that a record may match, as far as its arguments are known.
ghost use Rattle.std.specs.Prelude.{◌≡◌, ◌==◌, ◌++◌, IfOk, filter};
ghost use Rattle.differ.specs.OnCall.{conditions_on, is_for, on_argument, rules_for, is_met_at, met_at};
ghost use Rattle.differ.specs.inner.Open.{open_on};

use crate::alike::meets;
use profile::{Cond, Profile, Rule};
use std::alloc::{AllocError, Global};

/// Open rules of a first and a second profile.
#[derive(Drop)]
pub(crate) struct Open {
    pub(crate) first: Vec<Rule>,
    pub(crate) second: Vec<Rule>,
}

fn is_for(rule: &Rule, token: u32, nr: u32) -> bool
    ensures { result ≡ is_for token nr rule.now }
{
    token == rule.arch.token() && nr == rule.nr
}

/// The rules for a call.
pub fn rules_for(
    alloc: Global,
    rules: &[Rule],
    token: u32,
    nr: u32,
) -> Result<Vec<Rule>, AllocError>
    ensures { IfOk result (λ list. list.items ≡ rules_for token nr rules.now) }
{
    let mut list = Vec::new(alloc);
    for rule in rules {
        if is_for(rule, token, nr) {
            list.push(rule.clone()?)?;
        }
    }
    Ok(list)
}

/// The rules of two profiles for a call.
pub(crate) fn open_for(
    alloc: Global,
    first: &Profile,
    second: &Profile,
    token: u32,
    nr: u32,
) -> Result<Open, AllocError>
    ensures first { IfOk result (λ held. held.first.items ≡ rules_for token nr first.now.rules) }
    ensures second { IfOk result (λ held. held.second.items ≡ rules_for token nr second.now.rules) }
{
    let first = rules_for(alloc, first.rules(), token, nr)?;
    let second = rules_for(alloc, second.rules(), token, nr)?;
    Ok(Open { first, second })
}

// Whether a condition is on another argument, or a number meets it.
fn is_met(cond: &Cond, index: usize, value: u64) -> bool
    ensures { result ≡ met_at index value cond.now }
{
    cond.index as usize != index || meets(cond, value)
}

// Whether a number meets all conditions of a rule on an argument.
fn meets_all(rule: &Rule, index: usize, value: u64) -> bool
    ensures { result ≡ is_met_at index value rule.now }
{
    rule.conds
        .as_slice()
        .iter()
        .all(|cond| is_met(cond, index, value))
}

/// Those of rules whose conditions on an argument a number meets.
pub fn rules_with(
    alloc: Global,
    rules: &[Rule],
    index: usize,
    value: u64,
) -> Result<Vec<Rule>, AllocError>
    ensures { IfOk result (λ list. list.items ≡ filter (is_met_at index value) rules.now) }
{
    let mut list = Vec::new(alloc);
    for rule in rules {
        if meets_all(rule, index, value) {
            list.push(rule.clone()?)?;
        }
    }
    Ok(list)
}

fn is_on(cond: &Cond, index: usize) -> bool
    ensures { result ≡ (cond.now.index == index) }
{
    cond.index as usize == index
}

// Adds the conditions of a rule on an argument.
fn add_rule(rule: &Rule, index: usize, list: &mut Vec<Cond>) -> Result<(), AllocError>
    ensures { IfOk result (λ _. list.new.items ≡ list.old.items ++ on_argument index rule.now) }
{
    for cond in rule.conds.as_slice() {
        if is_on(cond, index) {
            list.push(*cond)?;
        }
    }
    Ok(())
}

/// Adds the conditions of rules on an argument.
pub fn add_rules(rules: &[Rule], index: usize, list: &mut Vec<Cond>) -> Result<(), AllocError>
    ensures { IfOk result (λ _. list.new.items ≡ list.old.items ++ conditions_on index rules.now) }
{
    for rule in rules {
        add_rule(rule, index, list)?;
    }
    Ok(())
}

/// The conditions of open rules on an argument.
pub(crate) fn conditions_at(
    alloc: Global,
    held: &Open,
    index: usize,
) -> Result<Vec<Cond>, AllocError>
    ensures { IfOk result (λ list. list.items ≡ open_on index held.now) }
{
    let mut list = Vec::new(alloc);
    add_rules(&held.first, index, &mut list)?;
    add_rules(&held.second, index, &mut list)?;
    Ok(list)
}
