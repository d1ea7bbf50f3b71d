//! The rule to which each rule gives way.
use crate::settling::choice::{Choice, is_bare};
use crate::settling::covering::are_implied;
use crate::settling::kinds::Kinds;
use profile::Rule;
use std::alloc::{AllocError, Global};

// A rule by its rank and its place. Of rules that match a record the least one counts.
type Ranked = (u32, usize);

// What is greater than each rule.
const NONE: Ranked = (u32::MAX, usize::MAX);

// The rank that the action of a rule has: the lower the stricter (seccomp(2): as signed numbers).
fn strictness(rule: &Rule) -> u32 {
    rule.word.action().0 ^ 0x8000_0000
}

// The rank of a rule among those that may count.
fn rank(choice: Choice, rule: &Rule) -> u32 {
    match choice {
        Choice::First => 0,
        Choice::LikeLibseccomp => u32::from(!is_bare(rule)),
        Choice::Looser => !strictness(rule),
        Choice::Stricter => strictness(rule),
    }
}

// The lesser of two.
fn lesser(a: Ranked, b: Ranked) -> Ranked {
    if b.0 < a.0 || (b.0 == a.0 && b.1 < a.1) {
        b
    } else {
        a
    }
}

// For each kind of rules the least of its rules.
fn least_of_kinds(
    alloc: Global,
    choice: Choice,
    rules: &[Rule],
    kinds: &Kinds,
) -> Result<Vec<Ranked>, AllocError> {
    let mut least = vec![in alloc; NONE; kinds.count()]?;
    for (place, rule) in rules.iter().enumerate() {
        if let Some(kind) = kinds.kind(place)
            && let Some(found) = least.get_mut(kind)
        {
            *found = lesser(*found, (rank(choice, rule), place));
        }
    }
    Ok(least)
}

// Whether a rule may count for another for the same call: as libseccomp has it, one without conditions does, and one with the same.
fn may_count(choice: Choice, other: &Rule, rule: &Rule) -> bool {
    let (other_conds, conds) = (other.conds.as_slice(), rule.conds.as_slice());
    if !are_implied(other_conds, conds) {
        return false;
    }
    choice != Choice::LikeLibseccomp || is_bare(other) || are_implied(conds, other_conds)
}

// The lists of conditions whose rules may count for a rule, by the first rules that have them.
fn lists_for(
    alloc: Global,
    choice: Choice,
    rules: &[Rule],
    firsts: &[usize],
    rule: &Rule,
) -> Result<Vec<usize>, AllocError> {
    let mut lists = Vec::new(alloc);
    for (list, first) in firsts.iter().enumerate() {
        if let Some(other) = rules.get(*first)
            && may_count(choice, other, rule)
        {
            lists.push(list)?;
        }
    }
    Ok(lists)
}

// For each list of conditions those whose rules may count for its rules, by the first rules that have them.
fn lists_for_each(
    alloc: Global,
    choice: Choice,
    rules: &[Rule],
    firsts: &[usize],
) -> Result<Vec<Vec<usize>>, AllocError> {
    let mut all = Vec::new(alloc);
    for first in firsts {
        if let Some(rule) = rules.get(*first) {
            all.push(lists_for(alloc, choice, rules, firsts, rule)?)?;
        }
    }
    Ok(all)
}

// The least rule for a call that has one of these lists of conditions.
fn least_of(of_call: &[Ranked], lists: &[usize]) -> Ranked {
    let mut least = NONE;
    for list in lists {
        least = lesser(least, of_call.get(*list).copied().unwrap_or(NONE));
    }
    least
}

// For each kind of rules the least of those that may count for all that it matches, by the lists that may for each list.
fn counting(
    alloc: Global,
    least: &[Ranked],
    for_each: &[Vec<usize>],
) -> Result<Vec<Ranked>, AllocError> {
    let mut counting = Vec::new(alloc);
    let mut rest = least;
    for _ in 0..least.len() {
        let Some((of_call, others)) = rest.split_at_checked(for_each.len()) else {
            return Ok(counting);
        };
        for lists in for_each {
            counting.push(least_of(of_call, lists))?;
        }
        rest = others;
    }
    Ok(counting)
}

// The place of a rule, unless the one that counts for it says something else.
fn told_place(rules: &[Rule], place: usize, winner: usize) -> usize {
    let Some(other) = rules.get(winner) else {
        return place;
    };
    match rules.get(place) {
        Some(rule) if rule.word == other.word => place,
        _ => winner,
    }
}

/// For each rule the place of the one to which it gives way: one that says something else, and counts for all that it matches. A
/// rule that gives way to none has its own place.
pub fn winners(alloc: Global, choice: Choice, rules: &[Rule]) -> Result<Vec<usize>, AllocError> {
    let kinds = Kinds::of(alloc, rules)?;
    let least = least_of_kinds(alloc, choice, rules, &kinds)?;
    let for_each = lists_for_each(alloc, choice, rules, kinds.firsts())?;
    let counting = counting(alloc, &least, &for_each)?;
    let mut winners = Vec::new(alloc);
    for place in 0..rules.len() {
        let kind = kinds.kind(place).unwrap_or(usize::MAX);
        let (_, winner) = counting.get(kind).copied().unwrap_or(NONE);
        winners.push(told_place(rules, place, winner))?;
    }
    Ok(winners)
}
