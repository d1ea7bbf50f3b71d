//! How far a call goes by a profile, by the lowest bits of its arguments.
ghost use Rattle.std.specs.Prelude.{◌≡◌, ◌==◌, ℕ, List, IfOk, if◌then◌else◌};
ghost use Rattle.std.specs.List.{list_all, list_any};
ghost use Rattle.machines.specs.Numbers.{has_call};
ghost use Rattle.profile.specs.Rule.{argument_of};
ghost use Rattle.profile.specs.Said.{meets, said};
ghost use Rattle.differ.specs.Left.{are_met, holds_of, side_says};
ghost use Rattle.differ.specs.OnCall.{IsOfCall, is_for};
ghost use Rattle.differ.specs.inner.Sides.{said_from};
ghost use Rattle.widths.specs.inner.Read.{AreRead, seen_of, verdict_of};

use call_record::{Fate, Word};
use differ::{Ask, Direction, Part, Rest, Side, add_rest};
use profile::{Cond, Profile, Rule, are_for};
use std::alloc::{AllocError, Global};

fn is_for(rule: &Rule, token: u32, nr: u32) -> bool
    ensures { result ≡ is_for token nr rule.now }
{
    token == rule.arch.token() && nr == rule.nr
}

// One verdict for all by which a call goes equally far.
fn verdict_of(fate: Fate) -> Word
    ensures { result ≡ verdict_of fate }
{
    match fate {
        Fate::Refused => Word::KILL_THREAD,
        Fate::Left => Word::USER_NOTIF,
        Fate::LetThrough => Word::ALLOW,
    }
}

// What is looked at of a verdict: where any others are looked for all of it, and else how far a call goes by it.
fn seen_of(direction: Direction, word: Word) -> Word
    ensures { result ≡ seen_of direction word }
{
    match direction {
        Direction::Any => word,
        Direction::More | Direction::Less => verdict_of(word.fate()),
    }
}

// What a condition asks of the bits that are looked at.
fn part_of(cond: &Cond, reads: &[u32; 6]) -> Part
    ensures { (a b : ℕ → ℕ) → AreRead reads.now a b → holds_of a result ≡ meets cond.now (b cond.now.index) }
{
    Part {
        index: cond.index as usize,
        ask: Ask {
            op: cond.op,
            value: cond.value,
            datum: cond.datum,
            read: reads[cond.index as usize],
        },
    }
}

// What conditions ask of them.
fn parts_of(alloc: Global, conds: &[Cond], reads: &[u32; 6]) -> Result<Vec<Part>, AllocError>
    ensures { IfOk result (λ parts. (a b : ℕ → ℕ) → AreRead reads.now a b
        → are_met parts.items a ≡ list_all (λ c. meets c (b c.index)) conds.now) }
{
    let mut parts = Vec::new(alloc);
    for cond in conds {
        parts.push(part_of(cond, reads))?;
    }
    Ok(parts)
}

// Adds a rule of a profile, before those that are there.
fn add_rule(
    alloc: Global,
    side: &mut Side,
    rule: &Rule,
    reads: &[u32; 6],
    direction: Direction,
) -> Result<(), AllocError>
    ensures { IfOk result (λ _. (a b : ℕ → ℕ) → AreRead reads.now a b → side_says side.new a
        ≡ (if list_all (λ c. meets c (b c.index)) rule.now.conds.items then seen_of direction rule.now.word else side_says side.old a)) }
{
    let parts = parts_of(alloc, rule.conds.as_slice(), reads)?;
    add_rest(
        side,
        Rest {
            parts,
            word: seen_of(direction, rule.word),
        },
    )
}

// Adds the rules for a call, the last one first.
fn add_rules(
    alloc: Global,
    side: &mut Side,
    rules: &[Rule],
    token: u32,
    nr: u32,
    reads: &[u32; 6],
    direction: Direction,
) -> Result<(), AllocError>
    ensures { IfOk result (λ _. (d : ℕ) (r s : List ℕ) → IsOfCall token nr s → AreRead reads.now (argument_of r) (argument_of s)
        → side_says side.old (argument_of r) ≡ seen_of direction d → side_says side.new (argument_of r) ≡ seen_of direction (said_from d rules.now s)) }
{
    let mut place = rules.len();
    while place > 0 {
        place -= 1;
        if is_for(&rules[place], token, nr) {
            add_rule(alloc, side, &rules[place], reads, direction)?;
        }
    }
    Ok(())
}

// Whether a call is one of the profile's machines.
fn is_native(profile: &Profile, token: u32, nr: u32) -> bool
    ensures { result ≡ list_any (has_call token nr) profile.now.machines }
{
    are_for(profile.machines(), token, nr)
}

/// How far the records of a call go, by so many of the lowest bits of their arguments.
pub(crate) fn side_of(
    alloc: Global,
    profile: &Profile,
    token: u32,
    nr: u32,
    reads: &[u32; 6],
    direction: Direction,
) -> Result<Side, AllocError>
    ensures { IfOk result (λ side. (r s : List ℕ) → IsOfCall token nr s → AreRead reads.now (argument_of r) (argument_of s)
        → side_says side (argument_of r) ≡ seen_of direction (said profile.now s)) }
{
    if !is_native(profile, token, nr) {
        return Ok(Side {
            rules: Vec::new(alloc),
            last: seen_of(direction, Word::KILL_THREAD),
        });
    }
    let mut side = Side {
        rules: Vec::new(alloc),
        last: seen_of(direction, profile.default_word()),
    };
    add_rules(
        alloc,
        &mut side,
        profile.rules(),
        token,
        nr,
        reads,
        direction,
    )?;
    Ok(side)
}
