//! What a profile says of the records of one call.
ghost use Rattle.std.specs.Prelude.{◌≡◌, ◌==◌, ◌<◌, ◌^◌, ℕ, List, IfOk, if◌then◌else◌};
ghost use Rattle.std.specs.List.{list_all, list_any};
ghost use Rattle.machines.specs.Numbers.{has_call};
ghost use Rattle.profile.specs.Rule.{argument_of};
ghost use Rattle.profile.specs.Said.{meets, said};
ghost use Rattle.differ.specs.Left.{are_met, holds_of, side_says};
ghost use Rattle.differ.specs.OnCall.{IsOfCall, is_for};
ghost use Rattle.differ.specs.inner.Sides.{said_from};

use crate::asked::Ask;
use crate::left::{Part, Rest, Side, add_rest};
use call_record::Word;
use profile::{Cond, Profile, Rule, are_for};
use std::alloc::{AllocError, Global};

fn is_for(rule: &Rule, token: u32, nr: u32) -> bool
    ensures { result ≡ is_for token nr rule.now }
{
    token == rule.arch.token() && nr == rule.nr
}

// What a condition asks.
fn part_of(cond: &Cond) -> Part
    ensures { (a : ℕ → ℕ) → a cond.now.index < 2 ^ 64 → holds_of a result ≡ meets cond.now (a cond.now.index) }
{
    Part {
        index: cond.index as usize,
        ask: Ask {
            op: cond.op,
            value: cond.value,
            datum: cond.datum,
            read: 64,
        },
    }
}

// What conditions ask.
fn parts_of(alloc: Global, conds: &[Cond]) -> Result<Vec<Part>, AllocError>
    ensures { IfOk result (λ parts. (a : ℕ → ℕ) → ((i : ℕ) → a i < 2 ^ 64)
        → are_met parts.items a ≡ list_all (λ c. meets c (a c.index)) conds.now) }
{
    let mut parts = Vec::new(alloc);
    for cond in conds {
        parts.push(part_of(cond))?;
    }
    Ok(parts)
}

// Adds a rule of a profile, before those that are there.
fn add_rule(alloc: Global, side: &mut Side, rule: &Rule) -> Result<(), AllocError>
    ensures { IfOk result (λ _. (a : ℕ → ℕ) → ((i : ℕ) → a i < 2 ^ 64)
        → side_says side.new a ≡ (if list_all (λ c. meets c (a c.index)) rule.now.conds.items then rule.now.word else side_says side.old a)) }
{
    let parts = parts_of(alloc, rule.conds.as_slice())?;
    add_rest(
        side,
        Rest {
            parts,
            word: rule.word,
        },
    )
}

// Adds the rules for a call, the last one first.
fn add_rules(
    alloc: Global,
    side: &mut Side,
    rules: &[Rule],
    token: u32,
    nr: u32,
) -> Result<(), AllocError>
    ensures { IfOk result (λ _. (d : ℕ) (r : List ℕ) → IsOfCall token nr r → side_says side.old (argument_of r) ≡ d
        → side_says side.new (argument_of r) ≡ said_from d rules.now r) }
{
    let mut place = rules.len();
    while place > 0 {
        place -= 1;
        if is_for(&rules[place], token, nr) {
            add_rule(alloc, side, &rules[place])?;
        }
    }
    Ok(())
}

// Whether a call is one of the profile's machines.
fn is_native(profile: &Profile, token: u32, nr: u32) -> bool
    ensures { result ≡ list_any (has_call token nr) profile.now.machines }
{
    are_for(profile.machines(), token, nr)
}

/// What a profile says of the records of a call, where no bit of an argument is known.
pub fn side_of(alloc: Global, profile: &Profile, token: u32, nr: u32) -> Result<Side, AllocError>
    ensures { IfOk result (λ side. (r : List ℕ) → IsOfCall token nr r → side_says side (argument_of r) ≡ said profile.now r) }
{
    if !is_native(profile, token, nr) {
        return Ok(Side {
            rules: Vec::new(alloc),
            last: Word::KILL_THREAD,
        });
    }
    let mut side = Side {
        rules: Vec::new(alloc),
        last: profile.default_word(),
    };
    add_rules(alloc, &mut side, profile.rules(), token, nr)?;
    Ok(side)
}
