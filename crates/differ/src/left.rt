//! The rules of a profile that are left where the high bits of arguments are known.
ghost use Rattle.std.specs.Prelude.{◌≡◌, ◌<◌, ◌&&◌, ◌==◌, ℕ, [], true, false, IfOk, IfSome, IfNone, if◌then◌else◌};
ghost use Rattle.std.specs.List.{list_any};
ghost use Rattle.differ.specs.Left.{IsRaised, are_met, has_part_on, holds_of, side_says, verdict};

use crate::asked::{Answer, Ask, answer_with};
use call_record::Word;
use std::alloc::{AllocError, Global};

/// What is asked of an argument.
#[derive(Clone, Copy, Debug)]
pub struct Part {
    pub index: usize,
    pub ask: Ask,
}

/// What is left of a rule: its verdict, where all is as asked.
#[derive(Drop)]
pub struct Rest {
    pub parts: Vec<Part>,
    pub word: Word,
}

/// What is left of a profile: the verdict of the last rule that is met, or this one where none is.
#[derive(Drop)]
pub struct Side {
    pub rules: Vec<Rest>,
    pub last: Word,
}

/// Whether rules are left of a side.
pub(crate) fn has_rules(side: &Side) -> bool
    ensures { result ≡ false → side.now.rules.items ≡ [] }
{
    !side.rules.is_empty()
}

// Makes a verdict that of all records.
fn settle(side: &mut Side, word: Word)
    ensures { (a : ℕ → ℕ) → side_says side.new a ≡ word }
{
    side.rules.clear();
    side.last = word;
}

/// Adds a rule, which goes before those that are there.
pub fn add_rest(side: &mut Side, rest: Rest) -> Result<(), AllocError>
    ensures { IfOk result (λ _. (a : ℕ → ℕ) → side_says side.new a ≡ (if are_met rest.parts.items a then rest.word else side_says side.old a)) }
{
    if rest.parts.is_empty() {
        settle(side, rest.word);
        return Ok(());
    }
    if is_said(side, rest.word) {
        return Ok(());
    }
    side.rules.push(rest)?;
    Ok(())
}

// Whether a side says this verdict of all records, as far as is seen.
fn is_said(side: &Side, word: Word) -> bool
    ensures { result ≡ true → (a : ℕ → ℕ) → side_says side.now a ≡ word }
{
    if has_rules(side) {
        return false;
    }
    side.last == word
}

// Adds what is left of a part where a bit of an argument is known; `false` where it is not met.
fn add_part(
    kept: &mut Vec<Part>,
    part: &Part,
    index: usize,
    place: u32,
    bit: u64,
) -> Result<bool, AllocError>
    requires few { place < 64 }
    requires is_bit { bit < 2 }
    ensures open { IfOk result (λ is_open. (a b : ℕ → ℕ) → IsRaised index place bit a b → is_open ≡ true
        → are_met kept.new.items a ≡ (are_met kept.old.items a && holds_of b part.now)) }
    ensures closed { IfOk result (λ is_open. (a b : ℕ → ℕ) → IsRaised index place bit a b → is_open ≡ false → holds_of b part.now ≡ false) }
{
    if part.index != index {
        kept.push(*part)?;
        return Ok(true);
    }
    match answer_with(part.ask, place, bit) {
        Answer::Met => Ok(true),
        Answer::Unmet => Ok(false),
        Answer::Asks(ask) => {
            kept.push(Part { index, ask })?;
            Ok(true)
        }
    }
}

// What is left of parts where a bit of an argument is known; `None` where one is not met.
fn parts_with(
    alloc: Global,
    parts: &[Part],
    index: usize,
    place: u32,
    bit: u64,
) -> Result<Option<Vec<Part>>, AllocError>
    requires few { place < 64 }
    requires is_bit { bit < 2 }
    ensures some { IfOk result (λ left. IfSome left (λ kept. (a b : ℕ → ℕ) → IsRaised index place bit a b
        → are_met kept.items a ≡ are_met parts.now b)) }
    ensures none { IfOk result (λ left. IfNone left ((a b : ℕ → ℕ) → IsRaised index place bit a b → are_met parts.now b ≡ false)) }
{
    let mut kept = Vec::new(alloc);
    for part in parts {
        if !add_part(&mut kept, part, index, place, bit)? {
            return Ok(None);
        }
    }
    Ok(Some(kept))
}

// Adds what is left of a rule.
fn add_rest_with(
    alloc: Global,
    side: &mut Side,
    rest: &Rest,
    index: usize,
    place: u32,
    bit: u64,
) -> Result<(), AllocError>
    requires few { place < 64 }
    requires is_bit { bit < 2 }
    ensures { IfOk result (λ _. (a b : ℕ → ℕ) → IsRaised index place bit a b
        → side_says side.new a ≡ (if are_met rest.now.parts.items b then rest.now.word else side_says side.old a)) }
{
    match parts_with(alloc, &rest.parts, index, place, bit)? {
        None => Ok(()),
        Some(parts) => add_rest(
            side,
            Rest {
                parts,
                word: rest.word,
            },
        ),
    }
}

/// What is left of a side where the bit at a place of an argument is known.
pub(crate) fn side_with(
    alloc: Global,
    rules: &[Rest],
    last: Word,
    index: usize,
    place: u32,
    bit: u64,
) -> Result<Side, AllocError>
    requires few { place < 64 }
    requires is_bit { bit < 2 }
    ensures { IfOk result (λ next. (a b : ℕ → ℕ) → IsRaised index place bit a b → side_says next a ≡ verdict last rules.now b) }
{
    let mut next = Side {
        rules: Vec::new(alloc),
        last,
    };
    for rest in rules {
        add_rest_with(alloc, &mut next, rest, index, place, bit)?;
    }
    Ok(next)
}

fn is_on(part: &Part, index: usize) -> bool
    ensures { result ≡ (part.now.index == index) }
{
    part.index == index
}

fn asks_of(rest: &Rest, index: usize) -> bool
    ensures { result ≡ has_part_on index rest.now }
{
    rest.parts.iter().any(|part| is_on(part, index))
}

/// Whether rules ask something of an argument.
pub(crate) fn ask_of(rules: &[Rest], index: usize) -> bool
    ensures { result ≡ list_any (has_part_on index) rules.now }
{
    rules.iter().any(|rest| asks_of(rest, index))
}
