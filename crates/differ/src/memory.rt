//! What a walk keeps in mind: which sides are never unlike, and how many steps it has left.
ghost use Rattle.std.specs.Prelude.{◌≡◌, true, IfOk, IfErr};
ghost use Rattle.differ.specs.Left.{AreNeverUnlike};

use crate::known::{Known, Question, is_of};
use crate::left::{Part, Rest, Side};
use crate::listed::Unlisted;
use profile::Op;
use std::alloc::{AllocError, Global};
use std::collections::BTreeMap;

/// How many steps are gone at most, if they are limited, and what was found out already.
#[derive(Drop)]
pub struct Memory {
    /// Whether the steps are limited.
    pub limited: bool,
    left: usize,
    // How many of the steps came of those of the command.
    share: usize,
    // How many rules may still be kept in mind.
    room: usize,
    list: Vec<Known>,
    // Where in the list sides with such a number stand.
    places: BTreeMap<u64, usize>,
}

/// How many steps a command goes at calls that are crowded, beside those that each of these has of its own. A step counts as one, and one for
/// each rule that is left and each of its parts.
pub const MOST_STEPS: usize = 8_388_608;

/// How many steps a crowded call has of its own for each of its rules.
pub const OWN_STEPS: usize = 256;

/// How many steps a command may still go at calls that are crowded.
#[derive(Drop)]
pub struct Steps {
    left: usize,
}

/// All steps of a command.
pub fn all_steps() -> Steps {
    Steps { left: MOST_STEPS }
}

// Takes half of the steps that are left.
fn taken(steps: &mut Steps) -> usize {
    let share = steps.left / 2;
    steps.left -= share;
    share
}

/// Gives back to a command the steps that a walk has left of them.
pub fn give_back(steps: &mut Steps, memory: &Memory) {
    steps.left = steps.left.saturating_add(memory.left.min(memory.share));
}

/// How many rules are kept in mind at most.
pub const MOST_KEPT: usize = 1_048_576;

/// A memory with nothing in it, for a walk over so many rules. It takes half of the steps that a command has left.
pub(crate) fn empty_memory(alloc: Global, limited: bool, rules: usize, steps: &mut Steps) -> Memory
    ensures { result.limited ≡ limited }
{
    let share = if limited { taken(steps) } else { 0 };
    Memory {
        limited,
        left: share.saturating_add(rules.saturating_mul(OWN_STEPS)),
        share,
        room: MOST_KEPT,
        list: Vec::new(alloc),
        places: BTreeMap::new(alloc),
    }
}

// One for each rule that is left, and each of its parts.
fn weight_of(side: &Side) -> usize {
    let mut weight = side.rules.len();
    for rest in &side.rules {
        weight = weight.saturating_add(rest.parts.len());
    }
    weight
}

/// A memory with nothing in it, for a walk over so many rules whose steps are limited.
pub fn limited_memory(alloc: Global, rules: usize, steps: &mut Steps) -> Memory {
    empty_memory(alloc, true, rules, steps)
}

/// Counts a step.
pub(crate) fn spend(memory: &mut Memory, one: &Side, other: &Side) -> Result<(), Unlisted>
    ensures limited { memory.new.limited ≡ memory.old.limited }
    ensures err { IfErr result (λ _. memory.old.limited ≡ true) }
{
    if !memory.limited {
        return Ok(());
    }
    let weight = weight_of(one).saturating_add(weight_of(other));
    if memory.left <= weight {
        memory.left = 0;
        return Err(Unlisted::TooMany);
    }
    memory.left -= weight;
    memory.left -= 1;
    Ok(())
}

fn number_of(op: Op) -> u64 {
    match op {
        Op::Ne => 0,
        Op::Lt => 1,
        Op::Le => 2,
        Op::Eq => 3,
        Op::Ge => 4,
        Op::Gt => 5,
        Op::MaskedEq => 6,
    }
}

fn mixed(sum: u64, number: u64) -> u64 {
    (sum.rotate_left(5) ^ number).wrapping_mul(0x517c_c1b7_2722_0a95)
}

fn with_part(sum: u64, part: &Part) -> u64 {
    let sum = mixed(sum, part.index as u64);
    let sum = mixed(sum, number_of(part.ask.op));
    let sum = mixed(sum, part.ask.value);
    mixed(sum, part.ask.datum)
}

fn with_rest(sum: u64, rest: &Rest) -> u64 {
    let mut sum = mixed(sum, rest.word.0 as u64);
    for part in &rest.parts {
        sum = with_part(sum, part);
    }
    sum
}

fn with_side(sum: u64, side: &Side) -> u64 {
    let mut sum = mixed(sum, side.last.0 as u64);
    for rest in &side.rules {
        sum = with_rest(sum, rest);
    }
    sum
}

/// A number that seldom is the same for other sides.
pub(crate) fn number_for(at: Question, one: &Side, other: &Side) -> u64 {
    let sum = mixed(at.index as u64, at.rest as u64);
    with_side(with_side(sum, one), other)
}

/// Whether two sides with this number are known to be never unlike.
pub(crate) fn is_known(memory: &Memory, number: u64, at: Question, one: &Side, other: &Side) -> bool
    ensures { result ≡ true → AreNeverUnlike at.direction at.bits at.index at.rest one.now other.now }
{
    match memory.places.get(&number) {
        None => false,
        Some(place) => {
            if *place >= memory.list.len() {
                return false;
            }
            is_of(&memory.list[*place], at, one, other)
        }
    }
}

/// Keeps two sides with this number in mind, if there is room for their rules.
pub(crate) fn keep(memory: &mut Memory, number: u64, known: Known) -> Result<(), AllocError>
    ensures { memory.new.limited ≡ memory.old.limited }
{
    let rules = known
        .one
        .rules
        .len()
        .saturating_add(known.other.rules.len());
    if memory.room <= rules {
        return Ok(());
    }
    memory.room -= rules;
    memory.room -= 1;
    let place = memory.list.len();
    memory.list.push(known)?;
    memory.places.insert(number, place)?;
    Ok(())
}
