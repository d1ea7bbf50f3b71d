//! Which calls get past a profile, and which are stopped by it.
ghost use Rattle.std.specs.Prelude.{◌≡◌, ◌++◌, ◌∷◌, [], ℕ, true, All, IfOk};
ghost use Rattle.machines.specs.declared.arch.Family.{Family as TheFamily};
ghost use Rattle.profile.specs.Policy.{Policy};
ghost use Rattle.differ.specs.Named.{is_call, is_named};
ghost use Rattle.compare.specs.Past.{AreBoth, IsFinding};
ghost use Rattle.widths.specs.Crowded.{AreCrowded};

use crate::lint::past::{Finding, Past};
use crate::search::{Crowded, crowded_of};
use differ::{Call, Direction, all_steps};
use machines::Family;
use profile::Profile;
use std::alloc::{AllocError, Global};
use widths::all_past;

// What the calls that get past and those that are stopped come to.
fn finding_of(past: Vec<Past>, stopped: Vec<Past>, crowded: Vec<Crowded>) -> Finding
    ensures { (family : TheFamily) (p : Policy) → AreBoth family p past.items stopped.items crowded.items → IsFinding family p result }
{
    if !crowded.is_empty() {
        return Finding::Undecided(past, stopped, crowded);
    }
    if !past.is_empty() {
        return Finding::Unlike(past, stopped);
    }
    if !stopped.is_empty() {
        return Finding::Unlike(past, stopped);
    }
    Finding::Nothing
}

fn is_call(call: &Call, token: u32, nr: u32) -> bool
    ensures { result ≡ is_call token nr call.now }
{
    token == call.token && nr == call.nr
}

// Whether a call is named.
fn is_named(list: &[Call], token: u32, nr: u32) -> bool
    ensures { result ≡ is_named list.now token nr }
{
    list.iter().any(|call| is_call(call, token, nr))
}

// Names a call, unless it is named.
fn add(list: &mut Vec<Call>, call: &Call) -> Result<(), AllocError>
    ensures crowded { (p : Policy) → AreCrowded p call.now.token call.now.nr → All (λ c. AreCrowded p c.token c.nr) list.old.items
        → IfOk result (λ _. All (λ c. AreCrowded p c.token c.nr) list.new.items) }
    ensures stay { (t n : ℕ) → is_named list.old.items t n ≡ true → IfOk result (λ _. is_named list.new.items t n ≡ true) }
    ensures added { (t n : ℕ) → is_call t n call.now ≡ true → IfOk result (λ _. is_named list.new.items t n ≡ true) }
{
    if is_named(list, call.token, call.nr) {
        return Ok(());
    }
    list.push(*call)?;
    Ok(())
}

// Names calls, beside those that are named.
fn add_all(list: &mut Vec<Call>, more: &[Call]) -> Result<(), AllocError>
    ensures crowded { (p : Policy) → All (λ c. AreCrowded p c.token c.nr) more.now → All (λ c. AreCrowded p c.token c.nr) list.old.items
        → IfOk result (λ _. All (λ c. AreCrowded p c.token c.nr) list.new.items) }
    ensures stay { (t n : ℕ) → is_named list.old.items t n ≡ true → IfOk result (λ _. is_named list.new.items t n ≡ true) }
    ensures added { (t n : ℕ) → is_named more.now t n ≡ true → IfOk result (λ _. is_named list.new.items t n ≡ true) }
{
    for call in more {
        add(list, call)?;
    }
    Ok(())
}

/// Which calls get past a profile and which are stopped by it, whose machines are of a family.
pub fn finding(alloc: Global, family: Family, profile: &Profile) -> Result<Finding, AllocError>
    ensures { IfOk result (IsFinding family profile.now) }
{
    let mut steps = all_steps();
    let past = all_past(alloc, profile, Direction::Less, &mut steps)?;
    let stopped = all_past(alloc, profile, Direction::More, &mut steps)?;
    let mut calls = Vec::new(alloc);
    add_all(&mut calls, &past.crowded)?;
    add_all(&mut calls, &stopped.crowded)?;
    let crowded = crowded_of(alloc, family, &calls)?;
    Ok(finding_of(past.found, stopped.found, crowded))
}
