//! All calls of which a profile says unlike verdicts by bits that are not read.
ghost use Rattle.std.specs.Prelude.{◌≡◌, ◌++◌, ◌∷◌, [], ℕ, true, IfOk};
ghost use Rattle.widths.specs.Past.{AreAllPast, AreTold, IsAnswered};
ghost use Rattle.widths.specs.inner.Extended.{Extends};
ghost use Rattle.differ.specs.Named.{is_named};

use crate::unread_bits::named::calls_of;
use crate::unread_bits::on_call::past_on;
use crate::unread_bits::past::Past;
use differ::{Call, Direction, Steps, Unlisted};
use profile::Profile;
use std::alloc::{AllocError, Global};

/// Calls of which a profile says unlike verdicts in a direction, and calls of which it is not decided.
#[derive(Drop)]
pub struct AllPast {
    /// Of each call one such, if there is one.
    pub found: Vec<Past>,
    /// The calls that are crowded.
    pub crowded: Vec<Call>,
}

fn add_found(all: &mut AllPast, past: Past) -> Result<(), AllocError>
    ensures found { IfOk result (λ _. all.new.found.items ≡ all.old.found.items ++ past ∷ []) }
    ensures crowded { IfOk result (λ _. all.new.crowded.items ≡ all.old.crowded.items) }
{
    all.found.push(past)?;
    Ok(())
}

fn add_crowded(all: &mut AllPast, call: Call) -> Result<(), AllocError>
    ensures found { IfOk result (λ _. all.new.found.items ≡ all.old.found.items) }
    ensures crowded { IfOk result (λ _. all.new.crowded.items ≡ all.old.crowded.items ++ call ∷ []) }
{
    all.crowded.push(call)?;
    Ok(())
}

// Adds what is unlike of a call.
fn add_call(
    alloc: Global,
    profile: &Profile,
    call: &Call,
    direction: Direction,
    all: &mut AllPast,
    steps: &mut Steps,
) -> Result<(), AllocError>
    ensures told { AreTold profile.now direction all.old → IfOk result (λ _. AreTold profile.now direction all.new) }
    ensures extends { IfOk result (λ _. Extends all.old all.new) }
    ensures answered { IfOk result (λ _. IsAnswered profile.now direction all.new call.now.token call.now.nr) }
{
    match past_on(alloc, profile, call.token, call.nr, direction, steps) {
        Ok(None) => Ok(()),
        Ok(Some(past)) => {
            add_found(all, past)?;
            Ok(())
        }
        Err(Unlisted::TooMany) => {
            add_crowded(all, *call)?;
            Ok(())
        }
        Err(Unlisted::OutOfMemory) => Err(AllocError),
    }
}

// Adds what is unlike of each of these calls.
fn add_each(
    alloc: Global,
    profile: &Profile,
    list: &[Call],
    direction: Direction,
    all: &mut AllPast,
    steps: &mut Steps,
) -> Result<(), AllocError>
    ensures told { AreTold profile.now direction all.old → IfOk result (λ _. AreTold profile.now direction all.new) }
    ensures answered { (t n : ℕ) → is_named list.now t n ≡ true → IfOk result (λ _. IsAnswered profile.now direction all.new t n) }
{
    for call in list {
        add_call(alloc, profile, call, direction, all, steps)?;
    }
    Ok(())
}

/// All calls that a rule is for and of which a profile says another verdict than of the same call with the bits at 0 that are not read, where the
/// two are unlike in a direction. So are no other calls.
pub fn all_past(
    alloc: Global,
    profile: &Profile,
    direction: Direction,
    steps: &mut Steps,
) -> Result<AllPast, AllocError>
    ensures { IfOk result (AreAllPast profile.now direction) }
{
    let rules = profile.rules();
    let list = calls_of(alloc, rules)?;
    let mut all = AllPast {
        found: Vec::new(alloc),
        crowded: Vec::new(alloc),
    };
    add_each(alloc, profile, &list, direction, &mut all, steps)?;
    Ok(all)
}
