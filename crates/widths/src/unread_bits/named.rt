//! The calls that rules are for.
ghost use Rattle.std.specs.Prelude.{◌≡◌, ℕ, true, IfOk};
ghost use Rattle.std.specs.List.{list_any};
ghost use Rattle.differ.specs.OnCall.{is_for};
ghost use Rattle.differ.specs.Named.{is_call, is_named};

use differ::Call;
use profile::Rule;
use std::alloc::{AllocError, Global};

fn is_call(call: &Call, token: u32, nr: u32) -> bool
    ensures { result ≡ is_call token nr call.now }
{
    token == call.token && nr == call.nr
}

// Whether a call is named.
fn is_named(list: &[Call], token: u32, nr: u32) -> bool
    ensures { result ≡ is_named list.now token nr }
{
    list.iter().any(|call| is_call(call, token, nr))
}

// Names a call.
fn add(list: &mut Vec<Call>, token: u32, nr: u32) -> Result<(), AllocError>
    ensures added { IfOk result (λ _. is_named list.new.items token nr ≡ true) }
    ensures stay { (t n : ℕ) → is_named list.old.items t n ≡ true → IfOk result (λ _. is_named list.new.items t n ≡ true) }
{
    if is_named(list, token, nr) {
        return Ok(());
    }
    list.push(Call { token, nr })?;
    Ok(())
}

/// The calls that rules are for.
pub(crate) fn calls_of(alloc: Global, rules: &[Rule]) -> Result<Vec<Call>, AllocError>
    ensures { (t n : ℕ) → list_any (is_for t n) rules.now ≡ true → IfOk result (λ list. is_named list.items t n ≡ true) }
{
    let mut list = Vec::new(alloc);
    for rule in rules {
        add(&mut list, rule.arch.token(), rule.nr)?;
    }
    Ok(list)
}
