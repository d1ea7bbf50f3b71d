//! Calls that rules of two profiles name, and calls that stand for all others.
ghost use Rattle.std.specs.Prelude.{◌≡◌, ◌≤◌, ◌++◌, ℕ, true, false, IfOk, IfSome, IfNone};
ghost use Rattle.std.specs.List.{list_any};
ghost use Rattle.machines.specs.Numbers.{IsWithin};
ghost use Rattle.differ.specs.OnCall.{is_for};
ghost use Rattle.differ.specs.Named.{AreCovered, IsCovered, is_call, is_named};

use machines::Numbers;
use profile::Rule;
use std::alloc::AllocError;

/// A call: the token of its machine, and its number.
#[derive(Clone, Copy, Debug, PartialEq, Eq)]
pub struct Call {
    pub token: u32,
    pub nr: u32,
}

fn is_call(call: &Call, token: u32, nr: u32) -> bool
    ensures { result ≡ is_call token nr call.now }
{
    token == call.token && nr == call.nr
}

/// Whether a call is named.
pub(crate) fn is_named(list: &[Call], token: u32, nr: u32) -> bool
    ensures { result ≡ is_named list.now token nr }
{
    list.iter().any(|call| is_call(call, token, nr))
}

// Names a call.
fn add(list: &mut Vec<Call>, token: u32, nr: u32) -> Result<(), AllocError>
    ensures added { IfOk result (λ _. is_named list.new.items token nr ≡ true) }
    ensures stay { (t n : ℕ) → is_named list.old.items t n ≡ true → IfOk result (λ _. is_named list.new.items t n ≡ true) }
{
    if is_named(list, token, nr) {
        return Ok(());
    }
    list.push(Call { token, nr })?;
    Ok(())
}

/// Names the calls of rules.
pub fn add_rules(rules: &[Rule], list: &mut Vec<Call>) -> Result<(), AllocError>
    ensures added { (t n : ℕ) → list_any (is_for t n) rules.now ≡ true → IfOk result (λ _. is_named list.new.items t n ≡ true) }
    ensures stay { (t n : ℕ) → is_named list.old.items t n ≡ true → IfOk result (λ _. is_named list.new.items t n ≡ true) }
{
    for rule in rules {
        add(list, rule.arch.token(), rule.nr)?;
    }
    Ok(())
}

// The first of some numbers that is not named with a token.
fn unnamed(list: &[Call], token: u32, numbers: Numbers) -> Option<u32>
    requires { numbers.first ≤ numbers.last }
    ensures within { IfSome result (λ nr. IsWithin nr numbers) }
    ensures some { IfSome result (λ nr. is_named list.now token nr ≡ false) }
    ensures none { IfNone result ((nr : ℕ) → IsWithin nr numbers → is_named list.now token nr ≡ true) }
{
    let mut nr = numbers.first;
    while is_named(list, token, nr) {
        if nr == numbers.last {
            return None;
        }
        nr += 1;
    }
    Some(nr)
}

// Adds it.
fn add_unnamed(
    named: &[Call],
    rest: &mut Vec<Call>,
    token: u32,
    numbers: Numbers,
) -> Result<(), AllocError>
    requires { numbers.first ≤ numbers.last }
    ensures covered { IfOk result (λ _. IsCovered named.now rest.new.items token numbers) }
    ensures stay { (t n : ℕ) → is_named rest.old.items t n ≡ true → IfOk result (λ _. is_named rest.new.items t n ≡ true) }
{
    match unnamed(named, token, numbers) {
        Some(nr) => add(rest, token, nr),
        None => Ok(()),
    }
}

/// Adds one for each kind of number of which none is named with a token.
pub(crate) fn add_rest(named: &[Call], rest: &mut Vec<Call>, token: u32) -> Result<(), AllocError>
    ensures covered { IfOk result (λ _. AreCovered named.now rest.new.items token) }
    ensures stay { (t n : ℕ) → is_named rest.old.items t n ≡ true → IfOk result (λ _. is_named rest.new.items t n ≡ true) }
{
    add_unnamed(
        named,
        rest,
        token,
        Numbers {
            first: 0,
            last: 0x3fff_ffff,
        },
    )?;
    add_unnamed(
        named,
        rest,
        token,
        Numbers {
            first: 0x4000_0000,
            last: 0xffff_fffe,
        },
    )?;
    add_unnamed(
        named,
        rest,
        token,
        Numbers {
            first: 0xffff_ffff,
            last: 0xffff_ffff,
        },
    )
}
