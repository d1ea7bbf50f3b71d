//! Numbers that begin with given bits.
ghost use Rattle.std.specs.Prelude.{◌≡◌, ◌<◌, ◌≤◌, ◌-◌, ◌^◌, ◌⊎◌, ◌↔◌, ◌++◌, ◌∷◌, [], ℕ, List, false, length, IsTrue, IfOk, IfErr, All};
ghost use Rattle.std.specs.List.{Contains};
ghost use Rattle.profile.specs.declared.conditions.Cond.{Cond as TheCond};
ghost use Rattle.profile.specs.declared.conditions.Op.TheVariants.{MaskedEq};
ghost use Rattle.differ.specs.Cells.{AreApart, IsMet, most_cells};
ghost use Rattle.differ.specs.inner.Branch.{AllBegin, AreBranch, IsDecided, IsFull, IsUnadded, Narrows, Overlooks};

use crate::alike::is_met;
use crate::listed::{MOST_CELLS, Unlisted};
use profile::{Cond, Op};
use std::alloc::{AllocError, Global};

fn is_masked(op: Op) -> bool
    ensures { IsTrue result ↔ (op ≡ MaskedEq) }
{
    op == Op::MaskedEq
}

// Whether a condition may answer unlike of numbers that begin with these bits, of which so many follow.
fn is_open(cond: &Cond, high: u64, rest: u32) -> bool
    requires { rest < 64 }
    ensures { result ≡ false → IsDecided high rest cond.now }
{
    if is_masked(cond.op) {
        return high & (cond.value >> rest) == cond.datum >> rest;
    }
    cond.value >> rest == high
}

fn is_same_op(one: Op, other: Op) -> bool
    ensures { IsTrue result → one ≡ other }
{
    one == other
}

// Whether two conditions are one.
fn is_same(one: &Cond, other: &Cond) -> bool
    ensures { IsTrue result → one.now ≡ other.now }
{
    if !is_same_op(one.op, other.op) {
        return false;
    }
    if one.index != other.index {
        return false;
    }
    if one.value != other.value {
        return false;
    }
    one.datum == other.datum
}

// Whether a condition is one of these.
fn has(kept: &[Cond], cond: &Cond) -> bool
    ensures { IsTrue result → Contains kept.now cond.now }
{
    for other in kept {
        if is_same(other, cond) {
            return true;
        }
    }
    false
}

// Keeps a condition, once.
fn keep(kept: &mut Vec<Cond>, cond: &Cond) -> Result<(), AllocError>
    ensures { (high rest : ℕ) (conds : List TheCond) → Narrows high rest conds kept.old.items
        → IfOk result (λ _. Narrows high rest (conds ++ cond.now ∷ []) kept.new.items) }
{
    if has(kept, cond) {
        return Ok(());
    }
    kept.push(*cond)?;
    Ok(())
}

// The conditions that may do so.
fn still_open(alloc: Global, conds: &[Cond], high: u64, rest: u32) -> Result<Vec<Cond>, AllocError>
    requires { rest < 64 }
    ensures { IfOk result (λ kept. Narrows high rest conds.now kept.items) }
{
    let mut kept = Vec::new(alloc);
    for cond in conds {
        if is_open(cond, high, rest) {
            keep(&mut kept, cond)?;
        }
    }
    Ok(kept)
}

// Whether a condition looks at the bit at a place.
fn looks_at(cond: &Cond, place: u32) -> bool
    requires { place < 64 }
    ensures { result ≡ false → Overlooks place cond.now }
{
    if !is_masked(cond.op) {
        return true;
    }
    cond.value >> place & 1 == 1
}

// Whether one of the conditions does.
fn look_at(conds: &[Cond], place: u32) -> bool
    requires { place < 64 }
    ensures { result ≡ false → All (Overlooks place) conds.now }
{
    for cond in conds {
        if looks_at(cond, place) {
            return true;
        }
    }
    false
}

// Adds a number, if there is room.
fn add(list: &mut Vec<u64>, number: u64) -> Result<(), Unlisted>
    ensures added { IfOk result (λ _. list.new.items ≡ list.old.items ++ number ∷ []) }
    ensures room { IfErr result (IsUnadded list.old.items) }
{
    if list.len() >= MOST_CELLS {
        return Err(Unlisted::TooMany);
    }
    list.push(number)?;
    Ok(())
}

// Adds those numbers that are not answered as one that stands there.
fn add_apart(conds: &[Cond], list: &mut Vec<u64>, more: &[u64]) -> Result<(), Unlisted>
    ensures begin { (high rest : ℕ) → AllBegin high rest list.old.items → AllBegin high rest more.now
        → IfOk result (λ _. AllBegin high rest list.new.items) }
    ensures stay { (u : ℕ) → IsMet conds.now list.old.items u → IfOk result (λ _. IsMet conds.now list.new.items u) }
    ensures come { (u : ℕ) → IsMet conds.now more.now u → IfOk result (λ _. IsMet conds.now list.new.items u) }
    ensures apart { AreApart conds.now list.old.items → IfOk result (λ _. AreApart conds.now list.new.items) }
    ensures full { (high rest : ℕ) → AllBegin high rest list.old.items → AllBegin high rest more.now
        → AreApart conds.now list.old.items → IfErr result (IsFull conds.now high rest) }
{
    for number in more {
        if !is_met(conds, list, *number) {
            add(list, *number)?;
        }
    }
    Ok(())
}

/// Numbers that begin with these bits, of which so many follow: one for each way in which the conditions can answer of those.
pub(crate) fn branch(
    alloc: Global,
    conds: &[Cond],
    high: u64,
    rest: u32,
) -> Result<Vec<u64>, Unlisted>
    requires few { rest ≤ 64 }
    requires fits { high < 2 ^ (64 - rest) }
    ensures ok { IfOk result (λ list. AreBranch conds.now high rest list.items) }
    ensures err { IfErr result (IsFull conds.now high rest) }
{
    if rest == 0 {
        let mut list = Vec::new(alloc);
        list.push(high)?;
        return Ok(list);
    }
    let place = rest - 1;
    if !look_at(conds, place) {
        return branch(alloc, conds, 2 * high, place);
    }
    let open = still_open(alloc, conds, 2 * high, place)?;
    let mut list = branch(alloc, &open, 2 * high, place)?;
    let open = still_open(alloc, conds, 2 * high + 1, place)?;
    let upper = branch(alloc, &open, 2 * high + 1, place)?;
    add_apart(conds, &mut list, &upper)?;
    Ok(list)
}
