//! Calls of some machines, of which two profiles say the same unlike verdicts.
ghost use Rattle.std.specs.Prelude.{◌≡◌, ℕ, true, IfOk, All, IsTrue};
ghost use Rattle.std.specs.List.{list_any};
ghost use Rattle.call_tables.specs.Tables.{table_of};
ghost use Rattle.call_tables.specs.Table.{name_in};
ghost use Rattle.machines.specs.declared.arch.Family.{Family as TheFamily};
ghost use Rattle.profile.specs.Policy.{Policy};
ghost use Rattle.differ.specs.declared.direction.Direction.{Direction as TheDirection};
ghost use Rattle.compare.specs.Complete.{differences_in, is_on, is_same, told_of};
ghost use Rattle.compare.specs.Difference.{IsChange, IsDifference, IsLike, name_of, named};

use crate::difference::Difference;
use call_tables::call_name;
use machines::Arch;
use std::alloc::{AllocError, Global};

/// A difference of two profiles, and those of other machines' calls of that name that are like it.
#[derive(Drop)]
pub struct Change {
    /// The call.
    pub first: Difference,
    /// The calls of that name of other machines.
    pub others: Vec<Difference>,
}

// Whether numbers of two machines are of calls of one name, or are one number without a name.
fn is_same_name(arch: Arch, nr: u32, machine: Arch, other: u32) -> bool
    ensures { IsTrue result → named (name_in (table_of machine) other) other ≡ named (name_in (table_of arch) nr) nr }
{
    match call_name(arch, nr) {
        Some(name) => match call_name(machine, other) {
            Some(same) => same == name,
            None => false,
        },
        None => match call_name(machine, other) {
            Some(_) => false,
            None => nr == other,
        },
    }
}

// Whether two differences are of two machines, and of one name or of one number without a name.
fn has_name_of(one: &Difference, other: &Difference) -> bool
    ensures { IsTrue result → name_of other.now.arch other.now.nr ≡ name_of one.now.arch one.now.nr }
{
    match one.arch {
        Some(arch) => match other.arch {
            Some(machine) => arch != machine && is_same_name(arch, one.nr, machine, other.nr),
            None => false,
        },
        None => false,
    }
}

// Whether two differences are of calls of one name, with the same arguments and the same verdicts.
fn is_like(one: &Difference, other: &Difference) -> bool
    ensures { IsTrue result → IsLike one.now other.now }
{
    if !has_name_of(one, other) {
        return false;
    }
    if other.args != one.args {
        return false;
    }
    if other.first.0 != one.first.0 {
        return false;
    }
    other.second.0 == one.second.0
}

// Whether two differences are of one call, with the same verdicts.
fn is_same(one: &Difference, other: &Difference) -> bool
    ensures { result ≡ is_same one.now other.now }
{
    one.token == other.token
        && one.nr == other.nr
        && one.first.0 == other.first.0
        && one.second.0 == other.second.0
}

// Whether a difference is one of these.
fn is_among(list: &[Difference], found: &Difference) -> bool
    ensures { result ≡ list_any (is_same found.now) list.now }
{
    list.iter().any(|other| is_same(found, other))
}

// Whether a difference is told in a line.
fn is_in(change: &Change, found: &Difference) -> bool
    ensures { result ≡ list_any (is_same found.now) (differences_in change.now) }
{
    if is_same(found, &change.first) {
        return true;
    }
    is_among(&change.others, found)
}

// Whether a difference is told in one of these lines.
fn is_told(changes: &[Change], found: &Difference) -> bool
    ensures { result ≡ list_any (λ change. list_any (is_same found.now) (differences_in change)) changes.now }
{
    changes.iter().any(|change| is_in(change, found))
}

// Adds a difference, if it is told in the line of the first one.
fn add_like(
    like: &mut Vec<Difference>,
    first: &Difference,
    other: &Difference,
) -> Result<(), AllocError>
    ensures { (family : TheFamily) (p q : Policy) → All (λ d. IsDifference family p q d × IsLike first.now d) like.old.items → IsDifference family p q other.now
        → IfOk result (λ _. All (λ d. IsDifference family p q d × IsLike first.now d) like.new.items) }
{
    if is_like(first, other) {
        like.push(*other)?;
    }
    Ok(())
}

// A difference, and those of the others that are told with it.
fn change_of(alloc: Global, first: &Difference, others: &[Difference]) -> Result<Change, AllocError>
    ensures first { IfOk result (λ change. change.first ≡ first.now) }
    ensures is { (family : TheFamily) (p q : Policy) → IsDifference family p q first.now → All (IsDifference family p q) others.now → IfOk result (IsChange family p q) }
{
    let mut like = Vec::new(alloc);
    for other in others {
        add_like(&mut like, first, other)?;
    }
    Ok(Change {
        first: *first,
        others: like,
    })
}

// Adds a difference with those of the list that are told with it, if it is not told yet.
fn add_change(
    alloc: Global,
    list: &[Difference],
    found: &Difference,
    changes: &mut Vec<Change>,
) -> Result<(), AllocError>
    ensures kept { (t n : ℕ) (d : TheDirection) → list_any (is_on t n d) (told_of changes.old.items) ≡ true
        → IfOk result (λ _. list_any (is_on t n d) (told_of changes.new.items) ≡ true) }
    ensures told { (t n : ℕ) (d : TheDirection) → is_on t n d found.now ≡ true
        → IfOk result (λ _. list_any (is_on t n d) (told_of changes.new.items) ≡ true) }
    ensures are { (family : TheFamily) (p q : Policy) → All (IsDifference family p q) list.now → IsDifference family p q found.now → All (IsChange family p q) changes.old.items
        → IfOk result (λ _. All (IsChange family p q) changes.new.items) }
{
    if is_told(changes, found) {
        return Ok(());
    }
    let change = change_of(alloc, found, list)?;
    changes.push(change)?;
    Ok(())
}

/// Differences, those of one name together that differ in nothing but the machine.
pub(crate) fn changes_of(alloc: Global, list: &[Difference]) -> Result<Vec<Change>, AllocError>
    ensures told { (t n : ℕ) (d : TheDirection) → list_any (is_on t n d) list.now ≡ true
        → IfOk result (λ changes. list_any (is_on t n d) (told_of changes.items) ≡ true) }
    ensures are { (family : TheFamily) (p q : Policy) → All (IsDifference family p q) list.now → IfOk result (λ changes. All (IsChange family p q) changes.items) }
{
    let mut changes = Vec::new(alloc);
    for found in list {
        add_change(alloc, list, found, &mut changes)?;
    }
    Ok(changes)
}
