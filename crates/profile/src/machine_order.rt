//! Which machines are listed.
ghost use Rattle.std.specs.Prelude.{◌≡◌, ◌↔◌, IsTrue, IfSome, IfNone, All, Any, Contains};
ghost use Rattle.std.specs.List.{list_any};
ghost use Rattle.machines.specs.Arch.{family_of, same_arch, same_family, AreOfFamily};
ghost use Rattle.machines.specs.Numbers.{HasCall, foreign_numbers, has_call, shares_token};
ghost use Rattle.profile.specs.Machines.{in_order};
ghost use Rattle.profile.specs.Build.{AreListed, IsFirstForeign};

use crate::rules::Rule;
use arrayvec::ArrayVec;
use machines::{Arch, Family, Numbers};

/// How many machines a family has at most.
pub const MACHINES: usize = 10;

/// The listed machines, of one family, each once, x86-64 first.
pub fn in_order(family: Family, archs: &[Arch]) -> ArrayVec<Arch, MACHINES>
    ensures { result.items ≡ in_order family archs.now }
{
    let mut listed = ArrayVec::new();
    for arch in family.machines() {
        if lists(archs, *arch) {
            listed.push(*arch);
        }
    }
    listed
}

/// Whether a call with this token and this number is one of these machines': the token is a machine's, and the number
/// its own.
pub fn are_for(machines: &[Arch], token: u32, number: u32) -> bool
    ensures { IsTrue result ↔ Any (HasCall token number) machines.now }
{
    is_in(machines, token, number)
}

// The same as a test.
fn is_in(machines: &[Arch], token: u32, number: u32) -> bool
    ensures { result ≡ list_any (has_call token number) machines.now }
{
    machines.iter().any(|arch| has_call(*arch, token, number))
}

fn has_call(arch: Arch, token: u32, number: u32) -> bool
    ensures { result ≡ has_call token number arch }
{
    is_of(arch, token, number)
}

// Whether a call is the machine's.
fn is_of(arch: Arch, token: u32, number: u32) -> bool
    ensures { IsTrue result ↔ HasCall token number arch }
{
    if arch.token() != token {
        return false;
    }
    arch.has_number(number)
}

// Whether two machines are the same one.
fn same_arch(a: Arch, b: Arch) -> bool
    ensures { result ≡ same_arch a b }
{
    a == b
}

fn same_family(a: Family, b: Family) -> bool
    ensures { result ≡ same_family a b }
{
    a == b
}

// Whether the other one is another machine of the family with the same token.
fn shares_token(arch: Arch, other: Arch) -> bool
    ensures { result ≡ shares_token arch other }
{
    if same_arch(other, arch) {
        return false;
    }
    if !same_family(other.family(), arch.family()) {
        return false;
    }
    other.token() == arch.token()
}

// Whether one of these machines does.
fn is_shared_in(machines: &[Arch], arch: Arch) -> bool
    ensures { result ≡ list_any (shares_token arch) machines.now }
{
    machines.iter().any(|other| shares_token(arch, *other))
}

/// The numbers of calls with a listed machine's token that are foreign to the listed machines, in order.
pub fn foreign_numbers(machines: &[Arch], arch: Arch) -> &'static [Numbers]
    ensures { result.now ≡ foreign_numbers machines.now arch }
{
    if is_shared_in(machines, arch) {
        return &[];
    }
    arch.other_numbers()
}

/// Whether all machines are of the family.
pub(crate) fn are_of_family(family: Family, archs: &[Arch]) -> bool
    ensures { IsTrue result ↔ AreOfFamily family archs.now }
{
    archs.iter().all(|arch| is_of_family(family, *arch))
}

fn is_of_family(family: Family, arch: Arch) -> bool
    ensures { IsTrue result ↔ (family_of arch ≡ family) }
{
    arch.family() == family
}

/// Whether the machine is listed.
pub(crate) fn lists(archs: &[Arch], arch: Arch) -> bool
    ensures { IsTrue result ↔ Contains archs.now arch }
{
    archs.contains(&arch)
}

/// The least place of a rule for a machine that is not listed.
pub(crate) fn first_foreign(archs: &[Arch], rules: &[Rule]) -> Option<usize>
    ensures some { IfSome result (IsFirstForeign archs.now rules.now) }
    ensures none { IfNone result (AreListed archs.now rules.now) }
{
    for (place, rule) in rules.iter().enumerate() {
        if !lists(archs, rule.arch) {
            return Some(place);
        }
    }
    None
}
