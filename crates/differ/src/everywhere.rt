//! Calls that stand for all.
ghost use Rattle.std.specs.Prelude.{◌≡◌, ℕ, true, IfOk};
ghost use Rattle.std.specs.List.{list_any};
ghost use Rattle.profile.specs.Policy.{IsClear};
ghost use Rattle.differ.specs.OnCall.{is_for};
ghost use Rattle.machines.specs.Machines.{aarch64_token, arm_token, loongarch64_token, ppc64le_token, riscv64_token, s390_token, s390x_token, x86_64_token, x86_token};
ghost use Rattle.differ.specs.Named.{AreCovered, is_named};

use crate::named::{Call, add_rest, add_rules};
use machines::Arch;
use profile::Profile;
use std::alloc::{AllocError, Global};

/// Calls for the numbers that are not named.
pub fn rest_of(alloc: Global, named: &[Call]) -> Result<Vec<Call>, AllocError>
    ensures x86_64 { IfOk result (λ rest. AreCovered named.now rest.items x86_64_token) }
    ensures x86 { IfOk result (λ rest. AreCovered named.now rest.items x86_token) }
    ensures aarch64 { IfOk result (λ rest. AreCovered named.now rest.items aarch64_token) }
    ensures arm { IfOk result (λ rest. AreCovered named.now rest.items arm_token) }
    ensures riscv64 { IfOk result (λ rest. AreCovered named.now rest.items riscv64_token) }
    ensures ppc64le { IfOk result (λ rest. AreCovered named.now rest.items ppc64le_token) }
    ensures loongarch64 { IfOk result (λ rest. AreCovered named.now rest.items loongarch64_token) }
    ensures s390x { IfOk result (λ rest. AreCovered named.now rest.items s390x_token) }
    ensures s390 { IfOk result (λ rest. AreCovered named.now rest.items s390_token) }
{
    let mut rest = Vec::new(alloc);
    add_rest(named, &mut rest, Arch::LinuxX86_64.token())?;
    add_rest(named, &mut rest, Arch::LinuxX86.token())?;
    add_rest(named, &mut rest, Arch::LinuxAarch64.token())?;
    add_rest(named, &mut rest, Arch::LinuxArm.token())?;
    add_rest(named, &mut rest, Arch::LinuxRiscv64.token())?;
    add_rest(named, &mut rest, Arch::LinuxPpc64le.token())?;
    add_rest(named, &mut rest, Arch::LinuxLoongarch64.token())?;
    add_rest(named, &mut rest, Arch::LinuxS390x.token())?;
    add_rest(named, &mut rest, Arch::LinuxS390.token())?;
    Ok(rest)
}

/// Some calls, and those that rules of two profiles are for.
pub(crate) fn named_calls(
    alloc: Global,
    first: &Profile,
    second: &Profile,
    asked: &[Call],
) -> Result<Vec<Call>, AllocError>
    ensures asked { (t n : ℕ) → is_named asked.now t n ≡ true → IfOk result (λ list. is_named list.items t n ≡ true) }
    ensures first { (t n : ℕ) → list_any (is_for t n) first.now.rules ≡ true → IfOk result (λ list. is_named list.items t n ≡ true) }
    ensures second { (t n : ℕ) → list_any (is_for t n) second.now.rules ≡ true → IfOk result (λ list. is_named list.items t n ≡ true) }
    ensures clear_first { IsClear first.now.rules }
    ensures clear_second { IsClear second.now.rules }
{
    let rules = first.rules();
    let others = second.rules();
    let mut list = Vec::new(alloc);
    list.extend_from_slice(asked)?;
    add_rules(rules, &mut list)?;
    add_rules(others, &mut list)?;
    Ok(list)
}
