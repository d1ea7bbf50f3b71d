//! The machines that a bundle lists.
ghost use Rattle.std.specs.Prelude.{◌≡◌, map, true, IfOk};
ghost use Rattle.std.specs.List.{list_any};
ghost use Rattle.serde_json.specs.View.{view};
ghost use Rattle.machines.specs.Arch.{same_arch};
ghost use Rattle.profile_json.specs.Names as names;
ghost use Rattle.profile_json.specs.inner.Outcome.{Gives, GivesWithMemory};
ghost use Rattle.profile_json.specs.inner.Reading as spec;

use crate::fault::ProfileError;
use crate::key::ARCHITECTURES;
use crate::lookup::{list_or_empty, text_of};
use machines::{Arch, Family};
use serde_json::Value;
use std::alloc::Global;

/// The machine of a name, in the native machine's family.
#[tactic(auto, unfolding(crate::specs::Names::arch_named))]
fn arch_named(family: Family, name: &str) -> Option<Arch>
    ensures { result ≡ names.arch_named family name.now }
{
    family
        .machines()
        .iter()
        .copied()
        .find(|arch| name == arch.scmp())
}

#[tactic(auto, unfolding(crate::specs::inner::Reading::arch_of))]
fn arch_of(value: &Value, family: Family) -> Result<Arch, ProfileError>
    ensures { Gives (λ a. a) result (spec.arch_of family (view value.now)) }
{
    let name = text_of(value)?;
    arch_named(family, name).ok_or(ProfileError::UnknownArch)
}

fn archs_in(alloc: Global, values: &[Value], family: Family) -> Result<Vec<Arch>, ProfileError>
    ensures { GivesWithMemory (λ v. v.items) result (spec.each (spec.arch_of family) (map view values.now)) }
{
    let mut found = Vec::new(alloc);
    for value in values {
        let arch = arch_of(value, family)?;
        found.push(arch)?;
    }
    Ok(found)
}

/// The machines of a list, and the native one where the list is empty.
fn archs_or_native(alloc: Global, values: &[Value], native: Arch) -> Result<Vec<Arch>, ProfileError>
    ensures { GivesWithMemory (λ v. v.items) result (spec.archs_or_native native (map view values.now)) }
{
    let mut archs = archs_in(alloc, values, native.family())?;
    if archs.is_empty() {
        archs.push(native)?;
    }
    Ok(archs)
}

fn same_arch(a: Arch, b: Arch) -> bool
    ensures { result ≡ same_arch a b }
{
    a == b
}

fn is_listed(archs: &[Arch], native: Arch) -> bool
    ensures { result ≡ list_any (same_arch native) archs.now }
{
    archs.iter().any(|arch| same_arch(native, *arch))
}

/// The listed machines as they stand in the text, or the native one where none is listed.
#[tactic(auto, unfolding(crate::specs::inner::Reading::archs_of))]
pub(crate) fn archs_of(
    alloc: Global,
    seccomp: &Value,
    native: Arch,
) -> Result<Vec<Arch>, ProfileError>
    ensures reading { GivesWithMemory (λ v. v.items) result (spec.archs_of native (view seccomp.now)) }
    ensures listed { IfOk result (λ v. list_any (same_arch native) v.items ≡ true) }
{
    let values = list_or_empty(seccomp, ARCHITECTURES)?;
    let archs = archs_or_native(alloc, values, native)?;
    if is_listed(&archs, native) {
        Ok(archs)
    } else {
        Err(ProfileError::NativeMissing)
    }
}
