//! Which call a task makes.
ghost use Rattle.std.specs.Prelude.{◌≡◌};
ghost use Rattle.machines.specs.Arch.{family_of, same_family};
ghost use Rattle.script.specs.inner.Reading.{foreign_at, what_at};

use crate::numbers::number32;
use call_tables::call_number;
use machines::{Arch, Family};
use texts::split;

// Whether a machine is of a family.
fn is_of(arch: Arch, family: Family) -> bool
    ensures { result ≡ same_family (family_of arch) family }
{
    arch.family() == family
}

// A machine's call by its number.
#[tactic(auto, unfolding(crate::specs::inner::Reading::foreign_at))]
fn foreign(family: Family, text: &str) -> Option<(Arch, u32)>
    ensures { result ≡ foreign_at family text.now }
{
    let (machine, digits) = split(text, ':')?;
    let arch = Arch::called(machine)?;
    if !is_of(arch, family) {
        return None;
    }
    Some((arch, number32(digits)?))
}

/// A native call by its name, or a call of a machine of the same family by its number.
#[tactic(auto, unfolding(crate::specs::inner::Reading::what_at))]
pub(crate) fn what_call(native: Arch, text: &str) -> Option<(Arch, u32)>
    ensures { result ≡ what_at native text.now }
{
    match call_number(native, text) {
        Some(nr) => Some((native, nr)),
        None => foreign(native.family(), text),
    }
}
