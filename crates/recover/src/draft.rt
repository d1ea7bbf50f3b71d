//! What is written of a filter before it is judged.
use crate::covering::Taste;
use crate::entries::entries_of;
use crate::machine_branches::{default_of, machines_of, refuse_others};
use crate::names::names_of;
use crate::passed::Passed;
use crate::text::{bundle_of, is_given};
use crate::unsaid::Unsaid;
use crate::work::Work;
use kernel_check::Accepted;
use machines::Arch;
use std::alloc::Global;

/// The bundle that seems to say what a filter answers but of calls that are passed over, or what no section says of it. None is written a
/// second time where there are no masks to choose.
pub(crate) fn drafted(
    alloc: Global,
    native: Arch,
    program: &Accepted<'_>,
    passed: Passed,
    taste: Taste,
) -> Result<String, Unsaid> {
    let mut work = Work::new();
    refuse_others(alloc, &mut work, program, native.family())?;
    let machines = machines_of(alloc, &mut work, program, native, passed)?;
    let default = match default_of(alloc, &mut work, program, native, &machines, passed)? {
        Some(shown) => shown,
        None => return Err(Unsaid::TooLarge),
    };
    if !is_given(default.given) {
        return Err(Unsaid::NoAction(default));
    }
    let manner = (default.given.0, taste);
    let named = names_of(alloc, &mut work, program, &machines, manner)?;
    let entries = entries_of(alloc, &mut work, &named)?;
    if taste == Taste::Second && !work.has_choice {
        return Err(Unsaid::TooLarge);
    }
    let text = bundle_of(alloc, default.given, &machines, &entries)?;
    Ok(text)
}
