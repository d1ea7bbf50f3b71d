//! Look-ups of how the arguments of a call are read, by its name.
ghost use Rattle.std.specs.Prelude.{◌≡◌};
ghost use Rattle.widths.specs.Rows.{rows, readings_in, readings_among};
ghost use Rattle.widths.specs.Tables as tables;

use crate::arguments::reading::Reading;
use crate::linux_arguments::{
    AARCH64_CALLS, FIRST_CALLS, FOURTH_CALLS, PPC64LE_CALLS, S390X_CALLS, SECOND_CALLS,
    THIRD_CALLS, X32_CALLS, X86_CALLS,
};
use machines::Arch;

#[tactic(auto, unfolding(crate::specs::Tables::first_rows))]
fn first() -> &'static [(&'static str, [Reading; 6])]
    ensures { rows result.now ≡ tables.first_rows }
{
    FIRST_CALLS
}

#[tactic(auto, unfolding(crate::specs::Tables::second_rows))]
fn second() -> &'static [(&'static str, [Reading; 6])]
    ensures { rows result.now ≡ tables.second_rows }
{
    SECOND_CALLS
}

#[tactic(auto, unfolding(crate::specs::Tables::third_rows))]
fn third() -> &'static [(&'static str, [Reading; 6])]
    ensures { rows result.now ≡ tables.third_rows }
{
    THIRD_CALLS
}

#[tactic(auto, unfolding(crate::specs::Tables::fourth_rows))]
fn fourth() -> &'static [(&'static str, [Reading; 6])]
    ensures { rows result.now ≡ tables.fourth_rows }
{
    FOURTH_CALLS
}

#[tactic(auto, unfolding(crate::specs::Tables::x32_rows))]
fn of_x32() -> &'static [(&'static str, [Reading; 6])]
    ensures { rows result.now ≡ tables.x32_rows }
{
    X32_CALLS
}

#[tactic(auto, unfolding(crate::specs::Tables::x86_rows))]
fn of_x86() -> &'static [(&'static str, [Reading; 6])]
    ensures { rows result.now ≡ tables.x86_rows }
{
    X86_CALLS
}

#[tactic(auto, unfolding(crate::specs::Tables::aarch64_rows))]
fn of_aarch64() -> &'static [(&'static str, [Reading; 6])]
    ensures { rows result.now ≡ tables.aarch64_rows }
{
    AARCH64_CALLS
}

#[tactic(auto, unfolding(crate::specs::Tables::ppc64le_rows))]
fn of_ppc64le() -> &'static [(&'static str, [Reading; 6])]
    ensures { rows result.now ≡ tables.ppc64le_rows }
{
    PPC64LE_CALLS
}

#[tactic(auto, unfolding(crate::specs::Tables::s390x_rows))]
fn of_s390x() -> &'static [(&'static str, [Reading; 6])]
    ensures { rows result.now ≡ tables.s390x_rows }
{
    S390X_CALLS
}

// What stands beside the first such name.
fn find(table: &[(&str, [Reading; 6])], name: &str) -> Option<[Reading; 6]>
    ensures { result ≡ readings_in (rows table.now) name.now }
{
    for row in table {
        if row.0 == name {
            return Some(row.1);
        }
    }
    None
}

// What stands beside a name in the later parts of the table of 64-bit kernels, from the third on.
fn from_third(name: &str) -> Option<[Reading; 6]>
    ensures { result ≡ readings_among tables.from_third name.now }
{
    let found = find(third(), name);
    if found.is_some() {
        return found;
    }
    find(fourth(), name)
}

fn from_second(name: &str) -> Option<[Reading; 6]>
    ensures { result ≡ readings_among tables.from_second name.now }
{
    let found = find(second(), name);
    if found.is_some() {
        return found;
    }
    from_third(name)
}

fn shared(name: &str) -> Option<[Reading; 6]>
    ensures { result ≡ readings_among tables.shared name.now }
{
    let found = find(first(), name);
    if found.is_some() {
        return found;
    }
    from_second(name)
}

fn on_x32(name: &str) -> Option<[Reading; 6]>
    ensures { result ≡ readings_among tables.on_x32 name.now }
{
    let found = find(of_x32(), name);
    if found.is_some() {
        return found;
    }
    shared(name)
}

fn on_aarch64(name: &str) -> Option<[Reading; 6]>
    ensures { result ≡ readings_among tables.on_aarch64 name.now }
{
    let found = find(of_aarch64(), name);
    if found.is_some() {
        return found;
    }
    shared(name)
}

fn on_ppc64le(name: &str) -> Option<[Reading; 6]>
    ensures { result ≡ readings_among tables.on_ppc64le name.now }
{
    let found = find(of_ppc64le(), name);
    if found.is_some() {
        return found;
    }
    shared(name)
}

fn on_s390x(name: &str) -> Option<[Reading; 6]>
    ensures { result ≡ readings_among tables.on_s390x name.now }
{
    let found = find(of_s390x(), name);
    if found.is_some() {
        return found;
    }
    shared(name)
}

/// How a machine's call of the name reads its arguments, if that is known.
pub(crate) fn of_name(arch: Arch, name: &str) -> Option<[Reading; 6]>
    ensures { result ≡ readings_among (tables.tables_of arch) name.now }
{
    match arch {
        Arch::X86_64 => shared(name),
        Arch::LinuxX86_64 => shared(name),
        Arch::LinuxLoongarch64 => shared(name),
        Arch::LinuxX32 => on_x32(name),
        Arch::Aarch64 => on_aarch64(name),
        Arch::LinuxAarch64 => on_aarch64(name),
        Arch::LinuxRiscv64 => on_aarch64(name),
        Arch::LinuxPpc64le => on_ppc64le(name),
        Arch::LinuxX86 => find(of_x86(), name),
        Arch::LinuxS390x => on_s390x(name),
        Arch::LinuxArm | Arch::LinuxS390 => None,
    }
}
