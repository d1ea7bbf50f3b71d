//! The calls that a stub answers, told in plain sentences.
ghost use Rattle.std.specs.Prelude.{◌≡◌, ◌++◌, IfOk, string_bytes};
ghost use Rattle.std.specs.List.{flat_map};
ghost use Rattle.machines.specs.Arch.{machine_name};
ghost use Rattle.wording.specs.Phrases.{hexadecimal};
ghost use Rattle.compare.specs.StubTold as spec;

use crate::behind_runc::stub::Calls;
use machines::{Family, Numbers};
use std::alloc::{AllocError, Global};
use std::fmt::Write;
use wording::machine_with;

// Adds the line of numbers of a machine with a name.
fn put_named(text: &mut String, numbers: Numbers, machine: &str) -> Result<(), AllocError>
    ensures { IfOk result (λ _. string_bytes text.new ≡ string_bytes text.old ++ spec.numbers_line numbers machine.now) }
{
    let first = numbers.first;
    let last = numbers.last;
    writeln!(text, "  {first} to {last} of {machine}")
}

// Adds the line of numbers of a machine that is not known.
fn put_foreign(text: &mut String, numbers: Numbers, token: u32) -> Result<(), AllocError>
    ensures { IfOk result (λ _. string_bytes text.new ≡ string_bytes text.old ++ spec.numbers_line numbers (hexadecimal token)) }
{
    let first = numbers.first;
    let last = numbers.last;
    writeln!(text, "  {first} to {last} of 0x{token:x}")
}

// Adds the line of some calls.
fn put_calls(text: &mut String, family: Family, calls: &Calls) -> Result<(), AllocError>
    ensures { IfOk result (λ _. string_bytes text.new ≡ string_bytes text.old ++ spec.calls_line family calls.now) }
{
    match machine_with(family, calls.token, calls.numbers.first) {
        Some(arch) => put_named(text, calls.numbers, arch.machine_name()),
        None => put_foreign(text, calls.numbers, calls.token),
    }
}

// Adds the lines of all calls.
fn put_each(text: &mut String, family: Family, answered: &[Calls]) -> Result<(), AllocError>
    ensures { IfOk result (λ _. string_bytes text.new ≡ string_bytes text.old ++ flat_map (spec.calls_line family) answered.now) }
{
    for calls in answered {
        put_calls(text, family, calls)?;
    }
    Ok(())
}

/// Tells calls, a line for each range of numbers, by the names that a family's machines have.
pub fn calls_text(alloc: Global, family: Family, calls: &[Calls]) -> Result<String, AllocError>
    ensures { IfOk result (λ text. string_bytes text ≡ flat_map (spec.calls_line family) calls.now) }
{
    let mut text = String::new(alloc);
    put_each(&mut text, family, calls)?;
    Ok(text)
}

// The line that says how many bytes the stub has.
fn size_line(alloc: Global, size: usize) -> Result<String, AllocError>
    ensures { IfOk result (λ text. string_bytes text ≡ spec.size_line size) }
{
    format!(in alloc; "runc's stub, the first {size} bytes, answers these calls ENOSYS:\n")
}

// Adds the line that the whole filter is asked about, if it is.
fn put_whole(text: &mut String, whole: bool) -> Result<(), AllocError>
    ensures { IfOk result (λ _. string_bytes text.new ≡ string_bytes text.old ++ spec.whole_line whole) }
{
    if whole {
        text.push_str("so the whole filter is judged, not the filter behind the stub\n")?;
    }
    Ok(())
}

/// Tells which calls a stub of so many bytes answers, a line for each range of numbers, by the names that a family's machines have. It also
/// tells whether the whole filter is asked about.
pub fn stub_text(
    alloc: Global,
    family: Family,
    size: usize,
    answered: &[Calls],
    whole: bool,
) -> Result<String, AllocError>
    ensures { IfOk result (λ text. string_bytes text ≡ spec.stub_text family size answered.now whole) }
{
    if answered.is_empty() {
        return String::from_str(
            alloc,
            "the filter does not begin with a stub as runc puts it in front\n",
        );
    }
    let mut text = size_line(alloc, size)?;
    put_each(&mut text, family, answered)?;
    put_whole(&mut text, whole)?;
    Ok(text)
}
