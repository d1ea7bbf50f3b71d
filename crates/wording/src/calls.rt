//! A call told as text.
ghost use Rattle.std.specs.Prelude.{◌≡◌, ◌++◌, IfOk, string_bytes};
ghost use Rattle.machines.specs.Numbers.{has_call};
ghost use Rattle.wording.specs.Phrases as spec;

use call_record::Record;
use call_tables::call_name;
use machines::{Arch, Family};
use std::alloc::AllocError;
use std::fmt::Write;

/// The machine of a family that has a token.
pub fn machine_of(family: Family, token: u32) -> Option<Arch>
    ensures { result ≡ spec.machine_of family token }
{
    family
        .machines()
        .iter()
        .copied()
        .find(|arch| arch.token() == token)
}

// Whether a call with a token and a number is a machine's.
fn has_call(arch: Arch, token: u32, nr: u32) -> bool
    ensures { result ≡ has_call token nr arch }
{
    if arch.token() != token {
        return false;
    }
    arch.has_number(nr)
}

// The machine of a family that has a call with the token and the number.
fn owner_of(family: Family, token: u32, nr: u32) -> Option<Arch>
    ensures { result ≡ spec.owner_of family token nr }
{
    family
        .machines()
        .iter()
        .copied()
        .find(|arch| has_call(*arch, token, nr))
}

/// The machine of a family that has a call with the token and the number, or else one that has the token.
pub fn machine_with(family: Family, token: u32, nr: u32) -> Option<Arch>
    ensures { result ≡ spec.machine_with family token nr }
{
    match owner_of(family, token, nr) {
        Some(arch) => Some(arch),
        None => machine_of(family, token),
    }
}

// Adds the line of a machine's call that has a name.
fn put_named(text: &mut String, name: &str, arch: Arch, nr: u32) -> Result<(), AllocError>
    ensures { IfOk result (λ _. string_bytes text.new ≡ string_bytes text.old ++ spec.named_call (Some name.now) arch nr) }
{
    let machine = arch.machine_name();
    writeln!(text, "call {name}, number {nr} of {machine}")
}

// Adds the line of a machine's number without a call.
fn put_unnamed(text: &mut String, arch: Arch, nr: u32) -> Result<(), AllocError>
    ensures { IfOk result (λ _. string_bytes text.new ≡ string_bytes text.old ++ spec.named_call None arch nr) }
{
    let machine = arch.machine_name();
    writeln!(text, "call {nr} of {machine}")
}

// Adds the line of a call of a machine that is not known.
fn put_foreign(text: &mut String, token: u32, nr: u32) -> Result<(), AllocError>
    ensures { IfOk result (λ _. string_bytes text.new ≡ string_bytes text.old ++ spec.call_on None token nr) }
{
    writeln!(text, "call {nr} of 0x{token:x}")
}

// Adds the line of a machine's call.
fn put_call(text: &mut String, arch: Arch, nr: u32) -> Result<(), AllocError>
    ensures { IfOk result (λ _. string_bytes text.new ≡ string_bytes text.old ++ spec.call_on (Some arch) 0 nr) }
{
    match call_name(arch, nr) {
        Some(name) => put_named(text, name, arch, nr),
        None => put_unnamed(text, arch, nr),
    }
}

// Adds the line of a call, by its machine's token.
fn put_number(text: &mut String, family: Family, token: u32, nr: u32) -> Result<(), AllocError>
    ensures { IfOk result (λ _. string_bytes text.new ≡ string_bytes text.old ++ spec.call_on (spec.machine_with family token nr) token nr) }
{
    match machine_with(family, token, nr) {
        Some(arch) => put_call(text, arch, nr),
        None => put_foreign(text, token, nr),
    }
}

// Adds arguments, each behind a space.
fn put_arguments(text: &mut String, args: &[u64]) -> Result<(), AllocError>
    ensures { IfOk result (λ _. string_bytes text.new ≡ string_bytes text.old ++ spec.arguments_text args.now) }
{
    for arg in args {
        write!(text, " 0x{arg:x}")?;
    }
    Ok(())
}

/// Adds the lines of a call and of its arguments.
pub fn put_record(text: &mut String, family: Family, call: &Record) -> Result<(), AllocError>
    ensures { IfOk result (λ _. string_bytes text.new ≡ string_bytes text.old ++ spec.call_lines family call.now) }
{
    put_number(text, family, call.arch, call.nr)?;
    text.push_str("arguments")?;
    put_arguments(text, &call.args)?;
    text.push_str("\n")
}
