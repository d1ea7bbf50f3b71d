//! The lines that tell the names of the numbers in conditions.
ghost use Rattle.std.specs.Prelude.{◌≡◌, ◌++◌, ◌||◌, ◌==◌, Some, IfOk, bit_and, map, string_bytes};
ghost use Rattle.std.specs.Fmt.{decimal};
ghost use Rattle.std.specs.List.{flat_map};
ghost use Rattle.std.specs.Option.{option_map};
ghost use Rattle.wording.specs.Phrases.{hexadecimal, is_masked};
ghost use Rattle.call_words.specs.Kinds.{are_bits, kind_of as the_kind};
ghost use Rattle.call_words.specs.Named.{name_of as the_name};
ghost use Rattle.call_words.specs.Lines as spec;

use crate::constant_names::kinds::{Kind, are_bits, kind_of};
use crate::constant_names::named::name_of;
use call_tables::call_name;
use machines::Arch;
use profile::{Cond, Op, Rule};
use std::alloc::{AllocError, Global};
use std::fmt::Write;

// A number in decimal.
fn decimal_text(alloc: Global, n: u64) -> Result<String, AllocError>
    ensures { IfOk result (λ text. string_bytes text ≡ decimal n) }
{
    format!(in alloc; "{n}")
}

// A number in hexadecimal.
fn hexadecimal_text(alloc: Global, n: u64) -> Result<String, AllocError>
    ensures { IfOk result (λ text. string_bytes text ≡ hexadecimal n) }
{
    format!(in alloc; "0x{n:x}")
}

// The line of a number.
fn line(
    alloc: Global,
    call: &str,
    argument: u8,
    number: &str,
    name: &str,
) -> Result<String, AllocError>
    ensures { IfOk result (λ line. string_bytes line ≡ spec.line call.now argument number.now name.now) }
{
    let mut text = String::new(alloc);
    writeln!(text, "in {call} arg{argument} {number} is {name}")?;
    Ok(text)
}

// Adds the line of a number, if it has a name.
fn add_line(
    lines: &mut Vec<String>,
    alloc: Global,
    call: &str,
    argument: u8,
    number: &str,
    name: Option<String>,
) -> Result<(), AllocError>
    ensures { IfOk result (λ _. map string_bytes lines.new.items
        ≡ map string_bytes lines.old.items ++ spec.line_of call.now argument number.now (option_map string_bytes name)) }
{
    match name {
        Some(name) => {
            lines.push(line(alloc, call, argument, number, &name)?)?;
            Ok(())
        }
        None => Ok(()),
    }
}

// Adds the line of a number, if it has a name.
fn add(
    lines: &mut Vec<String>,
    alloc: Global,
    call: &str,
    argument: u8,
    kind: Kind,
    n: u64,
) -> Result<(), AllocError>
    ensures { IfOk result (λ _. map string_bytes lines.new.items
        ≡ map string_bytes lines.old.items ++ spec.line_of call.now argument (decimal n) (the_name kind n)) }
{
    let number = decimal_text(alloc, n)?;
    let name = name_of(alloc, kind, n)?;
    add_line(lines, alloc, call, argument, &number, name)
}

// Adds the line of a mask, or of the bits under it, if it has a name.
fn add_bits(
    lines: &mut Vec<String>,
    alloc: Global,
    call: &str,
    argument: u8,
    kind: Kind,
    n: u64,
) -> Result<(), AllocError>
    ensures { IfOk result (λ _. map string_bytes lines.new.items
        ≡ map string_bytes lines.old.items ++ spec.masked_line call.now argument kind n) }
{
    if n == 0 {
        return Ok(());
    }
    let number = hexadecimal_text(alloc, n)?;
    let name = name_of(alloc, kind, n)?;
    add_line(lines, alloc, call, argument, &number, name)
}

// Adds the line of a mask, if the kind is one of bits.
fn add_mask(
    lines: &mut Vec<String>,
    alloc: Global,
    call: &str,
    argument: u8,
    kind: Kind,
    n: u64,
) -> Result<(), AllocError>
    ensures { IfOk result (λ _. map string_bytes lines.new.items
        ≡ map string_bytes lines.old.items ++ spec.mask_line call.now argument kind n) }
{
    if are_bits(kind) {
        return add_bits(lines, alloc, call, argument, kind, n);
    }
    Ok(())
}

// Whether bits under a mask may have a name.
fn are_named(kind: Kind, mask: u64) -> bool
    ensures { result ≡ (are_bits kind || (bit_and mask spec.int_bits == spec.int_bits)) }
{
    are_bits(kind) || mask & 0xffff_ffff == 0xffff_ffff
}

// Adds the line of the bits under a mask, if these may have a name.
fn add_under(
    lines: &mut Vec<String>,
    alloc: Global,
    call: &str,
    argument: u8,
    kind: Kind,
    mask: u64,
    n: u64,
) -> Result<(), AllocError>
    ensures { IfOk result (λ _. map string_bytes lines.new.items
        ≡ map string_bytes lines.old.items ++ spec.under_line call.now argument kind mask n) }
{
    if are_named(kind, mask) {
        return add_bits(lines, alloc, call, argument, kind, n);
    }
    Ok(())
}

fn is_masked(op: Op) -> bool
    ensures { result ≡ is_masked op }
{
    matches!(op, Op::MaskedEq)
}

// Adds the lines of a condition on an argument that takes constants of a kind.
fn add_known(
    lines: &mut Vec<String>,
    alloc: Global,
    call: &str,
    cond: &Cond,
    kind: Kind,
) -> Result<(), AllocError>
    ensures { IfOk result (λ _. map string_bytes lines.new.items
        ≡ map string_bytes lines.old.items ++ spec.condition_lines call.now cond.now (Some kind)) }
{
    let Cond {
        index,
        op,
        value,
        datum,
    } = *cond;
    if is_masked(op) {
        add_mask(lines, alloc, call, index, kind, value)?;
        return add_under(lines, alloc, call, index, kind, value, datum);
    }
    add(lines, alloc, call, index, kind, value)
}

// Adds the lines of a condition.
fn add_condition(
    lines: &mut Vec<String>,
    alloc: Global,
    call: &str,
    cond: &Cond,
) -> Result<(), AllocError>
    ensures { IfOk result (λ _. map string_bytes lines.new.items
        ≡ map string_bytes lines.old.items ++ spec.condition_lines call.now cond.now (the_kind call.now cond.now.index)) }
{
    match kind_of(call, cond.index) {
        Some(kind) => add_known(lines, alloc, call, cond, kind),
        None => Ok(()),
    }
}

// Adds the lines of conditions on a call's arguments.
fn add_conditions(
    lines: &mut Vec<String>,
    alloc: Global,
    call: &str,
    conds: &[Cond],
) -> Result<(), AllocError>
    ensures { IfOk result (λ _. map string_bytes lines.new.items
        ≡ map string_bytes lines.old.items ++ spec.call_lines (Some call.now) conds.now) }
{
    for cond in conds {
        add_condition(lines, alloc, call, cond)?;
    }
    Ok(())
}

// Whether the constants have the same numbers on a machine as on x86-64, for the same arguments.
fn has_names(arch: Arch) -> bool
    ensures { result ≡ spec.has_names arch }
{
    match arch {
        Arch::X86_64 | Arch::Aarch64 | Arch::LinuxPpc64le | Arch::LinuxS390x | Arch::LinuxS390 =>
            false,
        Arch::LinuxX86_64
        | Arch::LinuxX86
        | Arch::LinuxX32
        | Arch::LinuxAarch64
        | Arch::LinuxArm
        | Arch::LinuxRiscv64
        | Arch::LinuxLoongarch64 => true,
    }
}

// Adds the lines of a rule.
fn add_rule(lines: &mut Vec<String>, alloc: Global, rule: &Rule) -> Result<(), AllocError>
    ensures { IfOk result (λ _. map string_bytes lines.new.items ≡ map string_bytes lines.old.items ++ spec.rule_lines rule.now) }
{
    if !has_names(rule.arch) {
        return Ok(());
    }
    match call_name(rule.arch, rule.nr) {
        Some(call) => add_conditions(lines, alloc, call, rule.conds.as_slice()),
        None => Ok(()),
    }
}

/// The lines of rules, in their order.
pub(crate) fn lines_of(alloc: Global, rules: &[Rule]) -> Result<Vec<String>, AllocError>
    ensures { IfOk result (λ lines. map string_bytes lines.items ≡ flat_map spec.rule_lines rules.now) }
{
    let mut lines = Vec::new(alloc);
    for rule in rules {
        add_rule(&mut lines, alloc, rule)?;
    }
    Ok(lines)
}
