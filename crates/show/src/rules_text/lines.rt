//! The lines of the text.
ghost use Rattle.std.specs.Prelude.{◌≡◌, ◌++◌, IfOk, codes, string_bytes};
ghost use Rattle.std.specs.List.{flat_map};
ghost use Rattle.machines.specs.Arch.{machine_name};
ghost use Rattle.show.specs.Text as spec;

use call_record::Word;
use machines::Arch;
use profile::{Cond, Op, Profile, Rule};
use std::alloc::{AllocError, Global};
use std::fmt::Write;

// A bundle's name of an operator, without SCMP_CMP_ before it.
fn operator_name(op: Op) -> &'static str
    ensures { result.now ≡ spec.operator_name op }
{
    match op {
        Op::Ne => "NE",
        Op::Lt => "LT",
        Op::Le => "LE",
        Op::Eq => "EQ",
        Op::Ge => "GE",
        Op::Gt => "GT",
        Op::MaskedEq => "MASKED_EQ",
    }
}

fn is_masked(op: Op) -> bool
    ensures { result ≡ spec.is_masked op }
{
    matches!(op, Op::MaskedEq)
}

// Adds a condition, behind a space.
fn put_condition(text: &mut String, cond: &Cond) -> Result<(), AllocError>
    ensures { IfOk result (λ _. string_bytes text.new ≡ string_bytes text.old ++ spec.condition_text cond.now) }
{
    let Cond {
        index,
        op,
        value,
        datum,
    } = *cond;
    let operator = operator_name(op);
    if is_masked(op) {
        return write!(text, " arg{index} {operator} 0x{value:x} 0x{datum:x}");
    }
    write!(text, " arg{index} {operator} 0x{value:x}")
}

// Adds conditions, in order.
fn put_conditions(text: &mut String, conds: &[Cond]) -> Result<(), AllocError>
    ensures { IfOk result (λ _. string_bytes text.new ≡ string_bytes text.old ++ flat_map spec.condition_text conds.now) }
{
    for cond in conds {
        put_condition(text, cond)?;
    }
    Ok(())
}

// Adds the line of a rule.
fn put_rule(text: &mut String, rule: &Rule) -> Result<(), AllocError>
    ensures { IfOk result (λ _. string_bytes text.new ≡ string_bytes text.old ++ spec.rule_line rule.now) }
{
    let machine = rule.arch.machine_name();
    let number = rule.nr;
    let word = rule.word.0;
    write!(text, "{machine} {number} 0x{word:x}")?;
    put_conditions(text, rule.conds.as_slice())?;
    text.push_str("\n")
}

// Adds the lines of rules, in order.
fn put_rules(text: &mut String, rules: &[Rule]) -> Result<(), AllocError>
    ensures { IfOk result (λ _. string_bytes text.new ≡ string_bytes text.old ++ flat_map spec.rule_line rules.now) }
{
    for rule in rules {
        put_rule(text, rule)?;
    }
    Ok(())
}

// Adds the names of machines, each behind a space.
fn put_machine_names(text: &mut String, machines: &[Arch]) -> Result<(), AllocError>
    ensures { IfOk result (λ _. string_bytes text.new
        ≡ string_bytes text.old ++ flat_map (λ arch. codes " " ++ machine_name arch) machines.now) }
{
    for arch in machines {
        let machine = arch.machine_name();
        write!(text, " {machine}")?;
    }
    Ok(())
}

// Adds the line of the native machine.
fn put_native(text: &mut String, native: Arch) -> Result<(), AllocError>
    ensures { IfOk result (λ _. string_bytes text.new ≡ string_bytes text.old ++ spec.native_line native) }
{
    let machine = native.machine_name();
    writeln!(text, "native {machine}")
}

// Adds the line of the machines.
fn put_machines(text: &mut String, machines: &[Arch]) -> Result<(), AllocError>
    ensures { IfOk result (λ _. string_bytes text.new ≡ string_bytes text.old ++ spec.machines_line machines.now) }
{
    text.push_str("machines")?;
    put_machine_names(text, machines)?;
    text.push_str("\n")
}

// Adds the line of the verdict that no rule gives.
fn put_default(text: &mut String, word: Word) -> Result<(), AllocError>
    ensures { IfOk result (λ _. string_bytes text.new ≡ string_bytes text.old ++ spec.default_line word) }
{
    let bits = word.0;
    writeln!(text, "default 0x{bits:x}")
}

// Adds the line of how many rules there are.
fn put_count(text: &mut String, count: usize) -> Result<(), AllocError>
    ensures { IfOk result (λ _. string_bytes text.new ≡ string_bytes text.old ++ spec.count_line count) }
{
    writeln!(text, "rules {count}")
}

/// The text of a profile: its machines, its default verdict, and a line for each rule, in the order of its rules.
pub fn text_of(alloc: Global, profile: &Profile) -> Result<String, AllocError>
    ensures { IfOk result (λ text. string_bytes text ≡ spec.text_of profile.now) }
{
    let mut text = String::new(alloc);
    text.push_str("ccell-profile 1\n")?;
    put_native(&mut text, profile.native())?;
    put_machines(&mut text, profile.machines())?;
    put_default(&mut text, profile.default_word())?;
    let rules = profile.rules();
    put_count(&mut text, rules.len())?;
    put_rules(&mut text, rules)?;
    Ok(text)
}
