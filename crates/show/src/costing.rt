//! What a filter costs the calls of a machine: which of them the kernel answers by itself, and how many instructions
//! the others run.
ghost use Rattle.std.specs.Prelude.{IfOk};
ghost use Rattle.kernel_check.specs.Lent.{accepted_insns};
ghost use Rattle.show.specs.Costs.{IsCost};
ghost use Rattle.show.specs.Shown.{IsCosted};

use crate::annotating::{no_program, with_cause};
use crate::answered::is_answered;
use crate::spans::{Span, span_of};
use bpf_insn::Program;
use call_tables::call_name;
use kernel_check::{Accepted, accept};
use machines::{Arch, Numbers};
use std::alloc::{AllocError, Global};
use std::fmt::Write;
use wording::{End, Told};

/// What a call costs: its number, whether the kernel answers it by itself, and how many instructions run where it does not.
#[derive(Clone, Copy)]
pub(crate) struct Cost {
    nr: u32,
    answered: bool,
    span: Span,
}

// The calls of a line: those that the kernel answers by itself, or others that run so many instructions.
#[derive(Clone, Copy)]
enum Group {
    Answered,
    Runs(Span),
}

// The least of ARM's private numbers, which lie beyond the kernel's bitmap (__ARM_NR_BASE).
const LEAST_PRIVATE: u32 = 0xf_0000;

// So many calls of a line are named, if it has no more.
const NAMED: usize = 6;

// So many are named where there are more.
const FIRST: usize = 2;

// The machines whose calls a kernel of a native machine keeps in its bitmaps.
fn machines_of(native: Arch) -> &'static [Arch] {
    match native {
        Arch::LinuxX86_64 => &[Arch::LinuxX86_64, Arch::LinuxX86],
        Arch::LinuxAarch64 => &[Arch::LinuxAarch64, Arch::LinuxArm],
        Arch::X86_64 => &[Arch::X86_64],
        Arch::Aarch64 => &[Arch::Aarch64],
        Arch::LinuxRiscv64 => &[Arch::LinuxRiscv64],
        Arch::LinuxPpc64le => &[Arch::LinuxPpc64le],
        Arch::LinuxLoongarch64 => &[Arch::LinuxLoongarch64],
        Arch::LinuxS390x => &[Arch::LinuxS390x, Arch::LinuxS390],
        Arch::LinuxX86 | Arch::LinuxX32 | Arch::LinuxArm | Arch::LinuxS390 => &[],
    }
}

// What a call of a machine costs.
fn cost_of(
    alloc: Global,
    accepted: &Accepted<'_>,
    machine: Arch,
    nr: u32,
) -> Result<Cost, AllocError>
    ensures { IfOk result (IsCost (accepted_insns accepted.now) machine) }
{
    let arch = machine.token();
    let span = span_of(alloc, accepted, arch, nr)?;
    let answered = if nr < LEAST_PRIVATE {
        is_answered(accepted, arch, nr)
    } else {
        false
    };
    Ok(Cost { nr, answered, span })
}

// Adds what the call of a machine with this number costs, if it has one.
fn add_cost(
    alloc: Global,
    costs: &mut Vec<Cost>,
    accepted: &Accepted<'_>,
    machine: Arch,
    nr: u32,
) -> Result<(), AllocError> {
    if call_name(machine, nr).is_none() {
        return Ok(());
    }
    let cost = cost_of(alloc, accepted, machine, nr)?;
    costs.push(cost)?;
    Ok(())
}

// Adds what each call of a machine costs whose number is one of these.
fn add_costs(
    alloc: Global,
    costs: &mut Vec<Cost>,
    accepted: &Accepted<'_>,
    machine: Arch,
    numbers: Numbers,
) -> Result<(), AllocError> {
    for nr in numbers.first..numbers.last.saturating_add(1) {
        add_cost(alloc, costs, accepted, machine, nr)?;
    }
    Ok(())
}

// What each call of a machine costs, in the order of numbers.
fn costs_of(
    alloc: Global,
    accepted: &Accepted<'_>,
    machine: Arch,
) -> Result<Vec<Cost>, AllocError> {
    let mut costs: Vec<Cost> = Vec::new(alloc);
    for numbers in machine.call_numbers() {
        add_costs(alloc, &mut costs, accepted, machine, *numbers)?;
    }
    Ok(costs)
}

// Whether a call is of a group.
fn is_of(cost: Cost, group: Group) -> bool {
    match group {
        Group::Answered => cost.answered,
        Group::Runs(span) => !cost.answered && cost.span == span,
    }
}

// How many calls are of a group.
fn count_of(costs: &[Cost], group: Group) -> usize {
    let mut count: usize = 0;
    for cost in costs {
        if is_of(*cost, group) {
            count = count.saturating_add(1);
        }
    }
    count
}

// Adds the name of a call, and a comma before it if it is not the first one.
fn put_name(text: &mut String, machine: Arch, nr: u32, place: usize) -> Result<(), AllocError> {
    let name = call_name(machine, nr).unwrap_or("");
    let comma = if place == 0 { "" } else { ", " };
    write!(text, "{comma}{name}")
}

// Adds the names of the first calls of a group.
fn put_first(
    text: &mut String,
    machine: Arch,
    costs: &[Cost],
    group: Group,
    most: usize,
) -> Result<(), AllocError> {
    let mut place: usize = 0;
    for cost in costs {
        if is_of(*cost, group) {
            if place < most {
                put_name(text, machine, cost.nr, place)?;
            }
            place = place.saturating_add(1);
        }
    }
    Ok(())
}

// Adds the names of the calls of a group, which are so many: all, or the first and how many more there are.
fn put_names(
    text: &mut String,
    machine: Arch,
    costs: &[Cost],
    group: Group,
    count: usize,
) -> Result<(), AllocError> {
    if count <= NAMED {
        return put_first(text, machine, costs, group, count);
    }
    put_first(text, machine, costs, group, FIRST)?;
    let more = count.saturating_sub(FIRST);
    write!(text, " and {more} more")
}

// Adds how many calls of a machine the kernel answers by itself, and which.
fn put_answered(text: &mut String, machine: Arch, costs: &[Cost]) -> Result<(), AllocError> {
    let name = machine.machine_name();
    let count = count_of(costs, Group::Answered);
    let all = costs.len();
    write!(
        text,
        "{name}: {count} of {all} calls are answered without running the filter"
    )?;
    if count > 0 {
        text.push_str(": ")?;
        put_names(text, machine, costs, Group::Answered, count)?;
    }
    text.push_str("\n")
}

// Adds how many instructions run.
fn put_span(text: &mut String, span: Span) -> Result<(), AllocError> {
    let Span { least, most } = span;
    if least != most {
        return write!(text, "{least} to {most} instructions");
    }
    let end = if most == 1 { "" } else { "s" };
    write!(text, "{most} instruction{end}")
}

// A span as a number: by the most, and then by the least.
fn rank(span: Span) -> u64 {
    u64::from(span.most) << 32 | u64::from(span.least)
}

// Whether a span is less than the one that was told last.
fn is_left(span: Span, told: Option<Span>) -> bool {
    match told {
        None => true,
        Some(told) => rank(span) < rank(told),
    }
}

// Whether a span is greater than the greatest so far.
fn is_greater(span: Span, greatest: Option<Span>) -> bool {
    match greatest {
        None => true,
        Some(greatest) => rank(span) > rank(greatest),
    }
}

// The greatest span that is left, of the calls that the kernel does not answer by itself.
fn next_span(costs: &[Cost], told: Option<Span>) -> Option<Span> {
    let mut greatest: Option<Span> = None;
    for cost in costs {
        if !cost.answered {
            if is_left(cost.span, told) {
                if is_greater(cost.span, greatest) {
                    greatest = Some(cost.span);
                }
            }
        }
    }
    greatest
}

// Adds the line of the calls that run so many instructions.
fn put_group(
    text: &mut String,
    machine: Arch,
    costs: &[Cost],
    span: Span,
) -> Result<(), AllocError> {
    let name = machine.machine_name();
    let group = Group::Runs(span);
    write!(text, "{name}: ")?;
    put_span(text, span)?;
    text.push_str(": ")?;
    put_names(text, machine, costs, group, count_of(costs, group))?;
    text.push_str("\n")
}

// Adds a line for each number of instructions that calls run, the greatest first.
fn put_running(text: &mut String, machine: Arch, costs: &[Cost]) -> Result<(), AllocError> {
    let mut told: Option<Span> = None;
    for _ in 0..costs.len() {
        if let Some(span) = next_span(costs, told) {
            put_group(text, machine, costs, span)?;
            told = Some(span);
        }
    }
    Ok(())
}

// Adds the lines of a machine.
fn put_machine(
    text: &mut String,
    alloc: Global,
    accepted: &Accepted<'_>,
    machine: Arch,
) -> Result<(), AllocError> {
    let costs = costs_of(alloc, accepted, machine)?;
    put_answered(text, machine, &costs)?;
    put_running(text, machine, &costs)
}

// What a program costs the calls of a native machine. A program that the kernel refuses costs none.
fn costs_text(alloc: Global, native: Arch, program: &Program<'_>) -> Result<String, AllocError> {
    let mut text = String::new(alloc);
    if let Ok(accepted) = accept(program) {
        for machine in machines_of(native) {
            put_machine(&mut text, alloc, &accepted, *machine)?;
        }
    }
    Ok(text)
}

/// Tells what a filter costs the calls of a native machine. This is how many the kernel answers without running it, and how
/// many instructions the others run. Of a filter that the kernel refuses it tells the cause.
pub fn costs(alloc: Global, native: Arch, filter: &[u8]) -> Result<Told, AllocError>
    ensures { IfOk result (IsCosted filter.now) }
{
    match Program::view(filter) {
        Ok(program) => {
            let text = costs_text(alloc, native, &program)?;
            with_cause(alloc, text, &program, "", End::Refused)
        }
        Err(fault) => no_program(alloc, fault),
    }
}
