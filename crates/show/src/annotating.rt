//! The listing of a filter, with what its lines mean.
ghost use Rattle.std.specs.Prelude.{◌≡◌, ◌++◌, ℕ, List, [], ◌∷◌, IfOk, None, Some, codes, string_bytes};
ghost use Rattle.bpf_insn.specs.Bytes.{insns_of, view_fault};
ghost use Rattle.bpf_insn.specs.Fault.{text_of as fault_text};
ghost use Rattle.bpf_insn.specs.Program.{insns};
ghost use Rattle.kernel_check.specs.Accepted.{IsRefusal};
ghost use Rattle.texts.specs.Lines.{line_feed};
ghost use Rattle.show.specs.Shown as spec;

use crate::flow::{Known, is_jump, targets};
use crate::lines::Lines;
use bpf_insn::{Insn, Operation, Program, ViewError};
use call_record::Word;
use call_tables::call_name;
use kernel_check::{Refused, accept};
use machines::{Arch, LEAST_X32_NUMBER};
use std::alloc::{AllocError, Global};
use std::fmt::Write;
use wording::{ActionText, End, Told, machine_of, machine_with};

// Adds the name of a word of the record, by its offset (seccomp(2), `struct seccomp_data`).
fn put_word_name(text: &mut String, offset: u32) -> Result<(), AllocError> {
    let half = if offset % 8 == 0 {
        "low half"
    } else {
        "high half"
    };
    match offset {
        0 => text.push_str("number"),
        4 => text.push_str("machine"),
        8 | 12 => write!(text, "pointer, {half}"),
        16..64 => {
            let argument = offset.saturating_sub(16) / 8;
            write!(text, "arg{argument}, {half}")
        }
        _ => Ok(()),
    }
}

// What a number stands for that is compared with the number of a call, on a machine.
fn meaning_of(machine: Arch, number: u32) -> &'static str {
    if number == LEAST_X32_NUMBER {
        return "x32 calls";
    }
    let machine = machine_with(machine.family(), machine.token(), number).unwrap_or(machine);
    call_name(machine, number).unwrap_or("no call")
}

// Adds what a number that is compared stands for, by the offset of the record's word that A holds.
fn put_compared(
    text: &mut String,
    native: Arch,
    machine: Option<Arch>,
    offset: u32,
    number: u32,
) -> Result<(), AllocError> {
    match offset {
        0 => text.push_str(meaning_of(machine.unwrap_or(native), number)),
        4 => {
            let machine = machine_of(native.family(), number).map_or(
                "another machine",
                Arch::machine_name,
            );
            text.push_str(machine)
        }
        _ => put_word_name(text, offset),
    }
}

// Adds where a jump leads.
fn put_targets(text: &mut String, (then, other): (usize, usize)) -> Result<(), AllocError> {
    if then == other {
        return write!(text, "to {then}");
    }
    write!(text, "to {then}, else {other}")
}

/// Adds what an instruction means: the word that is loaded, what is compared, or the action that is given.
pub(crate) fn put_meaning(
    text: &mut String,
    native: Arch,
    insn: Insn,
    known: Known,
) -> Result<(), AllocError> {
    match insn.operation() {
        Some(Operation::LoadWord) => put_word_name(text, insn.k),
        Some(Operation::ReturnK) => {
            let action = ActionText(Word(insn.k));
            write!(text, "{action}")
        }
        Some(Operation::Branch(_, _)) => match known.word {
            Some(offset) => put_compared(text, native, known.machine, offset, insn.k),
            None => Ok(()),
        },
        _ => Ok(()),
    }
}

// Adds where an instruction leads, if it is a jump.
fn put_jump(text: &mut String, pc: usize, insn: Insn, known: Known) -> Result<(), AllocError> {
    if !is_jump(insn) {
        return Ok(());
    }
    if known.word.is_some() && insn.operation() != Some(Operation::Jump) {
        text.push_str(", ")?;
    }
    put_targets(text, targets(pc, insn).unwrap_or((pc, pc)))
}

// Adds the line of an instruction: its position, with an L before it where a jump leads there, its text and its meaning.
fn put_line(
    text: &mut String,
    native: Arch,
    (pc, line, is_label): (usize, &str, bool),
    insn: Insn,
    state: Option<Known>,
) -> Result<(), AllocError> {
    let mark = if is_label { "L" } else { " " };
    write!(text, "{mark}{pc:<5}{line:<24} ")?;
    match state {
        Some(known) => {
            put_meaning(text, native, insn, known)?;
            put_jump(text, pc, insn, known)?;
        }
        None => text.push_str("no way leads here")?,
    }
    text.push_str("\n")
}

// Adds the lines of a program.
fn put_lines(
    text: &mut String,
    native: Arch,
    program: &Program<'_>,
    lines: &Lines,
) -> Result<(), AllocError> {
    let mut listing = lines.listing.lines();
    for pc in 0..program.len() {
        let line = listing.next().unwrap_or("");
        let place = (pc, line, lines.is_label(pc));
        put_line(text, native, place, program.get(pc), lines.state(pc))?;
    }
    Ok(())
}

// The line that tells why bytes are no program.
fn view_line(alloc: Global, fault: ViewError) -> Result<String, AllocError>
    ensures { IfOk result (λ line. string_bytes line ≡ codes "refused view " ++ fault_text fault ++ line_feed ∷ []) }
{
    format!(in alloc; "refused view {fault}\n")
}

/// Tells why bytes are no program.
pub(crate) fn no_program(alloc: Global, fault: ViewError) -> Result<Told, AllocError>
    ensures { IfOk result (λ told. (filter : List ℕ) → view_fault filter ≡ Some fault → spec.IsNoProgram filter told) }
{
    let line = view_line(alloc, fault)?;
    Ok(Told {
        bytes: line.into_bytes(),
        end: End::Refused,
    })
}

// The line that tells why the kernel refuses a program, behind a mark.
fn kernel_line(alloc: Global, mark: &str, cause: Refused) -> Result<String, AllocError>
    ensures { IfOk result (λ line. string_bytes line ≡ spec.cause_line mark.now cause) }
{
    format!(in alloc; "{mark}refused kernel {cause}\n")
}

// A text about a program that the kernel refuses, with the cause as its last line.
fn with_line(
    alloc: Global,
    mut text: String,
    mark: &str,
    cause: Refused,
    end: End,
) -> Result<Told, AllocError>
    ensures { IfOk result (λ told. (filter : List ℕ) → view_fault filter ≡ None → IsRefusal (insns_of filter) cause
        → spec.IsRefused mark.now end filter told) }
{
    let line = kernel_line(alloc, mark, cause)?;
    text.push_str(&line)?;
    Ok(Told {
        bytes: text.into_bytes(),
        end,
    })
}

/// A text about a program. If the kernel refuses the program, the cause is its last line, behind a mark, and the command ends as told.
pub(crate) fn with_cause(
    alloc: Global,
    text: String,
    program: &Program<'_>,
    mark: &str,
    end: End,
) -> Result<Told, AllocError>
    ensures { IfOk result (λ told. (filter : List ℕ) → view_fault filter ≡ None → insns program.now ≡ insns_of filter
        → spec.IsShown mark.now end filter told) }
{
    match accept(program) {
        Ok(_accepted) => Ok(Told {
            bytes: text.into_bytes(),
            end: End::Done,
        }),
        Err(cause) => with_line(alloc, text, mark, cause, end),
    }
}

// The listing of a program, with what its lines mean.
fn listing(alloc: Global, native: Arch, program: &Program<'_>) -> Result<String, AllocError> {
    let mut text = String::new(alloc);
    let lines = Lines::of(alloc, native, program)?;
    put_lines(&mut text, native, program, &lines)?;
    Ok(text)
}

/// Tells a filter's listing, with what its lines mean on a native machine: names of calls, arguments and actions, and where
/// jumps lead. Of a filter that the kernel refuses it tells also the cause.
pub fn annotated(alloc: Global, native: Arch, filter: &[u8]) -> Result<Told, AllocError>
    ensures { IfOk result (spec.IsAnnotated filter.now) }
{
    match Program::view(filter) {
        Ok(program) => {
            let text = listing(alloc, native, &program)?;
            with_cause(alloc, text, &program, "", End::No)
        }
        Err(fault) => no_program(alloc, fault),
    }
}
