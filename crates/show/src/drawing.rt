//! A filter as a graph in the language of Graphviz: a node for each block of instructions, and an edge for each outcome.
ghost use Rattle.std.specs.Prelude.{IfOk};
ghost use Rattle.show.specs.Shown as spec;

use crate::annotating::{no_program, put_meaning, with_cause};
use crate::flow::{Known, targets};
use crate::lines::Lines;
use bpf_insn::{Insn, Operation, Program};
use call_record::Word;
use machines::Arch;
use std::alloc::{AllocError, Global};
use std::fmt::Write;
use wording::{End, Told};

const HEAD: &str = "digraph filter {\n  node [shape=box, style=filled, fontname=monospace];\n";

// The colour of the block that an instruction ends: that of the action that it gives.
fn colour_of(insn: Insn) -> &'static str {
    if insn.operation() != Some(Operation::ReturnK) {
        return "white";
    }
    match Word(insn.k).action() {
        Word::ALLOW => "palegreen",
        Word::LOG => "khaki",
        Word::ERRNO => "orange",
        Word::TRACE => "lightblue",
        Word::USER_NOTIF => "lightblue",
        _ => "tomato",
    }
}

// Adds the line of an instruction to the text of its block.
fn put_instruction(
    text: &mut String,
    native: Arch,
    (pc, line): (usize, &str),
    insn: Insn,
    state: Option<Known>,
) -> Result<(), AllocError> {
    write!(text, "{pc}  {line}  ")?;
    match state {
        Some(known) => put_meaning(text, native, insn, known)?,
        None => text.push_str("no way leads here")?,
    }
    text.push_str("\\l")
}

// Adds the edges that lead from the end of a block.
fn put_edges(text: &mut String, start: usize, pc: usize, insn: Insn) -> Result<(), AllocError> {
    match targets(pc, insn) {
        None => Ok(()),
        Some((then, other)) => {
            if then == other {
                return writeln!(text, "  n{start} -> n{then} [label=always];");
            }
            writeln!(text, "  n{start} -> n{then} [label=true];")?;
            writeln!(text, "  n{start} -> n{other} [label=false];")
        }
    }
}

// Whether an instruction ends its block.
fn ends_block(insn: Insn) -> bool {
    match insn.operation() {
        Some(Operation::Branch(_, _)) => true,
        Some(Operation::Jump) => true,
        Some(Operation::ReturnK) => true,
        Some(Operation::ReturnA) => true,
        _ => false,
    }
}

// Adds the end of a block: its colour, and its edges.
fn put_end(text: &mut String, start: usize, pc: usize, insn: Insn) -> Result<(), AllocError> {
    let colour = colour_of(insn);
    writeln!(text, "\", fillcolor={colour}];")?;
    put_edges(text, start, pc, insn)
}

// Adds the blocks of a program.
fn put_blocks(
    text: &mut String,
    native: Arch,
    program: &Program<'_>,
    lines: &Lines,
) -> Result<(), AllocError> {
    let mut listing = lines.listing.lines();
    let mut start = 0;
    for pc in 0..program.len() {
        let insn = program.get(pc);
        let line = listing.next().unwrap_or("");
        if start == pc {
            write!(text, "  n{start} [label=\"")?;
        }
        put_instruction(text, native, (pc, line), insn, lines.state(pc))?;
        let next = pc.saturating_add(1);
        if next == program.len() || ends_block(insn) || lines.is_label(next) {
            put_end(text, start, pc, insn)?;
            start = next;
        }
    }
    Ok(())
}

// The graph of a program.
fn graph(alloc: Global, native: Arch, program: &Program<'_>) -> Result<String, AllocError> {
    let mut text = String::from_str(alloc, HEAD)?;
    let lines = Lines::of(alloc, native, program)?;
    put_blocks(&mut text, native, program, &lines)?;
    text.push_str("}\n")?;
    Ok(text)
}

/// Tells a filter as a graph, with the names that a native machine has for calls, arguments and actions. Of a filter that the
/// kernel refuses it tells also the cause.
pub fn drawn(alloc: Global, native: Arch, filter: &[u8]) -> Result<Told, AllocError>
    ensures { IfOk result (spec.IsDrawn filter.now) }
{
    match Program::view(filter) {
        Ok(program) => {
            let text = graph(alloc, native, &program)?;
            with_cause(alloc, text, &program, "// ", End::No)
        }
        Err(fault) => no_program(alloc, fault),
    }
}
