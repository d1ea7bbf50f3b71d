//! How many instructions of a filter run on a call, over all that its record may hold beside its machine and number.
ghost use Rattle.std.specs.Prelude.{ℕ, ◌≡◌, ◌+◌, List, length, Some, slice_get, IfOk};
ghost use Rattle.bpf_insn.specs.declared.instruction.Insn.{Insn as Instruction};
ghost use Rattle.kernel_check.specs.Lent.{accepted_insns};
ghost use Rattle.show.specs.Spans.{IsSpan};
ghost use Rattle.show.specs.declared.leading.Holds.TheVariants.{Other};
ghost use Rattle.show.specs.inner.Covering.{AreSpans, Covers, IsWithOne, SpanFrom};

use crate::leading::{Holds, leads};
use bpf_insn::Insn;
use kernel_check::Accepted;
use std::alloc::{AllocError, Global};

/// How many instructions run, at least and at most.
#[derive(Clone, Copy, Debug, PartialEq, Eq)]
pub struct Span {
    pub least: u32,
    pub most: u32,
}

// Any number of instructions.
const ANY: Span = Span {
    least: 0,
    most: u32::MAX,
};

// How many run from a position on, by what is known of A there.
#[derive(Clone, Copy)]
pub(crate) struct Spans {
    number: Span,
    machine: Span,
    other: Span,
}

// How many run from a position on behind so many others, of a table for what is left of a program.
fn span_after(later: &[Spans], skip: u32, holds: Holds) -> Span
    ensures { (p : List Instruction) (arch nr pc : ℕ) → Covers p arch nr later.now → length later.now + pc + 1 ≡ length p
        → SpanFrom p arch nr (pc + 1 + skip) holds result }
{
    let skip = skip as usize;
    if skip >= later.len() {
        return ANY;
    }
    let spans = later[later.len() - 1 - skip];
    match holds {
        Holds::Number => spans.number,
        Holds::Machine => spans.machine,
        Holds::Other => spans.other,
    }
}

// How many run with one instruction more in front, where the run goes on in one of two ways.
fn with_one(one: Span, other: Span) -> Span
    ensures { IsWithOne one other result }
{
    Span {
        least: one.least.min(other.least).saturating_add(1),
        most: one.most.max(other.most).saturating_add(1),
    }
}

// How many run from an instruction on, where this is known of A, of a table for what is behind it.
fn span_at(insn: &Insn, arch: u32, nr: u32, holds: Holds, later: &[Spans]) -> Span
    ensures { (p : List Instruction) (pc : ℕ) → Covers p arch nr later.now → length later.now + pc + 1 ≡ length p
        → slice_get p pc ≡ Some insn.now → SpanFrom p arch nr pc holds result }
{
    match leads(insn, arch, nr, holds) {
        None => Span { least: 1, most: 1 },
        Some(ways) => {
            let one = span_after(later, ways.first, ways.holds);
            let other = span_after(later, ways.second, ways.holds);
            with_one(one, other)
        }
    }
}

// How many run from an instruction on, for each that may be known of A.
fn spans_at(insn: &Insn, arch: u32, nr: u32, later: &[Spans]) -> Spans
    ensures { (p : List Instruction) (pc : ℕ) → Covers p arch nr later.now → length later.now + pc + 1 ≡ length p
        → slice_get p pc ≡ Some insn.now → AreSpans p arch nr pc result }
{
    Spans {
        number: span_at(insn, arch, nr, Holds::Number, later),
        machine: span_at(insn, arch, nr, Holds::Machine, later),
        other: span_at(insn, arch, nr, Holds::Other, later),
    }
}

// The table for a whole program, the last position first.
fn table_of(
    alloc: Global,
    accepted: &Accepted<'_>,
    arch: u32,
    nr: u32,
) -> Result<Vec<Spans>, AllocError>
    ensures covers { IfOk result (λ table. Covers (accepted_insns accepted.now) arch nr table.items) }
    ensures whole { IfOk result (λ table. length table.items ≡ length (accepted_insns accepted.now)) }
{
    let program = accepted.program();
    let count = program.len();
    let mut table: Vec<Spans> = Vec::new(alloc);
    for place in 0..count {
        let insn = program.get(count - 1 - place);
        let spans = spans_at(&insn, arch, nr, &table);
        table.push(spans)?;
    }
    Ok(table)
}

// How many run from the first position on, of the table for a whole program.
fn from_first(table: &[Spans]) -> Span
    ensures { (p : List Instruction) (arch nr : ℕ) → Covers p arch nr table.now → length table.now ≡ length p
        → SpanFrom p arch nr 0 Other result }
{
    if table.is_empty() {
        return ANY;
    }
    table[table.len() - 1].other
}

/// How many instructions run on a call of a machine with a number, at least and at most, whatever the rest of its
/// record holds.
pub fn span_of(
    alloc: Global,
    accepted: &Accepted<'_>,
    arch: u32,
    nr: u32,
) -> Result<Span, AllocError>
    ensures { IfOk result (IsSpan (accepted_insns accepted.now) arch nr) }
{
    let table = table_of(alloc, accepted, arch, nr)?;
    Ok(from_first(&table))
}
