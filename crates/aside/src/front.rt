//! A filter that gives the records of some calls to another.
ghost use Rattle.std.specs.Prelude.{◌≡◌, ◌≤◌, ◌<◌, ◌*◌, ◌++◌, IfOk, length, true};
ghost use Rattle.bpf_insn.specs.Bytes.{insns_of};
ghost use Rattle.bpf_insn.specs.Program.{insns};
ghost use Rattle.compare.specs.inner.Path.{BeginsWithLoad};
ghost use Rattle.aside.specs.inner.Front.{IsFreed, IsLike, IsSameBut, Passes, front_of, insn};

use bpf_insn::{Insn, MAX_INSNS, Operation, Program, encode_into};
use compare::Calls;
use std::alloc::{AllocError, Global};

// How many instructions stand in front of a filter for some calls.
const FRONT: usize = 6;

fn insn(code: u16, jt: u8, jf: u8, k: u32) -> Insn
    ensures { result ≡ insn code jt jf k }
{
    Insn { code, jt, jf, k }
}

// A jump over so many instructions, on the records of these calls alone.
fn front_of(calls: &Calls, skip: u32) -> [Insn; FRONT]
    ensures { result ≡ front_of calls.now skip }
{
    [
        insn(0x20, 0, 0, 4),
        insn(0x15, 0, 4, calls.token),
        insn(0x20, 0, 0, 0),
        insn(0x35, 0, 2, calls.numbers.first),
        insn(0x25, 1, 0, calls.numbers.last),
        insn(0x05, 0, 0, skip),
    ]
}

// The bytes of instructions.
fn encoded(alloc: Global, insns: &[Insn]) -> Result<Vec<u8>, AllocError>
    requires { length insns.now ≤ 6 }
    ensures size { IfOk result (λ bytes. length bytes.items ≡ 8 * length insns.now) }
    ensures read { IfOk result (λ bytes. insns_of bytes.items ≡ insns.now) }
{
    let mut bytes = vec![in alloc; 0u8; 8 * insns.len()]?;
    encode_into(insns, &mut bytes);
    Ok(bytes)
}

// The bytes of instructions, and other bytes behind them.
fn spelled(alloc: Global, insns: &[Insn], rest: &[u8]) -> Result<Vec<u8>, AllocError>
    requires { length insns.now ≤ 6 }
    ensures { IfOk result (λ bytes. insns_of bytes.items ≡ insns.now ++ insns_of rest.now) }
{
    let mut bytes = encoded(alloc, insns)?;
    bytes.extend_from_slice(rest)?;
    Ok(bytes)
}

// A program that gives the records of these calls to the instructions at a position of another, and all others to the other.
fn give(alloc: Global, calls: &Calls, place: usize, program: &[u8]) -> Result<Vec<u8>, AllocError>
    ensures { IfOk result (λ bytes. Passes calls.now (insns_of bytes.items) (insns_of program.now)) }
{
    let skip = place.min(MAX_INSNS) as u32;
    let front = front_of(calls, skip);
    spelled(alloc, &front, program)
}

// A filter behind another, over which it jumps first.
fn behind(alloc: Global, own: &[u8], filter: &[u8]) -> Result<Vec<u8>, AllocError>
    ensures { IfOk result (λ bytes. IsLike (insns_of bytes.items) (insns_of filter.now)) }
{
    let size = (own.len() / 8).min(MAX_INSNS);
    let mut both = Vec::new(alloc);
    both.extend_from_slice(&own[..8 * size])?;
    both.extend_from_slice(filter)?;
    let jump = [insn(0x05, 0, 0, size as u32)];
    spelled(alloc, &jump, &both)
}

// Whether a program begins with the load of a word.
fn begins_with_load(program: &Program<'_>) -> bool
    requires { 0 < length (insns program.now) }
    ensures { result ≡ true → BeginsWithLoad (insns program.now) }
{
    match program.get(0).operation() {
        Some(Operation::LoadWord) => true,
        _ => false,
    }
}

// Whether a filter is a program that does.
fn loads_first(filter: &[u8]) -> bool
    ensures { result ≡ true → BeginsWithLoad (insns_of filter.now) }
{
    let Ok(program) = Program::view(filter) else {
        return false;
    };
    if program.len() == 0 {
        return false;
    }
    begins_with_load(&program)
}

// A filter to which it does not matter what A holds. It is the same if it begins with a load, or has an instruction in front that sets A
// to 0.
fn freed(alloc: Global, filter: &[u8]) -> Result<Vec<u8>, AllocError>
    ensures { IfOk result (λ bytes. IsFreed (insns_of bytes.items) (insns_of filter.now)) }
{
    if loads_first(filter) {
        let mut same = Vec::new(alloc);
        same.extend_from_slice(filter)?;
        return Ok(same);
    }
    spelled(alloc, &[insn(0x00, 0, 0, 0)], filter)
}

/// The bytes of a filter that gives the records of these calls to one filter, and all others to another.
pub(crate) fn giving(
    alloc: Global,
    aside: &[Calls],
    own: &[u8],
    filter: &[u8],
) -> Result<Vec<u8>, AllocError>
    ensures { IfOk result (λ bytes. IsSameBut aside.now (insns_of bytes.items) (insns_of filter.now)) }
{
    let rest = freed(alloc, filter)?;
    let mut bytes = behind(alloc, own, &rest)?;
    let mut place: usize = 1;
    for calls in aside {
        bytes = give(alloc, calls, place, &bytes)?;
        place = place.saturating_add(FRONT);
    }
    Ok(bytes)
}
