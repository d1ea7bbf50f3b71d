//! The instructions in front that tell calls of machines from all others.
ghost use Rattle.std.specs.Prelude.{◌≡◌, ◌++◌, ◌+◌, ◌*◌, ◌-◌, IfErr, IfOk, length};
ghost use Rattle.recover_others.specs.Reason.{ranges};
ghost use Rattle.recover_others.specs.inner.Guard as spec;
ghost use Rattle.recover_others.specs.inner.Limit.{IsLimit};

use crate::other_calls::insns::insn;
use crate::other_calls::unguarded::Unguarded;
use bpf_insn::{Insn, MAX_INSNS};
use machines::{Arch, Numbers};
use std::alloc::{AllocError, Global};

// How many instructions tell calls of one token, with numbers of one range.
const FRONT: usize = 6;

// A jump over so many instructions, on these calls alone.
fn front_of(token: u32, numbers: &Numbers, skip: u32) -> [Insn; FRONT]
    ensures { result ≡ spec.front token numbers.now skip }
{
    [
        insn(0x20, 0, 0, 4),
        insn(0x15, 0, 4, token),
        insn(0x20, 0, 0, 0),
        insn(0x35, 0, 2, numbers.first),
        insn(0x25, 1, 0, numbers.last),
        insn(0x05, 0, 0, skip),
    ]
}

// Instructions and others behind them.
fn joined(alloc: Global, front: &[Insn], program: &[Insn]) -> Result<Vec<Insn>, AllocError>
    ensures { IfOk result (λ all. all.items ≡ front.now ++ program.now) }
{
    let mut all = Vec::new(alloc);
    all.extend_from_slice(front)?;
    all.extend_from_slice(program)?;
    Ok(all)
}

// A program that goes on at its last instructions, so many, on these calls, and else at the first of the program that is given.
fn before(
    alloc: Global,
    token: u32,
    numbers: &Numbers,
    tail: usize,
    program: &[Insn],
) -> Result<Vec<Insn>, Unguarded>
    ensures made { IfOk result (λ all. all.items ≡ spec.before token numbers.now tail program.now) }
    ensures limit { IfErr result (IsLimit (length program.now)) }
{
    if program.len() > MAX_INSNS {
        return Err(Unguarded::TooLong);
    }
    let skip = program.len().saturating_sub(tail) as u32;
    let front = front_of(token, numbers, skip);
    match joined(alloc, &front, program) {
        Ok(all) => Ok(all),
        Err(_no_memory) => Err(Unguarded::OutOfMemory),
    }
}

// As `before`, on calls of one token with numbers of any of these ranges.
fn fronts(
    alloc: Global,
    token: u32,
    numbers: &[Numbers],
    tail: usize,
    program: Vec<Insn>,
) -> Result<Vec<Insn>, Unguarded>
    ensures made { IfOk result (λ all. all.items ≡ spec.fronts token numbers.now tail program.items) }
    ensures limit { IfErr result (IsLimit (length program.items + 6 * length numbers.now)) }
{
    match numbers {
        [first, more @ ..] => match fronts(alloc, token, more, tail, program) {
            Ok(behind) => before(alloc, token, first, tail, &behind),
            Err(why) => Err(why),
        },
        [] => Ok(program),
    }
}

/// A program that goes on at its last instructions, so many, on calls of these machines. Else it goes on at the first of the program that
/// is given.
pub(crate) fn guard(
    alloc: Global,
    machines: &[Arch],
    tail: usize,
    program: Vec<Insn>,
) -> Result<Vec<Insn>, Unguarded>
    ensures made { IfOk result (λ all. all.items ≡ spec.guard machines.now tail program.items) }
    ensures limit { IfErr result (IsLimit (length program.items + 6 * ranges machines.now)) }
{
    match machines {
        [first, more @ ..] => match guard(alloc, more, tail, program) {
            Ok(behind) => fronts(alloc, first.token(), first.own_numbers(), tail, behind),
            Err(why) => Err(why),
        },
        [] => Ok(program),
    }
}
