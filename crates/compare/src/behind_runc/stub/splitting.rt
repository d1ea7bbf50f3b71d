//! A stub told apart from the filter behind it.
ghost use Rattle.std.specs.Prelude.{◌≡◌, ◌<◌, ◌≤◌, ◌⊎◌, ◌++◌, ◌*◌, [], ℕ, List, IfOk, IfSome, true, false, length, drop, map};
ghost use Rattle.bpf_insn.specs.Program.{insns};
ghost use Rattle.machines.specs.Numbers.{IsWithin};
ghost use Rattle.kernel_check.specs.Lent.{accepted_insns};
ghost use Rattle.call_record.specs.Words.{IsRecord};
ghost use Rattle.compare.specs.Stub.{IsStub};
ghost use Rattle.compare.specs.inner.Parts.{Splits, calls_of};
ghost use Rattle.compare.specs.inner.Path.{BeginsWithLoad};

use crate::behind_runc::stub::calls::Calls;
use crate::behind_runc::stub::numbers::answered_numbers;
use bpf_insn::{Insn, Operation, Program};
use kernel_check::{Accepted, accept};
use machines::Numbers;
use std::alloc::{AllocError, Global};

/// The calls that a stub answers ENOSYS, and the filter behind it.
#[derive(Debug, Drop)]
pub struct Stub<'a> {
    pub answered: Vec<Calls>,
    pub rest: Accepted<'a>,
}

// The most instructions that a stub has.
const MOST: usize = 256;

// Whether an instruction jumps over the one behind it, as over the return that ends a stub.
fn skips_one(insn: &Insn) -> bool {
    match insn.operation() {
        Some(Operation::Jump) => insn.k == 1,
        _ => false,
    }
}

// Whether an instruction returns a fixed verdict.
fn is_return(insn: &Insn) -> bool {
    match insn.operation() {
        Some(Operation::ReturnK) => true,
        _ => false,
    }
}

// Where the rest begins: behind the first return that is jumped over.
fn begin_of(program: &Program<'_>) -> Option<usize>
    ensures { IfSome result (λ begin. begin < length (insns program.now)) }
{
    let most = program.len().min(MOST);
    for begin in 2..most {
        if skips_one(&program.get(begin - 2)) {
            if is_return(&program.get(begin - 1)) {
                return Some(begin);
            }
        }
    }
    None
}

// The bytes behind so many instructions.
fn bytes_behind<'a>(bytes: &'a [u8], begin: usize) -> &'a [u8]
    requires { 8 * begin ≤ length bytes.now }
    ensures { result.now ≡ drop (8 * begin) bytes.entry.now }
{
    &bytes[8 * begin..]
}

// Whether the instruction at a position is the load of a word.
fn begins_with_load(filter: &Accepted<'_>, begin: usize) -> bool
    requires { begin < length (accepted_insns filter.now) }
    ensures { result ≡ true → BeginsWithLoad (drop begin (accepted_insns filter.now)) }
{
    match filter.program().get(begin).operation() {
        Some(Operation::LoadWord) => true,
        _ => false,
    }
}

// The program behind a position, if the kernel accepts it and it begins with a load.
fn rest_of<'a>(filter: &Accepted<'a>, begin: usize) -> Option<Accepted<'a>>
    requires { begin < length (accepted_insns filter.now) }
    ensures rest { IfSome result (λ rest. accepted_insns rest ≡ drop begin (accepted_insns filter.now)) }
    ensures loads { IfSome result (λ rest. BeginsWithLoad (drop begin (accepted_insns filter.now))) }
{
    if !begins_with_load(filter, begin) {
        return None;
    }
    let program = match Program::view(bytes_behind(filter.program().bytes(), begin)) {
        Err(_) => return None,
        Ok(program) => program,
    };
    match accept(&program) {
        Err(_) => None,
        Ok(rest) => Some(rest),
    }
}

// Whether some numbers are answered of more tokens than one.
fn are_mixed(tokens: &Numbers, numbers: &[Numbers]) -> bool
    ensures { result ≡ false → (tokens.now.first ≡ tokens.now.last) ⊎ (numbers.now ≡ []) }
{
    if numbers.is_empty() {
        return false;
    }
    tokens.first != tokens.last
}

// Adds the calls of these numbers with a token.
fn add_calls(calls: &mut Vec<Calls>, token: u32, numbers: &[Numbers]) -> Result<(), AllocError>
    ensures { IfOk result (λ _. calls.new.items ≡ calls.old.items ++ map (calls_of token) numbers.now) }
{
    for numbers in numbers {
        calls.push(Calls {
            token,
            numbers: *numbers,
        })?;
    }
    Ok(())
}

// The calls that a program answers ENOSYS, where it leaves all others to the rest, which stands from this position on.
fn answered_calls(
    alloc: Global,
    filter: &Accepted<'_>,
    begin: usize,
) -> Result<Option<Vec<Calls>>, AllocError>
    requires within { begin < length (accepted_insns filter.now) }
    requires loads { BeginsWithLoad (drop begin (accepted_insns filter.now)) }
    ensures { IfOk result (λ found. IfSome found (λ answered. (r : List ℕ) → IsRecord r
        → Splits (accepted_insns filter.now) (drop begin (accepted_insns filter.now)) answered.items r)) }
{
    let mut answered = Vec::new(alloc);
    let mut next: u32 = 0;
    'all: loop {
        let mut tokens = Numbers {
            first: next,
            last: u32::MAX,
        };
        let numbers = match answered_numbers(alloc, filter, begin, &mut tokens)? {
            None => return Ok(None),
            Some(numbers) => numbers,
        };
        if are_mixed(&tokens, &numbers) {
            return Ok(None);
        }
        add_calls(&mut answered, next, &numbers)?;
        if tokens.last == u32::MAX {
            return Ok(Some(answered));
        }
        next = tokens.last + 1;
    }
}

/// The stub in front of a filter and the filter behind it, where a program begins with a stub as runc puts it in front. The program
/// answers ENOSYS on just the records of the calls that are told, and on all others what the rest answers.
pub fn split<'a>(alloc: Global, filter: &Accepted<'a>) -> Result<Option<Stub<'a>>, AllocError>
    ensures { IfOk result (λ found. IfSome found (λ stub.
        IsStub (accepted_insns filter.now) (accepted_insns stub.rest) stub.answered.items)) }
{
    let begin = match begin_of(&filter.program()) {
        None => return Ok(None),
        Some(begin) => begin,
    };
    let rest = match rest_of(filter, begin) {
        None => return Ok(None),
        Some(rest) => rest,
    };
    match answered_calls(alloc, filter, begin)? {
        None => Ok(None),
        Some(answered) => Ok(Some(Stub { answered, rest })),
    }
}
