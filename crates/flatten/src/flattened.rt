//! From the filters of a stack to the one that answers as they do.
ghost use Rattle.std.specs.Prelude.{◌≡◌, ◌≤◌, ◌<◌, Err, IfErr, IfOk, None, length, map};
ghost use Rattle.flatten.specs.declared.unflat.Unflat.TheVariants.{TooLong};
ghost use Rattle.bpf_insn.specs.Bytes.{insns_of};
ghost use Rattle.flatten.specs.Stack.{IsFilter, IsFlat};
ghost use Rattle.flatten.specs.Unflat.{CanBeLong, Says, SaysAt, SaysOf, most_above, place_of};
ghost use Rattle.flatten.specs.inner.Turns as spec;

use crate::above::above;
use crate::insns::return_of;
use crate::plain::plain_insns;
use crate::unflat::Unflat;
use bpf_insn::{Insn, Program, encode_into};
use call_record::Word;
use kernel_check::accept;
use std::alloc::{AllocError, Global};

// The program that allows each call, which is the answer of a stack of no filters.
fn lowest(alloc: Global) -> Result<Vec<Insn>, AllocError>
    ensures { IfOk result (λ program. spec.IsLowest program.items) }
{
    let mut program = Vec::new(alloc);
    program.push(return_of(Word::ALLOW.0))?;
    Ok(program)
}

// Whether bytes are a filter that the kernel accepts.
fn is_filter(bytes: &[u8]) -> bool
    ensures { spec.Shows result (IsFilter bytes.now) }
{
    match Program::view(bytes) {
        Ok(program) => accept(&program).is_ok(),
        Err(_fault) => false,
    }
}

// The bytes of a program.
fn encoded(alloc: Global, program: &[Insn]) -> Result<Vec<u8>, AllocError>
    requires { length program.now ≤ 4096 }
    ensures { IfOk result (λ bytes. insns_of bytes.items ≡ program.now) }
{
    let mut bytes = vec![in alloc; 0u8; 8 * program.len()]?;
    encode_into(program, &mut bytes);
    Ok(bytes)
}

// The bytes of a program, if the kernel accepts it.
fn accepted(alloc: Global, program: &[Insn]) -> Result<Vec<u8>, Unflat>
    requires { length program.now ≤ 4096 }
    ensures same { IfOk result (λ bytes. insns_of bytes.items ≡ program.now) }
    ensures filter { IfOk result (λ bytes. IsFilter bytes.items) }
    ensures fault { IfErr result (λ e. place_of e ≡ None) }
    ensures short { result ≡ Err TooLong → ⊥ }
{
    let Ok(bytes) = encoded(alloc, program) else {
        return Err(Unflat::OutOfMemory);
    };
    if !is_filter(&bytes) {
        return Err(Unflat::Made);
    }
    Ok(bytes)
}

// The filter at a place above the program of those before it.
fn next_above(
    alloc: Global,
    filter: &[u8],
    place: usize,
    older: &[Insn],
) -> Result<Vec<Insn>, Unflat>
    requires { spec.ArePlain older.now }
    ensures filter { IfOk result (λ _. IsFilter filter.now) }
    ensures above { IfOk result (λ program. spec.IsAbove (insns_of filter.now) older.now program.items) }
    ensures plain { IfOk result (λ program. spec.ArePlain program.items) }
    ensures small { IfOk result (λ program. length program.items ≤ 4096) }
    ensures most { IfOk result (λ program. length program.items ≤ most_above (length older.now) (insns_of filter.now)) }
    ensures fault { IfErr result (SaysOf place filter.now) }
    ensures long { result ≡ Err TooLong → 4096 < most_above (length older.now) (insns_of filter.now) }
{
    let newer = match plain_insns(alloc, filter, place) {
        Ok(newer) => newer,
        Err(why) => return Err(why),
    };
    match above(alloc, &newer, older) {
        Ok(program) => Ok(program),
        Err(limit) => Err(limit.told()),
    }
}

// The program that answers as filters do, which were loaded in this order.
fn all_above(alloc: Global, filters: &[Vec<u8>]) -> Result<Vec<Insn>, Unflat>
    ensures small { IfOk result (λ program. length program.items ≤ 4096) }
    ensures right { IfOk result (λ program. spec.AnswersAs (map (λ f. f.items) filters.now) program.items) }
    ensures fault { IfErr result (λ e. SaysAt (place_of e) (map (λ f. f.items) filters.now) e) }
    ensures long { result ≡ Err TooLong → CanBeLong (map (λ f. f.items) filters.now) }
{
    let Ok(mut program) = lowest(alloc) else {
        return Err(Unflat::OutOfMemory);
    };
    for (place, filter) in filters.iter().enumerate() {
        program = match next_above(alloc, filter, place, &program) {
            Ok(next) => next,
            Err(why) => return Err(why),
        };
    }
    Ok(program)
}

/// The bytes of one filter that answers as these filters do, which were loaded in this order; or why there is none.
pub fn flatten(alloc: Global, filters: &[Vec<u8>]) -> Result<Vec<u8>, Unflat>
    ensures flat { IfOk result (λ made. IsFlat (map (λ f. f.items) filters.now) made.items) }
    ensures fault { IfErr result (Says (map (λ f. f.items) filters.now)) }
{
    match all_above(alloc, filters) {
        Ok(program) => accepted(alloc, &program),
        Err(why) => Err(why),
    }
}
