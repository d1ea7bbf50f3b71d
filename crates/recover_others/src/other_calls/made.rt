//! From a filter to the one with which it is judged.
ghost use Rattle.std.specs.Prelude.{◌≡◌, ◌≤◌, ◌+◌, IfErr, IfOk, None, length};
ghost use Rattle.bpf_insn.specs.Bytes.{insns_of, view_fault};
ghost use Rattle.kernel_check.specs.Accepted.{IsAccepted};
ghost use Rattle.recover_others.specs.Guarded.{IsGuarded};
ghost use Rattle.recover_others.specs.Reason.{IsReason, made_length};
ghost use Rattle.recover_others.specs.inner.Guard as spec;
ghost use Rattle.recover_others.specs.inner.Limit.{IsLimit};

use crate::other_calls::guard::guard;
use crate::other_calls::turned::base_of;
use crate::other_calls::unguarded::{Unguarded, told};
use bpf_insn::{Insn, MAX_INSNS, encode_into};
use flatten::plain_insns;
use machines::Arch;
use std::alloc::{AllocError, Global};

// The program that is made of another, which has fewer instructions.
fn made_of(alloc: Global, machines: &[Arch], program: &[Insn]) -> Result<Vec<Insn>, Unguarded>
    requires { length program.now ≤ 4096 }
    ensures made { IfOk result (λ all. all.items ≡ spec.guard machines.now (length program.now + 1) (spec.base program.now)) }
    ensures limit { IfErr result (IsLimit (made_length machines.now program.now)) }
{
    let Ok(base) = base_of(alloc, program) else {
        return Err(Unguarded::OutOfMemory);
    };
    guard(alloc, machines, program.len() + 1, base)
}

// The bytes of a program.
fn encoded(alloc: Global, program: &[Insn]) -> Result<Vec<u8>, AllocError>
    requires { length program.now ≤ 4096 }
    ensures { IfOk result (λ bytes. insns_of bytes.items ≡ program.now) }
{
    let mut bytes = vec![in alloc; 0u8; 8 * program.len()]?;
    encode_into(program, &mut bytes);
    Ok(bytes)
}

// The bytes of a program, unless it has too many instructions.
fn spelled(alloc: Global, program: &[Insn]) -> Result<Vec<u8>, Unguarded>
    ensures bytes { IfOk result (λ bytes. insns_of bytes.items ≡ program.now) }
    ensures limit { IfErr result (IsLimit (length program.now)) }
{
    if program.len() > MAX_INSNS {
        return Err(Unguarded::TooLong);
    }
    match encoded(alloc, program) {
        Ok(bytes) => Ok(bytes),
        Err(_no_memory) => Err(Unguarded::OutOfMemory),
    }
}

/// The bytes of a filter that gives the calls of machines what this filter gives, and kills each other just where this one allows it.
pub fn guarded(alloc: Global, machines: &[Arch], filter: &[u8]) -> Result<Vec<u8>, Unguarded>
    ensures program { IfOk result (λ _. view_fault filter.now ≡ None) }
    ensures accepted { IfOk result (λ _. IsAccepted (insns_of filter.now)) }
    ensures guarded { IfOk result (λ made. IsGuarded machines.now (insns_of filter.now) (insns_of made.items)) }
    ensures reason { IfErr result (IsReason machines.now filter.now) }
{
    let program = match plain_insns(alloc, filter, 0) {
        Ok(program) => program,
        Err(why) => return Err(told(why)),
    };
    match made_of(alloc, machines, &program) {
        Ok(made) => spelled(alloc, &made),
        Err(why) => Err(why),
    }
}
