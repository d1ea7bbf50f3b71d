//! The filter behind a stub.
ghost use Rattle.std.specs.Prelude.{◌≡◌, IfOk, IfSome, OnSome};
ghost use Rattle.bpf_insn.specs.Bytes.{insns_of};
ghost use Rattle.kernel_check.specs.Lent.{accepted_insns};
ghost use Rattle.compare.specs.Behind.{AreAccepted, IsBehind};

use crate::behind_runc::stub::{Calls, split};
use bpf_insn::Program;
use kernel_check::{Accepted, accept};
use std::alloc::{AllocError, Global};

/// The calls that runc's stub answers ENOSYS, and the bytes of the filter behind it. Without a stub these are the whole filter.
#[derive(Drop)]
pub struct Behind<'a> {
    pub answered: Vec<Calls>,
    pub rest: &'a [u8],
}

// The program of a filter, if the kernel accepts it.
fn accepted_of(filter: &[u8]) -> Option<Accepted<'_>>
    ensures same { IfSome result (λ program. accepted_insns program ≡ insns_of filter.entry.now) }
    ensures accepted { OnSome result (AreAccepted filter.entry.now) }
{
    let program = match Program::view(filter) {
        Ok(program) => program,
        Err(_) => return None,
    };
    match accept(&program) {
        Ok(accepted) => Some(accepted),
        Err(_) => None,
    }
}

// The bytes of a program that the kernel accepts.
fn bytes_of<'a>(program: &Accepted<'a>) -> &'a [u8]
    ensures same { insns_of result.now ≡ accepted_insns program.now }
    ensures accepted { AreAccepted result.now }
{
    program.program().bytes()
}

// The whole filter, without a stub.
fn whole<'a>(alloc: Global, filter: &'a [u8]) -> Behind<'a>
    ensures { IsBehind filter.entry.now result.rest.now result.answered.items }
{
    Behind {
        answered: Vec::new(alloc),
        rest: filter,
    }
}

/// The filter behind the stub that runc puts in front, if a filter begins with one.
pub fn behind_stub<'a>(alloc: Global, filter: &'a [u8]) -> Result<Behind<'a>, AllocError>
    ensures { IfOk result (λ behind. IsBehind filter.entry.now behind.rest.now behind.answered.items) }
{
    let program = match accepted_of(filter) {
        Some(program) => program,
        None => return Ok(whole(alloc, filter)),
    };
    let stub = match split(alloc, &program)? {
        Some(stub) => stub,
        None => return Ok(whole(alloc, filter)),
    };
    if stub.answered.is_empty() {
        return Ok(whole(alloc, filter));
    }
    Ok(Behind {
        answered: stub.answered,
        rest: bytes_of(&stub.rest),
    })
}
