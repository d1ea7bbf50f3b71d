//! What is written of a filter before it is judged.
use crate::guess::machines_of;
use crate::member::with_member;
use crate::other_calls::guarded;
use crate::unallowed::Unallowed;
use bpf_insn::Program;
use kernel_check::accept;
use machines::Arch;
use recover::{Passed, Unsaid, draft_of};
use std::alloc::Global;

// The machines that seem to be listed.
fn listed(alloc: Global, native: Arch, filter: &[u8]) -> Result<Vec<Arch>, Unallowed> {
    let program = match Program::view(filter) {
        Ok(program) => program,
        Err(fault) => return Err(Unallowed::Unsaid(Unsaid::View(fault))),
    };
    match accept(&program) {
        Ok(accepted) => Ok(machines_of(alloc, &accepted, native)?),
        Err(refused) => Err(Unallowed::Unsaid(Unsaid::Kernel(refused))),
    }
}

/// The bundle that seems to say what the filter of these bytes answers to calls of listed machines.
pub(crate) fn drafted(alloc: Global, native: Arch, filter: &[u8]) -> Result<String, Unallowed> {
    let machines = listed(alloc, native, filter)?;
    let made = guarded(alloc, &machines, filter)?;
    let passed = Passed {
        unnamed: false,
        x32: false,
        has_stub: false,
    };
    let draft = draft_of(alloc, native, &made, passed)?;
    let text = with_member(alloc, &draft)?;
    Ok(text)
}
