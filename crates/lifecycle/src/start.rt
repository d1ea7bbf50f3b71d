//! The first call of a container.
ghost use Rattle.std.specs.Prelude.{◌≡◌, ℕ, List, None, Some, IfOk, OnOk, OnErr, false};
ghost use Rattle.std.specs.Option.{option_map};
ghost use Rattle.cert_check.specs.Checked.{profile_of};
ghost use Rattle.processes.specs.Begin.{execve_of};
ghost use Rattle.processes.specs.First.{by_program};
ghost use Rattle.processes.specs.Kernel.{signalled};
ghost use Rattle.processes.specs.Tasks.{Processes, lives};
ghost use Rattle.processes.specs.Views.{Same, SetAt};
ghost use Rattle.lifecycle.specs.Steps.{first_call, left_after, start_reply};

use crate::command::Reply;
use crate::fault::Refusal;
use call_record::Record;
use call_tables::call_number;
use cert_check::Checked;
use machines::Arch;
use processes::{Id, Kernel, Outcome};
use std::alloc::AllocError;

// SIGKILL.
const KILL: u64 = 9;

// The kernel gets the container, and its task 1 presents the call with which a container begins.
pub(crate) fn begin<K: Kernel>(
    kernel: &mut K,
    id: &Id,
    checked: Checked<'_>,
) -> Result<Reply, AllocError>
    requires { K.processes kernel.old id.now ≡ None }
    ensures reply { let call = first_call (profile_of checked.entry).native (by_program checked.entry) in
        IfOk result (λ r. r ≡ start_reply call.0) }
    ensures ok { let call = first_call (profile_of checked.entry).native (by_program checked.entry) in
        OnOk result (SetAt (K.processes kernel.old) (K.processes kernel.new) id.now (Some (left_after call.0 call.1))) }
    ensures err { OnErr result (Same (K.processes kernel.old) (K.processes kernel.new)) }
{
    kernel.admit(id, checked)?;
    let first = execve_record(checked.profile().native());
    match kernel.present(id, 1, &first, None, None) {
        Ok(outcome) => Ok(settle(kernel, id, outcome)),
        Err(error) => {
            kernel.expel(id);
            Err(error)
        }
    }
}

// Where the filter denied that call, task 1 ends.
fn settle<K: Kernel>(kernel: &mut K, id: &Id, outcome: Outcome) -> Reply
    requires { (v : ℕ) → outcome ≡ Outcome.Denied v → (ps : Processes) × (K.processes kernel.old id.now ≡ Some ps) × (lives ps ≡ false → signalled 9 ps ≡ ps) }
    ensures reply { result ≡ start_reply outcome }
    ensures left { SetAt (K.processes kernel.old) (K.processes kernel.new) id.now (option_map (left_after outcome) (K.processes kernel.old id.now)) }
{
    match outcome {
        Outcome::Denied(word) => {
            if kernel.live(id) {
                kernel.signal(id, KILL);
            }
            Reply::Refused(Refusal::StartDenied(word))
        }
        Outcome::Done(_) => Reply::Accepted,
        Outcome::Failed(_) => Reply::Accepted,
        Outcome::Absent => Reply::Accepted,
        Outcome::Answered(_) => Reply::Accepted,
        Outcome::Declined(_) => Reply::Accepted,
        Outcome::NoTask => Reply::Accepted,
    }
}

// The record of an execve without arguments.
fn execve_record(native: Arch) -> Record
    ensures { result ≡ execve_of native }
{
    Record {
        nr: call_number(native, "execve").unwrap_or(0),
        arch: native.token(),
        ip: 0,
        args: [0; 6],
    }
}
