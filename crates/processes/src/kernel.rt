//! What a kernel offers to whoever runs containers on it.
ghost use Rattle.std.specs.Prelude.{◌≡◌, ◌≤◌, List, ℕ, Option, None, Some, true, IfOk, OnOk, OnErr};
ghost use Rattle.std.specs.Prelude.{option_map, option_and_then};
ghost use Rattle.processes.specs.Attached.{beside_of};
ghost use Rattle.processes.specs.First.{begun_with};
ghost use Rattle.processes.specs.Kernel.{signalled};
ghost use Rattle.processes.specs.Tasks.{Processes};
ghost use Rattle.processes.specs.Views.{Same, SetAt, can_grow_in, lives_in, present_in, view_of_task};

use crate::id::Id;
use crate::outcome::{Outcome, Response, TaskView};
use call_record::Record;
use cert_check::Checked;
use std::alloc::AllocError;

/// A kernel, and the containers that are admitted to it.
pub trait Kernel {
    /// What the kernel has of each container that is admitted, by its id.
    ghost processes: { Self → List ℕ → Option Processes };

    /// Makes task 1 of a container, with the checked filter as its only one.
    fn admit(&mut self, id: &Id, first: Checked<'_>) -> Result<(), AllocError>
        requires { processes self.old id.now ≡ None }
        ensures ok { OnOk result
            (SetAt (processes self.old) (processes self.new) id.now (Some (begun_with first.entry))) }
        ensures err { OnErr result (Same (processes self.old) (processes self.new)) };

    /// A task presents a record, perhaps with a program attached. A listener that is told of it responds this.
    ///
    /// Memory is taken only for a call that is carried out and that makes a task, or loads a program that the kernel
    /// accepts.
    fn present(
        &mut self,
        id: &Id,
        task: u64,
        rec: &Record,
        attached: Option<&[u8]>,
        response: Option<Response>,
    ) -> Result<Outcome, AllocError>
        ensures outcome { let given = beside_of (option_map (λ a. a.now) attached.entry) response in
            IfOk result (λ o. o ≡ (present_in task rec.now given (processes self.old id.now)).0) }
        ensures ok { let given = beside_of (option_map (λ a. a.now) attached.entry) response in
            OnOk result (SetAt (processes self.old) (processes self.new) id.now
            (present_in task rec.now given (processes self.old id.now)).1) }
        ensures err { OnErr result (Same (processes self.old) (processes self.new)) }
        ensures growth { let given = beside_of (option_map (λ a. a.now) attached.entry) response in
            OnErr result (can_grow_in task rec.now given (processes self.old id.now) ≡ true) };

    /// A signal from outside to all tasks of group 1, of which one lives.
    fn signal(&mut self, id: &Id, sig: u64)
        requires live { lives_in (processes self.old id.now) ≡ true }
        requires known { sig ≤ 64 }
        ensures { SetAt (processes self.old) (processes self.new) id.now
            (option_map (signalled sig) (processes self.old id.now)) };

    /// Forgets a container, if it is admitted.
    fn expel(&mut self, id: &Id)
        ensures { SetAt (processes self.old) (processes self.new) id.now None };

    /// What is shown of a task, live or ended.
    fn task(&self, id: &Id, task: u64) -> Option<TaskView>
        ensures { result ≡ option_and_then (view_of_task task) (processes self.now id.now) };

    /// Whether a task of group 1 lives.
    fn live(&self, id: &Id) -> bool
        ensures { result ≡ lives_in (processes self.now id.now) };
}
