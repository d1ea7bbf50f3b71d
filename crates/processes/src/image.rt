//! execve: a new image for a task, which goes on alone in its group.
ghost use Rattle.std.specs.Prelude.{ℕ, ◌≡◌, ◌<◌, IsTrue, List, Some, map, slice_get, vec_len};
ghost use Rattle.processes.specs.declared.task.Task.{Task as Kept};
ghost use Rattle.processes.specs.Kernel.{renewed, take_over};
ghost use Rattle.processes.specs.Tasks.{Filter, ascends};
ghost use Rattle.processes.specs.Kept.{all_of, process_of};
ghost use Rattle.processes.specs.inner.Table.{bare_of};

use crate::container::Container;
use crate::outcome::End;
use crate::store::Store;
use crate::task::Task;
use crate::tasks::{Which, end_where, index_of};

// The task goes on under its group's number, with one more image.
fn renew<H>(task: &mut Task<H>)
    ensures { (seen : H → List Filter) → process_of seen task.new ≡ renewed (process_of seen task.old) }
{
    task.number = task.group;
    task.images = task.images.saturating_add(1);
}

// The task at a place takes the entry that has its group's number, and leaves its own.
fn take_over<H: Drop>(tasks: &mut Vec<Task<H>>, at: usize)
    requires place { at < vec_len tasks.old }
    requires ordered { (top : ℕ) × IsTrue (ascends 0 (map bare_of tasks.old.items) top) }
    ensures { (seen : H → List Filter) (t : Kept H) → slice_get tasks.old.items at ≡ Some t
        → all_of seen tasks.new.items ≡ take_over (process_of seen t) (all_of seen tasks.old.items) }
{
    let caller = &tasks[at];
    let group = caller.group;
    if caller.number == group {
        renew(&mut tasks[at]);
        return;
    }
    let mut caller = tasks.remove(at);
    renew(&mut caller);
    if let Some(place) = index_of(tasks, u64::from(group)) {
        tasks[place] = caller;
    }
}

impl<S: Store> Container<S> {
    ghost use Rattle.std.specs.Prelude.{◌≡◌, ◌<◌, Some, slice_get, vec_len};
    ghost use Rattle.processes.specs.declared.task.Task.{Task as Kept};
    ghost use Rattle.processes.specs.Kernel.{executed};
    ghost use Rattle.processes.specs.Tasks.{with_tasks};
    ghost use Rattle.processes.specs.Table.{processes_of};
    ghost use Rattle.processes.specs.Kept.{process_of};

    /// A new image for the task at a place. The other live tasks of its group end.
    pub(crate) fn execute(&mut self, at: usize)
        requires { at < vec_len self.old.tasks }
        ensures { let ps = processes_of self.old in
            (t : Kept S.Handle) → slice_get self.old.tasks.items at ≡ Some t
            → processes_of self.new ≡ with_tasks ps (executed (process_of (S.filters_of self.old.store) t) ps.tasks) }
    {
        let caller = &self.tasks[at];
        let siblings = Which::Siblings(u64::from(caller.group), u64::from(caller.number));
        end_where(&mut self.tasks, siblings, End::Signal(9));
        take_over(&mut self.tasks, at);
    }
}
