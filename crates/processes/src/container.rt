//! One container: its tasks, and how they come to be and end.
ghost use Rattle.std.specs.Prelude.{◌≡◌, IsTrue};
ghost use Rattle.processes.specs.Tasks.{ascends};
ghost use Rattle.processes.specs.Kept.{all_of};
ghost use Rattle.processes.specs.Stores.{is_rooted};

use crate::errno::{EAGAIN, EINVAL, ESRCH};
use crate::outcome::{End, Outcome, TaskView};
use crate::signals::{LAST_SIGNAL, is_fatal};
use crate::store::Store;
use crate::task::Task;
use crate::tasks::{Which, end_where, group_lives, index_of};
use kernel_check::Accepted;
use machines::Arch;
use std::alloc::{AllocError, Global};

// The most tasks that are ever made in a container.
const MOST_TASKS: u32 = 1024;

/// A container that was started.
#[derive(Drop)]
pub(crate) struct Container<S: Store> {
    pub(crate) native: Arch,
    /// By their numbers, which ascend.
    pub(crate) tasks: Vec<Task<S::Handle>>,
    /// How many tasks were ever made.
    pub(crate) made: u32,
    /// The filters of the tasks.
    pub(crate) store: S,
    ghost ordered: { IsTrue (ascends 0 (all_of (S.filters_of store) tasks.items) made) },
    ghost rooted: { IsTrue (is_rooted (all_of (S.filters_of store) tasks.items)) },
}

impl<S: Store> Container<S> {
    ghost use Rattle.std.specs.Prelude.{◌<◌, Some, None, IfOk, OnErr, slice_get, true, vec_len};
    ghost use Rattle.kernel_check.specs.Lent.{accepted_insns};
    ghost use Rattle.processes.specs.declared.task.Task.{Task as Kept};
    ghost use Rattle.processes.specs.Kernel.{cloned, forked, has_room, killed, signalled, with_new, with_next};
    ghost use Rattle.processes.specs.Stores.{has_filter};
    ghost use Rattle.processes.specs.Tasks.{admitted, ended, lives, program_judge};
    ghost use Rattle.processes.specs.Views.{view_of_task};
    ghost use Rattle.processes.specs.Table.{processes_of};
    ghost use Rattle.processes.specs.Kept.{process_of};
    ghost use Rattle.processes.specs.inner.Table.{is_meant};

    /// A container with task 1 alone, and this program as its only filter.
    pub(crate) fn begun(
        alloc: Global,
        native: Arch,
        program: &Accepted<'_>,
    ) -> Result<Container<S>, AllocError>
        ensures { IfOk result (λ container. processes_of container
            ≡ admitted native (program_judge (accepted_insns program.now))) }
    {
        let (store, filters) = S::first(alloc, native, program)?;
        let mut tasks = Vec::with_capacity(alloc, 1)?;
        tasks.push(Task {
            number: 1,
            group: 1,
            parent: 0,
            images: 0,
            end: None,
            filters,
            listener: None,
        })?;
        Ok(Container {
            native,
            tasks,
            made: 1,
            store,
        })
    }

    /// Whether the container runs: a task of group 1 lives.
    pub(crate) fn lives(&self) -> bool
        ensures { result ≡ lives (processes_of self.now) }
    {
        group_lives(&self.tasks, 1)
    }

    /// Ends the live tasks that are meant, and all others where none of group 1 is left.
    pub(crate) fn end(&mut self, which: Which, end: End)
        ensures { processes_of self.new ≡ ended (is_meant which) end (processes_of self.old) }
    {
        end_where(&mut self.tasks, which, end);
        if !self.lives() {
            end_where(&mut self.tasks, Which::All, End::Signal(9));
        }
    }

    // A new task, with the next number.
    fn add(
        &mut self,
        group: u32,
        parent: u32,
        filters: S::Handle,
        listener: Option<u32>,
    ) -> Result<Outcome, AllocError>
        requires room { self.old.made < 1024 }
        requires rooted { has_filter (S.filters_of self.old.store filters) ≡ true }
        ensures ok { IfOk result (λ o. (o, processes_of self.new) ≡ with_next
            (λ n. record {
              number = n;
              group = group;
              parent = parent;
              images = 0;
              end = None;
              filters = S.filters_of self.old.store filters;
              listener = listener;
            }) (processes_of self.old)) }
        ensures err { OnErr result (processes_of self.new ≡ processes_of self.old) }
    {
        let number = self.made + 1;
        self.tasks.push(Task {
            number,
            group,
            parent,
            images: 0,
            end: None,
            filters,
            listener,
        })?;
        self.made = number;
        Ok(Outcome::Done(number))
    }

    /// A new task with a group of its own, and the filters of the task at a place.
    pub(crate) fn fork(&mut self, alloc: Global, at: usize) -> Result<Outcome, AllocError>
        requires { at < vec_len self.old.tasks }
        ensures ok { IfOk result (λ o. (t : Kept S.Handle) → slice_get self.old.tasks.items at ≡ Some t
            → (o, processes_of self.new) ≡ with_new (forked (process_of (S.filters_of self.old.store) t)) (processes_of self.old)) }
        ensures err { OnErr result (processes_of self.new ≡ processes_of self.old) }
        ensures growth { OnErr result (has_room (processes_of self.old) ≡ true) }
    {
        if self.made >= MOST_TASKS {
            return Ok(Outcome::Failed(EAGAIN));
        }
        let caller = &self.tasks[at];
        let (parent, listener) = (caller.group, caller.listener);
        let filters = self.store.copied(alloc, &caller.filters)?;
        self.add(self.made + 1, parent, filters, listener)
    }

    /// A new task of the group of the task at a place, with its filters.
    pub(crate) fn clone_thread(&mut self, alloc: Global, at: usize) -> Result<Outcome, AllocError>
        requires { at < vec_len self.old.tasks }
        ensures ok { IfOk result (λ o. (t : Kept S.Handle) → slice_get self.old.tasks.items at ≡ Some t
            → (o, processes_of self.new) ≡ with_new (cloned (process_of (S.filters_of self.old.store) t)) (processes_of self.old)) }
        ensures err { OnErr result (processes_of self.new ≡ processes_of self.old) }
        ensures growth { OnErr result (has_room (processes_of self.old) ≡ true) }
    {
        if self.made >= MOST_TASKS {
            return Ok(Outcome::Failed(EAGAIN));
        }
        let caller = &self.tasks[at];
        let (group, parent, listener) = (caller.group, caller.parent, caller.listener);
        let filters = self.store.copied(alloc, &caller.filters)?;
        self.add(group, parent, filters, listener)
    }

    /// A signal to a group from one of the tasks: group 1 is never ended from inside.
    pub(crate) fn kill(&mut self, target: u64, sig: u64) -> Outcome
        ensures { (result, processes_of self.new) ≡ killed target sig (processes_of self.old) }
    {
        if sig > LAST_SIGNAL {
            return Outcome::Failed(EINVAL);
        }
        if !group_lives(&self.tasks, target) {
            return Outcome::Failed(ESRCH);
        }
        if target == 1 {
            return Outcome::Done(0);
        }
        if is_fatal(sig) {
            self.end(Which::Group(target), End::Signal(sig as u8));
        }
        Outcome::Done(0)
    }

    /// A signal from outside to group 1.
    pub(crate) fn signal(&mut self, sig: u64)
        ensures { processes_of self.new ≡ signalled sig (processes_of self.old) }
    {
        if is_fatal(sig) {
            self.end(Which::Group(1), End::Signal(sig as u8));
        }
    }

    /// What is shown of a task, live or ended.
    pub(crate) fn view(&self, number: u64) -> Option<TaskView>
        ensures { result ≡ view_of_task number (processes_of self.now) }
    {
        let at = index_of(&self.tasks, number)?;
        let task = &self.tasks[at];
        Some(TaskView {
            group: task.group,
            parent: task.parent,
            images: task.images,
            filters: self.store.len(&task.filters),
            end: task.end,
        })
    }
}
