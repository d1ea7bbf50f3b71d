//! seccomp and prctl: a further filter.
ghost use Rattle.std.specs.Prelude.{◌≡◌, ◌++◌, ◌∷◌, [], All, IfOk, MatchOption, List, Some, count_by, false, find, option_map, true, vec_len, ◌<◌};
ghost use Rattle.kernel_check.specs.Lent.{accepted_insns};
ghost use Rattle.processes.specs.Attached.{attached_of};
ghost use Rattle.processes.specs.Attached.Attached.{Refused, Taken};
ghost use Rattle.processes.specs.Kernel.{conflict_answer, conflicts, listener_after, load_answer};
ghost use Rattle.processes.specs.Tasks.{Filter, is_live};
ghost use Rattle.processes.specs.Kept.{all_of, process_of};
ghost use Rattle.processes.specs.inner.Table.{bare_of, given, is_taker};

use crate::container::Container;
use crate::errno::{EBUSY, EFAULT, EINVAL, ENOMEM, ESRCH};
use crate::outcome::Outcome;
use crate::row::Loading;
use crate::store::Store;
use crate::task::{Task, is_live};
use crate::tasks::{Which, is_meant};
use bpf_insn::Program;
use kernel_check::{Accepted, accept};
use std::alloc::{AllocError, Global};

// The most instructions that a task's filters count for, with a further one.
const MOST_INSNS: u32 = 32768;

// The program that attached bytes are, if the kernel accepts it.
fn accepted_in(bytes: &[u8]) -> Option<Accepted<'_>>
    ensures { MatchOption result (attached_of (Some bytes.now) ≡ Refused)
        (λ accepted. attached_of (Some bytes.now) ≡ Taken (accepted_insns accepted)) }
{
    match Program::view(bytes) {
        Err(_) => None,
        Ok(program) => match accept(&program) {
            Err(_) => None,
            Ok(accepted) => Some(accepted),
        },
    }
}

// Whether a task gets the filter: a live one that is meant.
fn is_taker<H>(which: Which, task: &Task<H>) -> bool
    ensures { result ≡ is_taker which (bare_of task.now) }
{
    is_meant(which, task) && is_live(task)
}

// Whether a task is another live one of the caller's group, with filters that are no oldest part of
// the caller's.
fn conflicts<S: Store>(store: &S, caller: &Task<S::Handle>, task: &Task<S::Handle>) -> bool
    ensures { let seen = S.filters_of store.now in
        result ≡ conflicts (process_of seen caller.now) (process_of seen task.now) }
{
    let siblings = Which::Siblings(u64::from(caller.group), u64::from(caller.number));
    is_taker(siblings, task) && !store.is_oldest_part(&task.filters, &caller.filters)
}

// The number of the first task that conflicts.
fn first_conflict<S: Store>(
    store: &S,
    tasks: &[Task<S::Handle>],
    caller: &Task<S::Handle>,
) -> Option<u32>
    ensures { let seen = S.filters_of store.now in result
        ≡ option_map (λ u. u.number) (find (conflicts (process_of seen caller.now)) (all_of seen tasks.now)) }
{
    for task in tasks {
        if conflicts(store, caller, task) {
            return Some(task.number);
        }
    }
    None
}

// How many tasks get the filter.
fn how_many<H>(tasks: &[Task<H>], takers: Which) -> usize
    ensures { result ≡ count_by (λ t. is_taker takers (bare_of t)) tasks.now }
{
    tasks.iter().filter(|task| is_taker(takers, task)).count()
}

// Which filter has the listener after a load.
fn listener_after(how: Loading, load: u32, old: Option<u32>) -> Option<u32>
    ensures { result ≡ listener_after how load old }
{
    if how.listens { Some(load) } else { old }
}

// What a load is answered that was done.
fn load_answer(how: Loading, load: u32) -> Outcome
    ensures { result ≡ load_answer how load }
{
    if how.listens {
        Outcome::Done(load)
    } else {
        Outcome::Done(0)
    }
}

// What a load is answered where the task of this number conflicts.
fn conflict_answer(how: Loading, number: u32) -> Outcome
    ensures { result ≡ conflict_answer how number }
{
    if how.tells_error {
        Outcome::Failed(ESRCH)
    } else {
        Outcome::Done(number)
    }
}

// Gives a task the last of the handles, if it gets one.
fn give<H: Drop>(task: &mut Task<H>, takers: Which, listener: Option<u32>, handles: &mut Vec<H>)
    requires { is_taker takers (bare_of task.old) ≡ true → 0 < vec_len handles.old }
    ensures taker { is_taker takers (bare_of task.old) ≡ true → (handle : H)
        × (handles.old.items ≡ handles.new.items ++ handle ∷ [])
        × ((seen : H → List Filter) → process_of seen task.new ≡ record (process_of seen task.old) { filters = seen handle; listener = listener }) }
    ensures other { is_taker takers (bare_of task.old) ≡ false → (handles.new.items ≡ handles.old.items)
        × ((seen : H → List Filter) → process_of seen task.new ≡ process_of seen task.old) }
{
    if is_taker(takers, task) {
        if let Some(handle) = handles.pop() {
            task.filters = handle;
            task.listener = listener;
        }
    }
}

// Gives each task that gets the filter one of the handles.
fn give_each<H: Drop>(
    tasks: &mut [Task<H>],
    takers: Which,
    listener: Option<u32>,
    mut handles: Vec<H>,
)
    requires { vec_len handles ≡ count_by (λ t. is_taker takers (bare_of t)) tasks.old }
    ensures { (seen : H → List Filter) (filters : List Filter) → All (λ handle. seen handle ≡ filters) handles.items
        → all_of seen tasks.new ≡ given (is_taker takers) listener filters (all_of seen tasks.old) }
{
    for task in tasks.iter_mut() {
        give(task, takers, listener, &mut handles);
    }
}

// Gives each task that gets the filter one of the lists.
fn give_all<H: Drop>(
    tasks: &mut Vec<Task<H>>,
    takers: Which,
    listener: Option<u32>,
    handles: Vec<H>,
)
    requires { vec_len handles ≡ count_by (λ t. is_taker takers (bare_of t)) tasks.old.items }
    ensures { (seen : H → List Filter) (filters : List Filter) → All (λ handle. seen handle ≡ filters) handles.items
        → all_of seen tasks.new.items ≡ given (is_taker takers) listener filters (all_of seen tasks.old.items) }
{
    give_each(tasks, takers, listener, handles);
}

impl<S: Store> Container<S> {
    ghost use Rattle.std.specs.Prelude.{◌≡◌, ◌+◌, ◌-◌, ◌^◌, ◌<◌, ◌≤◌, Some, IfOk, OnErr, length, option_map, slice_get, true, vec_len};
    ghost use Rattle.kernel_check.specs.Lent.{accepted_insns};
    ghost use Rattle.processes.specs.Attached.{attached_of, is_taken};
    ghost use Rattle.processes.specs.Tasks.{Process};
    ghost use Rattle.processes.specs.Stores.{size_beside};
    ghost use Rattle.processes.specs.declared.task.Task.{Task as One};
    ghost use Rattle.processes.specs.Kernel.{load, load_program, takes, with_filter};
    ghost use Rattle.processes.specs.Table.{processes_of};
    ghost use Rattle.processes.specs.Kept.{process_of};
    ghost use Rattle.processes.specs.inner.Table.{is_taker};

    // The next load: a further filter for the task at a place, or for all live tasks of its group.
    fn add_filter(
        &mut self,
        alloc: Global,
        at: usize,
        takers: Which,
        how: Loading,
        program: &Accepted<'_>,
    ) -> Result<Outcome, AllocError>
        requires place { at < vec_len self.old.tasks }
        requires numbers { S.loads_of self.old.store < 2 ^ 32 - 1 }
        requires size { (t : One S.Handle) → slice_get self.old.tasks.items at ≡ Some t
            → length (accepted_insns program.now) + size_beside (S.filters_of self.old.store t.filters) ≤ 32768 }
        ensures ok { IfOk result (λ o. (t : One S.Handle)
            → slice_get self.old.tasks.items at ≡ Some t
            → ((u : Process) → is_taker takers u ≡ takes how.for_all (process_of (S.filters_of self.old.store) t) u)
            → (o, processes_of self.new) ≡ with_filter how (accepted_insns program.now) (process_of (S.filters_of self.old.store) t) (processes_of self.old)) }
        ensures err { OnErr result (processes_of self.new ≡ processes_of self.old) }
    {
        let count = how_many(&self.tasks, takers);
        let load = self.store.loads() + 1;
        let caller = &self.tasks[at];
        let listener = listener_after(how, load, caller.listener);
        let handles = self
            .store
            .with_newer(alloc, &caller.filters, program, count)?;
        give_all(&mut self.tasks, takers, listener, handles);
        Ok(load_answer(how, load))
    }

    // A program that the kernel accepts, and that no listener is in the way of.
    fn load_program(
        &mut self,
        alloc: Global,
        at: usize,
        how: Loading,
        program: &Accepted<'_>,
    ) -> Result<Outcome, AllocError>
        requires { at < vec_len self.old.tasks }
        ensures ok { IfOk result (λ o. (t : One S.Handle) → slice_get self.old.tasks.items at ≡ Some t
            → (o, processes_of self.new) ≡ load_program how (process_of (S.filters_of self.old.store) t)
            (accepted_insns program.now) (processes_of self.old)) }
        ensures err { OnErr result (processes_of self.new ≡ processes_of self.old) }
    {
        let caller = &self.tasks[at];
        let size = program.program().len() as u32 + self.store.size(&caller.filters);
        if size > MOST_INSNS {
            return Ok(Outcome::Failed(ENOMEM));
        }
        if self.store.loads() == u32::MAX {
            return Ok(Outcome::Failed(ENOMEM));
        }
        let (number, group) = (u64::from(caller.number), u64::from(caller.group));
        if !how.for_all {
            return self.add_filter(alloc, at, Which::One(number), how, program);
        }
        if let Some(number) = first_conflict(&self.store, &self.tasks, caller) {
            return Ok(conflict_answer(how, number));
        }
        self.add_filter(alloc, at, Which::Group(group), how, program)
    }

    /// A further filter for the task at a place, or for all live tasks of its group.
    pub(crate) fn load(
        &mut self,
        alloc: Global,
        at: usize,
        how: Loading,
        attached: Option<&[u8]>,
    ) -> Result<Outcome, AllocError>
        requires { at < vec_len self.old.tasks }
        ensures ok { let given = attached_of (option_map (λ a. a.now) attached.entry) in
            IfOk result (λ o. (t : One S.Handle) → slice_get self.old.tasks.items at ≡ Some t
            → (o, processes_of self.new) ≡ load how (process_of (S.filters_of self.old.store) t) given (processes_of self.old)) }
        ensures err { OnErr result (processes_of self.new ≡ processes_of self.old) }
        ensures growth { let given = attached_of (option_map (λ a. a.now) attached.entry) in
            OnErr result (is_taken given ≡ true) }
    {
        let Some(bytes) = attached else {
            return Ok(Outcome::Failed(EFAULT));
        };
        let Some(program) = accepted_in(bytes) else {
            return Ok(Outcome::Failed(EINVAL));
        };
        if how.listens && self.tasks[at].listener.is_some() {
            return Ok(Outcome::Failed(EBUSY));
        }
        self.load_program(alloc, at, how, &program)
    }
}
