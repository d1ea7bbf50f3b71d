//! What becomes of a call: the verdict of the task's filters, a listener's response, and the table of calls.
ghost use Rattle.std.specs.Prelude.{◌≡◌};
ghost use Rattle.processes.specs.Kernel.{is_same, responded};

use crate::container::Container;
use crate::errno::EINVAL;
use crate::outcome::{End, Outcome, Response};
use crate::row::{Row, row_of};
use crate::store::Store;
use crate::tasks::{Which, live_index};
use call_record::{Ends, Record, Word, lets_through};
use std::alloc::{AllocError, Global};

// Whether two load numbers, of which each may be none, are the same number.
fn is_same(left: Option<u32>, right: Option<u32>) -> bool
    ensures { result ≡ is_same left right }
{
    match (left, right) {
        (Some(left), Some(right)) => left == right,
        _ => false,
    }
}

// What a call with this verdict is answered whose listener was told of it, or `None` where it is carried out.
fn responded(word: Word, response: Option<Response>) -> Option<Outcome>
    ensures { result ≡ responded word response }
{
    match response {
        None => Some(Outcome::Denied(word)),
        Some(Response::Value(value)) => Some(Outcome::Answered(value)),
        Some(Response::Error(errno)) => Some(Outcome::Declined(errno)),
        Some(Response::Continue) => None,
    }
}

impl<S: Store> Container<S> {
    ghost use Rattle.std.specs.Prelude.{◌≡◌, ◌<◌, IfOk, OnErr, Some, option_map, slice_get, true, vec_len};
    ghost use Rattle.call_record.specs.Ends.{ends_of};
    ghost use Rattle.processes.specs.Attached.{attached_of, beside_of};
    ghost use Rattle.processes.specs.Calls.{row_of};
    ghost use Rattle.processes.specs.declared.task.Task.{Task as One};
    ghost use Rattle.processes.specs.Kernel.{can_grow, carried_out, ended_by_verdict, is_told, may_grow, presented, withheld};
    ghost use Rattle.processes.specs.Table.{processes_of};
    ghost use Rattle.processes.specs.Kept.{process_of};

    // A call of the task at a place that is carried out.
    fn carry_out(
        &mut self,
        alloc: Global,
        at: usize,
        rec: &Record,
        attached: Option<&[u8]>,
    ) -> Result<Outcome, AllocError>
        requires { at < vec_len self.old.tasks }
        ensures ok { let given = attached_of (option_map (λ a. a.now) attached.entry) in
            IfOk result (λ o. (t : One S.Handle) → slice_get self.old.tasks.items at ≡ Some t
            → (o, processes_of self.new) ≡ carried_out (row_of self.old.native rec.now)
            (process_of (S.filters_of self.old.store) t) rec.now given (processes_of self.old)) }
        ensures err { OnErr result (processes_of self.new ≡ processes_of self.old) }
        ensures growth { let given = attached_of (option_map (λ a. a.now) attached.entry) in
            OnErr result (may_grow (row_of self.old.native rec.now) given (processes_of self.old) ≡ true) }
    {
        let caller = &self.tasks[at];
        let (number, group, parent) = (caller.number, caller.group, caller.parent);
        let exit = End::Exit((rec.args[0] & 0xff) as u8);
        match row_of(self.native, rec) {
            Row::NewTask => self.fork(alloc, at),
            Row::NewThread => self.clone_thread(alloc, at),
            Row::Execve => {
                self.execute(at);
                Ok(Outcome::Done(0))
            }
            Row::Exit => {
                self.end(Which::One(u64::from(number)), exit);
                Ok(Outcome::Done(0))
            }
            Row::ExitGroup => {
                self.end(Which::Group(u64::from(group)), exit);
                Ok(Outcome::Done(0))
            }
            Row::Kill => Ok(self.kill(rec.args[0], rec.args[1])),
            Row::GetPid => Ok(Outcome::Done(group)),
            Row::GetTid => Ok(Outcome::Done(number)),
            Row::GetParent => Ok(Outcome::Done(parent)),
            Row::Load(how) => self.load(alloc, at, how, attached),
            Row::NoLoad => Ok(Outcome::Failed(EINVAL)),
            Row::Plain => Ok(Outcome::Done(0)),
            Row::Missing => Ok(Outcome::Absent),
        }
    }

    // What a verdict on a call of the task at a place ends.
    fn end_by_verdict(&mut self, at: usize, word: Word)
        requires { at < vec_len self.old.tasks }
        ensures { (t : One S.Handle) → slice_get self.old.tasks.items at ≡ Some t
            → processes_of self.new
            ≡ ended_by_verdict (ends_of word) (process_of (S.filters_of self.old.store) t) (processes_of self.old) }
    {
        let caller = &self.tasks[at];
        let (number, group) = (u64::from(caller.number), u64::from(caller.group));
        match word.ends() {
            Ends::Nothing => {}
            Ends::Task => self.end(Which::One(number), End::Signal(31)),
            Ends::Group => self.end(Which::Group(group), End::Signal(31)),
        }
    }

    // Whether the listener of the task at a place is told of a call with this verdict.
    fn is_told(&self, at: usize, word: Word, rec: &Record) -> bool
        requires { at < vec_len self.now.tasks }
        ensures { (t : One S.Handle) → slice_get self.now.tasks.items at ≡ Some t
            → result ≡ is_told word rec.now (process_of (S.filters_of self.now.store) t) }
    {
        if word.action() != Word::USER_NOTIF {
            return false;
        }
        let caller = &self.tasks[at];
        is_same(self.store.notifier(&caller.filters, rec), caller.listener)
    }

    // What a call of the task at a place with this verdict is answered, or `None` where it is carried out.
    fn withheld(
        &self,
        at: usize,
        word: Word,
        rec: &Record,
        response: Option<Response>,
    ) -> Option<Outcome>
        requires { at < vec_len self.now.tasks }
        ensures { (t : One S.Handle) → slice_get self.now.tasks.items at ≡ Some t
            → result ≡ withheld word rec.now response (process_of (S.filters_of self.now.store) t) }
    {
        if lets_through(word) {
            return None;
        }
        if !self.is_told(at, word, rec) {
            return Some(Outcome::Denied(word));
        }
        responded(word, response)
    }

    /// A task presents a record, perhaps with a program attached. A listener that is told of it responds this.
    pub(crate) fn present(
        &mut self,
        alloc: Global,
        task: u64,
        rec: &Record,
        attached: Option<&[u8]>,
        response: Option<Response>,
    ) -> Result<Outcome, AllocError>
        ensures ok { let given = beside_of (option_map (λ a. a.now) attached.entry) response in
            IfOk result (λ o. (o, processes_of self.new)
            ≡ presented task rec.now given (processes_of self.old)) }
        ensures err { OnErr result (processes_of self.new ≡ processes_of self.old) }
        ensures growth { let given = beside_of (option_map (λ a. a.now) attached.entry) response in
            OnErr result (can_grow task rec.now given (processes_of self.old) ≡ true) }
    {
        let Some(at) = live_index(&self.tasks, task) else {
            return Ok(Outcome::NoTask);
        };
        let word = self.store.verdict(&self.tasks[at].filters, rec);
        if let Some(outcome) = self.withheld(at, word, rec, response) {
            self.end_by_verdict(at, word);
            return Ok(outcome);
        }
        self.carry_out(alloc, at, rec, attached)
    }
}
