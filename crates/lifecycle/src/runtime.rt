//! Containers over a kernel.
ghost use Rattle.std.specs.Prelude.{◌≡◌, ℕ, List, [], Option, None, true, is_some, if◌then◌else◌};
ghost use Rattle.std.specs.Map.{lookup};
ghost use Rattle.processes.specs.Ids.{is_id};
ghost use Rattle.processes.specs.Views.{lives_in, same_text};
ghost use Rattle.lifecycle.specs.Entries.{started_at};
ghost use Rattle.lifecycle.specs.Listed.{listed};
ghost use Rattle.lifecycle.specs.Sound.{SoundIn, SoundIn-prop};

use crate::command::{Reply, Status};
use crate::entry::{Entry, Phase};
use crate::fault::Refusal;
use crate::register::Register;
use crate::start::begin;
use call_record::Record;
use cert_check::Checked;
use processes::{Id, Kernel, LAST_SIGNAL, Outcome, Response, is_fatal};
use std::alloc::{AllocError, Global};

/// Containers over a kernel.
#[derive(Drop)]
pub struct Runtime<'a, K: Kernel> {
    pub(crate) entries: Register<'a>,
    pub(crate) kernel: K,
    pub(crate) alloc: Global,
    ghost ids: { (q : List ℕ) → is_some (lookup (same_text q) (listed entries)) ≡ true → is_id q ≡ true },
    ghost in_step: { (q : List ℕ) → is_some (K.processes kernel q) ≡ started_at (listed entries) q },
    ghost sound: { (q : List ℕ) → SoundIn (K.processes kernel q) } by { Prim.hlevel SoundIn-prop },
}

// What is kept of a container, under its id.
#[derive(Drop)]
struct Kept<'a> {
    name: Id,
    entry: Entry<'a>,
}

// A container that is there.
#[derive(Drop)]
struct Found<'a> {
    name: Id,
    entry: Entry<'a>,
    status: Status,
}

#[tactic(auto, unfolding(crate::specs::Views::world_of))]
impl<'a, K: Kernel> Runtime<'a, K> {
    ghost use Rattle.std.specs.Prelude.{Some, IfSome, IfNone, IfOk, OnErr, option_copied, slice_get};
    ghost use Rattle.std.specs.Option.{option_map};
    ghost use Rattle.processes.specs.Attached.{beside_of};
    ghost use Rattle.processes.specs.First.{by_program};
    ghost use Rattle.lifecycle.specs.Commands.Command.{Create, Start, Kill, Delete, State, Call};
    ghost use Rattle.lifecycle.specs.Growth.{MayGrow};
    ghost use Rattle.lifecycle.specs.Steps.{step};
    ghost use Rattle.lifecycle.specs.Views.{world_of};
    ghost use Rattle.lifecycle.specs.Worlds.{ids_of};
    ghost use Rattle.lifecycle.specs.inner.Found.{IsFound, IsKept};

    /// A runtime with no containers.
    pub fn new(alloc: Global, kernel: K) -> Self
        requires { (q : List ℕ) → K.processes kernel q ≡ None }
        ensures { world_of result ≡ [] }
    {
        Runtime {
            entries: Register::new(alloc),
            kernel,
            alloc,
        }
    }

    /// Makes a container with this filter.
    pub fn create(&mut self, id: &str, checked: Checked<'a>) -> Result<Reply, AllocError>
        ensures step { IfOk result (λ r. (r, world_of self.new) ≡ step by_program (Create id.now checked.entry) (world_of self.old)) }
        ensures err { OnErr result (world_of self.new ≡ world_of self.old) }
        ensures growth { OnErr result (MayGrow (Create id.now checked.entry) (world_of self.old)) }
    {
        let Some(name) = Id::read(id) else {
            return Ok(Reply::Refused(Refusal::BadId));
        };
        if self.entries.contains(&name) {
            return Ok(Reply::Refused(Refusal::IdTaken));
        }
        let phase = Phase::Made;
        self.entries.insert(name, Entry { checked, phase })?;
        Ok(Reply::Accepted)
    }

    /// Makes the container's task 1, and lets it present the call with which it begins.
    pub fn start(&mut self, id: &str) -> Result<Reply, AllocError>
        ensures step { IfOk result (λ r. (r, world_of self.new) ≡ step by_program (Start id.now) (world_of self.old)) }
        ensures err { OnErr result (world_of self.new ≡ world_of self.old) }
        ensures growth { OnErr result (MayGrow (Start id.now) (world_of self.old)) }
    {
        let Some(Found { name, entry, .. }) = self.find(id) else {
            return Ok(Reply::Refused(Refusal::NoContainer));
        };
        match entry.phase {
            Phase::Made => {
                let reply = begin(&mut self.kernel, &name, entry.checked)?;
                self.entries.come_to(&name, Phase::Started);
                Ok(reply)
            }
            Phase::Started => Ok(Reply::Refused(Refusal::NotCreated)),
            Phase::Ended => Ok(Reply::Refused(Refusal::NotCreated)),
        }
    }

    /// Sends the container's first group a signal.
    pub fn kill(&mut self, id: &str, sig: u64) -> Reply
        ensures { (result, world_of self.new) ≡ step by_program (Kill id.now sig) (world_of self.old) }
    {
        let Some(Found { name, status, .. }) = self.find(id) else {
            return Reply::Refused(Refusal::NoContainer);
        };
        match status {
            Status::Created => {
                if sig > LAST_SIGNAL {
                    return Reply::Refused(Refusal::BadSignal);
                }
                if is_fatal(sig) {
                    self.entries.come_to(&name, Phase::Ended);
                }
                Reply::Accepted
            }
            Status::Running => {
                if sig > LAST_SIGNAL {
                    return Reply::Refused(Refusal::BadSignal);
                }
                self.kernel.signal(&name, sig);
                Reply::Accepted
            }
            Status::Stopped => Reply::Refused(Refusal::NotAlive),
        }
    }

    /// Forgets a container that has stopped.
    pub fn delete(&mut self, id: &str) -> Reply
        ensures { (result, world_of self.new) ≡ step by_program (Delete id.now) (world_of self.old) }
    {
        let Some(Found { name, status, .. }) = self.find(id) else {
            return Reply::Refused(Refusal::NoContainer);
        };
        match status {
            Status::Created => Reply::Refused(Refusal::NotStopped),
            Status::Running => Reply::Refused(Refusal::NotStopped),
            Status::Stopped => {
                self.kernel.expel(&name);
                self.entries.remove(&name);
                Reply::Accepted
            }
        }
    }

    /// The status of a container.
    pub fn state(&self, id: &str) -> Reply
        ensures { (result, world_of self.now) ≡ step by_program (State id.now) (world_of self.now) }
    {
        match self.find(id) {
            Some(Found { status, .. }) => Reply::IsIn(status),
            None => Reply::Refused(Refusal::NoContainer),
        }
    }

    /// A task of the container presents a record, perhaps with a program attached. A listener that is told of it responds
    /// this.
    pub fn call(
        &mut self,
        id: &str,
        task: u64,
        rec: &Record,
        attached: Option<&[u8]>,
        response: Option<Response>,
    ) -> Result<Reply, AllocError>
        ensures step { let given = beside_of (option_map (λ a. a.now) attached.entry) response in
            IfOk result (λ r. (r, world_of self.new) ≡ step by_program (Call id.now task rec.now given) (world_of self.old)) }
        ensures err { OnErr result (world_of self.new ≡ world_of self.old) }
        ensures growth { let given = beside_of (option_map (λ a. a.now) attached.entry) response in
            OnErr result (MayGrow (Call id.now task rec.now given) (world_of self.old)) }
    {
        let Some(Kept { name, entry }) = self.kept(id) else {
            return Ok(Reply::Refused(Refusal::NoContainer));
        };
        match entry.phase {
            Phase::Made => Ok(Reply::Presented(Outcome::NoTask)),
            Phase::Started => {
                // Where no task of group 1 lives, none does: the kernel finds no task then.
                let outcome = self.kernel.present(&name, task, rec, attached, response)?;
                Ok(Reply::Presented(outcome))
            }
            Phase::Ended => Ok(Reply::Presented(Outcome::NoTask)),
        }
    }

    /// The id of a container by its place in the order of creation, from 0.
    pub fn id_at(&self, i: usize) -> Option<&str>
        ensures { option_copied result ≡ slice_get (ids_of (world_of self.now)) i }
    {
        let name = self.entries.name_at(i)?;
        Some(name.as_str())
    }

    // What is kept of the container with this id.
    fn kept(&self, id: &str) -> Option<Kept<'a>>
        ensures some { IfSome result (λ f. IsKept f id.now (listed self.now.entries)) }
        ensures none { IfNone result (lookup (same_text id.now) (listed self.now.entries) ≡ None) }
    {
        let name = Id::read(id)?;
        let entry = self.entries.get(&name)?;
        Some(Kept { name, entry })
    }

    // The container with this id.
    fn find(&self, id: &str) -> Option<Found<'a>>
        ensures some { IfSome result (λ f. IsFound f id.now (listed self.now.entries) (K.processes self.now.kernel id.now)) }
        ensures none { IfNone result (lookup (same_text id.now) (listed self.now.entries) ≡ None) }
    {
        let Kept { name, entry } = self.kept(id)?;
        let status = match entry.phase {
            Phase::Made => Status::Created,
            Phase::Started => self.begun_status(&name),
            Phase::Ended => Status::Stopped,
        };
        Some(Found {
            name,
            entry,
            status,
        })
    }

    // The status of a container that was started.
    fn begun_status(&self, name: &Id) -> Status
        ensures { result ≡ (if lives_in (K.processes self.now.kernel name.now) then Status.Running else Status.Stopped) }
    {
        if self.kernel.live(name) {
            Status::Running
        } else {
            Status::Stopped
        }
    }
}
