//! What a runtime is told, and what it answers.
use crate::fault::Refusal;
use call_record::Record;
use cert_check::Checked;
use processes::{Outcome, Response};

/// A command of the lifecycle, or a call that a task presents: its filter is kept, and its texts are not.
#[derive(Clone, Copy)]
pub enum Command<'a, 'c> {
    /// Make a container with this filter.
    Create(&'c str, Checked<'a>),
    /// Make its task 1, and let it present the call with which it begins.
    Start(&'c str),
    /// Send its first group a signal.
    Kill(&'c str, u64),
    /// Forget a stopped container.
    Delete(&'c str),
    /// Tell its status.
    State(&'c str),
    /// A task of this number presents a record, perhaps with the bytes of a program attached. A listener that is told of
    /// it may respond.
    Call(&'c str, u64, Record, Option<&'c [u8]>, Option<Response>),
}

/// How far a container has come.
#[derive(Clone, Copy, Debug, PartialEq, Eq)]
pub enum Status {
    /// It has no tasks yet.
    Created,
    /// A task of its first group lives.
    Running,
    /// It has no live tasks, and gets none.
    Stopped,
}

/// The answer to a command.
#[derive(Clone, Copy, Debug, PartialEq, Eq)]
pub enum Reply {
    /// It was done.
    Accepted,
    /// It was refused.
    Refused(Refusal),
    /// What became of a call.
    Presented(Outcome),
    /// The status that was asked for.
    IsIn(Status),
}
