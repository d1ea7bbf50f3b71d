//! One filter of the tree.
ghost use Rattle.std.specs.Prelude.{◌≡◌, ◌==◌, length, unwrap_or};
ghost use Rattle.bpf_insn.specs.Machine.{verdict_of};
ghost use Rattle.call_record.specs.Record.{words};

use crate::numbers::Numbers;
use bpf_interp::verdict;
use call_record::{Record, Word};
use kernel_check::AcceptedBuf;

/// A filter, which names the one below it.
#[derive(Drop)]
pub(crate) struct Node {
    pub(crate) program: AcceptedBuf,
    /// The place of the filter below it.
    pub(crate) below: Option<u32>,
    /// The place of a filter further down, to which a walk to a deep one jumps.
    pub(crate) jump: Option<u32>,
    /// How many filters are on the way down from it.
    pub(crate) depth: u32,
    /// For how many instructions these count beside a further one.
    pub(crate) size: u32,
    /// The numbers of calls that all of these allow, whatever else the record holds.
    pub(crate) allowed: Numbers,
}

impl Node {
    ghost use Rattle.call_record.specs.Verdict.{action, user_notif};
    ghost use Rattle.processes.specs.Tasks.{program_judge};

    /// The verdict that the filter gives.
    pub(crate) fn verdict(&self, rec: &Record) -> Word
        ensures { result ≡ (program_judge self.now.program).verdict rec.now }
    {
        verdict(&self.program.as_accepted(), rec)
    }

    /// Whether its verdict notifies a listener.
    pub(crate) fn notifies(&self, rec: &Record) -> bool
        ensures { result ≡ (action ((program_judge self.now.program).verdict rec.now) == user_notif) }
    {
        self.verdict(rec).action() == Word::USER_NOTIF
    }
}
