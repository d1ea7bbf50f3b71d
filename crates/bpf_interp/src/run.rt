//! A whole run.
ghost use Rattle.std.specs.Prelude.{◌≡◌, ◌≤◌, Some, length};
ghost use Rattle.call_record.specs.Record.{words};
ghost use Rattle.bpf_insn.specs.Machine.{Gives, verdict_of};
ghost use Rattle.kernel_check.specs.Lent.{accepted_insns};

use crate::step::{Next, Registers, advance};
use call_record::{Record, Word};
use kernel_check::Accepted;

/// The verdict that a filter answers to a record.
pub fn verdict(accepted: &Accepted<'_>, call: &Record) -> Word
    ensures { verdict_of (accepted_insns accepted.now) (words call.now) ≡ Some result }
{
    verdict_counted(accepted, call).0
}

/// The verdict that a filter answers to a record, and how many instructions were run: at most as many as
/// the filter has.
pub fn verdict_counted(accepted: &Accepted<'_>, call: &Record) -> (Word, u32)
    ensures gives { Gives (accepted_insns accepted.now) (words call.now) result.0 result.1 }
    ensures bound { result.1 ≤ length (accepted_insns accepted.now) }
{
    let program = accepted.program();
    let mut registers = Registers::at_start();
    let mut pc = 0;
    let mut count = 0;
    'run: loop {
        count += 1;
        match advance(&program.get(pc), call, &mut registers) {
            Next::Returns(word) => return (Word(word), count),
            Next::Continues(skip) => pc += 1 + skip as usize,
        }
    }
}
