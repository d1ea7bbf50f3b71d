//! What two filters answer to one call record.
ghost use Rattle.std.specs.Prelude.{◌≡◌, IfSome};
ghost use Rattle.kernel_check.specs.Lent.{accepted_insns};
ghost use Rattle.compare.specs.Differ.{AnswerUnlike};

use crate::difference::{Difference, difference_on};
use bpf_interp::verdict;
use call_record::Record;
use kernel_check::Accepted;
use machines::Family;

/// The verdicts of two filters on a call record, where they are unlike. The instruction pointer counts as 0, and the machine is told as one
/// of a family.
pub(crate) fn unlike(
    family: Family,
    old: &Accepted<'_>,
    new: &Accepted<'_>,
    call: &Record,
) -> Option<Difference>
    ensures { IfSome result (AnswerUnlike family (accepted_insns old.now) (accepted_insns new.now)) }
{
    let call = Record {
        nr: call.nr,
        arch: call.arch,
        ip: 0,
        args: call.args,
    };
    let one = verdict(old, &call);
    let other = verdict(new, &call);
    if one.0 == other.0 {
        return None;
    }
    Some(difference_on(family, &call, [false; 6], one, other))
}
