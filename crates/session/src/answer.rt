//! One line, carried out and answered.
ghost use Rattle.std.specs.Prelude.{◌≡◌};
ghost use Rattle.lifecycle.specs.Views.{world_of};
ghost use Rattle.session.specs.inner.Carried.{AnswersLine};

use crate::carry::{Session, id_named};
use crate::reply::{write_no_command, write_reply};
use crate::response::parted;
use script::read_line;
use std::alloc::Global;
use texts::{Sink, WriteFault};

/// Carries out the line of this number, writes the line that answers it, and says how many bytes that line has.
pub(crate) fn answer_line<S: Sink>(
    alloc: Global,
    session: &mut Session<'_>,
    line: &[u8],
    number: u64,
    sink: &mut S,
) -> Result<usize, WriteFault>
    ensures bundles { session.new.bundles ≡ session.old.bundles }
    ensures done { AnswersLine S.held S.failures session.old.bundles line.now number (world_of session.old.runtime) (world_of session.new.runtime) sink.old sink.new result }
{
    let (call, response) = parted(session.bundles.native, line);
    let Some(request) = read_line(session.bundles.native, call) else {
        return write_no_command(number, sink);
    };
    match session.carry_out(&request, response)? {
        Some(reply) => write_reply(alloc, id_named(&request), &reply, sink),
        None => write_no_command(number, sink),
    }
}
