//! How the program ends: its exit status, and the lines on standard error behind an answer or in its place.
ghost use Rattle.std.specs.Prelude.{◌≡◌, ◌≢◌, false, true};
ghost use Rattle.command_line.specs.Lines.{Given, IsCommandLine, texts};
ghost use Rattle.cli.specs.Remarked.{RemarksOf};
ghost use Rattle.cli.specs.Stop.{MayAdvise, ReportsOn, is_told as stops_told, status_of};
ghost use Rattle.cli.specs.declared.stops.Stop.TheVariants.{Doubtful, Refused};

use crate::files::Files;
use crate::remarking::remark_on;
use crate::stops::{Stop, report};
use command_line::advice;
use std::alloc::Global;
use texts::{Sink, write_all};

// Writes a line about wrong arguments behind the name of a command of our own, as far as it goes.
fn advise<E: Sink>(alloc: Global, arguments: &[&str], err: &mut E)
    ensures { MayAdvise E.held E.failures err.old err.new (texts arguments.now) }
{
    if let Ok(Some(line)) = advice(alloc, arguments) {
        let _ = write_all(line.as_bytes(), err);
    }
}

// Writes the line that says why the program stops, and behind it what is wrong with the arguments, if they are; gives the exit status.
fn report_on<E: Sink>(alloc: Global, arguments: &[&str], stop: &Stop<'_>, err: &mut E) -> u8
    ensures status { result ≡ status_of stop.now }
    ensures lines { ReportsOn E.held E.failures err.old err.new (texts arguments.now) stop.now }
{
    let status = report(stop, err);
    match stop {
        Stop::Usage => advise(alloc, arguments, err),
        _ => {}
    }
    status
}

// Whether the answer says why the program ends so.
fn is_told(stop: &Stop<'_>) -> bool
    ensures { result ≡ stops_told stop.now }
{
    match stop {
        Stop::Usage => false,
        Stop::CannotRead(_) => false,
        Stop::Read(_) => false,
        Stop::Write(_) => false,
        Stop::OutOfMemory => false,
        Stop::Refused => true,
        Stop::Doubtful => true,
    }
}

// Whether what was given is refused, as the answer says.
fn is_refused(stop: &Stop<'_>) -> bool
    ensures yes { result ≡ true → stop.now ≡ Refused }
    ensures no { result ≡ false → stop.now ≢ Refused }
{
    matches!(stop, Stop::Refused)
}

/// The exit status where the program stops, and the line that says why. If what was given is refused, the answer says it, and lines on files
/// that are no bundles stand behind it. If what was done is doubtful, no line is written.
pub(crate) fn status_on<F: Files, E: Sink>(
    alloc: Global,
    arguments: &[&str],
    stop: &Stop<'_>,
    files: &mut F,
    err: &mut E,
) -> u8
    ensures status { result ≡ status_of stop.now }
    ensures remarks { stop.now ≡ Refused → (command : Given) → IsCommandLine arguments.entry.now command
        → RemarksOf E.held E.failures command err.old err.new }
    ensures quiet { stop.now ≡ Doubtful → err.new ≡ err.old }
    ensures lines { stops_told stop.now ≡ false → ReportsOn E.held E.failures err.old err.new (texts arguments.now) stop.now }
    ensures unopened { stop.now ≢ Refused → files.new ≡ files.old }
{
    if !is_told(stop) {
        return report_on(alloc, arguments, stop, err);
    }
    if is_refused(stop) {
        remark_on(alloc, arguments, files, err);
        return stop.status();
    }
    stop.status()
}
