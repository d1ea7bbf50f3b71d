//! Whole scripts.
ghost use Rattle.std.specs.Prelude.{◌≡◌, ◌<◌, ◌⊎◌, ℕ, Err, IfOk, OnOk, OnErr, None};
ghost use Rattle.std.specs.Option.{option_to_list};
ghost use Rattle.std.specs.Io.KnownBytes.{Consumes, IsAtEnd, Keeps};
ghost use Rattle.texts.specs.Failures.{HasFailed, NoneFailed};
ghost use Rattle.session.specs.Scripts.{IsAnswered, StopsForMemory, StopsReading, StopsWriting, TellsFailedRead, TellsFailedWrite};
ghost use Rattle.session.specs.declared.fault.ScriptFault.TheVariants as fault;
ghost use Rattle.session.specs.inner.Lines.{HasCome};
ghost use Rattle.session.specs.inner.Progress.{standing_of};

use crate::bundles::Bundles;
use crate::fault::ScriptFault;
use crate::progress::Progress;
use std::alloc::Global;
use texts::{Failed, Sink, Source};

// The next byte of a source, or `None` at its end.
fn next_byte<I: Source>(source: &mut I) -> Result<Option<u8>, Failed>
    ensures byte { IfOk result (λ b. Consumes (I.left source.old) (I.left source.new) (option_to_list b)) }
    ensures end { IfOk result (λ b. b ≡ None → IsAtEnd (I.left source.new)) }
    ensures err { OnErr result (Keeps (I.left source.old) (I.left source.new)) }
    ensures failed { OnErr result (HasFailed (I.failures source.old) (I.failures source.new)) }
    ensures none_failed { OnOk result (NoneFailed (I.failures source.old) (I.failures source.new)) }
    ensures calls { OnOk result (I.calls source.new < I.calls source.old) }
{
    let mut bytes = [0];
    match source.read(&mut bytes) {
        Ok(0) => Ok(None),
        Ok(_) => Ok(Some(bytes[0])),
        Err(failed) => Err(failed),
    }
}

// Takes what a source still has, byte by byte, until it ends or the script stops.
fn take_all<I: Source, O: Sink>(
    progress: &mut Progress<'_>,
    source: &mut I,
    sink: &mut O,
) -> Result<(), ScriptFault>
    requires { HasCome progress.old.session.bundles (standing_of progress.old)
        (I.left source.old) (I.left source.old) (O.held sink.old) (O.held sink.old) }
    ensures ok { IfOk result (λ _.
        IsAnswered progress.old.session.bundles (I.left source.old) (I.left source.new) (O.held sink.old) (O.held sink.new)) }
    ensures read { (line : ℕ) → result ≡ Err (fault.Read line)
        → StopsReading progress.old.session.bundles (I.left source.old) (I.left source.new) (O.held sink.old) (O.held sink.new) line }
    ensures write { (out : ℕ) → result ≡ Err (fault.Write out)
        → StopsWriting progress.old.session.bundles (I.left source.old) (I.left source.new) (O.held sink.old) (O.held sink.new) out }
    ensures memory { (line : ℕ) → result ≡ Err (fault.Memory line)
        → StopsForMemory progress.old.session.bundles (I.left source.old) (I.left source.new) (O.held sink.old) (O.held sink.new) line }
    ensures failed_read { TellsFailedRead (I.failures source.old) (I.failures source.new) result }
    ensures failed_write { TellsFailedWrite (O.failures sink.old) (O.failures sink.new) result }
{
    'byte: loop {
        match next_byte(source) {
            Ok(Some(byte)) => {
                if let Err(fault) = progress.take(byte, sink) {
                    return Err(fault);
                }
            }
            Ok(None) => return progress.finish(sink),
            Err(_) => {
                let line = progress.number();
                return Err(ScriptFault::Read { line });
            }
        }
    }
}

/// Carries out the lines of a script in order, and answers each by a line, which is written before more is read.
///
/// Where it is done, the whole source was read and its answer was written. A failing source leaves the answer of the whole
/// lines before. A failing sink leaves a beginning of the answer, and nothing more is read. Want of memory leaves the
/// answer of the lines before, and nothing at all if the line is 0. The source is asked for one byte a call.
pub fn run_script<I: Source, O: Sink>(
    alloc: Global,
    bundles: &Bundles<'_>,
    source: &mut I,
    sink: &mut O,
) -> Result<(), ScriptFault>
    ensures ok { IfOk result (λ _. IsAnswered bundles.now (I.left source.old) (I.left source.new) (O.held sink.old) (O.held sink.new)) }
    ensures read { (line : ℕ) → result ≡ Err (fault.Read line)
        → StopsReading bundles.now (I.left source.old) (I.left source.new) (O.held sink.old) (O.held sink.new) line }
    ensures write { (out : ℕ) → result ≡ Err (fault.Write out)
        → StopsWriting bundles.now (I.left source.old) (I.left source.new) (O.held sink.old) (O.held sink.new) out }
    ensures memory { (line : ℕ) → result ≡ Err (fault.Memory line)
        → StopsForMemory bundles.now (I.left source.old) (I.left source.new) (O.held sink.old) (O.held sink.new) line
        ⊎ ((line ≡ 0) × (source.new ≡ source.old) × (sink.new ≡ sink.old)) }
    // No call fails but the one that is told, and that is the last.
    ensures failed_read { TellsFailedRead (I.failures source.old) (I.failures source.new) result }
    ensures failed_write { TellsFailedWrite (O.failures sink.old) (O.failures sink.new) result }
{
    let Ok(mut progress) = Progress::new(alloc, *bundles) else {
        return Err(ScriptFault::Memory { line: 0 });
    };
    take_all(&mut progress, source, sink)
}
