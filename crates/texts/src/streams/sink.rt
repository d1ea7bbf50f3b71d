//! Where bytes go.
ghost use Rattle.std.specs.Prelude.{◌≡◌, ◌≤◌, ◌<◌, ℕ, List, Option, IfOk, false, length, if◌then◌else◌};
ghost use Rattle.std.specs.Io.KnownBytes.{WriteAppends};
ghost use Rattle.texts.specs.Sink.{Writes};

use crate::streams::fault::{Failed, WriteFault};
use std::io;

/// What takes bytes.
pub trait Sink {
    ghost use Rattle.texts.specs.Failures.{Failures, one_more};
    ghost use Rattle.texts.specs.Sink.{is_failure};

    /// The bytes that it holds, where its writer tells them.
    ghost held: { Self → Option (List ℕ) };

    /// How many calls failed, up to the greatest u64, and whether the last one did.
    ghost failures: { Self → Failures };

    /// Takes some of the bytes, from the first on, and says how many. A call that takes none counts as a failure.
    fn write(&mut self, bytes: &[u8]) -> Result<usize, Failed>
        ensures count { IfOk result (λ n. n ≤ length bytes.now) }
        ensures bytes { WriteAppends (held self.old) (held self.new) result bytes.now }
        ensures count_failed { (failures self.new).count ≡ (if is_failure result then one_more (failures self.old).count else (failures self.old).count) }
        ensures last_failed { (failures self.new).last ≡ is_failure result };
}

/// A sink over any writer.
#[derive(Drop)]
pub struct ToWrite<W: io::Write + Drop> {
    pub writer: W,
    pub failures: u64,
    pub last_failed: bool,
}

impl<W: io::Write + Drop> ToWrite<W> {
    /// A sink that has not failed.
    pub fn new(writer: W) -> Self
        ensures writer { result.writer ≡ writer }
        ensures failures { result.failures ≡ 0 }
        ensures last_failed { result.last_failed ≡ false }
    {
        ToWrite {
            writer,
            failures: 0,
            last_failed: false,
        }
    }
}

impl<W: io::Write + Drop> Sink for ToWrite<W> {
    ghost held = { λ s. W.contents s.writer };

    ghost failures = { λ s. record { count = s.failures; last = s.last_failed } };

    fn write(&mut self, bytes: &[u8]) -> Result<usize, Failed> {
        match self.writer.write(bytes) {
            Ok(n) => {
                self.last_failed = n == 0;
                if n == 0 {
                    self.failures = self.failures.saturating_add(1);
                }
                Ok(n)
            }
            Err(_) => {
                self.last_failed = true;
                self.failures = self.failures.saturating_add(1);
                Err(Failed)
            }
        }
    }
}

/// Writes all of the bytes, or says how many were written. A call that failed is not tried again.
pub fn write_all<S: Sink>(bytes: &[u8], sink: &mut S) -> Result<(), WriteFault>
    ensures { Writes S.held S.failures sink.old sink.new bytes.now result }
{
    let mut out = 0;
    'write: while out < bytes.len() {
        match sink.write(&bytes[out..]) {
            Ok(0) => return Err(WriteFault::Write { out: out as u64 }),
            Ok(n) => out += n,
            Err(_) => return Err(WriteFault::Write { out: out as u64 }),
        }
    }
    Ok(())
}
