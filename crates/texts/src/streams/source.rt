//! Where bytes come from.
ghost use Rattle.std.specs.Prelude.{◌≡◌, ◌≤◌, ◌-◌, ◌^◌, ℕ, List, Option, IfOk, IsErr, false, is_err, length, if◌then◌else◌};
ghost use Rattle.std.specs.Io.KnownBytes.{ReadConsumes};

use crate::streams::fault::Failed;
use std::io;

/// What gives bytes.
pub trait Source {
    ghost use Rattle.texts.specs.Failures.{Failures, one_more};

    /// The bytes that are left, where its reader tells them.
    ghost left: { Self → Option (List ℕ) };

    /// How many calls failed, up to the greatest u64, and whether the last one did.
    ghost failures: { Self → Failures };

    /// How many calls are left.
    ghost calls: { Self → ℕ };

    /// Fills the buffer from its first place on, and says how many bytes it gave. A call that gives none for a buffer
    /// that is not empty says that there are no more.
    fn read(&mut self, buf: &mut [u8]) -> Result<usize, Failed>
        ensures count { IfOk result (λ n. n ≤ length buf.new) }
        ensures bytes { ReadConsumes (left self.old) (left self.new) result buf.new }
        ensures count_failed { (failures self.new).count ≡ (if is_err result then one_more (failures self.old).count else (failures self.old).count) }
        ensures last_failed { (failures self.new).last ≡ is_err result }
        ensures calls { calls self.new ≡ calls self.old - 1 }
        // With no call left it fails.
        ensures over { calls self.old ≡ 0 → IsErr result };
}

/// A source over any reader.
#[derive(Drop)]
pub struct FromRead<R: io::Read + Drop> {
    pub reader: R,
    pub failures: u64,
    pub last_failed: bool,
    pub calls: u64,
}

impl<R: io::Read + Drop> FromRead<R> {
    /// A source that has not failed, with the greatest number of calls left.
    pub fn new(reader: R) -> Self
        ensures reader { result.reader ≡ reader }
        ensures failures { result.failures ≡ 0 }
        ensures last_failed { result.last_failed ≡ false }
        ensures calls { result.calls ≡ 2 ^ 64 - 1 }
    {
        FromRead {
            reader,
            failures: 0,
            last_failed: false,
            calls: u64::MAX,
        }
    }
}

impl<R: io::Read + Drop> Source for FromRead<R> {
    ghost left = { λ s. R.remaining s.reader };

    ghost failures = { λ s. record { count = s.failures; last = s.last_failed } };

    ghost calls = { λ s. s.calls };

    fn read(&mut self, buf: &mut [u8]) -> Result<usize, Failed> {
        if self.calls == 0 {
            self.last_failed = true;
            self.failures = self.failures.saturating_add(1);
            return Err(Failed);
        }
        self.calls -= 1;
        match self.reader.read(buf) {
            Ok(n) => {
                self.last_failed = false;
                Ok(n)
            }
            Err(_) => {
                self.last_failed = true;
                self.failures = self.failures.saturating_add(1);
                Err(Failed)
            }
        }
    }
}
