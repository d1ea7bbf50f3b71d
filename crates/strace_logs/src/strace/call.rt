//! Calls that a log tells.
ghost use Rattle.std.specs.Prelude.{◌≡◌};
ghost use Rattle.call_record.specs.Record.{words};
ghost use Rattle.strace_logs.specs.Line.{words_of_call};

use crate::strace::arguments::written;
use call_record::Record;
use machines::Arch;

/// A call that a line of a log tells.
#[derive(Clone, Copy)]
pub struct Call<'a> {
    /// The machine whose call it is.
    pub arch: Arch,
    /// The number of the call on it.
    pub nr: u32,
    /// The arguments: 0 where strace wrote none.
    pub args: [u64; 6],
    pub(crate) given: &'a str,
}

/// The record of a call, made at address 0.
pub(crate) fn record_of(arch: Arch, nr: u32, args: [u64; 6]) -> Record
    ensures { words result ≡ words_of_call (arch, nr, args) }
{
    record_with(arch.token(), nr, args)
}

// The record of a call with a token.
fn record_with(token: u32, nr: u32, args: [u64; 6]) -> Record
    ensures number { result.nr ≡ nr }
    ensures token { result.arch ≡ token }
    ensures pointer { result.ip ≡ 0 }
    ensures arguments { result.args ≡ args }
{
    Record {
        nr,
        arch: token,
        ip: 0,
        args,
    }
}

impl Call<'_> {
    /// The call as a filter sees it, made at address 0.
    pub fn record(&self) -> Record
        ensures { words result ≡ words_of_call (self.now.arch, self.now.nr, self.now.args) }
    {
        record_of(self.arch, self.nr, self.args)
    }

    /// The argument at a place, counted from 0, if strace wrote one there.
    pub fn argument(&self, place: u8) -> Option<u64> {
        written(self.given, place)
    }
}
