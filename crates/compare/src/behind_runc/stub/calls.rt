//! The calls that a stub answers.
ghost use Rattle.std.specs.Prelude.{◌↔◌, IsTrue, Any};
ghost use Rattle.call_record.specs.Record.{words};
ghost use Rattle.compare.specs.Stub.{IsAnswered};

use call_record::Record;
use machines::Numbers;

/// The calls of some numbers on the machine with a token.
#[derive(Clone, Copy, Debug, PartialEq, Eq)]
pub struct Calls {
    pub token: u32,
    pub numbers: Numbers,
}

impl Calls {
    ghost use Rattle.std.specs.Prelude.{◌↔◌, IsTrue};
    ghost use Rattle.call_record.specs.Record.{words};
    ghost use Rattle.compare.specs.Stub.{IsOf};

    /// Whether a record is of one of these calls.
    pub fn have(&self, call: &Record) -> bool
        ensures { IsTrue result ↔ IsOf (words call.now) self.now }
    {
        if call.arch != self.token {
            return false;
        }
        self.numbers.contain(call.nr)
    }
}

/// Whether a record is of a call that a stub answers.
pub fn is_answered(answered: &[Calls], call: &Record) -> bool
    ensures { IsTrue result ↔ IsAnswered answered.now (words call.now) }
{
    answered.iter().any(|calls| calls.have(call))
}
