//! The verdict that a filter answers, and its effect on the call.
ghost use Rattle.std.specs.Prelude.{◌≡◌, ◌+◌};
ghost use Rattle.call_record.specs.Verdict.{action, datum, errno_of, is_through};

use std::marker::Model;

/// A verdict: an action in the high half, and data in the low half.
#[derive(Clone, Copy, Debug, PartialEq, Eq)]
pub struct Word(pub u32);

impl Model for Word {
    ghost use Rattle.std.specs.Prelude.{ℕ, ◌<◌, ◌^◌};

    ghost Value = { ℕ };

    ghost view = { λ w. w.0 };

    ghost invariant = { λ w. w.0 < 2 ^ 32 };

    ghost inverse = { λ n. record { 0 = n } };
}

// The error of a call that nothing carries out.
const ENOSYS: u16 = 38;

impl Word {
    /// The call is not carried out, and the process ends.
    pub const KILL_PROCESS: Word = Word(0x8000_0000);

    /// The call is not carried out, and the thread ends.
    pub const KILL_THREAD: Word = Word(0x0000_0000);

    /// The call is not carried out, and the task gets a signal; none is handled, so the task ends.
    pub const TRAP: Word = Word(0x0003_0000);

    /// The call is not carried out, and answers the data as its error.
    pub const ERRNO: Word = Word(0x0005_0000);

    /// A listener decides on the call; there is none, so the call is not carried out.
    pub const USER_NOTIF: Word = Word(0x7fc0_0000);

    /// A tracer decides on the call; there is none, so the call is not carried out.
    pub const TRACE: Word = Word(0x7ff0_0000);

    /// The call is carried out, and logged.
    pub const LOG: Word = Word(0x7ffc_0000);

    /// The call is carried out.
    pub const ALLOW: Word = Word(0x7fff_0000);

    /// The verdict without its data.
    pub fn action(self) -> Word
        ensures { result ≡ action self }
    {
        Word(self.0 & 0xffff_0000)
    }

    /// The data of the verdict.
    pub fn data(self) -> u16
        ensures { result ≡ datum self }
    {
        (self.0 & 0xffff) as u16
    }

    /// The verdict with this action and these data.
    pub fn with_data(self, data: u16) -> Word
        ensures { result ≡ action self + «data» }
    {
        Word(self.action().0 + u32::from(data))
    }

    /// The error that the call answers with, where the verdict says one: at most 4095.
    pub fn errno(self) -> Option<u16>
        ensures { result ≡ errno_of self }
    {
        match self.action() {
            Word::ERRNO => Some(self.data().min(4095)),
            Word::TRACE | Word::USER_NOTIF => Some(ENOSYS),
            _ => None,
        }
    }
}

/// Whether a call with this verdict is carried out.
pub fn lets_through(word: Word) -> bool
    ensures { result ≡ is_through word }
{
    word.action() == Word::ALLOW || word.action() == Word::LOG
}
