//! Why a command is refused.
use call_record::Word;
use std::fmt;
use thiserror::Error;

/// Why a command is refused.
#[derive(Clone, Copy, Debug, PartialEq, Eq, Error)]
pub enum Refusal {
    /// A container of this id is there already.
    IdTaken,
    /// No container has this id.
    NoContainer,
    /// The container was started before.
    NotCreated,
    /// The container has stopped.
    NotAlive,
    /// The container has not stopped.
    NotStopped,
    /// There is no such signal.
    BadSignal,
    /// The filter refused the call with which the container begins, by this verdict.
    StartDenied(Word),
    /// The text is no id.
    BadId,
}

impl Refusal {
    ghost use Rattle.std.specs.Prelude.{◌≡◌};
    ghost use Rattle.lifecycle.specs.Fault.{label_of};

    /// The number and the name by which it is told.
    pub fn label(self) -> (u32, &'static str)
        ensures number { result.0 ≡ (label_of self).0 }
        ensures name { result.1.now ≡ (label_of self).1 }
    {
        match self {
            Refusal::IdTaken => (1, "IdTaken"),
            Refusal::NoContainer => (2, "NoContainer"),
            Refusal::NotCreated => (3, "NotCreated"),
            Refusal::NotAlive => (4, "NotAlive"),
            Refusal::NotStopped => (5, "NotStopped"),
            Refusal::BadSignal => (6, "BadSignal"),
            Refusal::StartDenied(_) => (7, "StartDenied"),
            Refusal::BadId => (8, "BadId"),
        }
    }
}

impl fmt::Display for Refusal {
    ghost use Rattle.std.specs.Prelude.{Some};
    ghost use Rattle.lifecycle.specs.Fault.{text_of};

    ghost output = { λ refusal. Some (text_of refusal) };

    fn fmt<W: fmt::Write>(&self, f: &mut fmt::Formatter<W>) -> fmt::Result {
        let (number, name) = self.label();
        match *self {
            Refusal::StartDenied(word) => write!(f, "{number} {name} {word}"),
            _ => write!(f, "{number} {name}"),
        }
    }
}
