//! How far a verdict lets a call go.
ghost use Rattle.std.specs.Prelude.{◌≡◌};
ghost use Rattle.call_record.specs.Fate.{fate_of, is_further, is_left, steps};

use crate::verdict::{Word, lets_through};

/// What becomes of a call by a verdict.
#[derive(Clone, Copy, Debug, PartialEq, Eq)]
pub enum Fate {
    /// It is not carried out.
    Refused,
    /// A tracer or a listener decides, and may let it through.
    Left,
    /// It is carried out.
    LetThrough,
}

fn steps(fate: Fate) -> u32
    ensures { result ≡ steps fate }
{
    match fate {
        Fate::Refused => 0,
        Fate::Left => 1,
        Fate::LetThrough => 2,
    }
}

impl Word {
    /// Whether a tracer or a listener decides on a call with this verdict.
    pub fn is_left(self) -> bool
        ensures { result ≡ is_left self }
    {
        self.action() == Word::TRACE || self.action() == Word::USER_NOTIF
    }

    /// What becomes of a call with this verdict.
    pub fn fate(self) -> Fate
        ensures { result ≡ fate_of self }
    {
        if lets_through(self) {
            Fate::LetThrough
        } else if self.is_left() {
            Fate::Left
        } else {
            Fate::Refused
        }
    }

    /// Whether a call with this verdict goes further than one with the other: let through where the other
    /// does not, or left to a tracer or a listener where the other refuses.
    pub fn goes_further(self, other: Word) -> bool
        ensures { result ≡ is_further self other }
    {
        steps(other.fate()) < steps(self.fate())
    }
}
