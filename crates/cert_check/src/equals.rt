//! Which rule of a call is likely to be yes: of many that ask whether an argument equals a number, the one that asks for its own.
ghost use Rattle.std.specs.Prelude.{◌<◌};

use call_record::halves;
use profile::{Op, Rule};

/// The places of rules of one call whose first condition asks for a number, by remainders of the numbers. It only tells what to ask
/// first: a place may be that of another rule.
#[derive(Drop)]
pub(crate) struct Equals {
    token: u32,
    number: u32,
    /// The argument that the last noted rule asks for.
    index: u8,
    places: [u16; 8192],
}

// The remainder of a number: near numbers have unlike ones.
fn remainder(value: u32) -> usize
    ensures { result < 8192 }
{
    ((value ^ (value >> 13)) % 8192) as usize
}

impl Equals {
    ghost use Rattle.std.specs.Prelude.{◌<◌, IfSome};

    /// No rule is noted.
    pub(crate) fn none() -> Equals {
        Equals {
            token: 0,
            number: u32::MAX,
            index: u8::MAX,
            places: [0; 8192],
        }
    }

    /// Whether the rules of a call are noted.
    pub(crate) fn are_of(&self, token: u32, number: u32) -> bool {
        self.token == token && self.number == number
    }

    /// Begins to note the rules of a call.
    pub(crate) fn begin(&mut self, token: u32, number: u32) {
        self.token = token;
        self.number = number;
        self.index = u8::MAX;
    }

    /// Notes the rule at a place, if its first condition asks whether an argument equals a number.
    pub(crate) fn note(&mut self, place: usize, rule: &Rule)
        requires { place < 8192 }
    {
        let conds = rule.conds.as_slice();
        if conds.is_empty() || conds[0].op != Op::Eq {
            return;
        }
        let (low, _) = halves(conds[0].value);
        self.index = conds[0].index;
        self.places[remainder(low)] = place as u16;
    }

    /// The word of a record that holds the low half of the argument that the noted rules ask for.
    pub(crate) fn word(&self) -> Option<u8>
        ensures { IfSome result (λ word. word < 16) }
    {
        if self.index < 6 {
            Some(4 + 2 * self.index)
        } else {
            None
        }
    }

    /// The place that was noted for a number.
    pub(crate) fn place(&self, value: u32) -> usize {
        self.places[remainder(value)] as usize
    }
}
