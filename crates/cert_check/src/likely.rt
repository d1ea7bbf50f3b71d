//! What is likely to decide: at many nodes the same condition decides a rule.
use crate::equals::Equals;

/// For each rule, which of its conditions decided it last; and which one decided the last rule. Beside them, where rules stand that ask
/// for equality. It only tells what to ask first.
#[derive(Drop)]
pub(crate) struct Likely {
    by_rule: [u8; 8192],
    last: u8,
    pub(crate) equals: Equals,
}

impl Likely {
    ghost use Rattle.std.specs.Prelude.{◌<◌};

    /// None is likelier than another.
    pub(crate) fn none() -> Likely {
        Likely {
            by_rule: [u8::MAX; 8192],
            last: u8::MAX,
            equals: Equals::none(),
        }
    }

    /// The places of the two conditions that are likely to decide the rule at a place. A rule may have fewer.
    pub(crate) fn of(&self, place: usize) -> (usize, usize)
        requires { place < 8192 }
    {
        (self.by_rule[place] as usize, self.last as usize)
    }

    /// Keeps which condition decided the rule at a place.
    pub(crate) fn keep(&mut self, place: usize, own: usize)
        requires { place < 8192 }
    {
        if own < 6 {
            self.by_rule[place] = own as u8;
            self.last = own as u8;
        }
    }
}
