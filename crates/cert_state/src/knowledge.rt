//! What is known of a record, as those ask for it who judge conditions.
ghost use Rattle.std.specs.Prelude.{◌↔◌, ◌<◌, List, IsTrue, MatchOption};
ghost use Rattle.cert_state.specs.declared.literal.Lit.{Lit as TheLit};
ghost use Rattle.cert_state.specs.Points.{HasNoPoint, IsRange};
ghost use Rattle.cert_state.specs.Entailment.{Entails};

use crate::entailment::entails;
use crate::literal::Lit;
use crate::points::range;
use crate::state::Listed;

/// What is known of a record: whether a literal follows, and where a word lies.
pub trait Knowledge {
    /// What is known.
    ghost known: { Self → List TheLit };

    /// Whether a literal follows.
    fn entails(&self, literal: &Lit) -> bool
        ensures { IsTrue result ↔ Entails (known self.now) literal.now };

    /// The least and the greatest point of a word, if it has one.
    fn range(&self, word: u8) -> Option<(u32, u32)>
        requires { word < 16 }
        ensures { MatchOption result (HasNoPoint (known self.now) word) (λ p. IsRange (known self.now) word p.0 p.1) };
}

/// What is asked of a list of literals seldom is found out each time.
impl Knowledge for Listed<'_> {
    ghost use Rattle.std.specs.Prelude.{◌++◌, option_to_list};

    ghost known = { λ s. s.lits.now ++ option_to_list s.more };

    fn entails(&self, literal: &Lit) -> bool {
        entails(self, literal)
    }

    fn range(&self, word: u8) -> Option<(u32, u32)> {
        range(self, word)
    }
}
