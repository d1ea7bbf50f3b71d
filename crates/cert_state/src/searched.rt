//! Literals among which one is looked for.
ghost use Rattle.std.specs.Prelude.{◌↔◌, List, IsTrue, Contains};
ghost use Rattle.cert_state.specs.declared.literal.Lit.{Lit as TheLit};
ghost use Rattle.cert_state.specs.Entailment.{IsExcluded};

use crate::entailment::{is_excluded, is_stated};
use crate::literal::Lit;
use crate::state::State;

/// Literals among which one is looked for.
pub(crate) trait Searched {
    /// The literals.
    ghost lits: { Self → List TheLit };

    /// Whether a literal is one of them.
    fn states(&self, literal: &Lit) -> bool
        ensures { IsTrue result ↔ Contains (lits self.now) literal.now };

    /// Whether one of them excludes a datum under a mask.
    fn excludes(&self, word: u8, mask: u32, datum: u32) -> bool
        ensures { IsTrue result ↔ IsExcluded (lits self.now) word mask datum };
}

/// The literals of a state, looked at in turn.
#[derive(Clone, Copy)]
pub(crate) struct InTurn<'a, S: State> {
    pub(crate) state: &'a S,
}

impl<S: State> Searched for InTurn<'_, S> {
    ghost lits = { λ s. S.known s.state.now };

    fn states(&self, literal: &Lit) -> bool {
        is_stated(self.state, literal)
    }

    fn excludes(&self, word: u8, mask: u32, datum: u32) -> bool {
        is_excluded(self.state, word, mask, datum)
    }
}
