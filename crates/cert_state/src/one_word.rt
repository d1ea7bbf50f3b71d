//! Literals of one word that come and go, the last one first, with what they say of it.
ghost use Rattle.std.specs.Prelude.{◌≡◌, ◌↔◌, ◌<◌, [], All, IsTrue, length};
ghost use Rattle.cert_state.specs.Entailment.{Entails};
ghost use Rattle.cert_state.specs.Literals.{index_of};
ghost use Rattle.cert_state.specs.inner.Gathered.{AreFactsOf, AreFactsOf-prop, AreKept, AreKept-prop};

use crate::gathered::{NOTHING, WordFacts, dies, gives, with_one};
use crate::literal::{Lit, NO_REGS, Regs};
use crate::searched::InTurn;
use crate::state::State;
use std::alloc::{AllocError, Global};

/// Literals, and nothing of registers.
#[derive(Clone, Copy)]
struct Only<'a> {
    lits: &'a [Lit],
}

impl State for Only<'_> {
    ghost use Rattle.std.specs.Prelude.{drop, length};
    ghost use Rattle.cert_state.specs.declared.literal.TheConstants.{NO_REGS};

    ghost regs = { λ s. NO_REGS };

    ghost known = { λ s. s.lits.now };

    ghost rest = { λ s at. drop at s.lits.now };

    ghost last = { λ s. length s.lits.now };

    fn regs(&self) -> Regs {
        NO_REGS
    }

    fn start(&self) -> usize {
        0
    }

    fn next(&self, at: usize) -> Option<(Lit, usize)> {
        if at < self.lits.len() {
            return Some((self.lits[at], at + 1));
        }
        None
    }
}

/// The literals of one word, with what they say of it.
#[derive(Drop)]
pub struct LearnedWord {
    word: u8,
    lits: Vec<Lit>,
    facts: WordFacts,
    /// What those before each literal say.
    before: Vec<WordFacts>,
    ghost small: { word < 16 },
    ghost own: { All (λ l. index_of l ≡ word) lits.items },
    ghost told: { AreFactsOf lits.items word facts } by { AreFactsOf-prop lits.items word facts },
    ghost paired: { length before.items ≡ length lits.items },
    ghost kept: { AreKept lits.items word before.items } by { AreKept-prop lits.items word before.items },
}

#[tactic(auto, unfolding(crate::specs::Learned::word_of, crate::specs::Learned::lits_of))]
impl LearnedWord {
    ghost use Rattle.std.specs.Prelude.{◌≡◌, ◌<◌, ◌-◌, ◌↔◌, ◌++◌, ◌∷◌, [], IsTrue, MatchOption, if◌then◌else◌, is_ok, length, take};
    ghost use Rattle.cert_state.specs.Literals.{index_of};
    ghost use Rattle.cert_state.specs.Points.{HasNoPoint, IsRange};
    ghost use Rattle.cert_state.specs.Entailment.{Entails, IsDeadAt};
    ghost use Rattle.cert_state.specs.Learned.{lits_of, word_of};

    /// Nothing of a word.
    pub(crate) fn none(alloc: Global, word: u8) -> LearnedWord
        requires { word < 16 }
        ensures word { word_of result ≡ word }
        ensures none { lits_of result ≡ [] }
    {
        LearnedWord {
            word,
            lits: Vec::new(alloc),
            facts: NOTHING,
            before: Vec::new(alloc),
        }
    }

    /// Adds a literal of the word.
    pub(crate) fn push(&mut self, literal: Lit) -> Result<(), AllocError>
        requires { index_of literal ≡ word_of self.old }
        ensures word { word_of self.new ≡ word_of self.old }
        ensures lits { lits_of self.new ≡ (if is_ok result then lits_of self.old ++ literal ∷ [] else lits_of self.old) }
    {
        let facts = with_one(&self.lits, &self.facts, literal);
        self.before.push(self.facts)?;
        match self.lits.push(literal) {
            Ok(()) => {
                self.facts = facts;
                Ok(())
            }
            Err(_) => {
                self.before.pop();
                Err(AllocError)
            }
        }
    }

    /// The last literal goes, if there is one.
    pub(crate) fn pop(&mut self)
        ensures word { word_of self.new ≡ word_of self.old }
        ensures lits { lits_of self.new ≡ take (length (lits_of self.old) - 1) (lits_of self.old) }
    {
        self.lits.pop();
        if let Some(facts) = self.before.pop() {
            self.facts = facts;
        }
    }

    /// The word.
    pub fn word(&self) -> u8
        ensures is { result ≡ word_of self.now }
        ensures small { result < 16 }
    {
        self.word
    }

    /// The literals.
    pub fn lits(&self) -> &[Lit]
        ensures { result.now ≡ lits_of self.now }
    {
        &self.lits
    }

    /// Whether a literal of the word follows.
    pub(crate) fn entails(&self, literal: &Lit) -> bool
        requires { index_of literal.now ≡ word_of self.now }
        ensures { IsTrue result ↔ Entails (lits_of self.now) literal.now }
    {
        let own = Only { lits: &self.lits };
        gives(&InTurn { state: &own }, &self.facts, literal)
    }

    /// Whether the literals can not all be true.
    pub(crate) fn is_dead(&self) -> bool
        ensures { IsTrue result ↔ IsDeadAt (lits_of self.now) (word_of self.now) }
    {
        dies(&Only { lits: &self.lits }, &self.facts, self.word)
    }

    /// The least and the greatest point of the word, if it has one.
    pub(crate) fn range(&self) -> Option<(u32, u32)>
        ensures { let own = lits_of self.now in let w = word_of self.now in
            MatchOption result (HasNoPoint own w) (λ p. IsRange own w p.0 p.1) }
    {
        if self.facts.low > self.facts.high {
            return None;
        }
        Some((self.facts.low, self.facts.high))
    }
}

/// Whether a literal follows from none.
pub(crate) fn is_sure(literal: &Lit) -> bool
    ensures { IsTrue result ↔ Entails [] literal.now }
{
    let none = Only { lits: &[] };
    gives(&InTurn { state: &none }, &NOTHING, literal)
}
