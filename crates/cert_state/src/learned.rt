//! What is learned of a record on the way: literals that come and go, the last one of each word first.
ghost use Rattle.std.specs.Prelude.{◌≡◌, ◌<◌, ℕ, length, slice_index_or};
ghost use Rattle.cert_state.specs.declared.one_word.LearnedWord.{LearnedWord};

use crate::knowledge::Knowledge;
use crate::literal::Lit;
use crate::one_word::{LearnedWord, is_sure};
use std::alloc::{AllocError, Global};
use std::mem;

/// What was learned of a record: literals of each word, the last of which go first, with what they say of it.
#[derive(Drop)]
pub struct Learned {
    alloc: Global,
    words: Vec<LearnedWord>,
    ghost sixteen: { length words.items ≡ 16 },
    ghost placed: { (w : ℕ) (d : LearnedWord) → w < 16 → (slice_index_or words.items w d).word ≡ w },
}

#[tactic(auto, unfolding(crate::specs::Learned::word_of, crate::specs::Learned::lits_of, crate::specs::Learned::own_of))]
impl Learned {
    ghost use Rattle.std.specs.Prelude.{◌≡◌, ◌≢◌, ◌<◌, ◌-◌, ◌↔◌, ◌++◌, ◌∷◌, [], ℕ, IfOk, IsTrue, if◌then◌else◌, is_ok, length, take};
    ghost use Rattle.cert_state.specs.Literals.{index_of};
    ghost use Rattle.cert_state.specs.Entailment.{IsDeadAt};
    ghost use Rattle.cert_state.specs.Learned.{known_of, lits_of, own_of, word_of};

    /// Nothing is known.
    pub fn new(alloc: Global) -> Result<Learned, AllocError>
        ensures { IfOk result (λ learned. (w : ℕ) → w < 16 → own_of learned w ≡ []) }
    {
        let mut words = Vec::new(alloc);
        for word in 0..16_u8 {
            words.push(LearnedWord::none(alloc, word))?;
        }
        Ok(Learned { alloc, words })
    }

    /// The literals of a word, in the order in which they came.
    pub fn of(&self, word: u8) -> &[Lit]
        requires { word < 16 }
        ensures { result.now ≡ own_of self.now word }
    {
        self.words[word as usize].lits()
    }

    /// Adds a literal as the last one of its word.
    pub fn push(&mut self, literal: Lit) -> Result<(), AllocError>
        requires { index_of literal < 16 }
        ensures own { own_of self.new (index_of literal)
            ≡ (if is_ok result then own_of self.old (index_of literal) ++ literal ∷ [] else own_of self.old (index_of literal)) }
        ensures others { (w : ℕ) → w ≢ index_of literal → own_of self.new w ≡ own_of self.old w }
    {
        self.words[literal.word() as usize].push(literal)
    }

    /// The last literal of a word goes, if it has one.
    pub fn pop(&mut self, word: u8)
        requires { word < 16 }
        ensures own { own_of self.new word ≡ take (length (own_of self.old word) - 1) (own_of self.old word) }
        ensures others { (w : ℕ) → w ≢ word → own_of self.new w ≡ own_of self.old w }
    {
        self.words[word as usize].pop();
    }

    /// Takes the literals of a word out: nothing is known of it any more.
    pub fn take(&mut self, word: u8) -> LearnedWord
        requires { word < 16 }
        ensures word { word_of result ≡ word }
        ensures taken { lits_of result ≡ own_of self.old word }
        ensures own { own_of self.new word ≡ [] }
        ensures others { (w : ℕ) → w ≢ word → own_of self.new w ≡ own_of self.old w }
    {
        let none = LearnedWord::none(self.alloc, word);
        mem::replace(&mut self.words[word as usize], none)
    }

    /// Puts literals in the place of those of their word.
    pub fn put(&mut self, own: LearnedWord)
        ensures own { own_of self.new (word_of own) ≡ lits_of own }
        ensures others { (w : ℕ) → w ≢ word_of own → own_of self.new w ≡ own_of self.old w }
    {
        let word = own.word() as usize;
        self.words[word] = own;
    }

    /// Whether the literals of a word can not all be true.
    pub fn is_dead_at(&self, word: u8) -> bool
        requires { word < 16 }
        ensures { IsTrue result ↔ IsDeadAt (known_of self.now) word }
    {
        self.words[word as usize].is_dead()
    }
}

#[tactic(auto, unfolding(crate::specs::Learned::word_of))]
impl Knowledge for Learned {
    ghost use Rattle.cert_state.specs.Learned.{known_of};

    ghost known = { λ learned. known_of learned };

    fn entails(&self, literal: &Lit) -> bool {
        let word = literal.word();
        if word > 15 {
            return is_sure(literal);
        }
        self.words[word as usize].entails(literal)
    }

    fn range(&self, word: u8) -> Option<(u32, u32)> {
        self.words[word as usize].range()
    }
}
