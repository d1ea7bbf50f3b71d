//! What is known of some words of a record, as literals.

use crate::parts::{Item, NO_REGS, listed, mixed};
use cert_form::Claim;
use cert_state::{Knowledge, Listed, Lit, is_dead_at, range};
use std::alloc::{AllocError, Global};

/// Literals of whole words, word by word, and of bits under masks. What is known of bits under one mask is not looked at for those
/// under another, nor for the whole word. The compiler, too, asks for them apart.
#[derive(PartialEq, Eq, Drop)]
pub(crate) struct Words {
    pub(crate) whole: Vec<Lit>,
    pub(crate) masked: Vec<Lit>,
    /// Whether they can not all be true.
    pub(crate) are_dead: bool,
}

/// What is known of some words, and what is asked of their literals of whole words.
#[derive(Drop)]
pub(crate) struct Told<'a, K: Knowledge> {
    pub(crate) words: &'a Words,
    pub(crate) whole: &'a K,
    /// Whether it is asked of all literals, those of bits under masks among them.
    pub(crate) is_of_all: bool,
}

impl<K: Knowledge> Told<'_, K> {
    /// Whether a literal is known, by those of the same bits or by all.
    pub(crate) fn entail(&self, literal: Lit) -> bool {
        if self.is_of_all || is_whole(literal) {
            return self.whole.entails(&literal);
        }
        for other in &self.words.masked {
            if are_of_same_bits(*other, literal) && follows(*other, literal) {
                return true;
            }
        }
        false
    }
}

// Whether a literal speaks of its whole word.
fn is_whole(literal: Lit) -> bool {
    match literal {
        Lit::In(_, _, _) => true,
        Lit::Bits(_, mask, _) | Lit::NotBits(_, mask, _) => mask == u32::MAX,
    }
}

// Whether two literals speak of the same bits.
fn are_of_same_bits(one: Lit, other: Lit) -> bool {
    match (one, other) {
        (
            Lit::Bits(word, mask, _) | Lit::NotBits(word, mask, _),
            Lit::Bits(of, under, _) | Lit::NotBits(of, under, _),
        ) => word == of && mask == under,
        _ => false,
    }
}

// Whether a literal tells something where its word lies from one number to another.
fn tells(literal: Lit, low: u32, high: u32) -> bool {
    match literal {
        Lit::NotBits(_, _, number) => low < high && low <= number && number <= high,
        Lit::In(_, _, _) | Lit::Bits(_, _, _) => false,
    }
}

// Adds the literals of a list that are of the words from one to another, which is none of them.
fn add_words(lits: &mut Vec<Lit>, of: &[Lit], from: u8, to: u8) -> Result<(), AllocError> {
    for literal in of {
        if from <= literal.word() && literal.word() < to {
            lits.push(*literal)?;
        }
    }
    Ok(())
}

impl Words {
    /// Nothing is known.
    pub(crate) fn none(alloc: Global) -> Words {
        Words {
            whole: Vec::new(alloc),
            masked: Vec::new(alloc),
            are_dead: false,
        }
    }

    /// These words, and what answers for the whole ones.
    pub(crate) fn told<'a, K: Knowledge>(&'a self, whole: &'a K) -> Told<'a, K> {
        let is_of_all = false;
        Told {
            words: self,
            whole,
            is_of_all,
        }
    }

    /// The literals of whole words, and knowledge that all literals are asked of.
    pub(crate) fn told_by_all<'a, K: Knowledge>(&'a self, all: &'a K) -> Told<'a, K> {
        Told {
            words: self,
            whole: all,
            is_of_all: true,
        }
    }

    /// All literals, of whole words and of bits.
    pub(crate) fn all(&self, alloc: Global) -> Result<Vec<Lit>, AllocError> {
        let mut lits = Vec::from_slice(alloc, &self.whole)?;
        lits.extend_from_slice(&self.masked)?;
        Ok(lits)
    }

    /// The bits of a word that are known, and what they are.
    pub(crate) fn bits_at(&self, word: u8) -> (u32, u32) {
        let (mut known, mut bits) = (0, 0);
        for literal in self.whole.iter().chain(self.masked.iter()) {
            if let Lit::Bits(of, mask, datum) = *literal
                && of == word
            {
                known |= mask;
                bits |= datum;
            }
        }
        (known, bits)
    }

    /// These literals in short: one for all known bits of a word, and none that follows from these.
    pub(crate) fn in_short(&self, alloc: Global) -> Result<Words, AllocError> {
        let mut words = Words::none(alloc);
        for literal in self.whole.iter().chain(self.masked.iter()) {
            let (known, bits) = self.bits_at(literal.word());
            match *literal {
                Lit::Bits(word, _, _) => words.add_once(Lit::Bits(word, known, bits))?,
                Lit::NotBits(_, mask, datum) if known & mask & (bits ^ datum) != 0 => {}
                _ => words.add(*literal)?,
            }
        }
        words.are_dead = self.are_dead;
        Ok(words)
    }

    // Adds a literal as it is.
    fn add(&mut self, literal: Lit) -> Result<(), AllocError> {
        if is_whole(literal) {
            self.whole.push(literal)?;
        } else {
            self.masked.push(literal)?;
        }
        Ok(())
    }

    // Adds a literal unless it is there.
    fn add_once(&mut self, literal: Lit) -> Result<(), AllocError> {
        if self.whole.contains(&literal) || self.masked.contains(&literal) {
            return Ok(());
        }
        self.add(literal)
    }

    /// Adds the literals among some claims, as they are.
    pub(crate) fn add_of(&mut self, claims: &[Claim]) -> Result<(), AllocError> {
        for claim in claims {
            if let Claim::Knows(literal) = *claim {
                self.add(literal)?;
            }
        }
        Ok(())
    }

    /// What is known of all other words, and of this literal's word the literal alone.
    pub(crate) fn only(&self, alloc: Global, literal: Lit) -> Result<Words, AllocError> {
        let mut words = Words::none(alloc);
        for other in self.whole.iter().chain(self.masked.iter()) {
            if other.word() != literal.word() {
                words.add(*other)?;
            }
        }
        words.add(literal)?;
        Ok(words)
    }

    /// Whether a literal is known, by those of the same bits.
    pub(crate) fn entail(&self, literal: Lit) -> bool {
        let whole = listed(&self.whole);
        self.told(&whole).entail(literal)
    }

    // Adds the literals of the whole word of one more, and this, in short: where the word lies, and what is excluded. Where they
    // contradict each other they stay, which is reported.
    fn add_in_short(&self, lits: &mut Vec<Lit>, more: Lit) -> Result<bool, AllocError> {
        let word = more.word();
        let state = Listed {
            regs: NO_REGS,
            lits: &self.whole,
            more: Some(more),
        };
        let Some((low, high)) = range(&state, word) else {
            add_words(lits, &self.whole, word, word.saturating_add(1))?;
            lits.push(more)?;
            return Ok(true);
        };
        if low == high {
            lits.push(Lit::Bits(word, u32::MAX, low))?;
        } else if low != 0 || high != u32::MAX {
            lits.push(Lit::In(word, low, high))?;
        }
        for literal in &self.whole {
            if literal.word() == word && tells(*literal, low, high) {
                lits.push(*literal)?;
            }
        }
        if tells(more, low, high) {
            lits.push(more)?;
        }
        Ok(false)
    }

    // The literals of whole words, with one more, and whether those of its word contradict each other.
    fn whole_with(&self, alloc: Global, literal: Lit) -> Result<(Vec<Lit>, bool), AllocError> {
        let word = literal.word();
        let mut lits = Vec::with_capacity(alloc, self.whole.len().saturating_add(2))?;
        add_words(&mut lits, &self.whole, 0, word)?;
        let are_dead = self.add_in_short(&mut lits, literal)?;
        add_words(&mut lits, &self.whole, word.saturating_add(1), u8::MAX)?;
        Ok((lits, are_dead))
    }

    // The literals of bits under masks, with one more. What bits are says more than what they are not.
    fn masked_with(&self, alloc: Global, literal: Lit) -> Result<Vec<Lit>, AllocError> {
        let mut lits = Vec::new(alloc);
        for other in &self.masked {
            if !are_of_same_bits(*other, literal) || !follows(literal, *other) {
                lits.push(*other)?;
            }
        }
        lits.push(literal)?;
        Ok(lits)
    }

    // Whether something is known of a word's bits under a mask.
    fn have_masked(&self, word: u8) -> bool {
        self.masked.iter().any(|literal| literal.word() == word)
    }

    // Whether those of one word can not all be true.
    fn are_dead_at(&self, alloc: Global, word: u8) -> Result<bool, AllocError> {
        if !self.have_masked(word) {
            return Ok(is_dead_at(&listed(&self.whole), word));
        }
        let next = word.saturating_add(1);
        let mut own = Vec::with_capacity(alloc, self.whole.len().saturating_add(1))?;
        add_words(&mut own, &self.whole, word, next)?;
        add_words(&mut own, &self.masked, word, next)?;
        Ok(is_dead_at(&listed(&own), word))
    }

    // What is known, with one more literal of a whole word.
    fn longer(&self, alloc: Global, literal: Lit) -> Result<Words, AllocError> {
        let (whole, are_dead) = self.whole_with(alloc, literal)?;
        Ok(Words {
            whole,
            masked: Vec::from_slice(alloc, &self.masked)?,
            are_dead: self.are_dead || are_dead,
        })
    }

    /// What is known, with one more literal.
    pub(crate) fn with(&self, alloc: Global, literal: Lit) -> Result<Words, AllocError> {
        let word = literal.word();
        let mut words = if is_whole(literal) {
            self.longer(alloc, literal)?
        } else {
            Words {
                whole: Vec::from_slice(alloc, &self.whole)?,
                masked: self.masked_with(alloc, literal)?,
                are_dead: self.are_dead,
            }
        };
        if words.have_masked(word) {
            words.are_dead |= words.are_dead_at(alloc, word)?;
        }
        Ok(words)
    }

    /// What is known, with a literal of a whole word added as it is. It follows from what a comparison tells, but it is
    /// not told, so no end of a range is told by it.
    pub(crate) fn with_as_is(&self, alloc: Global, literal: Lit) -> Result<Words, AllocError> {
        let mut words = Words {
            whole: Vec::from_slice(alloc, &self.whole)?,
            masked: Vec::from_slice(alloc, &self.masked)?,
            are_dead: self.are_dead,
        };
        words.add(literal)?;
        words.are_dead |= words.are_dead_at(alloc, literal.word())?;
        Ok(words)
    }

    /// Whether something is known of the bits of a word under a mask.
    pub(crate) fn have(&self, word: u8, mask: u32) -> bool {
        let wanted = Lit::Bits(word, mask, 0);
        for literal in &self.masked {
            if are_of_same_bits(*literal, wanted) {
                return true;
            }
        }
        for literal in &self.whole {
            if mask == u32::MAX && literal.word() == word {
                return true;
            }
        }
        false
    }
}

// Whether a literal follows from one of the same bits.
fn follows(one: Lit, other: Lit) -> bool {
    match (one, other) {
        (Lit::Bits(_, _, datum), Lit::NotBits(_, _, another)) => datum != another,
        _ => one == other,
    }
}

fn key_of(literal: Lit) -> u32 {
    match literal {
        Lit::In(word, low, high) => mixed(mixed(u32::from(word), low), high),
        Lit::Bits(word, mask, datum) => mixed(mixed(u32::from(word), datum), mask),
        Lit::NotBits(word, mask, datum) => mixed(mixed(u32::from(word), !datum), mask),
    }
}

impl Item for Words {
    fn key(&self) -> u32 {
        let mut key = 0;
        for literal in &self.whole {
            key = mixed(key, key_of(*literal));
        }
        for literal in &self.masked {
            key = mixed(key, key_of(*literal));
        }
        key
    }
}
