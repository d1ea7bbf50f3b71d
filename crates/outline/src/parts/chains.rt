//! The chains of a certificate: lists of claims that share their beginnings.

use super::marks::Marks;
use super::table::{Item, Table, mixed};
use cert_form::{ChainNode, Claim, FormError, MAX_ENTRIES, MAX_LITERALS, write_claims};
use cert_state::Lit;
use std::alloc::{AllocError, Global};

/// Entries, each with the number of its parent, or 0, and a claim. They are numbered from 1.
#[derive(Drop)]
pub struct Chains {
    entries: Table<(u32, Claim)>,
    // Those of the claims that are asked for now.
    marks: Marks,
}

/// A chain that is there, and claims that are to be stated behind it.
#[derive(Drop)]
struct Begun {
    chain: u32,
    left: Vec<Claim>,
}

impl Item for Claim {
    fn key(&self) -> u32 {
        match *self {
            Claim::Knows(Lit::In(word, low, high)) => mixed(low, mixed(u32::from(word), high)),
            Claim::Knows(Lit::Bits(word, mask, datum)) => {
                mixed(datum, mixed(u32::from(word), mask))
            }
            Claim::Knows(Lit::NotBits(word, mask, datum)) => {
                mixed(datum, mixed(u32::from(word), !mask))
            }
            Claim::Out(rule) => rule,
            Claim::Met(rule, condition) => mixed(rule, condition),
        }
    }
}

impl Item for (u32, Claim) {
    fn key(&self) -> u32 {
        mixed(mixed(self.0, 0), self.1.key())
    }
}

impl Chains {
    /// No entries.
    pub fn new(alloc: Global) -> Chains {
        Chains {
            entries: Table::new(alloc),
            marks: Marks::none(alloc),
        }
    }

    /// How many entries there are.
    pub fn count(&self) -> usize {
        self.entries.items().len()
    }

    /// How many entries speak of rules.
    pub fn count_of_rules(&self) -> usize {
        let mut count = 0usize;
        for (_, claim) in self.entries.items() {
            if !matches!(claim, Claim::Knows(_)) {
                count = count.saturating_add(1);
            }
        }
        count
    }

    /// The chain with one claim more.
    pub fn longer(&mut self, chain: u32, claim: Claim) -> Result<u32, FormError> {
        let place = self.entries.place((chain, claim))?;
        if place >= MAX_ENTRIES {
            return Err(FormError::BadCount);
        }
        Ok(place as u32 + 1)
    }

    // The chain with those claims more, one after the other, with which it is there. The others are left.
    fn longest(&self, alloc: Global, chain: u32, claims: &[Claim]) -> Result<Begun, AllocError> {
        let mut begun = Begun {
            chain,
            left: Vec::new(alloc),
        };
        for claim in claims {
            match self.entries.find(&(begun.chain, *claim)) {
                Some(place) => begun.chain = place.min(MAX_ENTRIES) as u32 + 1,
                None => begun.left.push(*claim)?,
            }
        }
        Ok(begun)
    }

    // The chain that is longer by as many of these claims as are found by going over them until none is.
    fn begun(&self, alloc: Global, from: u32, claims: &[Claim]) -> Result<Begun, AllocError> {
        let mut last = from;
        let mut begun = self.longest(alloc, from, claims)?;
        for _ in 0..claims.len() {
            if begun.chain == last || begun.left.is_empty() {
                break;
            }
            last = begun.chain;
            begun = self.longest(alloc, last, &begun.left)?;
        }
        Ok(begun)
    }

    // The longest beginning of a chain whose claims are all marked, and whether no claim after it is.
    fn beginning(&self, chain: u32) -> (u32, bool) {
        let (mut kept, mut left) = (chain, chain);
        let (mut is_whole, mut has_marked) = (true, false);
        for _ in 0..MAX_LITERALS {
            let Some((parent, claim)) = self.last(left) else {
                break;
            };
            if self.marks.has(claim) {
                has_marked = true;
            } else {
                kept = parent;
                is_whole &= !has_marked;
            }
            left = parent;
        }
        (kept, is_whole)
    }

    // Takes the marks of the claims of a chain.
    fn take_marks(&mut self, chain: u32) {
        let mut left = chain;
        for _ in 0..MAX_LITERALS {
            let Some((parent, claim)) = self.last(left) else {
                break;
            };
            self.marks.take(claim);
            left = parent;
        }
    }

    // The chain that goes on behind the beginning of one before, with as many of the claims as are found. Also returns
    // whether what comes after that beginning states none of them.
    fn begun_as(
        &mut self,
        alloc: Global,
        before: u32,
        claims: &[Claim],
    ) -> Result<(Begun, bool), AllocError> {
        self.marks.set_to(claims)?;
        let (chain, is_whole) = self.beginning(before);
        self.take_marks(chain);
        let left = self.marks.left(alloc, claims)?;
        Ok((self.begun(alloc, chain, &left)?, is_whole))
    }

    // The chain with all claims that are left.
    fn with_left(&mut self, begun: &Begun) -> Result<u32, FormError> {
        let mut chain = begun.chain;
        for claim in &begun.left {
            chain = self.longer(chain, *claim)?;
        }
        Ok(chain)
    }

    /// A chain of what a node states: what lasts and what passes. It has whatever order shares much with the chains that are there. It
    /// begins as that of a node before, or else as one that is found claim by claim.
    pub fn of(
        &mut self,
        alloc: Global,
        lasting: &[Claim],
        passing: &[Claim],
        before: u32,
    ) -> Result<u32, FormError> {
        if lasting.len().saturating_add(passing.len()) > MAX_LITERALS {
            return Err(FormError::BadCount);
        }
        let (mut begun, is_whole) = self.begun_as(alloc, before, lasting)?;
        if !is_whole && !begun.left.is_empty() {
            let other = self.begun(alloc, 0, lasting)?;
            if other.left.len() < begun.left.len() {
                begun = other;
            }
        }
        let chain = self.with_left(&begun)?;
        let begun = self.begun(alloc, chain, passing)?;
        self.with_left(&begun)
    }

    /// A chain of all these claims, without those that follow from others of it. It goes on behind another one, with these that are lacking
    /// there. If one that is found claim by claim is shorter, it is that one.
    pub fn behind(
        &mut self,
        alloc: Global,
        before: u32,
        lacking: &[Claim],
        all: &[Claim],
    ) -> Result<u32, FormError> {
        if self.length(before).saturating_add(lacking.len()) <= MAX_LITERALS {
            let begun = self.begun(alloc, before, lacking)?;
            if begun.left.is_empty() {
                return Ok(begun.chain);
            }
            let other = self.begun(alloc, 0, all)?;
            if begun.left.len() <= other.left.len() {
                return self.with_left(&begun);
            }
            return self.with_left(&other);
        }
        if all.len() > MAX_LITERALS {
            return Err(FormError::BadCount);
        }
        let begun = self.begun(alloc, 0, all)?;
        self.with_left(&begun)
    }

    // How many claims a chain has.
    fn length(&self, chain: u32) -> usize {
        let mut left = chain;
        for length in 0..MAX_LITERALS {
            match self.last(left) {
                Some((parent, _)) => left = parent,
                None => return length,
            }
        }
        MAX_LITERALS
    }

    // The chain without its last claim.
    fn parent(&self, chain: u32) -> u32 {
        match self.last(chain) {
            Some((parent, _)) => parent,
            None => 0,
        }
    }

    /// The longest beginning that two chains have in common. The number of an entry is greater than that of its parent.
    pub fn common(&self, one: u32, other: u32) -> u32 {
        let (mut one, mut other) = (one, other);
        for _ in 0..2 * MAX_LITERALS {
            if one == other {
                return one;
            }
            if one > other {
                one = self.parent(one);
            } else {
                other = self.parent(other);
            }
        }
        0
    }

    /// A chain up to the first literal of a word that is none of these claims.
    pub fn up_to_others(&self, chain: u32, word: u8, claims: &[Claim]) -> u32 {
        let (mut kept, mut left) = (chain, chain);
        for _ in 0..MAX_LITERALS {
            let Some((parent, claim)) = self.last(left) else {
                break;
            };
            if let Claim::Knows(literal) = claim
                && literal.word() == word
                && !claims.contains(&claim)
            {
                kept = parent;
            }
            left = parent;
        }
        kept
    }

    /// Those of some claims that a chain does not state.
    pub fn lacking(
        &mut self,
        alloc: Global,
        chain: u32,
        claims: &[Claim],
    ) -> Result<Vec<Claim>, AllocError> {
        self.marks.set_to(claims)?;
        self.take_marks(chain);
        self.marks.left(alloc, claims)
    }

    /// The last claim of a chain, with the chain before it.
    pub fn last(&self, chain: u32) -> Option<(u32, Claim)> {
        self.entries.get((chain as usize).wrapping_sub(1)).copied()
    }

    /// The claims of a chain.
    pub fn claims(&self, alloc: Global, chain: u32) -> Result<Vec<Claim>, AllocError> {
        let mut claims = Vec::new(alloc);
        let mut left = chain;
        for _ in 0..MAX_LITERALS {
            let Some((parent, claim)) = self.last(left) else {
                break;
            };
            claims.push(claim)?;
            left = parent;
        }
        claims.reverse();
        Ok(claims)
    }

    /// The certificate of these nodes, whose chains are made here.
    pub fn written(&self, alloc: Global, nodes: &[ChainNode]) -> Result<Vec<u8>, FormError> {
        write_claims(alloc, self.entries.items(), nodes)
    }
}
