//! What is stated, in lists. Whether memory was refused is asked once, when they are whole.

use crate::asked::{AskedCall, Left, LeftRule};
use crate::fault::OutlineError;
use crate::maker::Maker;
use crate::spot::{Spot, Which};
use crate::words::Words;
use cert_form::Claim;
use std::alloc::{AllocError, Global};

/// Claims, one after the other.
#[derive(Drop)]
pub(crate) struct Claims {
    pub(crate) items: Vec<Claim>,
    is_refused: bool,
}

/// What a node states: of its call and of rules, which nodes behind mostly state too; and of arguments, which changes from node
/// to node. It serves one node after the other.
#[derive(Drop)]
pub(crate) struct Stated {
    pub(crate) lasting: Claims,
    pub(crate) passing: Claims,
}

// How many claims most nodes make at most of their call and of rules, and of arguments.
const MANY: usize = 48;

const FEW: usize = 8;

impl Claims {
    // No claims, with room for so many.
    fn new(alloc: Global, room: usize) -> Result<Claims, AllocError> {
        Ok(Claims {
            items: Vec::with_capacity(alloc, room)?,
            is_refused: false,
        })
    }

    // Forgets all claims.
    fn clear(&mut self) {
        self.items.clear();
        self.is_refused = false;
    }

    // Adds a claim.
    fn add(&mut self, claim: Claim) {
        if self.items.push(claim).is_err() {
            self.is_refused = true;
        }
    }

    // Adds what is known of words.
    fn add_words(&mut self, words: Option<&Words>) {
        if let Some(words) = words {
            for literal in &words.whole {
                self.add(Claim::Knows(*literal));
            }
            for literal in &words.masked {
                self.add(Claim::Knows(*literal));
            }
        }
    }

    // Adds the conditions of a rule that are met, which are told by bits.
    fn add_met(&mut self, left: &LeftRule) {
        for place in 0..32 {
            if left.met >> place & 1 == 1 {
                self.add(Claim::Met(left.rule, place));
            }
        }
    }
}

impl Stated {
    /// Nothing is stated.
    pub(crate) fn nothing(alloc: Global) -> Result<Stated, AllocError> {
        Ok(Stated {
            lasting: Claims::new(alloc, MANY)?,
            passing: Claims::new(alloc, FEW)?,
        })
    }
}

impl<'a> Maker<'a> {
    // Which rules of a call are out, of those of the parts that were asked and of the one that is asked.
    fn rules_stated(&self, call: &AskedCall, left: &Left, stated: &mut Claims) {
        for (place, part) in call.parts.iter().enumerate() {
            let mut next = 0usize;
            for rule in part {
                let is_left = place == left.part && left.is_at(next, *rule);
                if is_left {
                    next = next.saturating_add(1);
                }
                if place <= left.part && !is_left {
                    stated.add(Claim::Out(*rule));
                }
            }
        }
    }

    // What is stated of the rules of a spot's call.
    fn left_stated(&self, spot: &Spot, stated: &mut Claims) {
        let (Which::Asked(call), Some(left)) = (spot.which, self.left.get(spot.left)) else {
            return;
        };
        if let Some(call) = self.calls.get(call)
            && !left.holds
            && !call.is_merged
        {
            self.rules_stated(call, left, stated);
        }
        for own in &left.rules {
            stated.add_met(own);
        }
    }

    /// What the node of a spot states: of its call, which rules are out and which conditions are met; and of arguments.
    pub(crate) fn state(&self, spot: &Spot, stated: &mut Stated) -> Result<(), OutlineError> {
        stated.lasting.clear();
        stated.lasting.add_words(self.words.get(spot.numbers));
        self.left_stated(spot, &mut stated.lasting);
        stated.passing.clear();
        stated.passing.add_words(self.words.get(spot.arguments));
        if stated.lasting.is_refused || stated.passing.is_refused {
            return Err(OutlineError::OutOfMemory);
        }
        Ok(())
    }
}
