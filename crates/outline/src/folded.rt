//! Numbers that are searched for without a bit, where machines with one token share the search.

use crate::maker::Maker;
use crate::numbers::NUMBER;
use crate::parts::Cut;
use crate::spot::Spot;
use cert_state::{AVal, Lit, is_bit};

/// A part of the number that A holds, and what is known of the bits outside.
#[derive(Clone, Copy)]
pub(crate) struct Part {
    mask: u32,
    rest: Option<u32>,
}

impl Part {
    /// What is known of the bits outside.
    pub(crate) fn known(&self) -> Option<Lit> {
        let rest = self.rest?;
        Some(Lit::Bits(NUMBER, self.mask ^ u32::MAX, rest))
    }

    /// What a literal of the part says of the whole number.
    pub(crate) fn whole(&self, literal: Lit) -> Lit {
        let Some(rest) = self.rest else {
            return literal;
        };
        match literal {
            Lit::Bits(NUMBER, mask, datum) if mask == self.mask => {
                Lit::Bits(NUMBER, u32::MAX, datum | rest)
            }
            Lit::NotBits(NUMBER, mask, datum) if mask == self.mask => {
                Lit::NotBits(NUMBER, u32::MAX, datum | rest)
            }
            _ => literal,
        }
    }
}

impl<'a> Maker<'a> {
    // What is known of the bits of the number under a mask.
    fn bits_of_number(&self, spot: &Spot, mask: u32) -> Option<u32> {
        for literal in &self.words.get(spot.numbers)?.masked {
            if let Lit::Bits(NUMBER, under, datum) = literal
                && *under == mask
            {
                return Some(*datum);
            }
        }
        None
    }

    /// The part of the number that A holds at a spot, if it holds no whole word.
    pub(crate) fn part_of_number(&self, spot: &Spot) -> Option<Part> {
        match spot.a {
            AVal::Masked(NUMBER, mask) if mask != u32::MAX => Some(Part {
                mask,
                rest: self.bits_of_number(spot, mask ^ u32::MAX),
            }),
            _ => None,
        }
    }

    /// Whether a literal says that the number is another, which a comparison of a part at a spot does not tell by itself.
    pub(crate) fn is_of_part(&self, spot: &Spot, literal: Lit) -> bool {
        matches!(literal, Lit::NotBits(NUMBER, u32::MAX, _)) && self.part_of_number(spot).is_some()
    }

    /// Where the number is cut before a part of it is compared: by the one bit outside, if nothing is known of it.
    pub(crate) fn cut_of_part(&self, spot: &Spot) -> Option<Cut> {
        let part = self.part_of_number(spot)?;
        let bit = part.mask ^ u32::MAX;
        if part.rest.is_some() || !is_bit(bit) {
            return None;
        }
        Some((Lit::Bits(NUMBER, bit, 0), Lit::Bits(NUMBER, bit, bit)))
    }
}
