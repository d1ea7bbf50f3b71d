//! Where a node stands, and what is known there.

use crate::parts::{Item, bits, mixed};
use cert_state::AVal;

/// Which call comes to a spot.
#[derive(Clone, Copy, PartialEq, Eq)]
pub(crate) enum Which {
    /// One of several.
    Several,
    /// One of which nothing is asked but its number.
    Plain,
    /// The one at this place of the calls of which rules ask for arguments.
    Asked(usize),
}

/// A position of the code, what A holds there, and what is known. This is known of the call's machine and number, of its arguments, and of
/// the rules, each by its place in a table.
#[derive(Clone, Copy, PartialEq, Eq)]
pub(crate) struct Spot {
    pub(crate) pc: usize,
    /// Nothing where that does not matter.
    pub(crate) a: AVal,
    pub(crate) which: Which,
    pub(crate) numbers: usize,
    pub(crate) arguments: usize,
    pub(crate) left: usize,
}

fn key_of_value(value: AVal) -> u32 {
    match value {
        AVal::Unknown => 1,
        AVal::Const(number) => mixed(2, number),
        AVal::Masked(word, mask) => mixed(u32::from(word), mask),
    }
}

impl Item for Spot {
    fn key(&self) -> u32 {
        let known = mixed(bits(self.numbers), bits(self.arguments));
        let place = mixed(bits(self.pc), key_of_value(self.a));
        mixed(mixed(place, known), bits(self.left))
    }
}
