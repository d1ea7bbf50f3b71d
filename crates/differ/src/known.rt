//! What is known of two sides.
ghost use Rattle.std.specs.Prelude.{◌≡◌, true};
ghost use Rattle.differ.specs.Left.{AreNeverUnlike};

use crate::direction::Direction;
use crate::left::Side;
use crate::same::are_same;

/// Two sides that are never unlike in a direction, whatever the bits are that are not known.
#[derive(Drop)]
pub(crate) struct Known {
    pub(crate) direction: Direction,
    pub(crate) bits: u32,
    pub(crate) index: usize,
    pub(crate) rest: u32,
    pub(crate) one: Side,
    pub(crate) other: Side,
    pub ghost are_alike: { AreNeverUnlike direction bits index rest one other },
}

/// A question of two sides: by how many bits of which argument they go on.
#[derive(Clone, Copy, Debug)]
pub(crate) struct Question {
    pub(crate) direction: Direction,
    pub(crate) bits: u32,
    pub(crate) index: usize,
    pub(crate) rest: u32,
}

fn is_same_direction(one: Direction, other: Direction) -> bool
    ensures { result ≡ true → one ≡ other }
{
    one == other
}

fn is_same_place(known: &Known, at: Question) -> bool
    ensures direction { result ≡ true → known.now.direction ≡ at.direction }
    ensures bits { result ≡ true → known.now.bits ≡ at.bits }
    ensures index { result ≡ true → known.now.index ≡ at.index }
    ensures rest { result ≡ true → known.now.rest ≡ at.rest }
{
    if !is_same_direction(known.direction, at.direction) {
        return false;
    }
    if known.bits != at.bits {
        return false;
    }
    if known.index != at.index {
        return false;
    }
    known.rest == at.rest
}

/// Whether this answers a question of two sides.
pub(crate) fn is_of(known: &Known, at: Question, one: &Side, other: &Side) -> bool
    ensures { result ≡ true → AreNeverUnlike at.direction at.bits at.index at.rest one.now other.now }
{
    if !is_same_place(known, at) {
        return false;
    }
    if !are_same(&known.one, one) {
        return false;
    }
    are_same(&known.other, other)
}
