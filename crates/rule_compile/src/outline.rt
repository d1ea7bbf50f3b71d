//! What the compiler knows of a filter: what is asked where, and for which rules.

use crate::asked::Open;
use crate::question::Subject;
use crate::ranges::{Leaf, Range};

/// Where to go on, by some bits of a word.
#[derive(Drop)]
pub struct Block {
    pub subject: Subject,
    /// The numbers that the bits may have.
    pub ranges: Vec<Range>,
    /// What it stands for: these questions, and where to go on if none of their rules holds.
    pub rules: Vec<Open>,
    pub other: Leaf,
}

/// Questions of a call that are asked at once.
#[derive(Drop)]
pub struct Part {
    pub rules: Vec<Open>,
    /// What decides, from there on.
    pub leaf: Leaf,
}

/// What is asked of the arguments of a call.
#[derive(Drop)]
pub enum Asked {
    /// Nothing: the rule at this place of the profile's order holds.
    Nothing(usize),
    /// The questions of the last part stand for the first ones that are asked. If none of a part's rules holds, the part before
    /// it in this list is asked. After the first one of the list the call has the default verdict.
    InParts(Vec<Part>),
}

/// A call of which rules ask for arguments.
#[derive(Drop)]
pub struct Call {
    /// The token of its machine.
    pub token: u32,
    pub number: u32,
    /// What decides it.
    pub leaf: Leaf,
    pub asked: Asked,
}

/// What the compiler knows of a filter.
#[derive(Drop)]
pub struct Outline {
    /// Each goes on at blocks before it.
    pub blocks: Vec<Block>,
    /// The calls of which rules ask for arguments.
    pub calls: Vec<Call>,
}
