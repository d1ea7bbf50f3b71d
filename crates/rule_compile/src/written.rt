//! Blocks that are in the code.

use crate::label::Target;
use crate::ranges::Leaf;

/// A block that is in the code.
#[derive(Clone, Copy)]
pub(crate) struct Written {
    pub(crate) target: Target,
    /// How many instructions there are at most from its first one to a return.
    pub(crate) height: usize,
}

/// How many instructions there are at most before the return of what decides.
pub(crate) fn height_of(written: &[Written], leaf: Leaf) -> usize {
    match leaf {
        Leaf::Verdict(_) => 0,
        Leaf::Block(block) => match written.get(block) {
            Some(block) => block.height,
            None => 0,
        },
    }
}
