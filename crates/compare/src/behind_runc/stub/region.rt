//! The records that take one path.

use machines::Numbers;

/// The records of these numbers of calls and these tokens.
#[derive(Clone, Copy, Debug)]
pub(crate) struct Region {
    pub(crate) numbers: Numbers,
    pub(crate) tokens: Numbers,
}
