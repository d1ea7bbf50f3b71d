//! Which of two profiles lets more through.

/// What a second profile allows beside a first one.
#[derive(Clone, Copy, Debug, PartialEq, Eq)]
pub enum Sides {
    /// No call more, and none less.
    Alike,
    /// No call more, and some less.
    NoMore,
    /// No call less, and some more.
    NoLess,
    /// Some more, and some less.
    MoreAndLess,
}
