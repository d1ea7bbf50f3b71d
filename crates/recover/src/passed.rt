//! Which calls a draft passes over.

/// Whether numbers without a name are passed over, and whether the calls of x32 are. What is drafted need not be right of them, nor of
/// numbers that a stub in front answers.
#[derive(Clone, Copy, Debug)]
pub struct Passed {
    pub unnamed: bool,
    pub x32: bool,
    pub has_stub: bool,
}

impl Passed {
    /// No call is.
    pub(crate) const NONE: Passed = Passed {
        unnamed: false,
        x32: false,
        has_stub: false,
    };
}
