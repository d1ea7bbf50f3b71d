//! Places in the code, and where the code goes on.

use call_record::Word;

/// A place in the code. It stays the same while code is written in front of it.
#[derive(Clone, Copy)]
pub(crate) struct Label {
    /// How many instructions there are from the place to the end.
    pub(crate) to_end: usize,
}

/// Where the code goes on.
#[derive(Clone, Copy)]
pub(crate) enum Target {
    /// At a place.
    Place(Label),
    /// At the return of a verdict, of which a filter has just one.
    Return(Word),
}

/// Where the code goes on after a test.
#[derive(Clone, Copy)]
pub(crate) struct Exits {
    pub(crate) yes: Target,
    pub(crate) no: Target,
}
