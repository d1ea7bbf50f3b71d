//! Texts that are written a part at a time.
use std::alloc::{AllocError, Global};
use std::fmt::{Display, Write};

/// A text, and whether there was memory for all of it. Also, whether a list or an object has begun in it that has no member
/// yet.
#[derive(Drop)]
pub(crate) struct Text {
    text: String,
    is_whole: bool,
    has_begun: bool,
}

impl Text {
    /// An empty text.
    pub(crate) fn new(alloc: Global) -> Text {
        Text {
            text: String::new(alloc),
            is_whole: true,
            has_begun: false,
        }
    }

    /// Adds a part.
    pub(crate) fn put(&mut self, part: impl Display + Drop) {
        if write!(self.text, "{part}").is_err() {
            self.is_whole = false;
        }
    }

    /// Begins a list or an object.
    pub(crate) fn begin(&mut self, bracket: &str) {
        self.put(bracket);
        self.has_begun = true;
    }

    /// Whether it has no member yet.
    pub(crate) fn has_begun(&self) -> bool {
        self.has_begun
    }

    /// Adds what stands between two members, if one stands there.
    pub(crate) fn separate(&mut self, separator: &str) {
        if self.has_begun {
            self.has_begun = false;
        } else {
            self.put(separator);
        }
    }

    /// Ends a list or an object.
    pub(crate) fn end(&mut self, bracket: &str) {
        self.has_begun = false;
        self.put(bracket);
    }

    /// Keeps in mind that there was no memory.
    pub(crate) fn fail(&mut self) {
        self.is_whole = false;
    }

    /// Whether nothing was added.
    pub(crate) fn is_empty(&self) -> bool {
        self.text.is_empty()
    }

    /// All that was added.
    pub(crate) fn whole(self) -> Result<String, AllocError> {
        if self.is_whole {
            Ok(self.text)
        } else {
            Err(AllocError)
        }
    }
}
