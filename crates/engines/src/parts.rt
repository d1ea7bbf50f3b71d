//! The entries that are written for one of a configuration: itself, or one for each of its conditions.
use crate::place::Place;

/// A written entry, by the one of the configuration for which it stands. If it has one condition of that entry alone, also by this
/// condition.
#[derive(Clone, Copy)]
pub(crate) struct Part {
    pub(crate) entry: usize,
    condition: Option<usize>,
}

impl Part {
    /// An entry as it is.
    pub(crate) fn whole(entry: usize) -> Part {
        Part {
            entry,
            condition: None,
        }
    }

    /// An entry with one of its conditions alone.
    pub(crate) fn with_condition(entry: usize, condition: usize) -> Part {
        Part {
            entry,
            condition: Some(condition),
        }
    }

    /// Whether it has a condition of its entry.
    pub(crate) fn has(self, condition: usize) -> bool {
        match self.condition {
            Some(alone) => alone == condition,
            None => true,
        }
    }

    /// A number for each part of an entry, beside that of the entry.
    pub(crate) fn key(self) -> (usize, usize) {
        match self.condition {
            Some(condition) => (self.entry, condition.saturating_add(1)),
            None => (self.entry, 0),
        }
    }

    /// Where it stands in a section.
    pub(crate) fn place(self, top: &'static str) -> Place<'static> {
        let place = Place::top(top).entry(self.entry);
        match self.condition {
            Some(condition) => place.condition(condition),
            None => place,
        }
    }
}
