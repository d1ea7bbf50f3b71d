//! Rows of the tables.

/// A group, and names that stand for it: of calls, or of other groups.
pub type Row = (&'static str, &'static [&'static str]);
