//! The calls of which a filter gives another verdict than a bundle says, as far as some are found.
mod judged;
mod lines;
mod search;

pub use judged::counterexamples_of;
pub(crate) use judged::put_first;
pub use lines::write_counterexamples;
