//! Overlaps settled: if entries of a bundle say unlike things of one record, which of them counts. Also whether a profile says of each
//! record what the one says that does.
mod calls;
mod choice;
mod covering;
mod judged;
mod kinds;
mod lists;
mod rules;
mod winning;

pub use choice::Choice;
pub(crate) use judged::is_settled;
pub(crate) use winning::winners;
