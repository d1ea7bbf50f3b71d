//! Two filters: calls of which they answer unlike verdicts, as far as some are found.
mod candidates;
mod numbers;
mod outcome;
mod search;
mod told;
mod unlike;
mod word_tests;

pub(crate) use outcome::{Outcome, outcome_of};
pub use search::find_differences;
pub use told::compare_filters;
