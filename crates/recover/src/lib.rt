//! What profile does a filter have? The section of a bundle whose meaning is the filter's on each call record, or what no section says.
//!
//! Each number of a call is followed through the filter, and the comparisons that it may meet tell which arguments stand for all others.
//! The filter's verdicts on these are put into entries, as few as are easily found. None of this is trusted. What is written is read again.
//! It is handed out only with a certificate that the filter answers what it says, to which the checker said yes.
#![tactic(auto)]

mod calls;
mod cells;
mod classes;
mod covering;
mod draft;
mod entries;
mod law;
mod leaves;
mod machine_branches;
mod marks;
mod masking;
mod names;
mod numbers;
mod passed;
mod paths;
mod pieces;
mod recovered;
mod refusal_text;
mod said;
mod seen;
mod survey;
mod text;
mod unlike;
mod unrecovered;
mod unsaid;
mod word_test;
mod work;

pub use law::such_filters_are_no_bundles;
pub use passed::Passed;
pub use recovered::{draft_of, recover};
pub use refusal_text::line_of;
pub use unrecovered::Unrecovered;
pub use unsaid::{Shown, Unsaid};
