//! What two profiles, or a filter and a profile, have unlike, told in plain sentences. These are calls of which they do not say the same,
//! and whether one allows no more than the other. Also what is judged of a filter behind runc's stub. [`lint`] has the calls that get past
//! a profile.
#![tactic(auto)]

mod behind_runc;
mod calls;
mod change;
mod counterexamples;
mod difference;
mod equal;
mod filters;
pub mod lint;
mod outcome;
mod refuting;
mod search;
mod sides;
mod text;
mod told;

pub use behind_runc::{
    Behind, Calls, Judged, behind_stub, calls_text, counterexamples_behind, is_answered,
    judge_behind, spares, stub_text, write_behind,
};
pub use change::Change;
pub use counterexamples::{counterexamples_of, write_counterexamples};
pub use difference::{Difference, difference_on};
pub use filters::{compare_filters, find_differences};
pub use outcome::Comparison;
pub use refuting::explain_found;
pub use search::Crowded;
pub use sides::Sides;
pub use text::lines_of;
pub use told::compare;
