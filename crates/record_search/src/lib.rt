//! Looks for a call record on which a filter and a profile differ.
//!
//! It takes any profile and any filter that the kernel accepts, and tries records. These are calls of the tables, records beside the
//! rules, and such as the filter's comparisons tell apart. It is not trusted: whoever takes a record asks filter and profile for
//! their verdicts.
#![tactic(auto)]

mod rules;
mod search;
mod trace;
mod trials;
mod ways;
mod words;
mod work;

pub use search::{find_beside_rules, find_record};
