//! How much a check of a certificate asks, and whether that is within the limit.
#![tactic(auto)]

mod asked;
mod nodes;
mod stated;
mod weights;

pub use nodes::{MOST_WORK, is_within};
