//! What a node claims of rules: which are out, and which of their conditions are met.
mod mets;
mod outs;
mod shared;

pub(crate) use mets::{FEW_RULES, Mets, SOME_RULES, has_no_met, mark_mets};
pub(crate) use outs::{Outs, has_none, mark_outs};
pub(crate) use shared::are_placed;
