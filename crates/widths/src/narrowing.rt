//! Profiles that speak of what a kernel reads alone.
//!
//! A condition compares a register of 64 bits, and many calls look at the lower half of it alone. So a profile can say two things
//! of two records that are alike to the kernel. The narrowed profile says of each record what the profile says of it with the
//! bits at 0 that are not read.
mod asked;
mod cutting;
mod fault;
mod lowering;
mod parts;
mod patterns;
mod profiles;
mod records;
mod rules;
mod suiting;

pub(crate) use cutting::conditions;
pub use fault::CutError;
pub(crate) use lowering::{cut_to, fits_in, fitting_stay, lowered_rule};
pub(crate) use parts::WIDEST;
pub(crate) use profiles::is_narrowed_of;
pub use profiles::{is_narrowed, narrowed};
pub use records::{cleared, cleared_is_alike};
pub use rules::add_narrowed;
pub(crate) use rules::{narrowed_rule, narrowed_rules};
pub(crate) use suiting::{Plan, own_plan};
pub use suiting::{WHOLE, sees_low, suit_call, suits};
