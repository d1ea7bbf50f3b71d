//! The checker of certificates: whether a filter gives each call record the verdict that a profile says.
#![tactic(auto)]

mod agree;
mod agreed;
mod alike;
mod answered;
mod calls;
mod checked;
mod checking;
mod claims;
mod conditions;
mod edges;
mod entailed;
mod equals;
mod fault;
mod judged;
mod judging;
mod law;
mod likely;
mod nodes;
mod numbers;
mod passage;
mod returned;
mod root;
mod scratch;
mod settled;
mod several;
mod split;
mod told;
mod weighing;

pub use checked::Checked;
pub use checking::{check, check_accepted};
pub use conditions::judge_condition;
pub use fault::CheckError;
pub use judged::Judged;
pub use law::{stated_is_settled, valid_is_kept, valid_is_right};
pub use scratch::Scratch;
pub use settled::is_settled;
