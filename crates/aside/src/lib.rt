//! Is a filter right but for some calls? Calls that matter to no one are left aside and reported, and the filter is judged for all others.
//! Such are the calls of x32, on nodes whose kernel has none, and numbers that no table has.
//!
//! A filter is built that gives the records of these calls to a filter compiled for the bundle. All others it gives to the filter that is
//! to be judged. It is proved that the latter records get the same verdict from both. Nothing need be believed of the former.
//!
//! `recovered` has the section for which a filter is right but for such calls, and which is judged so.
#![tactic(auto)]

mod counterexamples;
mod front;
mod judged;
mod leave;
mod named;
mod recovered;
mod undecided;
mod written;

pub use counterexamples::counterexamples_but;
pub use judged::{JudgedAside, judge_but};
pub use leave::Leave;
pub use recovered::{RecoveredBundle, RecoveredBut, recover_but, recover_told};
pub use written::{write_but, write_found};
