//! What programs in C call: filters for bundles and for rules, the verdict of a filter, certificates, and the names and numbers
//! of calls. `include/ccell.h` documents each function. Nothing is kept between calls, no file is opened, and no process or
//! thread is started.
#![tactic(auto)]

mod added;
mod answers;
mod bundles;
mod calls;
mod of_texts;
mod rules;
mod status;
mod verdicts;

pub use bundles::{ccell_certify, ccell_check, ccell_filter_for_bundle};
pub use calls::{ccell_call_name, ccell_call_number};
pub use rules::ccell_filter_for_rules;
pub use status::Told;
pub use verdicts::ccell_verdict;
