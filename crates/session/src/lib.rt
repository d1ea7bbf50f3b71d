//! Sessions: the lines of a script, carried out in order and each answered by a line.
//!
//! The function [`run_script`] reads a script from a source. It hands each line that is a command to a
//! [`Runtime`](lifecycle::Runtime), and writes the reply before it reads on.
#![tactic(auto)]

mod answer;
mod bundles;
mod carry;
mod fault;
mod law;
mod progress;
mod reply;
mod response;
mod run;

pub use bundles::{Bundle, Bundles};
pub use fault::ScriptFault;
pub use law::one_script;
pub use run::run_script;
