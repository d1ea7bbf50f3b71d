//! The program `ccell` over arguments, files and streams that are handed in, so that tests can stand in for them. This is which
//! command its arguments are, and what it does. What it judges and makes is `maker`'s, whose public names are found here too.
#![tactic(auto)]

mod adapting;
mod all;
mod all_behind;
mod auditing;
mod behind;
mod beside;
mod certifying;
mod combining;
mod comparing;
mod ending;
mod explaining;
mod exporting;
mod fault;
mod files;
mod flattening;
mod forms;
mod grouping;
mod law;
mod leaving_aside;
mod logs;
mod manual;
mod naming;
mod objects;
mod parts;
mod program;
mod recovering;
mod remarking;
mod reviewing;
mod run;
mod showing;
mod stops;
mod text_commands;
mod widening;

pub use command_line::{
    COMMANDS, Command, CommandLine, Count, Entry, Meaning, Misuse, Part, read_arguments,
};
pub use fault::FileFault;
pub use files::Files;
pub use law::headline;
pub use maker::{
    Answer, CheckedBundle, Finding, MakeError, answer_to, certify_bundle, check_line,
    evidence_excludes, export_bundle, finding_of, findings_exclude, one_answer, verdict_line,
};
pub use parts::{Form, machines_are_called};
pub use program::dispatch;
pub use run::run_bundles;
pub use session::{Bundle, Bundles, ScriptFault, run_script};
pub use stops::{Stop, report};
