//! What a command answers, as JSON lines: an object for each line of the answer, with its details, and one for the status.
#![tactic(auto)]

mod fitting;
mod law;
mod parting;
mod splitting;
mod table;
mod writing;

pub use law::{answers_are_kept, lines_are_kept, objects_are_read};
pub use splitting::{count_of_details, lines_of, parts_of, said, split};
pub use table::{Entry, TABLE};
pub use writing::{certificate, lines};
