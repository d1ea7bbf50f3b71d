//! Compiles a profile to a seccomp filter.
//!
//! That each filter is right is proved here. Nobody has to rely on it. What loads a filter stands on a check of the filter
//! against the profile. The check knows nothing of this code.
#![tactic(auto)]

mod asked;
mod assembler;
mod blocks;
mod fault;
mod filter;
mod folded;
mod fronts;
mod groups;
mod index;
mod known;
mod label;
mod levels;
mod measures;
mod merged;
mod outline;
mod parted;
mod question;
mod ranges;
mod reached;
mod remaining;
mod rows;
mod runs;
mod search;
mod shared;
mod shorter;
mod starts;
mod together;
mod written;

pub use asked::{Asker, Open};
pub use fault::CompileError;
pub use filter::{Made, Planned, compile, make, plan};
pub use outline::{Asked, Block, Call, Outline, Part};
pub use question::{Comparison, Question, Subject};
pub use ranges::{Leaf, Range};
pub use shorter::{Known, Shorter, shorten};
