//! A filter of a container that runc started. Here are the stub that runc puts in front of it, and what is judged of the filter behind it.
mod all;
mod behind;
mod judged;
mod spared;
mod stub;
mod text;

pub use all::counterexamples_behind;
pub use behind::{Behind, behind_stub};
pub use judged::{Judged, judge_behind, write_behind};
pub use spared::spares;
pub use stub::{Calls, is_answered};
pub use text::{calls_text, stub_text};
