//! The ENOSYS stub that runc puts in front of a container's filter, told apart from the filter.
//!
//! Each path through the first instructions of a program is followed by [`split`], on all records at once that take it.
mod calls;
mod compare;
mod numbers;
mod path;
mod region;
mod splitting;
mod step;

pub use calls::{Calls, is_answered};
pub(crate) use splitting::{Stub, split};
