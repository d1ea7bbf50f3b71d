//! JSON texts before they are read: where and why a text is none, and which key stands twice. Also a text without the members
//! that nobody reads.
mod fault;
mod frames;
mod known;
mod skip;
mod trim;

pub(crate) use fault::TextFault;
pub use fault::fault_of;
pub use trim::{Doubled, Trimmed, without_unread};
