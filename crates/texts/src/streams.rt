//! Where bytes come from and where they go.
//!
//! A [`Source`] gives bytes and a [`Sink`] takes them; both count the calls that failed.
mod fault;
mod sink;
mod source;

pub use fault::{Failed, WriteFault};
pub use sink::{Sink, ToWrite, write_all};
pub use source::{FromRead, Source};
