//! What a bundle says of a call whatever its arguments, and of the lines that a kernel's audit writes of filters.
mod answers;
mod any;
mod auditing;
mod event;
mod events;
mod fields;
mod lines;
mod named;
mod naming;
mod origins;
mod signs;
mod what;

pub(crate) use answers::what_may_not_never_does;
pub use any::explain_any;
pub use auditing::audit;
