//! Calls that get past a profile, or are stopped by it, by bits that the kernel does not read. It is decided for each call, by a walk through
//! its arguments.
mod calls;
mod law;
mod named;
mod on_call;
mod past;
mod sides;

pub use calls::{AllPast, all_past};
pub use law::alike_calls_go_equally_far;
pub use on_call::past_on;
pub use past::Past;
