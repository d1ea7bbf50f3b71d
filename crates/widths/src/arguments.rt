//! What a kernel reads of the arguments of a call.
//!
//! A filter sees registers of 64 bits. A call that takes an `int` looks at the lower half of its register alone. So two call
//! records can differ where the kernel sees no difference. The function [`read_bits`] returns how many of the lowest bits of an
//! argument are read. It is an upper bound: what is not known counts as read whole.
mod owner;
mod reading;
mod rows;

pub(crate) use owner::is_all_read;
pub use owner::{cut_bits, read_bits, readings};
pub use reading::Reading;
