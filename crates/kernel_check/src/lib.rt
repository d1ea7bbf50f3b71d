//! The kernel's check of a filter, before it is loaded.
//!
//! [`accept`] takes a program just if the kernel would, and else reports what is wrong and at which place. An
//! [`Accepted`] program is lent in the bytes that it was read from, and an [`AcceptedBuf`] owns a
//! copy of them.
#![tactic(auto)]

mod causes;
mod check;
mod fault;
mod law;
mod lent;
mod owned;
mod scratch;

pub use check::accept;
pub use fault::{Cause, Refused};
pub use law::{accepted_programs_give_verdicts, one_refusal};
pub use lent::Accepted;
pub use owned::AcceptedBuf;
