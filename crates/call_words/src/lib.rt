//! The words by which a call is asked for on a command line, and what is wrong with those that ask for none.
//! `constant_names` names the constants that a profile's conditions compare arguments with.
#![tactic(auto)]

mod constant_names;
mod constants;
mod law;
mod nearest;
mod numbers;
mod sums;
mod tables;
mod wrong;

pub use constant_names::names_of;
pub use law::numbers_stay;
pub use sums::sum;
pub use tables::{
    advice, cloning, families, ioctl, mappings, opening, personalities, prctl, protections,
    socket_types, tracing,
};
pub use wrong::{put_wrong, put_wrong_call};
