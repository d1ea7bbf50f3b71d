//! The names of the constants that a profile's conditions compare arguments with.
mod bits;
mod kinds;
mod lines;
mod named;
mod told;

pub use told::names_of;
