//! A checked filter, written to a sink as bytes, as a certificate and as a listing.
mod exports;
mod form;

pub use exports::{export_cert, export_form, export_listing, export_raw};
pub use form::Form;
