//! The forms in which a checked filter is written.

/// What is written of a checked filter.
#[derive(Clone, Copy, Debug, PartialEq, Eq)]
pub enum Form {
    /// The filter's bytes.
    Raw,
    /// Its listing.
    Listing,
    /// The bytes of its certificate.
    Certificate,
}
