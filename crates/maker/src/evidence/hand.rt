//! What is at hand of a filter before each of its paths is followed.

/// What is at hand.
#[derive(Drop)]
pub(crate) enum Hand {
    /// A certificate.
    Certificate(Vec<u8>),
    /// The certificate that is written from the filter's outline came out too large.
    TooLarge,
    /// There is no outline, or the filter is another one than it tells.
    Nothing,
}
