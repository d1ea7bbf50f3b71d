//! What the checker is asked of.

/// The bytes of a filter, and of a certificate of it.
#[derive(Drop)]
pub(crate) struct Proposal {
    pub(crate) filter: Vec<u8>,
    pub(crate) certificate: Vec<u8>,
}
