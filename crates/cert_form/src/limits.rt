//! How large a certificate may be, in each of its forms.

/// The most bytes.
pub const MAX_BYTES: usize = 4_194_304;

/// The most nodes.
pub const MAX_NODES: usize = 16_384;

/// The most entries of chains.
pub const MAX_ENTRIES: usize = 65_536;

/// The most literals of a node in form 1, and the most entries of a chain in the others.
pub const MAX_LITERALS: usize = 512;
