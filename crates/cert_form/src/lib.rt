//! The bytes of a certificate, and the nodes that they spell.
#![tactic(auto)]

mod chain;
mod chain_writing;
mod chained;
mod fault;
mod judge;
mod law;
mod lent;
mod limits;
mod listed;
mod node;
mod part;
mod put;
mod sought;
mod view;
mod writing;

pub use chain_writing::{write_chained, write_claims};
pub use fault::FormError;
pub use law::{certificates_have_no_fault, one_spelling};
pub use lent::NodeView;
pub use limits::{MAX_BYTES, MAX_ENTRIES, MAX_LITERALS, MAX_NODES};
pub use node::{ChainNode, Claim, Kind, Node};
pub use view::CertView;
pub use writing::write;
