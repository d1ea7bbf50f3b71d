//! The evidence on a filter: a certificate that it is right, or a call record on which it is wrong.
//!
//! The maker is not trusted. Whether a certificate shows what it is to show is left to the checker, which stands on
//! none of this. What the maker owes is that the checker accepts its work, and that it is small. There are two ways. Of a filter
//! which the compiler makes of a profile with conditions, the certificate is written from the compiler's outline, by `outline`. Of
//! any other filter each path is followed, by `certify`, which gives a certificate or a record. For profiles without conditions it is
//! proved that the certificate is found. If the paths are too many, the outline of the compiler's filter is tried, then the order in which
//! the filter itself asks for rules. Then `record_search` looks for a record.
mod asked;
mod evidence;
mod hand;
mod law;
mod maker;
mod own;

pub(crate) use asked::has_too_many;
pub use evidence::{Counterexample, Evidence, judge};
pub(crate) use hand::Hand;
pub use law::{compiled_is_right, shape_is_right, table_profiles_are_plain};
pub(crate) use maker::{are_plain, propose, propose_shared};
pub(crate) use own::{by_merged, bytes_of, shortened};
