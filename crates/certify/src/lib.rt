//! Certificates that follow each path of a filter, or the record on which it is wrong.
//!
//! At each place of a path a node says what the comparisons on the way there have told. It also says what the registers hold, as far as
//! that is known. At a return what is known is cut in two, again and again, until the checker's own question says that the profile is
//! settled. So the certificate keeps each rule of the checker, whatever the filter. At each return that is not settled a record is tried
//! that may come there. A record that is returned is one on which filter and profile differ. If each comparison of a filter tells all that
//! it asks, as in the compiler's, there is a certificate or such a record. This holds if memory and the limits of the format allow it. For
//! once all words of a record are known, the profile is settled. If its verdict is another one then, the record is a counterexample. A
//! certificate grows with the number of paths. What is known at a place is lent as a [`Chain`] of literals.
#![tactic(auto)]

mod action;
mod calls;
mod certifying;
mod chain;
mod cuts;
mod error;
mod fault;
mod following;
mod law;
mod masks;
mod paths;
mod place;
mod told;
mod unlike;

pub use certifying::{certify, certify_accepted};
pub use chain::Chain;
pub use error::CertifyError;
pub use fault::PathsError;
pub use following::by_paths;
pub use law::steady_is_telling;
