//! Calls of machines that are listed, and all others. A filter is made of another. It gives the first calls what that one gives, and
//! kills all others just where that one allows them.
//!
//! With it a maker and a checker that know profiles alone, in which all other calls are killed, judge a filter that allows them.
mod guard;
mod insns;
mod made;
mod turned;
mod unguarded;

pub use made::guarded;
pub use unguarded::Unguarded;
