//! Writes the certificate of a filter that the compiler made, and forgets on the way what no longer matters.
//!
//! It goes down the filter from its beginning, and writes a node for each place and for each thing that may be known there. Of
//! a call the compiler asks rules in parts, one part after the other: that is all that the maker is told. So a rule of the part that is
//! asked is out once what is known refutes it. A condition is met once it is yes. A word of the record is forgotten if no rule that is left
//! asks anything of it. Paths that are then alike share their nodes. Where the compiler went on alike for numbers that are unlike, what is
//! known is cut in two.
//!
//! Of some calls the compiler asks at once for bits of a word for which rules ask apart (`merged`). All that is known of these calls is
//! kept, and no node states which of their rules are out.
//!
//! The maker is not trusted, and promises nothing of what it writes: whoever relies on a certificate has it checked.
#![tactic(auto)]

mod asked;
mod conditions;
mod cuts;
mod fault;
mod folded;
mod keeping;
mod learning;
mod listing;
mod maker;
mod making;
mod merged;
mod needs;
mod numbers;
mod order;
mod parts;
mod passes;
mod probing;
mod reasons;
mod rules;
mod spot;
mod stating;
mod words;

pub use asked::AskedCall;
pub use fault::OutlineError;
pub use making::{are_too_many, outlined};
pub use order::asked_by;
