//! Bundles of narrowed profiles: they compare of each argument what a kernel reads of it, and nothing else. Each entry that is
//! written in parts is told with its place. The module `unread_bits` tells which calls get past a profile by bits that no kernel reads.
#![tactic(auto)]

mod arguments;
mod conditions;
mod entries;
mod linux_arguments;
mod narrowing;
mod plans;
mod text;
mod told;
mod unread_bits;
mod written;

pub use arguments::{Reading, cut_bits, read_bits, readings};
pub use narrowing::{
    CutError, WHOLE, add_narrowed, cleared, cleared_is_alike, is_narrowed, narrowed, sees_low,
    suit_call, suits,
};
pub use text::Text;
pub use told::{Narrowing, narrow};
pub use unread_bits::{AllPast, Past, alike_calls_go_equally_far, all_past, past_on};
