//! On which call records two profiles say unlike verdicts, decided for each call by a walk through the bits of its arguments; and
//! numbers that stand for all others where conditions on one argument are asked.
#![tactic(auto)]

mod alike;
mod asked;
mod begun;
mod bounded;
mod direction;
mod end;
mod everywhere;
mod found;
mod gathered;
mod known;
mod left;
mod listed;
mod memory;
mod named;
mod on_call;
mod opened;
mod same;
mod sides;
mod walk;
mod ways;

pub use asked::Ask;
pub use direction::Direction;
pub use everywhere::rest_of;
pub use found::Found;
pub use gathered::{Differences, all_differences, differences_in};
pub use left::{Part, Rest, Side, add_rest};
pub use listed::{MOST_CELLS, Unlisted, cells};
pub use memory::{
    MOST_KEPT, MOST_STEPS, Memory, OWN_STEPS, Steps, all_steps, give_back, limited_memory,
};
pub use named::{Call, add_rules as name_calls};
pub use on_call::{differ_on, memory_for};
pub use opened::{add_rules as add_conditions, rules_for, rules_with};
pub use sides::side_of;
pub use walk::{bits_of, unlike_at};
pub use ways::MOST_COMBINATIONS;
