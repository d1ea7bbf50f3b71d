//! Rules as another program adds them, one by one: for a machine and a number of a call an action, under conditions on
//! arguments. They are plain values, as C has them. [`profile_of`] makes the profile that says of each call record what the
//! rules say. Or it names the machine or the rule, by its place, for which there is none.
mod condition;
mod fault;
mod given;
mod machine;
mod made;

pub(crate) use fault::AddedError;
pub(crate) use given::{AddedCondition, AddedRule};
pub(crate) use machine::machine_with;
pub(crate) use made::profile_of;
