//! Profiles of system calls: which verdict a call record gets (OCI Runtime Specification,
//! config-linux, Seccomp; seccomp(2)).
//!
//! A [`Profile`] has a list of machines, a default verdict and rules. A [`Rule`] gives a verdict to the
//! records of one call of one machine that meet all its conditions. [`Profile::build`] refuses
//! rules that give unlike verdicts to one record, so a profile gives each record one verdict, whatever
//! the order of its rules.
#![tactic(auto)]

mod clashes;
mod conditions;
mod distinct;
mod fault;
mod index;
mod machine_order;
mod meets;
mod overlaps;
mod policy;
mod rules;

pub use conditions::{Cond, Op};
pub use distinct::MAX_RULES;
pub use fault::BuildError;
pub use machine_order::{MACHINES, are_for, foreign_numbers, in_order};
pub use overlaps::overlap;
pub use policy::{Profile, building_is_one, each_record_is_said_one_verdict};
pub use rules::{Rule, has_index};
