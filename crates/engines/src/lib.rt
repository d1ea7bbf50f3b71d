//! Bundles made of what a container engine hands to its runtime, a `config.json`. They are also made of a section
//! `linux.seccomp` by itself, of an engine's own profile and of a Kubernetes object. Each change is told with its place, and
//! what is made is read before it is handed out.
#![tactic(auto)]

mod actions;
mod adapted;
mod bundle;
mod capabilities;
mod changes;
mod conditions;
mod config;
mod dropped;
mod entries;
mod errors;
mod filters;
mod heads;
mod judging;
mod kernels;
mod keys;
mod machine_names;
mod making;
mod names;
mod near;
mod overlapping;
mod parts;
mod place;
mod settings;
mod settling;
mod text;
mod verdicts;
mod words;

pub use adapted::{Adapted, adapt};
pub use capabilities::{Capabilities, Engine};
pub use judging::settled;
pub use kernels::Kernel;
pub use settling::Choice;
pub use words::{Container, Wanted, wanted_of};
