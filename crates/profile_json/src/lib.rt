//! Reads the seccomp part of a bundle (OCI Runtime Specification 1.0.2 to 1.2.1, config-linux,
//! Seccomp) into a profile, or says why it refuses it.
#![tactic(auto)]

mod action;
mod architectures;
mod argument;
mod bundle;
mod by_entry;
mod contents;
mod document;
mod entry;
mod fault;
pub mod key;
mod law;
mod lookup;
mod name;
mod overlaps;
mod place;
mod refusal;
mod refused;
mod root;
mod rules;
mod spelling;
mod syscalls;

pub use action::Action;
pub use bundle::{Bundle, read_bundle};
pub use by_entry::{EntryRules, rules_by_entry};
pub use document::Document;
pub use fault::ProfileError;
pub use law::{meaning_is_kept, meaning_is_one, meaning_is_unbroken, meaning_is_widened};
pub use place::read;
pub use refusal::{Part, Place, Refusal};
pub use spelling::{ACTIONS, OPERATORS, operator_name};
