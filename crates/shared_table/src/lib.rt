//! A kernel that keeps the filters of each container once, in a tree.
//!
//! Each filter names the one below it, and a task holds the place of its newest: its list is the way down from there.
//! Each filter keeps the numbers of calls that it and all below it allow whatever else the record holds. So most calls
//! run no filter at all.
#![tactic(auto)]

mod node;
mod numbers;
mod tree;

pub use tree::{Place, Tree};

/// A kernel that keeps the filters of each container once, in a tree.
pub type SharedTable = processes::Table<Tree>;
