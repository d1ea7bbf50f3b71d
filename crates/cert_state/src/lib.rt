//! What is known where an execution of a program stands, and what follows from it.
//!
//! A [`State`] says what A, X and the scratch words hold, and lends [`Lit`]s, each of which is known of a word of the
//! record. After an instruction, [`transfer`] and [`edge_fact`] say what is known, and [`sharp_fact`] says a little more
//! than `edge_fact`. What else is known is said by [`entails`]. From where to where a word may lie is said by [`range`], and
//! that no record is left by [`dead`]. For many questions, [`Facts`] has that of a state, and [`Learned`] of literals that
//! come and go. The functions with `is_sound` in their names promise that all this is true. Nothing here but [`Learned`]
//! takes memory.
#![tactic(auto)]

mod after;
mod columns;
mod entailment;
mod gathered;
mod knowledge;
mod laws;
mod learned;
mod literal;
mod one_word;
mod points;
mod searched;
mod sharp;
mod sorted;
mod state;
mod summary;

pub use after::{edge_fact, edge_fact_by, transfer};
pub use entailment::{dead, entails, is_dead_at};
pub use knowledge::Knowledge;
pub use laws::{
    dead_is_sound, edge_fact_is_sound, entails_is_sound, sharp_fact_is_sound, transfer_is_sound,
};
pub use learned::Learned;
pub use literal::{AVal, Lit, Regs};
pub use one_word::LearnedWord;
pub use points::range;
pub use sharp::{is_bit, lowest_bit, sharp_fact, sharp_fact_by};
pub use sorted::{Facts, Room};
pub use state::{Listed, State, With};
