//! What a maker of certificates works with. These are chains of claims, where nodes lead, where what is known is cut in two, and tables in
//! which each thing stands once.
mod chains;
mod cuts;
mod kinds;
mod marks;
mod states;
mod table;

pub(crate) use chains::Chains;
pub(crate) use cuts::{Cut, cut_below, cut_of_bits};
pub(crate) use kinds::{NOBODY, followers, leading_to};
pub(crate) use marks::Marks;
pub(crate) use states::{NO_REGS, are_many, listed};
pub(crate) use table::{Item, Table, bits, mixed};
