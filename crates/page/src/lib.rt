//! The page of a review: what is told of one profile or of two. It is one text of HTML, without scripts and with nothing from
//! elsewhere.
#![tactic(auto)]

mod front;
mod graph;
mod groups;
mod law;
mod pages;
mod parts;
mod putting;
mod side;
mod table;

pub use law::texts_have_no_markup;
pub use pages::{page_of_one, page_of_two};
pub use side::Side;
