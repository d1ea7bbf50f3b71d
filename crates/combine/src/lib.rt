//! What do several profiles say together? A bundle is made of several. Its profile gives each call record the laxest of their verdicts, or
//! the strictest, as the kernel does with several filters.
//!
//! Each profile is compiled. At each verdict of one filter a copy of the next goes on, and ends with the verdict that counts of both.
//! `recover` says this filter as a bundle, with as few entries as are easily found. None of this is trusted. What is written is read
//! again, and handed out only if `together` finds that its profile says of each record what counts.
#![tactic(auto)]

mod combined;
mod draft;
mod product;
mod refusal_text;
mod stack;
mod uncombined;

pub use combined::combine;
pub use refusal_text::line_of;
pub use stack::combine_filters;
pub use together::Way;
pub use uncombined::Uncombined;
