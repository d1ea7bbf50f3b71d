//! Bundles and filters described: what a bundle means or where it is wrong. Also what the lines of a filter mean, and what it costs a call.
//! `rules_text` has a profile as plain text for other programs.
#![tactic(auto)]

mod annotating;
mod answered;
mod costing;
mod drawing;
mod edition;
mod entries;
mod flow;
mod json_text;
mod known;
mod leading;
mod lines;
mod near;
mod place;
mod placed;
mod reading;
mod remarked;
mod rules_text;
mod search;
mod spans;
mod unread;

pub use annotating::annotated;
pub use answered::{answered_calls_are_allowed, is_answered};
pub use costing::costs;
pub use drawing::drawn;
pub use json_text::{Doubled, Trimmed, fault_of, without_unread};
pub use reading::{Configuration, describe, fault_in};
pub use remarked::remark_on;
pub use rules_text::{bundle_text, text_of};
pub use spans::{Span, span_of};
pub use unread::{refusing_unread, with_unread};
