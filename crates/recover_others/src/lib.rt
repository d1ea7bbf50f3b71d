//! What profile does a filter have that allows the calls of machines that it does not know? No section says that, since the calls of
//! machines that it does not list are killed. Such a section is written with a member that no engine reads and that tells it.
//!
//! A section is drafted of a filter that kills these calls in place of allowing them. None of that is trusted. The section is judged with
//! another such filter, whose front tells the calls of just its machines. It is handed out only with a certificate.
#![tactic(auto)]

mod drafted;
mod guess;
mod judged;
mod member;
mod other_calls;
mod recovering;
mod refusal_text;
mod shown;
mod told;
mod unallowed;

pub use other_calls::{Unguarded, guarded};
pub use recovering::recover_others;
pub use refusal_text::line_of;
pub use unallowed::Unallowed;
