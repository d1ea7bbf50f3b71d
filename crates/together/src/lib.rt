//! Profiles that say together what several say: the laxest or the strictest verdict of theirs on each call record.
#![tactic(auto)]

mod bundles;
mod calls;
mod judged;
mod product;
mod samples;
mod unlike;
mod walked;
mod way;

pub use bundles::{Unjudged, if_together, profiles_of};
pub use judged::{Unsettled, judge};
pub use unlike::Unlike;
pub use way::{Way, laxest};
