//! What stands in a file that is taken as a bundle. It is a bundle, the section that engines take as a profile, or an
//! engine's own profile, from which it works sections out. Also what stands in a bundle and is not read, or is no part of
//! its profile.
#![tactic(auto)]

mod beside;
mod equal;
mod kinds;
mod large;
mod reading;
mod remarks;
mod taken;
mod unlike;
mod unread;
mod writing;

pub use beside::beside_of;
pub use kinds::{Kind, kind_of};
pub use large::{MOST_BYTES, is_large};
pub use reading::{bundle_text, kind_of_text, put_in_bundle};
pub use remarks::{line_of, remark_of};
pub use taken::{Taken, take};
pub use unlike::unlike_of;
pub use unread::{ARGUMENT_KEYS, ENTRY_KEYS, SECTION_KEYS, unread_of};
pub use writing::{keeps_meaning, section_of};
