//! Profiles from logs of strace, and logs played through a profile.
#![tactic(auto)]

mod bundle;
mod calls;
mod covering;
mod deeds;
mod judging;
mod keeps;
mod learning;
mod lists;
mod logged;
mod logs;
mod names;
mod passed_over;
mod reading;
mod reasons;
mod refusals;
mod replaying;
mod strace;
mod telling;
mod unread;
mod unused;
mod wish;

pub use keeps::Keep;
pub use learning::{Learned, learn};
pub use lists::{Otherwise, Runtime};
pub use logs::Log;
pub use reading::{LogFault, Shown};
pub use replaying::replay;
pub use wish::{Wish, wish_of};
