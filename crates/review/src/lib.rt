//! What a profile leaves open of the calls by which a kernel is attacked most, group by group. Of each call it is decided exactly
//! whether the profile lets a record of it through. Groups of calls of systemd follow, with the calls in which they are open in
//! part.
#![tactic(auto)]

mod asked;
mod groups;
mod judged;
mod member;
mod members;
mod opposed;
mod systemd;
mod systemd_text;
mod table;
mod text;
mod told;

pub use told::review;
