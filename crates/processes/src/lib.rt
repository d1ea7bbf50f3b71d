//! The modelled kernel: the tasks of each container, and what a call does to them.
#![tactic(auto)]

mod calls;
mod container;
mod errno;
mod filters;
mod flags;
mod id;
mod image;
mod kernel;
mod law;
mod load;
mod outcome;
mod present;
mod row;
mod signals;
mod store;
mod table;
mod task;
mod tasks;

pub use filters::OwnLists;
pub use id::Id;
pub use kernel::Kernel;
pub use law::{
    attached_programs_are_checked, first_filter_stays, groups_stay_led, none_outlives_group_1,
    numbers_ascend,
};
pub use outcome::{End, Outcome, Response, TaskView};
pub use signals::{LAST_SIGNAL, is_fatal};
pub use store::Store;
pub use table::{Table, TaskTable};
