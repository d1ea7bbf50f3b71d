//! Logs of `strace -n -e raw=all`: which call each line tells, by its machine, its number and its arguments.
mod arguments;
mod call;
mod line;
mod machine_words;
mod numbers;

pub(crate) use arguments::is_raw;
pub(crate) use call::{Call, record_of};
pub(crate) use line::{call_in, is_remark, shown_on};
pub(crate) use machine_words::machines_run;
