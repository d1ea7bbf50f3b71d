//! Lines of logs that were not read.
use crate::strace::is_remark;
use std::alloc::{AllocError, Global};
use std::fmt::Write;

// How many lines that are not read are told.
const MOST_TOLD: u64 = 10;

/// Lines that tell no call, and are none of those that strace writes beside them. It keeps how many there are, and the first of them with
/// the name of their log and their number.
#[derive(Drop)]
pub(crate) struct Unread {
    lines: String,
    told: u64,
    count: u64,
}

impl Unread {
    /// No lines.
    pub(crate) fn new(alloc: Global) -> Unread {
        Unread {
            lines: String::new(alloc),
            told: 0,
            count: 0,
        }
    }

    /// No lines, behind so many that are told.
    pub(crate) fn behind(&self, alloc: Global) -> Unread {
        Unread {
            lines: String::new(alloc),
            told: self.told,
            count: 0,
        }
    }

    /// Adds lines behind these.
    pub(crate) fn add(&mut self, more: &Unread) -> Result<(), AllocError> {
        self.lines.push_str(&more.lines)?;
        self.told = more.told;
        self.count = self.count.saturating_add(more.count);
        Ok(())
    }

    /// Keeps in mind that a line is not read, if it tells more than the end of a call, a signal or an exit.
    pub(crate) fn pass_over(&mut self, place: (&str, u64), line: &[u8]) -> Result<(), AllocError> {
        match str::from_utf8(line) {
            Ok(text) => {
                if is_remark(text) {
                    return Ok(());
                }
                self.note(place, text)
            }
            Err(_) => self.note(place, "it is no UTF-8"),
        }
    }

    // Keeps in mind that a line is not read, and what is told of it.
    fn note(&mut self, (name, number): (&str, u64), told: &str) -> Result<(), AllocError> {
        self.count = self.count.saturating_add(1);
        if self.told >= MOST_TOLD {
            return Ok(());
        }
        self.told = self.told.saturating_add(1);
        writeln!(self.lines, "{name}:{number}: not read: {told}")
    }

    /// Adds the lines that were not read.
    pub(crate) fn put(&self, text: &mut String) -> Result<(), AllocError> {
        text.push_str(&self.lines)?;
        if self.count > self.told {
            let more = self.count.saturating_sub(self.told);
            writeln!(text, "and {more} lines more that were not read")?;
        }
        Ok(())
    }
}
