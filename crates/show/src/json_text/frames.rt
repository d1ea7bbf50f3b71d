//! The objects and lists that are open at a place of a text.
use std::alloc::{AllocError, Global};
use std::fmt::Write;

/// An object or a list that is open.
#[derive(Clone, Copy, Drop)]
pub(crate) struct Frame<'a> {
    is_object: bool,
    /// The key of an object's member that is awaited or was read last.
    key: &'a str,
    /// Whether a key stands before the member that is awaited.
    has_key: bool,
    /// How many members of a list were begun.
    members: usize,
    /// How many keys were kept in mind before.
    seen: usize,
}

/// A key that was seen in an object that is open: its place among those that are read, and where it stands.
#[derive(Clone, Copy, Drop)]
struct Seen {
    key: usize,
    at: usize,
}

/// What is open, the outermost first.
#[derive(Drop)]
pub(crate) struct Frames<'a> {
    open: Vec<Frame<'a>>,
    seen: Vec<Seen>,
    is_done: bool,
}

/// How deep a value may lie, as the reader of values has it.
pub(crate) const DEEPEST: usize = 127;

impl<'a> Frames<'a> {
    pub(crate) fn new(alloc: Global) -> Frames<'a> {
        Frames {
            open: Vec::new(alloc),
            seen: Vec::new(alloc),
            is_done: false,
        }
    }

    /// How many are open.
    pub(crate) fn depth(&self) -> usize {
        self.open.len()
    }

    /// Whether one value was read whole, and nothing is open.
    pub(crate) fn is_whole(&self) -> bool {
        self.is_done && self.open.is_empty()
    }

    /// Begins a member with a key, unless no key may stand here.
    pub(crate) fn take_key(&mut self, key: &'a str) -> bool {
        let Some(frame) = self.open.last_mut() else {
            return false;
        };
        if !frame.is_object || frame.has_key {
            return false;
        }
        frame.key = key;
        frame.has_key = true;
        true
    }

    /// Begins a value, unless none may stand here.
    pub(crate) fn take_value(&mut self) -> bool {
        let Some(frame) = self.open.last_mut() else {
            let may_stand = !self.is_done;
            self.is_done = true;
            return may_stand;
        };
        if frame.is_object && !frame.has_key {
            return false;
        }
        frame.has_key = false;
        frame.members = frame.members.saturating_add(1);
        true
    }

    /// Opens an object or a list, unless it lies too deep.
    pub(crate) fn begin(&mut self, is_object: bool) -> Result<bool, AllocError> {
        if self.open.len() >= DEEPEST {
            return Ok(false);
        }
        self.open.push(Frame {
            is_object,
            key: "",
            has_key: false,
            members: 0,
            seen: self.seen.len(),
        })?;
        Ok(true)
    }

    /// Closes an object or a list, unless it is another that is open.
    pub(crate) fn end(&mut self, is_object: bool) -> bool {
        let Some(frame) = self.open.pop() else {
            return false;
        };
        self.seen.truncate(frame.seen);
        frame.is_object == is_object && !frame.has_key
    }

    // The keys that were seen in the innermost object.
    fn seen_here(&self) -> &[Seen] {
        let start = self.open.last().map_or(0, |frame| frame.seen);
        self.seen.get(start..).unwrap_or(&[])
    }

    /// Where a key, by its place among those that are read, was seen in the innermost object.
    pub(crate) fn seen_at(&self, key: usize) -> Option<usize> {
        let seen = self.seen_here().iter().find(|seen| seen.key == key)?;
        Some(seen.at)
    }

    /// Keeps in mind that a key was seen there.
    pub(crate) fn keep_seen(&mut self, key: usize, at: usize) -> Result<(), AllocError> {
        self.seen.push(Seen { key, at })?;
        Ok(())
    }

    /// The place of the member that was begun last, as `linux.seccomp.syscalls[3].args`.
    pub(crate) fn place(&self, alloc: Global) -> Result<String, AllocError> {
        let mut place = String::new(alloc);
        for frame in self.open.as_slice() {
            put_step(&mut place, *frame)?;
        }
        Ok(place)
    }
}

// Adds the step to the member of a frame that was begun last.
fn put_step(place: &mut String, frame: Frame<'_>) -> Result<(), AllocError> {
    if !frame.is_object {
        let member = frame.members.saturating_sub(1);
        return write!(place, "[{member}]");
    }
    if !place.is_empty() {
        place.push_str(".")?;
    }
    place.push_str(frame.key)
}
