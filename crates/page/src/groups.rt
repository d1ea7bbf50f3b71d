//! The groups that a review tells of.
ghost use Rattle.std.specs.Prelude.{◌≡◌, ◌≤◌, ◌<◌, ◌∷◌, IfOk, drop, length};
ghost use Rattle.json_lines.specs.Lines.{groups_of as groups_in};
ghost use Rattle.json_lines.specs.inner.Views.{texts};
ghost use Rattle.page.specs.Table as spec;
ghost use Rattle.page.specs.inner.Views.{group, groups};

use crate::parts::{past, up_to};
use json_lines::count_of_details;
use std::alloc::{AllocError, Global};

/// The line of a group, and the lines below it.
#[derive(Clone, Copy)]
pub(crate) struct Group<'a> {
    pub(crate) head: &'a [u8],
    pub(crate) details: &'a [&'a [u8]],
}

// The group that begins at a place of lines, and the place behind it.
fn group_at<'a>(lines: &'a [&'a [u8]], at: usize) -> (Group<'a>, usize)
    requires { at < length lines.now }
    ensures group { groups_in (texts (drop at lines.entry.now)) ≡ group result.0 ∷ groups_in (texts (drop result.1 lines.entry.now)) }
    ensures later { at < result.1 }
    ensures within { result.1 ≤ length lines.entry.now }
{
    let more = &lines[at + 1..];
    let count = count_of_details(more);
    let group = Group {
        head: lines[at],
        details: &more[..count],
    };
    (group, at + 1 + count)
}

/// The groups of lines.
pub(crate) fn groups_of<'a>(
    alloc: Global,
    lines: &'a [&'a [u8]],
) -> Result<Vec<Group<'a>>, AllocError>
    ensures { IfOk result (λ found. groups found.items ≡ groups_in (texts lines.entry.now)) }
{
    let mut found = Vec::new(alloc);
    let mut at = 0;
    'group: while at < lines.len() {
        let (group, next) = group_at(lines, at);
        found.push(group)?;
        at = next;
    }
    Ok(found)
}

impl<'a> Group<'a> {
    /// Its name.
    pub(crate) fn name(&self) -> &'a [u8]
        ensures { result.now ≡ spec.name_of (group self.now) }
    {
        up_to(past(self.head, b' '), b':')
    }

    /// Whether it is open.
    pub(crate) fn state(&self) -> &'a [u8]
        ensures { result.now ≡ spec.state_of (group self.now) }
    {
        up_to(past(past(self.head, b':'), b' '), b';')
    }

    /// Why it matters.
    pub(crate) fn why(&self) -> &'a [u8]
        ensures { result.now ≡ spec.why_of (group self.now) }
    {
        past(past(self.head, b';'), b' ')
    }
}
