//! What was changed, told with its place.
use crate::place::{Place, put_place};
use crate::text::Text;
use std::alloc::{AllocError, Global};

/// The lines of what was changed, those of names that are near to known ones, how many of the changes widen the profile, and whether a bundle
/// can be made at all.
#[derive(Drop)]
pub(crate) struct Changes {
    alloc: Global,
    pub(crate) lines: Text,
    near: Text,
    pub(crate) widening: usize,
    pub(crate) is_refused: bool,
}

impl Changes {
    pub(crate) fn new(alloc: Global) -> Changes {
        Changes {
            alloc,
            lines: Text::new(alloc),
            near: Text::new(alloc),
            widening: 0,
            is_refused: false,
        }
    }

    /// Where its texts are.
    pub(crate) fn alloc(&self) -> Global {
        self.alloc
    }

    // Begins a line with a place.
    fn begin(&mut self, place: Place<'_>) {
        put_place(&mut self.lines, place);
        self.lines.put(": ");
    }

    // Ends the line of a change.
    fn end(&mut self, widens: bool) {
        if widens {
            self.widening = self.widening.saturating_add(1);
            self.lines.put(": this widens the profile");
        }
        self.lines.put("\n");
    }

    /// Tells a change.
    pub(crate) fn tell(&mut self, place: Place<'_>, what: &str, widens: bool) {
        self.begin(place);
        self.lines.put(what);
        self.end(widens);
    }

    /// Tells a change of a text.
    pub(crate) fn tell_text(&mut self, place: Place<'_>, text: &str, what: &str, widens: bool) {
        self.begin(place);
        self.lines.put(format_args!("{text:?} {what}"));
        self.end(widens);
    }

    /// Tells, behind all other lines, which known name may be meant by another one.
    pub(crate) fn tell_near(&mut self, place: Place<'_>, name: &str, near: &str) {
        put_place(&mut self.near, place);
        self.near
            .put(format_args!(": {name:?} is not known; nearest: {near}\n"));
    }

    /// Tells, behind all other lines, what a name is that stands for no call.
    pub(crate) fn tell_slip(&mut self, place: Place<'_>, name: &str, why: &str) {
        put_place(&mut self.near, place);
        self.near
            .put(format_args!(": {name:?} names no call: {why}\n"));
    }

    /// Tells why no bundle can be made.
    pub(crate) fn refuse(&mut self, place: Place<'_>, why: &str) {
        self.is_refused = true;
        self.begin(place);
        self.lines.put(why);
        self.lines.put("\n");
    }

    /// Tells that a key is another one to engines.
    pub(crate) fn refuse_key(&mut self, place: Place<'_>, meant: &str) {
        self.is_refused = true;
        self.begin(place);
        self.lines.put(format_args!(
            "engines read it as {meant}, and ccell passes over it: write {meant}\n"
        ));
    }

    /// Whether a name that is not known may mean a known one.
    pub(crate) fn are_doubtful(&self) -> bool {
        !self.near.is_empty()
    }

    /// All lines, the near names last.
    pub(crate) fn whole(self) -> Result<String, AllocError> {
        let near = self.near.whole()?;
        let mut lines = self.lines.whole()?;
        lines.push_str(near.as_str())?;
        Ok(lines)
    }

    /// Tells that nothing is written, since a change widens the profile.
    pub(crate) fn tell_nothing_written(&mut self) {
        let widening = self.widening;
        self.lines.put(format_args!(
            "ccell: nothing is written: {widening} of these changes widen the profile, and widen behind the file allows them\n"
        ));
    }
}
