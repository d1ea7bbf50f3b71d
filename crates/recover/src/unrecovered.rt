//! Why no section was found for a filter, with what was drafted.
use crate::unsaid::Unsaid;

/// Why no section was found, and the bundle that was drafted and judged, if it came so far.
#[derive(Drop)]
pub struct Unrecovered {
    pub unsaid: Unsaid,
    pub draft: Option<String>,
}

impl Unrecovered {
    // Whether it was not decided what the draft says.
    pub(crate) fn is_undecided(&self) -> bool {
        match &self.unsaid {
            Unsaid::Undecided(_) => true,
            _ => false,
        }
    }
}
