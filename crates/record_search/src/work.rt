//! How much may still be done, so that no search goes on for minutes.

/// Steps of a few nanoseconds that are left, and how many of them are kept for later.
#[derive(Clone, Copy)]
pub(crate) struct Work {
    left: u64,
    kept: u64,
}

impl Work {
    /// So many steps.
    pub(crate) fn new(steps: u64) -> Work {
        Work {
            left: steps,
            kept: 0,
        }
    }

    /// Some steps are done.
    pub(crate) fn spend(&mut self, steps: usize) {
        self.left = self.left.saturating_sub(steps as u64);
    }

    /// Whether nothing more is to be done for now.
    pub(crate) fn is_over(&self) -> bool {
        self.left <= self.kept
    }

    /// From now on one part of so many may be done of what is left but for these steps.
    pub(crate) fn share(&mut self, least: u64, parts: u64) {
        let free = self.left.saturating_sub(least);
        let part = free.checked_div(parts).unwrap_or(0);
        self.kept = self.left.saturating_sub(part);
    }
}
