//! How much is looked at before it is given up.
use crate::unsaid::Unsaid;
use std::alloc::{AllocError, AllocFailed};

/// Why something is given up.
#[derive(Clone, Copy)]
pub(crate) enum Stopped {
    /// There are no steps left, or there is too much of something.
    Spent,
    /// There is not enough memory.
    OutOfMemory,
}

impl From<AllocError> for Stopped {
    fn from(_error: AllocError) -> Stopped {
        Stopped::OutOfMemory
    }
}

impl<T: Drop> From<AllocFailed<T>> for Stopped {
    fn from(_error: AllocFailed<T>) -> Stopped {
        Stopped::OutOfMemory
    }
}

impl From<Stopped> for Unsaid {
    fn from(stopped: Stopped) -> Unsaid {
        match stopped {
            Stopped::Spent => Unsaid::TooLarge,
            Stopped::OutOfMemory => Unsaid::OutOfMemory,
        }
    }
}

// How many steps are taken at most for one filter.
const MOST: usize = 500_000_000;

/// How much may still be looked at, and whether there were masks to choose. A comparison of two numbers counts as a step, and one that takes
/// longer as several.
#[derive(Drop)]
pub(crate) struct Work {
    left: usize,
    pub(crate) has_choice: bool,
}

impl Work {
    /// All that is looked at for one filter.
    pub(crate) fn new() -> Work {
        Work {
            left: MOST,
            has_choice: false,
        }
    }

    /// Takes so many steps for each of some things, if as many are left.
    pub(crate) fn spend_each(&mut self, count: usize, steps: usize) -> Result<(), Stopped> {
        self.spend(count.saturating_mul(steps))
    }

    /// Takes so many steps, if as many are left.
    pub(crate) fn spend(&mut self, steps: usize) -> Result<(), Stopped> {
        match self.left.checked_sub(steps) {
            Some(left) => {
                self.left = left;
                Ok(())
            }
            None => Err(Stopped::Spent),
        }
    }
}
