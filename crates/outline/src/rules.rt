//! The rules of a profile, by machine and number.

use profile::Profile;
use std::alloc::{AllocError, Global};

/// The token of a rule's machine, its number, and its place in the profile's order.
pub(crate) type Numbered = (u32, u32, u32);

/// The rules of a profile in the order of these three.
#[derive(Drop)]
pub(crate) struct Rules {
    sorted: Vec<Numbered>,
}

impl Rules {
    /// The rules of a profile.
    pub(crate) fn of(alloc: Global, profile: &Profile) -> Result<Rules, AllocError> {
        let mut sorted = Vec::new(alloc);
        let mut place = 0u32;
        for rule in profile.rules() {
            sorted.push((rule.arch.token(), rule.nr, place))?;
            place = place.saturating_add(1);
        }
        sorted.sort_unstable();
        Ok(Rules { sorted })
    }

    /// All of them, in order.
    pub(crate) fn all(&self) -> &[Numbered] {
        &self.sorted
    }

    // In which turn the first rule of a machine comes whose number is not below one, or the first behind the machine's.
    fn turn(&self, token: u32, number: u32) -> usize {
        match self.sorted.binary_search(&(token, number, 0)) {
            Ok(turn) | Err(turn) => turn,
        }
    }

    /// The rules of a machine's numbers from one to another, in order.
    pub(crate) fn among(&self, token: u32, least: u32, greatest: u32) -> &[Numbered] {
        let first = self.turn(token, least);
        let next = match greatest.checked_add(1) {
            Some(above) => self.turn(token, above),
            None => self.turn(token.saturating_add(1), 0),
        };
        self.sorted.get(first..next).unwrap_or(&[])
    }
}
