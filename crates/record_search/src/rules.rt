//! The rules of a profile, by machine and number.

use profile::Profile;
use std::alloc::{AllocError, Global};

/// Where the rules stand in their list, in the order of their machines' tokens, their numbers and their places.
#[derive(Drop)]
pub(crate) struct Rules<'a> {
    pub(crate) profile: &'a Profile,
    places: Vec<(u32, u32, usize)>,
}

impl<'a> Rules<'a> {
    /// The rules of a profile.
    pub(crate) fn new(alloc: Global, profile: &'a Profile) -> Result<Rules<'a>, AllocError> {
        let mut places = Vec::new(alloc);
        for (place, rule) in profile.rules().iter().enumerate() {
            places.push((rule.arch.token(), rule.nr, place))?;
        }
        places.sort_unstable();
        Ok(Rules { profile, places })
    }

    // In which turn the first rule of a machine comes whose number is not below one, or the first behind the machine's.
    fn turn(&self, token: u32, number: u32) -> usize {
        match self.places.binary_search(&(token, number, 0)) {
            Ok(turn) | Err(turn) => turn,
        }
    }

    /// For each rule its machine's token and its number, in their order.
    pub(crate) fn calls(&self) -> &[(u32, u32, usize)] {
        &self.places
    }

    /// The places of the rules of a machine's numbers from one to another, in their order.
    pub(crate) fn among(&self, token: u32, least: u32, greatest: u32) -> &[(u32, u32, usize)] {
        let first = self.turn(token, least);
        let next = match greatest.checked_add(1) {
            Some(above) => self.turn(token, above),
            None => self.turn(token.saturating_add(1), 0),
        };
        self.places.get(first..next).unwrap_or(&[])
    }
}
