//! What earlier questions made.

use crate::answers::Answers;
use crate::grid::Grid;
use cert_check::{CheckError, Checked, check};
use profile::Profile;
use std::alloc::Global;

/// A profile, a filter of it, and the certificate.
#[derive(Drop)]
pub struct Made {
    pub profile: Profile,
    pub filter: Vec<u8>,
    pub cert: Vec<u8>,
}

/// The profile, the filter and the certificate on which questions are, and the records on which the first two are compared.
/// Also what was kept for containers.
#[derive(Drop)]
pub struct Desk {
    pub out: Answers,
    pub profile: Option<Profile>,
    pub filter: Vec<u8>,
    pub cert: Vec<u8>,
    pub grid: Grid,
    pub kept: Vec<Made>,
}

impl Desk {
    /// None of them yet.
    pub fn new(alloc: Global) -> Desk {
        Desk {
            out: Answers::new(alloc),
            profile: None,
            filter: Vec::new(alloc),
            cert: Vec::new(alloc),
            grid: Grid::new(alloc),
            kept: Vec::new(alloc),
        }
    }
}

impl Made {
    /// The filter, checked.
    pub fn checked(&self, alloc: Global) -> Result<Checked<'_>, CheckError> {
        check(alloc, &self.profile, &self.filter, &self.cert)
    }
}
