//! Records to run a filter on beside its profile.

use crate::question::Question;
use bpf_interp::verdict;
use call_record::Record;
use kernel_check::Accepted;
use profile::Profile;
use std::alloc::{AllocError, Global};

/// The records with the token of each machine and with none, with each of some numbers and each of some arguments.
#[derive(Drop)]
pub struct Grid {
    numbers: Vec<u32>,
    arguments: Vec<[u64; 6]>,
}

// The token of each machine, and one that none has.
const TOKENS: [u32; 5] = [0xc000_003e, 0x4000_0003, 0xc000_00b7, 0x4000_0028, 0];

// The record of these parts, with 0 for the pointer.
fn call_of(nr: u32, arch: u32, args: [u64; 6]) -> Record {
    Record {
        nr,
        arch,
        ip: 0,
        args,
    }
}

impl Grid {
    /// No records.
    pub fn new(alloc: Global) -> Grid {
        Grid {
            numbers: Vec::new(alloc),
            arguments: Vec::new(alloc),
        }
    }

    /// Reads `COUNT NUMBER .. COUNT ARGUMENTS ..`.
    pub fn read(&mut self, mut question: Question<'_>) -> Result<(), AllocError> {
        self.numbers.clear();
        self.arguments.clear();
        for _ in 0..question.number() {
            self.numbers.push(question.narrow())?;
        }
        for _ in 0..question.number() {
            self.arguments.push(question.arguments())?;
        }
        Ok(())
    }

    /// The first record where the filter's verdict is not the verdict of the profile.
    pub fn first_difference(&self, accepted: &Accepted<'_>, profile: &Profile) -> Option<Record> {
        for arch in TOKENS {
            for nr in &self.numbers {
                for args in &self.arguments {
                    let call = call_of(*nr, arch, *args);
                    if verdict(accepted, &call) != profile.decide(&call) {
                        return Some(call);
                    }
                }
            }
        }
        None
    }
}
