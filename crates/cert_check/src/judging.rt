//! What a verdict is judged by.
use crate::claims::{Mets, Outs};
use call_record::Word;
use cert_state::{Facts, State};
use profile::Profile;

/// What a verdict is judged by: the profile, what a node says of its rules, and what is known of the record.
#[derive(Drop)]
pub(crate) struct Agreement<'a, S: State> {
    pub(crate) profile: &'a Profile,
    pub(crate) outs: Outs<'a, 'a>,
    pub(crate) mets: Mets<'a, 'a>,
    pub(crate) facts: &'a Facts<'a, S>,
    pub(crate) word: Word,
    /// Answers to the conditions of some rules, at their places.
    pub(crate) told: &'a [Option<bool>],
}
