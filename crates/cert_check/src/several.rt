//! Returns to which several calls come: of each number that is possible, a rule without conditions says the verdict.
ghost use Rattle.std.specs.Prelude.{◌↔◌, ◌≤◌, IsTrue};
ghost use Rattle.cert_check.specs.Several.{AreSaidOf, IsSaidOf, SaysAlone, SaysOfEach, SaysOfRange};
ghost use Rattle.cert_check.specs.inner.Asked.{known_of};

use crate::agree::is_of;
use crate::judging::Agreement;
use crate::numbers::NUMBER;
use call_record::Word;
use cert_state::{Knowledge, State};
use machines::Arch;
use profile::{Profile, Rule, foreign_numbers};

// Whether a rule has no conditions, and says a verdict.
fn says_alone(rule: &Rule, word: Word) -> bool
    ensures { IsTrue result ↔ SaysAlone word rule.now }
{
    if !rule.conds.is_empty() {
        return false;
    }
    rule.word == word
}

// Whether such a rule is for a machine's call of this number.
fn is_said_of(profile: &Profile, word: Word, arch: Arch, nr: u32) -> bool
    ensures { IsTrue result ↔ IsSaidOf profile.now word arch nr }
{
    let rules = profile.rules();
    let mut next = profile.latest(arch.token(), nr);
    while let Some(place) = next {
        if says_alone(&rules[place], word) {
            return true;
        }
        next = profile.earlier(place);
    }
    false
}

// Whether such a rule is for each number from one to another.
fn are_said_of(profile: &Profile, word: Word, arch: Arch, low: u32, high: u32) -> bool
    requires { low ≤ high }
    ensures { IsTrue result ↔ AreSaidOf profile.now word arch low high }
{
    let mut nr = low;
    while nr < high {
        if !is_said_of(profile, word, arch, nr) {
            return false;
        }
        nr += 1;
    }
    is_said_of(profile, word, arch, high)
}

impl<S: State> Agreement<'_, S> {
    // Whether the record is known to be of a machine, and such a rule is for each number that is possible.
    fn says_of_range(&self, arch: Arch) -> bool
        ensures { let a = self.now in IsTrue result ↔ SaysOfRange a.profile.now (known_of a) a.word arch }
    {
        if !is_of(self.facts, arch) {
            return false;
        }
        let foreign = foreign_numbers(self.profile.machines(), arch);
        if !self.foreign_numbers_agree(arch, foreign) {
            return false;
        }
        match self.facts.range(NUMBER) {
            Some((low, high)) => are_said_of(self.profile, self.word, arch, low, high),
            None => false,
        }
    }

    /// Whether the record is known to be of one of the listed machines, and a rule that says the verdict is for each number
    /// that is possible.
    pub(crate) fn says_of_each(&self) -> bool
        ensures { let a = self.now in IsTrue result ↔ SaysOfEach a.profile.now (known_of a) a.word }
    {
        for arch in self.profile.machines() {
            if self.says_of_range(*arch) {
                return true;
            }
        }
        false
    }
}
