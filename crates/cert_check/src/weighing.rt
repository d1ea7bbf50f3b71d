//! How a rule of the record's machine bears on a verdict.
ghost use Rattle.std.specs.Prelude.{◌≡◌, ◌≢◌, ◌<◌, Some, slice_get};
ghost use Rattle.profile.specs.Rule.{is_narrow_rule};
ghost use Rattle.cert_check.specs.Agree.{OneIsNo};
ghost use Rattle.cert_check.specs.inner.Asked.{known_of, met_of};
ghost use Rattle.cert_check.specs.inner.Judged.{Bears, IsAnswer, IsAnswered, IsKnownNumber};
ghost use Rattle.cert_check.specs.inner.Told.{AreTold, question_of};

use crate::answered::{answer_of, ask};
use crate::judged::{Answered, Asked, Bearing, Number};
use crate::judging::Agreement;
use crate::likely::Likely;
use crate::told::turned;
use cert_state::State;
use profile::Rule;

impl<S: State> Agreement<'_, S> {
    // Whether what is asked is so of the conditions of the rule at a place. The last answer serves where none is said to be met.
    fn answer_at<'r>(
        &self,
        place: usize,
        rule: &'r Rule,
        asked: Asked,
        last: &mut Answered<'r>,
        likely: &mut Likely,
    ) -> bool
        requires told { AreTold self.now.profile.now (known_of self.now) self.now.word self.now.told.now }
        requires place { place < 8192 }
        requires stands { slice_get self.now.profile.now.rules place ≡ Some rule.now }
        requires question { asked ≡ question_of self.now.word rule.now }
        requires last { IsAnswered (known_of self.now) last.old }
        ensures is_so { IsAnswer asked (is_narrow_rule rule.now) (met_of self.now) (known_of self.now) place rule.now.conds.items result }
        ensures kept { IsAnswered (known_of self.now) last.new }
    {
        if self.mets.has_some(place) {
            return ask(self.facts, &self.mets, place, rule, asked);
        }
        if let Some(bears) = self.told_at(place) {
            return turned(asked, bears);
        }
        answer_of(self.facts, place, rule, asked, last, likely)
    }

    // How a rule of the record's machine at a place bears on the verdict that it says. Its conditions are not asked for where
    // its number is not known to be the call's.
    #[inline(always)]
    fn weigh_own<'r>(
        &self,
        place: usize,
        rule: &'r Rule,
        number: Number,
        last: &mut Answered<'r>,
        likely: &mut Likely,
    ) -> Bearing
        requires told { AreTold self.now.profile.now (known_of self.now) self.now.word self.now.told.now }
        requires place { place < 8192 }
        requires stands { slice_get self.now.profile.now.rules place ≡ Some rule.now }
        requires number { IsKnownNumber (known_of self.now) rule.now.nr number }
        requires word { rule.now.word ≡ self.now.word }
        requires last { IsAnswered (known_of self.now) last.old }
        ensures bearing { Bears (met_of self.now) (known_of self.now) self.now.word place rule.now result }
        ensures kept { IsAnswered (known_of self.now) last.new }
    {
        if !number.own {
            return Bearing::Agrees;
        }
        if self.answer_at(place, rule, Asked::AllYes, last, likely) {
            return Bearing::Settles;
        }
        Bearing::Agrees
    }

    // How a rule at a place bears on another verdict, of whose conditions none is no.
    fn weigh_left(&self, place: usize, rule: &Rule, number: Number) -> Bearing
        requires place { place < 8192 }
        requires number { IsKnownNumber (known_of self.now) rule.now.nr number }
        requires word { rule.now.word ≢ self.now.word }
        requires none { OneIsNo (is_narrow_rule rule.now) (met_of self.now) (known_of self.now) place rule.now.conds.items → ⊥ }
        ensures { Bears (met_of self.now) (known_of self.now) self.now.word place rule.now result }
    {
        if !number.other {
            return Bearing::Differs;
        }
        if !number.own {
            return Bearing::Agrees;
        }
        if ask(self.facts, &self.mets, place, rule, Asked::AllYes) {
            return Bearing::Differs;
        }
        Bearing::Agrees
    }

    // How a rule of the record's machine at a place bears on another verdict.
    #[inline(always)]
    fn weigh_other<'r>(
        &self,
        place: usize,
        rule: &'r Rule,
        number: Number,
        last: &mut Answered<'r>,
        likely: &mut Likely,
    ) -> Bearing
        requires told { AreTold self.now.profile.now (known_of self.now) self.now.word self.now.told.now }
        requires place { place < 8192 }
        requires stands { slice_get self.now.profile.now.rules place ≡ Some rule.now }
        requires number { IsKnownNumber (known_of self.now) rule.now.nr number }
        requires word { rule.now.word ≢ self.now.word }
        requires last { IsAnswered (known_of self.now) last.old }
        ensures bearing { Bears (met_of self.now) (known_of self.now) self.now.word place rule.now result }
        ensures kept { IsAnswered (known_of self.now) last.new }
    {
        if self.answer_at(place, rule, Asked::OneNo, last, likely) {
            return Bearing::Agrees;
        }
        self.weigh_left(place, rule, number)
    }

    /// How the rule of the record's machine at a place bears on the verdict, by the last answer to conditions if that
    /// serves. Rules for other calls are skipped, the usual case. For a rule with this verdict, ask if all conditions hold;
    /// else ask if one fails.
    #[inline(always)]
    pub(crate) fn weigh<'r>(
        &self,
        place: usize,
        rule: &'r Rule,
        number: Number,
        last: &mut Answered<'r>,
        likely: &mut Likely,
    ) -> Bearing
        requires told { AreTold self.now.profile.now (known_of self.now) self.now.word self.now.told.now }
        requires place { place < 8192 }
        requires stands { slice_get self.now.profile.now.rules place ≡ Some rule.now }
        requires number { IsKnownNumber (known_of self.now) rule.now.nr number }
        requires last { IsAnswered (known_of self.now) last.old }
        ensures bearing { Bears (met_of self.now) (known_of self.now) self.now.word place rule.now result }
        ensures kept { IsAnswered (known_of self.now) last.new }
    {
        if !number.own && number.other {
            return Bearing::Agrees;
        }
        if rule.word == self.word {
            return self.weigh_own(place, rule, number, last, likely);
        }
        self.weigh_other(place, rule, number, last, likely)
    }
}
