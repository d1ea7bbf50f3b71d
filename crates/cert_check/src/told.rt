//! Answers to the conditions of rules if the record may be of several machines. What an entry asks is asked once for all machines
//! whose arguments are as wide.
ghost use Rattle.std.specs.Prelude.{◌≡◌, ◌<◌, ◌↔◌, IsTrue, IfSome, None, Some, replicate, slice_get};
ghost use Rattle.profile.specs.declared.rules.Rule.{Rule as TheRule};
ghost use Rattle.cert_check.specs.Agree.{Agrees};
ghost use Rattle.cert_check.specs.inner.Asked.{known_of, met_of, out_of};
ghost use Rattle.cert_check.specs.declared.judged.Bearing.TheVariants.{Agrees as Agreeing};
ghost use Rattle.cert_check.specs.inner.Judged.{Bears};
ghost use Rattle.cert_check.specs.inner.Told.{AreTold, IsToldOf, question_of, turn};

use crate::agree::is_other;
use crate::alike::say_the_same;
use crate::answered::ask_likely;
use crate::judged::Asked;
use crate::judging::Agreement;
use crate::likely::Likely;
use crate::numbers::number_range;
use cert_state::State;
use profile::Rule;

/// Whether a rule bears on a verdict, by the answer to what is asked of its conditions. It also returns that answer, by whether the
/// rule bears on the verdict.
pub(crate) fn turned(asked: Asked, so: bool) -> bool
    ensures { result ≡ turn asked so }
{
    match asked {
        Asked::AllYes => so,
        Asked::OneNo => !so,
    }
}

impl<S: State> Agreement<'_, S> {
    // Whether the rule at a place bears on the verdict by its conditions, if that is told.
    #[inline(always)]
    pub(crate) fn told_at(&self, place: usize) -> Option<bool>
        requires told { AreTold self.now.profile.now (known_of self.now) self.now.word self.now.told.now }
        ensures { (rule : TheRule) → slice_get self.now.profile.now.rules place ≡ Some rule
            → IfSome result (IsToldOf (known_of self.now) self.now.word rule) }
    {
        if place < self.told.len() {
            self.told[place]
        } else {
            None
        }
    }

    /// Whether the rule at a place is told to agree with the verdict.
    #[inline(always)]
    pub(crate) fn agrees_at(&self, place: usize) -> bool
        requires told { AreTold self.now.profile.now (known_of self.now) self.now.word self.now.told.now }
        requires place { place < 8192 }
        ensures { IsTrue result → (rule : TheRule) → slice_get self.now.profile.now.rules place ≡ Some rule
            → Bears (met_of self.now) (known_of self.now) self.now.word place rule Agreeing }
    {
        match self.told_at(place) {
            None => false,
            Some(bears) => {
                if bears {
                    return false;
                }
                !self.mets.has_some(place)
            }
        }
    }

    /// What is asked of a rule's conditions.
    pub(crate) fn question(&self, rule: &Rule) -> Asked
        ensures { result ≡ question_of self.now.word rule.now }
    {
        if rule.word == self.word {
            Asked::AllYes
        } else {
            Asked::OneNo
        }
    }

    // Whether a rule at a place is worth asking. It is not out, and its number is possible. If it says the verdict, no other number
    // is possible.
    fn is_wanted(&self, place: usize, rule: &Rule, range: (u32, u32)) -> bool
        requires { place < 8192 }
    {
        let (least, greatest) = range;
        if rule.nr < least || rule.nr > greatest {
            return false;
        }
        if rule.word == self.word && least != greatest {
            return false;
        }
        !self.outs.has(place)
    }

    // Whether the rule at a place bears on the verdict by its conditions. It does as an earlier rule does which says the same,
    // or by what comes of asking.
    fn tell(
        &self,
        place: usize,
        rule: &Rule,
        before: usize,
        table: &[Option<bool>; 8192],
        likely: &mut Likely,
    ) -> bool
        requires place { place < 8192 }
        requires told { AreTold self.now.profile.now (known_of self.now) self.now.word table.now }
        ensures { IsToldOf (known_of self.now) self.now.word rule.now result }
    {
        let rules = self.profile.rules();
        if before < rules.len() && before < 8192 {
            if let Some(bears) = table[before] {
                if say_the_same(&rules[before], rule) {
                    return bears;
                }
            }
        }
        let asked = self.question(rule);
        let is_so = ask_likely(self.facts, place, rule, asked, likely);
        turned(asked, is_so)
    }

    // Tells it of all rules that are worth asking, in a table where nothing is told.
    fn tell_all(&self, table: &mut [Option<bool>; 8192], likely: &mut Likely)
        requires { table.old ≡ replicate 8192 None }
        ensures { AreTold self.now.profile.now (known_of self.now) self.now.word table.new }
    {
        let range = number_range(self.facts);
        // The places of the last wide rule and of the last narrow one.
        let mut before = [0_usize; 2];
        let mut place = 0_usize;
        for rule in self.profile.rules() {
            if self.is_wanted(place, rule, range) {
                let width = if rule.is_narrow() { 1 } else { 0 };
                let bears = self.tell(place, rule, before[width], table, likely);
                table[place] = Some(bears);
                before[width] = place;
            }
            place += 1;
        }
    }

    // Whether the record may be of machines of two tokens.
    fn has_two_tokens(&self) -> bool {
        let mut first = None;
        for arch in self.profile.machines() {
            let token = arch.token();
            if first != Some(token) && !is_other(self.facts, token) {
                if first.is_some() {
                    return true;
                }
                first = Some(token);
            }
        }
        false
    }

    // Whether the profile says the verdict, by a table of answers. It is made in a function of its own, so that no other return
    // makes room for it.
    #[inline(never)]
    fn agrees_by_table(&self, likely: &mut Likely) -> bool
        requires told { AreTold self.now.profile.now (known_of self.now) self.now.word self.now.told.now }
        ensures { let a = self.now in IsTrue result ↔ Agrees a.profile.now (out_of a) (met_of a) (known_of a) a.word }
    {
        let mut table = [None; 8192];
        self.tell_all(&mut table, likely);
        let told = Agreement {
            profile: self.profile,
            outs: self.outs,
            mets: self.mets,
            facts: self.facts,
            word: self.word,
            told: &table,
        };
        told.agrees(likely)
    }

    /// Whether the profile says the verdict of each record of which this is known. It is also known that no rule that is out
    /// matches. And the conditions that are said to be met are met.
    pub(crate) fn agrees_in_all(&self, likely: &mut Likely) -> bool
        requires told { AreTold self.now.profile.now (known_of self.now) self.now.word self.now.told.now }
        ensures { let a = self.now in IsTrue result ↔ Agrees a.profile.now (out_of a) (met_of a) (known_of a) a.word }
    {
        if self.has_two_tokens() {
            return self.agrees_by_table(likely);
        }
        self.agrees(likely)
    }
}
