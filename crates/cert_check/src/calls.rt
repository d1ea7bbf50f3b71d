//! The rules for the one call that is possible on a machine, from the last to the first.
ghost use Rattle.std.specs.Prelude.{◌≡◌, ◌↔◌, IsTrue};
ghost use Rattle.cert_check.specs.inner.Asked.{known_of, met_of, out_of};
ghost use Rattle.cert_check.specs.Agree.{OneSays, RulesAgree};
ghost use Rattle.cert_check.specs.inner.Judged.{IsOnlyNumber};
ghost use Rattle.cert_check.specs.inner.Told.{AreTold};

use crate::equals::Equals;
use crate::judged::{Answered, Asked, Bearing};
use crate::judging::Agreement;
use crate::likely::Likely;
use crate::numbers::ask_number;
use cert_state::State;
use machines::Arch;

impl<S: State> Agreement<'_, S> {
    /// Whether a rule for a call is seen to say the verdict, of those without conditions: `call_agrees` asks each of the others once.
    /// What they ask is noted.
    pub(crate) fn call_says(&self, arch: Arch, number: u32, equals: &mut Equals) -> bool
        ensures { let a = self.now in IsTrue result → OneSays a.profile.now (out_of a) (met_of a) (known_of a) a.word arch }
    {
        let rules = self.profile.rules();
        equals.begin(arch.token(), number);
        let mut next = self.profile.latest(arch.token(), number);
        while let Some(place) = next {
            let rule = &rules[place];
            equals.note(place, rule);
            if self.says_alone_at(place, rule, arch, number) {
                return true;
            }
            next = self.profile.earlier(place);
        }
        false
    }

    /// Whether the rules that are left for a machine agree with the verdict, if the number is known to be no other one. Rules
    /// for other calls are refuted.
    pub(crate) fn call_agrees(&self, arch: Arch, nr: u32, likely: &mut Likely) -> bool
        requires told { AreTold self.now.profile.now (known_of self.now) self.now.word self.now.told.now }
        requires only { IsOnlyNumber (known_of self.now) nr }
        ensures { let a = self.now in IsTrue result ↔ RulesAgree a.profile.now (out_of a) (met_of a) (known_of a) a.word arch }
    {
        let rules = self.profile.rules();
        let number = ask_number(self.facts, nr);
        let mut others = false;
        let mut last = Answered {
            asked: Asked::AllYes,
            narrow: false,
            conds: &[],
            is_so: true,
        };
        let mut next = self.profile.latest(arch.token(), nr);
        while let Some(place) = next {
            if self.is_open(place) {
                match self.weigh(place, &rules[place], number, &mut last, likely) {
                    Bearing::Settles => return true,
                    Bearing::Agrees => {}
                    Bearing::Differs => others = true,
                }
            }
            next = self.profile.earlier(place);
        }
        if others {
            return false;
        }
        self.profile.default_word() == self.word
    }
}
