//! Machines of one token, which have the same rules; and rules that say the same.
ghost use Rattle.std.specs.Prelude.{◌<◌, IsTrue, length};
ghost use Rattle.cert_check.specs.Agree.{ListedAgrees, RulesAgree};
ghost use Rattle.cert_check.specs.inner.Asked.{known_of, met_of, out_of};
ghost use Rattle.cert_check.specs.inner.Alike.{FirstAgree, SayTheSame};

use crate::agree::{is_among, is_other};
use crate::answered::are_same;
use crate::judging::Agreement;
use cert_state::State;
use machines::Arch;
use profile::{Rule, foreign_numbers};

/// Whether two rules have the same verdict and the same conditions, of arguments as wide.
pub(crate) fn say_the_same(rule: &Rule, other: &Rule) -> bool
    ensures { IsTrue result → SayTheSame rule.now other.now }
{
    if rule.word != other.word {
        return false;
    }
    if rule.is_narrow() != other.is_narrow() {
        return false;
    }
    are_same(rule.conds.as_slice(), other.conds.as_slice())
}

impl<S: State> Agreement<'_, S> {
    // Whether the rules of a machine that agrees do: where the record may be of its token, and the number is no foreign one.
    fn rules_agreed(&self, arch: Arch) -> bool
        requires { let a = self.now in ListedAgrees a.profile.now (out_of a) (met_of a) (known_of a) a.word arch }
        ensures { let a = self.now in IsTrue result → RulesAgree a.profile.now (out_of a) (met_of a) (known_of a) a.word arch }
    {
        if is_other(self.facts, arch.token()) {
            return false;
        }
        !is_among(self.facts, foreign_numbers(self.profile.machines(), arch))
    }

    /// Whether the rules of a machine are seen to agree, as those do of one of the first machines that has its token.
    pub(crate) fn agrees_as_before(&self, arch: Arch, count: usize) -> bool
        requires first { let a = self.now in FirstAgree a.profile.now (out_of a) (met_of a) (known_of a) a.word count }
        requires count { count < length self.now.profile.now.machines }
        ensures { let a = self.now in IsTrue result → RulesAgree a.profile.now (out_of a) (met_of a) (known_of a) a.word arch }
    {
        let machines = self.profile.machines();
        for k in 0..count {
            let other = machines[k];
            if other.token() == arch.token() {
                if self.rules_agreed(other) {
                    return true;
                }
            }
        }
        false
    }
}
