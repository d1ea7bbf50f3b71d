//! What is settled by what is known alone.
ghost use Rattle.std.specs.Prelude.{◌↔◌, [], IsTrue};
ghost use Rattle.cert_check.specs.Agree.{Agrees};

use crate::claims::{Mets, Outs};
use crate::judging::Agreement;
use crate::scratch::Scratch;
use call_record::Word;
use cert_state::{Facts, State};
use profile::Profile;

/// Whether the profile says a verdict of each record of which a state knows. This is the first way of a return: no rule is said to
/// be out and no condition to be met. The room serves one question after the other.
pub fn is_settled<S: State>(profile: &Profile, state: &S, word: Word, scratch: &mut Scratch) -> bool
    ensures { IsTrue result ↔ Agrees profile.now [] [] (S.known state.now) word }
{
    let Scratch { room, likely } = scratch;
    let facts = Facts::of(state, room);
    let agreement = Agreement {
        profile,
        outs: Outs::none(),
        mets: Mets::none(),
        facts: &facts,
        word,
        told: &[],
    };
    agreement.agrees_in_all(likely)
}
