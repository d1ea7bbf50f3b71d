//! Which verdicts the profile was seen to say of all that a chain states: many nodes of a certificate may share a chain.
ghost use Rattle.std.specs.Prelude.{IsTrue, List, ℕ};
ghost use Rattle.profile.specs.Policy.{Policy as ThePolicy};
ghost use Rattle.cert_form.specs.Views.{certificate_of, says};
ghost use Rattle.cert_check.specs.Agree.{Agrees};
ghost use Rattle.cert_check.specs.inner.Agreed.{AreAgreed};

use call_record::Word;
use cert_form::NodeView;

/// The place of a chain's first entry, and the verdict that the profile says of all that the chain states.
#[derive(Clone, Copy)]
pub(crate) struct Answer {
    pub(crate) chain: usize,
    pub(crate) word: Word,
}

/// Answers of one certificate. A later one takes the place of an earlier one with the same remainder.
#[derive(Drop)]
pub(crate) struct Agreed {
    pub(crate) answers: [Option<Answer>; 64],
}

impl Agreed {
    ghost use Rattle.std.specs.Prelude.{IsTrue, List, ℕ};
    ghost use Rattle.profile.specs.Policy.{Policy as ThePolicy};
    ghost use Rattle.cert_form.specs.Views.{certificate_of, says};
    ghost use Rattle.cert_check.specs.Agree.{Agrees};
    ghost use Rattle.cert_check.specs.inner.Agreed.{AreAgreed};

    /// No answer yet, of any certificate.
    pub(crate) fn none() -> Agreed
        ensures { (policy : ThePolicy) (bytes : List ℕ) → AreAgreed policy bytes result }
    {
        Agreed {
            answers: [None; 64],
        }
    }

    /// Whether the profile was seen to say a verdict of all that a node's chain states.
    pub(crate) fn has(&self, node: &NodeView<'_>, word: Word) -> bool
        ensures { (policy : ThePolicy) → AreAgreed policy (certificate_of node.now) self.now → IsTrue result
            → let n = says node.now in Agrees policy n.out n.met n.known word }
    {
        if !node.is_chained() {
            return false;
        }
        let chain = node.chain();
        let Some(answer) = self.answers[chain % 64] else {
            return false;
        };
        if answer.chain != chain {
            return false;
        }
        answer.word == word
    }

    /// Keeps that the profile says a verdict of all that a node knows, if that stands on a chain.
    pub(crate) fn keep(&mut self, node: &NodeView<'_>, word: Word)
        ensures { (policy : ThePolicy) → AreAgreed policy (certificate_of node.now) self.old
            → (let n = says node.now in Agrees policy n.out n.met n.known word) → AreAgreed policy (certificate_of node.now) self.new }
    {
        if !node.is_chained() {
            return;
        }
        let chain = node.chain();
        self.answers[chain % 64] = Some(Answer { chain, word });
    }
}
