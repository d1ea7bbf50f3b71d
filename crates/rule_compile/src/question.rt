//! What a condition asks of the words of its argument.
//!
//! A filter sees an argument of 64 bits as two words. Two numbers compare as their high words do
//! where these differ, and else as their low words do. Of a narrow argument the low word alone is
//! asked for.
ghost use Rattle.std.specs.Prelude.{◌≡◌, ◌↔◌, ◌+◌, ◌/◌, ◌%◌, ◌<◌, ℕ, List, None, Some, IfSome, IsTrue, slice_index};
ghost use Rattle.call_record.specs.Words.{IsRecord};
ghost use Rattle.rule_compile.specs.Questions.{IsMet, bits, compares};
ghost use Rattle.rule_compile.specs.inner.Asked.{argument_at};
ghost use Rattle.rule_compile.specs.inner.Left.{HasNoNext, IsAlone, IsOffset, IsQuestion, IsQuestionLeft, WeighsLess};
ghost use Rattle.rule_compile.specs.inner.Replies.{AreAlike, IsReply, reply_of};

use call_record::halves;

/// How a word compares with a number.
#[derive(Clone, Copy, PartialEq, Eq)]
pub enum Comparison {
    Equal,
    AtLeast,
}

impl Comparison {
    // Whether a number compares so with the one that is asked for.
    fn holds(self, asked: u32, number: u32) -> bool
        ensures { result ≡ compares self asked number }
    {
        match self {
            Comparison::Equal => number == asked,
            Comparison::AtLeast => number >= asked,
        }
    }
}

/// The bits of a word that are asked for.
#[derive(Clone, Copy, PartialEq, Eq)]
pub struct Subject {
    /// Where the word stands in a record.
    pub word: u32,
    pub mask: u32,
}

/// How bits of a word compare with a number.
#[derive(Clone, Copy, PartialEq, Eq)]
pub struct Question {
    pub subject: Subject,
    pub comparison: Comparison,
    pub number: u32,
    /// Where this is the high word of an argument and has the number, the low word is compared with
    /// this one.
    pub low: Option<u32>,
    /// The answer that is asked for.
    pub wanted: bool,
}

/// What is known of a question where the bits are known.
#[derive(Clone, Copy)]
pub(crate) enum Reply {
    Met,
    NotMet,
    Open(Question),
}

impl Reply {
    fn of(met: bool) -> Reply
        ensures { result ≡ reply_of met }
    {
        if met { Reply::Met } else { Reply::NotMet }
    }
}

impl Question {
    /// How a whole word compares with a number.
    pub(crate) fn of_word(word: u32, comparison: Comparison, number: u32, wanted: bool) -> Question
        requires { IsOffset word }
        ensures met { (r : List ℕ) → IsRecord r → IsMet result r ↔ (compares comparison number (slice_index r (word / 4)) ≡ wanted) }
        ensures is { IsQuestion result }
    {
        Question {
            subject: Subject {
                word,
                mask: u32::MAX,
            },
            comparison,
            number,
            low: None,
            wanted,
        }
    }

    /// How a whole argument compares with a number, from its high word on.
    pub(crate) fn of_argument(
        low: u32,
        comparison: Comparison,
        number: u64,
        wanted: bool,
    ) -> Question
        requires low { (low % 4 ≡ 0) × (low + 4 < 64) }
        ensures met { (r : List ℕ) → IsRecord r → IsMet result r ↔ (compares comparison number (argument_at low r) ≡ wanted) }
        ensures is { IsQuestion result }
    {
        let subject = Subject {
            word: low.saturating_add(4),
            mask: u32::MAX,
        };
        let (number, above) = halves(number);
        Question {
            subject,
            comparison,
            number: above,
            low: Some(number),
            wanted,
        }
    }

    /// What is left to ask where these bits are this number.
    pub(crate) fn reply(&self, subject: Subject, number: u32) -> Reply
        ensures says { (r : List ℕ) → (self.now.subject ≡ subject → AreAlike self.now number (bits subject r)) → IsReply self.now r result }
        ensures question { IsQuestion self.now → IsQuestionLeft result }
        ensures less { WeighsLess self.now subject result }
    {
        if self.subject != subject {
            return Reply::Open(*self);
        }
        match self.low {
            Some(low) if number == self.number => self.reply_of_low(low),
            _ => Reply::of(self.comparison.holds(self.number, number) == self.wanted),
        }
    }

    /// Whether it is not met for sure where these bits are this number.
    pub(crate) fn is_out(&self, subject: Subject, number: u32) -> bool
        ensures { IsTrue result → (r : List ℕ) → (self.now.subject ≡ subject → AreAlike self.now number (bits subject r)) → IsMet self.now r → ⊥ }
    {
        matches!(self.reply(subject, number), Reply::NotMet)
    }

    // What is asked of the low word, which stands in front of the high one. It is at least 0.
    fn reply_of_low(&self, low: u32) -> Reply
        requires { self.now.low ≡ Some low }
        ensures says { (r : List ℕ) → bits self.now.subject r ≡ self.now.number → IsReply self.now r result }
        ensures question { IsQuestion self.now → IsQuestionLeft result }
        ensures less { IsAlone result }
    {
        if low == 0 && self.comparison == Comparison::AtLeast {
            return Reply::of(self.wanted);
        }
        let subject = Subject {
            word: self.subject.word.saturating_sub(4),
            mask: u32::MAX,
        };
        Reply::Open(Question {
            subject,
            comparison: self.comparison,
            number: low,
            low: None,
            wanted: self.wanted,
        })
    }

    /// Whether the bits are a whole word, after which nothing is left to ask.
    pub(crate) fn is_last(&self) -> bool {
        self.subject.mask == u32::MAX && self.low.is_none()
    }

    /// Whether it asks whether these bits are a number.
    pub(crate) fn is_equality_of(&self, subject: Subject) -> bool {
        self.wanted && self.comparison == Comparison::Equal && self.subject == subject
    }

    /// The number behind the one that is asked for, where the reply may be another from it on.
    pub(crate) fn next_turn(&self) -> Option<u32>
        ensures some { IfSome result (λ next. next ≡ self.now.number + 1) }
        ensures none { (result ≡ None) → HasNoNext self.now }
    {
        match (self.comparison, self.low) {
            (Comparison::AtLeast, None) => None,
            _ => self.number.checked_add(1),
        }
    }
}
