//! What is left to ask of rules.
ghost use Rattle.std.specs.Prelude.{◌≡◌, ◌↔◌, ◌==◌, ◌+◌, ◌*◌, ◌≤◌, ◌<◌, ◌^◌, ◌%◌, ◌/◌, ℕ, List, [], ◌∷◌, ◌++◌, true, false, bit_and, length, take, slice_index, IsTrue, IfOk, OnOk, ⊤};
ghost use Rattle.call_record.specs.Words.{IsRecord, argument};
ghost use Rattle.machines.specs.Width.{compared};
ghost use Rattle.profile.specs.Condition.{Meets};
ghost use Rattle.rule_compile.specs.Questions.{IsMet, compares};
ghost use Rattle.rule_compile.specs.inner.Left.{AreHeld, AreLeft, AreRules, AreSame, IsOffset, IsQuestion, IsSame, SaysHeld};
ghost use Rattle.rule_compile.specs.inner.Noted.{IsMetAt};
ghost use Rattle.rule_compile.specs.inner.Asked.{Asks, IsAdded, IsAsked, IsLast, argument_at};

use crate::index::mixed;
use crate::question::{Comparison, Question, Reply, Subject};
use call_record::offset::ARGUMENTS;
use call_record::{Word, halves};
use profile::{Cond, Op, Rule};
use std::alloc::{AllocError, Global};

/// A rule of a profile, with its place in the profile's order.
#[derive(Clone, Copy)]
pub(crate) struct Placed<'a> {
    pub(crate) place: usize,
    pub(crate) rule: &'a Rule,
}

/// Which condition asks a question.
#[derive(Clone, Copy, PartialEq, Eq)]
pub struct Asker {
    /// The place of its rule in the profile's order.
    pub rule: usize,
    /// Its own place among the rule's.
    pub condition: usize,
}

/// A question of a rule. Those of one rule stand together.
#[derive(Clone, Copy, PartialEq, Eq)]
pub struct Open {
    /// Whether the question is the first one of its rule.
    pub begins: bool,
    /// The verdict of the rule.
    pub answer: Word,
    pub question: Question,
    pub asker: Asker,
}

impl Open {
    // Whether both ask the same, for the same verdict, whoever asks it.
    fn is_like(&self, other: &Open) -> bool
        ensures { IsTrue result → IsSame self.now other.now }
    {
        self.begins == other.begins
            && self.answer == other.answer
            && self.question == other.question
    }

    /// A key of what is asked, for which verdict. What is alike has one key.
    pub(crate) fn key(&self) -> u32 {
        let question = self.question;
        let mut key = mixed(self.answer.0, question.number);
        key = mixed(key, question.subject.mask);
        key = mixed(key, question.subject.word);
        key = mixed(key, question.low.unwrap_or(0));
        let wanted = if question.wanted { 1 } else { 0 };
        let begins = if self.begins { 2 } else { 0 };
        mixed(key, wanted | begins)
    }
}

/// Whether both are the same questions, whoever asks them.
pub(crate) fn are_alike(these: &[Open], others: &[Open]) -> bool
    ensures { IsTrue result → AreSame these.now others.now }
{
    if these.len() != others.len() {
        return false;
    }
    for (this, other) in these.iter().zip(others) {
        if !this.is_like(other) {
            return false;
        }
    }
    true
}

/// An argument of which a condition asks.
#[derive(Clone, Copy)]
struct Argument {
    /// Where its low word stands in a record; the high one is the next.
    low: u32,
    /// Whether the low word alone is compared.
    narrow: bool,
    ghost is_word: { low % 4 ≡ 0 },
    ghost within: { low + 4 < 64 },
}

/// What rules come to.
#[derive(Drop)]
pub(crate) enum Rest {
    /// The rule at this place of the profile's order holds, and this is its verdict.
    Met(usize, Word),
    /// What is left to ask of those that may hold.
    Open(Vec<Open>),
}

/// The questions of some rules, the last of which is being asked.
#[derive(Drop)]
pub(crate) struct Questions {
    pub(crate) asked: Vec<Open>,
    /// Where the last rule begins.
    start: usize,
    /// Whether the last rule does not hold, or there is none.
    failed: bool,
}

impl Questions {
    pub(crate) fn new(alloc: Global) -> Questions
        ensures asked { result.asked.items ≡ [] }
        ensures start { result.start ≡ 0 }
        ensures failed { result.failed ≡ true }
    {
        Questions {
            asked: Vec::new(alloc),
            start: 0,
            failed: true,
        }
    }

    /// Begins with the next rule.
    pub(crate) fn begin(&mut self)
        ensures asked { self.new.asked ≡ self.old.asked }
        ensures start { self.new.start ≡ length self.old.asked.items }
        ensures failed { self.new.failed ≡ false }
    {
        self.start = self.asked.len();
        self.failed = false;
    }

    /// The rule does not hold.
    pub(crate) fn fail(&mut self)
        ensures asked { self.new.asked.items ≡ take self.old.start self.old.asked.items }
        ensures start { self.new.start ≡ self.old.start }
        ensures failed { self.new.failed ≡ true }
    {
        self.asked.truncate(self.start);
        self.failed = true;
    }

    /// Whether the rule holds.
    pub(crate) fn is_met(&self) -> bool
        ensures { IsTrue result ↔ ((self.now.failed ≡ false) × (length self.now.asked.items ≡ self.now.start)) }
    {
        !self.failed && self.asked.len() == self.start
    }

    /// Asks a question for a condition of the rule with this verdict, unless the rule does not hold.
    pub(crate) fn ask(
        &mut self,
        asker: Asker,
        answer: Word,
        question: Question,
    ) -> Result<(), AllocError>
        ensures start { OnOk result (self.new.start ≡ self.old.start) }
        ensures failed { OnOk result (self.new.failed ≡ self.old.failed) }
        ensures asked { OnOk result (IsAsked self.old self.new asker answer question) }
        ensures asks { IsLast answer self.old → IsQuestion question → OnOk result (Asks self.old self.new answer (λ _. ⊤) (IsMet question)) }
    {
        if self.failed {
            return Ok(());
        }
        let begins = self.asked.len() == self.start;
        self.asked.push(Open {
            begins,
            answer,
            question,
            asker,
        })?;
        Ok(())
    }

    /// Asks for a rule, unless it has the default verdict. Gives whether it holds for sure.
    fn add(&mut self, placed: Placed<'_>, default: Word) -> Result<bool, AllocError>
        ensures rules { OnOk result (AreRules self.old.asked.items → AreRules self.new.asked.items) }
        ensures says { IfOk result (IsAdded self.old self.new placed.entry default) }
    {
        if placed.rule.word == default {
            return Ok(false);
        }
        self.begin();
        self.ask_rule(placed)?;
        Ok(self.is_met())
    }

    // Asks what the conditions of a rule ask.
    fn ask_rule(&mut self, placed: Placed<'_>) -> Result<(), AllocError>
        requires last { IsLast placed.rule.now.word self.now }
        ensures { OnOk result (Asks self.old self.new placed.entry.rule.now.word IsRecord (AreHeld placed.entry)) }
    {
        let narrow = placed.rule.is_narrow();
        for (condition, cond) in placed.rule.conds.iter().enumerate() {
            let asker = Asker {
                rule: placed.place,
                condition,
            };
            self.ask_condition(asker, placed.rule.word, narrow, cond)?;
        }
        Ok(())
    }

    // Asks what a condition asks.
    fn ask_condition(
        &mut self,
        asker: Asker,
        answer: Word,
        narrow: bool,
        cond: &Cond,
    ) -> Result<(), AllocError>
        requires last { IsLast answer self.now }
        ensures { OnOk result (Asks self.old self.new answer IsRecord (λ r. Meets cond.now (compared narrow (argument r cond.now.index)))) }
    {
        let low = ARGUMENTS + 8 * u32::from(cond.index);
        let of = Argument { low, narrow };
        let value = cond.value;
        let above = value.checked_add(1);
        match (cond.op, above) {
            (Op::MaskedEq, _) => self.ask_bits(asker, answer, of, cond),
            (Op::Eq, _) => self.ask_argument(asker, answer, of, Comparison::Equal, value, true),
            (Op::Ne, _) => self.ask_argument(asker, answer, of, Comparison::Equal, value, false),
            (Op::Ge, _) => self.ask_least(asker, answer, of, value, true),
            (Op::Lt, _) => self.ask_least(asker, answer, of, value, false),
            (Op::Gt, Some(least)) => self.ask_least(asker, answer, of, least, true),
            (Op::Le, Some(least)) => self.ask_least(asker, answer, of, least, false),
            (Op::Gt, None) => {
                self.fail();
                Ok(())
            }
            (Op::Le, None) => Ok(()),
        }
    }

    // Asks whether the argument is at least a number. Each is at least 0.
    fn ask_least(
        &mut self,
        asker: Asker,
        answer: Word,
        of: Argument,
        least: u64,
        wanted: bool,
    ) -> Result<(), AllocError>
        requires last { IsLast answer self.now }
        ensures { OnOk result (Asks self.old self.new answer IsRecord (λ r. compares Comparison.AtLeast least (compared of.narrow (argument_at of.low r)) ≡ wanted)) }
    {
        if least > 0 {
            return self.ask_argument(asker, answer, of, Comparison::AtLeast, least, wanted);
        }
        if !wanted {
            self.fail();
        }
        Ok(())
    }

    // Asks how the argument compares with a number: by both words, or by the low one.
    fn ask_argument(
        &mut self,
        asker: Asker,
        answer: Word,
        of: Argument,
        comparison: Comparison,
        number: u64,
        wanted: bool,
    ) -> Result<(), AllocError>
        requires last { IsLast answer self.now }
        ensures { OnOk result (Asks self.old self.new answer IsRecord (λ r. compares comparison number (compared of.narrow (argument_at of.low r)) ≡ wanted)) }
    {
        if of.narrow {
            return self.ask_low(asker, answer, of.low, comparison, number, wanted);
        }
        let question = Question::of_argument(of.low, comparison, number, wanted);
        self.ask(asker, answer, question)
    }

    // Asks how the low word of an argument compares with a number. It is below each that has a high half.
    fn ask_low(
        &mut self,
        asker: Asker,
        answer: Word,
        low: u32,
        comparison: Comparison,
        number: u64,
        wanted: bool,
    ) -> Result<(), AllocError>
        requires offset { IsOffset low }
        requires last { IsLast answer self.now }
        ensures { OnOk result (Asks self.old self.new answer IsRecord (λ r. compares comparison number (slice_index r (low / 4)) ≡ wanted)) }
    {
        let (number, above) = halves(number);
        if above == 0 {
            let question = Question::of_word(low, comparison, number, wanted);
            return self.ask(asker, answer, question);
        }
        if wanted {
            self.fail();
        }
        Ok(())
    }

    // Asks for the bits of both halves under a mask.
    fn ask_bits(
        &mut self,
        asker: Asker,
        answer: Word,
        of: Argument,
        cond: &Cond,
    ) -> Result<(), AllocError>
        requires no_stray { bit_and cond.now.datum cond.now.value ≡ cond.now.datum }
        requires last { IsLast answer self.now }
        ensures { OnOk result (Asks self.old self.new answer IsRecord (λ r. bit_and (compared of.narrow (argument_at of.low r)) cond.now.value ≡ cond.now.datum)) }
    {
        let (mask, mask_above) = halves(cond.value);
        let (datum, datum_above) = halves(cond.datum);
        self.ask_high(asker, answer, of, mask_above, datum_above)?;
        self.ask_word(asker, answer, of.low, mask, datum)
    }

    // Asks for the bits of the high half of what is compared, which is 0 of a narrow argument.
    fn ask_high(
        &mut self,
        asker: Asker,
        answer: Word,
        of: Argument,
        mask: u32,
        number: u32,
    ) -> Result<(), AllocError>
        requires number { bit_and number mask ≡ number }
        requires last { IsLast answer self.now }
        ensures { OnOk result (Asks self.old self.new answer IsRecord (λ r. bit_and (compared of.narrow (argument_at of.low r) / 2 ^ 32) mask ≡ number)) }
    {
        if !of.narrow {
            let high = of.low.saturating_add(4);
            return self.ask_word(asker, answer, high, mask, number);
        }
        if number != 0 {
            self.fail();
        }
        Ok(())
    }

    // Asks for the bits of a word under a mask. A mask of 0 asks for nothing.
    fn ask_word(
        &mut self,
        asker: Asker,
        answer: Word,
        word: u32,
        mask: u32,
        number: u32,
    ) -> Result<(), AllocError>
        requires offset { IsOffset word }
        requires number { bit_and number mask ≡ number }
        requires last { IsLast answer self.now }
        ensures { OnOk result (Asks self.old self.new answer (λ _. ⊤) (λ r. bit_and (slice_index r (word / 4)) mask ≡ number)) }
    {
        if mask == 0 {
            return Ok(());
        }
        let question = Question {
            subject: Subject { word, mask },
            comparison: Comparison::Equal,
            number,
            low: None,
            wanted: true,
        };
        self.ask(asker, answer, question)
    }
}

/// What is to be asked of rules. One with the default verdict makes no difference.
pub(crate) fn questions_of(
    alloc: Global,
    rules: &[Placed<'_>],
    default: Word,
) -> Result<Rest, AllocError>
    ensures left { IfOk result AreLeft }
    ensures says { IfOk result (λ rest. (r : List ℕ) → IsRecord r → SaysHeld rules.now default r rest) }
    ensures met { IfOk result (IsMetAt rules.now) }
{
    let mut questions = Questions::new(alloc);
    for placed in rules {
        if questions.add(*placed, default)? {
            return Ok(Rest::Met(placed.place, placed.rule.word));
        }
    }
    Ok(Rest::Open(questions.asked))
}
