//! What is left to ask of rules where some bits are known.
ghost use Rattle.std.specs.Prelude.{◌≡◌, ◌≤◌, ◌+◌, ℕ, List, [], ◌∷◌, false, true, All, IfOk, OnOk, drop, length, take};
ghost use Rattle.rule_compile.specs.Questions.{IsMet, bits};
ghost use Rattle.rule_compile.specs.Rules.{IsRuleMet, begins_here};
ghost use Rattle.rule_compile.specs.inner.Asked.{AreOf, Asks, IsLast, IsOf};
ghost use Rattle.rule_compile.specs.inner.Left.{AreAlikeAt, AreRules, AsksLess, IsAddedLeft, IsAlikeAt, IsQuestion, SaysAlike, Weighs};

use crate::asked::{Open, Questions, Rest};
use crate::question::{Reply, Subject};
use std::alloc::{AllocError, Global};

/// What is left to ask of rules where these bits are this number.
pub(crate) fn left(
    alloc: Global,
    rules: &[Open],
    subject: Subject,
    number: u32,
) -> Result<Rest, AllocError>
    ensures says { AreRules rules.now → IfOk result (λ rest. (r : List ℕ) → AreAlikeAt rules.now subject number (bits subject r) → SaysAlike rules.now r rest) }
    ensures less { AreRules rules.now → IfOk result (AsksLess rules.now subject) }
{
    let mut questions = Questions::new(alloc);
    // From rule to rule, which `for` does not do: each is one question or several.
    let mut rest = rules;
    while let [first, others @ ..] = rest {
        let (more, next) = others.split_at(further(others));
        if add_rule(&mut questions, first, more, subject, number)? {
            return Ok(Rest::Met(first.asker.rule, first.answer));
        }
        rest = next;
    }
    Ok(Rest::Open(questions.asked))
}

// How many questions stand in front of the next rule.
fn further(questions: &[Open]) -> usize
    ensures within { result ≤ length questions.now }
    ensures further { All (λ o. o.begins ≡ false) (take result questions.now) }
    ensures next { begins_here (drop result questions.now) ≡ true }
{
    questions
        .iter()
        .position(|question| question.begins)
        .unwrap_or(questions.len())
}

// Adds what is left of a rule. Gives whether it is met for sure.
fn add_rule(
    questions: &mut Questions,
    first: &Open,
    more: &[Open],
    subject: Subject,
    number: u32,
) -> Result<bool, AllocError>
    ensures rules { AreOf first.now.answer (first.now ∷ more.now) → OnOk result (AreRules questions.old.asked.items → AreRules questions.new.asked.items) }
    ensures says { AreOf first.now.answer (first.now ∷ more.now) → IfOk result (IsAddedLeft questions.old.asked.items questions.new.asked.items (first.now ∷ more.now) (λ r. AreAlikeAt (first.now ∷ more.now) subject number (bits subject r))) }
    ensures less { OnOk result (Weighs questions.old.asked.items questions.new.asked.items (first.now ∷ more.now) subject) }
{
    // Of most rules that compare a word with numbers nothing is left.
    if first.question.is_out(subject, number) {
        return Ok(false);
    }
    questions.begin();
    ask_left(questions, first, subject, number)?;
    ask_all_left(questions, more, subject, number)?;
    Ok(questions.is_met())
}

// Asks what is left of questions of a rule.
fn ask_all_left(
    questions: &mut Questions,
    more: &[Open],
    subject: Subject,
    number: u32,
) -> Result<(), AllocError>
    ensures asks { (word : ℕ) → IsLast word questions.old → All (IsOf word) more.now → OnOk result (Asks questions.old questions.new word (λ r. AreAlikeAt more.now subject number (bits subject r)) (λ r. IsRuleMet r more.now)) }
    ensures less { OnOk result (Weighs questions.old.asked.items questions.new.asked.items more.now subject) }
{
    for open in more {
        ask_left(questions, open, subject, number)?;
    }
    Ok(())
}

// Asks what is left of a question.
fn ask_left(
    questions: &mut Questions,
    asked: &Open,
    subject: Subject,
    number: u32,
) -> Result<(), AllocError>
    ensures asks { IsLast asked.now.answer questions.old → IsQuestion asked.now.question → OnOk result (Asks questions.old questions.new asked.now.answer (λ r. IsAlikeAt subject number (bits subject r) asked.now) (IsMet asked.now.question)) }
    ensures less { OnOk result (Weighs questions.old.asked.items questions.new.asked.items (asked.now ∷ []) subject) }
{
    match asked.question.reply(subject, number) {
        Reply::Met => Ok(()),
        Reply::NotMet => {
            questions.fail();
            Ok(())
        }
        Reply::Open(question) => questions.ask(asked.asker, asked.answer, question),
    }
}
