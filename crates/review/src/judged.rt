//! Whether a profile lets through what is asked about.
ghost use Rattle.std.specs.Prelude.{◌≡◌, IfOk};
ghost use Rattle.call_record.specs.Record.{words};
ghost use Rattle.profile.specs.Rule.{Matches};
ghost use Rattle.review.specs.Judged as spec;

use crate::asked::Asked;
use crate::opposed::{opposed, rule_of};
use call_record::Record;
use differ::{Direction, Found, Steps, Unlisted, differ_on};
use profile::{Profile, Rule};
use std::alloc::{AllocError, Global};

/// What a profile says of what is asked about.
#[derive(Clone, Copy)]
pub enum Answer {
    /// It refuses all of it.
    Refused,
    /// It lets this record through, or leaves it to a tracer or a listener.
    Open(Record),
    /// Its rules can answer in more ways than are looked at.
    Undecided,
}

/// What is asked about, with the answer.
#[derive(Clone, Copy)]
pub struct Judged {
    pub asked: Asked,
    pub answer: Answer,
}

// The record that is found, which the rule matches: its profile lets all others through.
fn matching(rule: &Rule, found: &Found) -> Result<Record, AllocError>
    ensures call { IfOk result (λ call. call ≡ found.now.call) }
    ensures matches { IfOk result (λ call. Matches rule.now (words found.now.call)) }
{
    if rule.matches(&found.call) {
        Ok(found.call)
    } else {
        Err(AllocError)
    }
}

// The answer of the records on which a profile and the opposed one differ.
fn found_by(
    alloc: Global,
    profile: &Profile,
    other: &Profile,
    asked: &Asked,
    rule: &Rule,
    steps: &mut Steps,
) -> Result<Answer, AllocError>
    requires { spec.IsOpposedBy asked.now rule.now other.now }
    ensures { IfOk result (spec.IsAnswer profile.now asked.now) }
{
    let token = asked.arch.token();
    match differ_on(
        alloc,
        profile,
        other,
        token,
        asked.nr,
        Direction::Less,
        steps,
    ) {
        Ok(None) => Ok(Answer::Refused),
        Ok(Some(found)) => {
            let call = matching(rule, &found)?;
            Ok(Answer::Open(call))
        }
        Err(Unlisted::TooMany) => Ok(Answer::Undecided),
        Err(Unlisted::OutOfMemory) => Err(AllocError),
    }
}

// Whether a profile lets through what a rule refuses.
fn answer_by(
    alloc: Global,
    profile: &Profile,
    asked: &Asked,
    rule: &Rule,
    steps: &mut Steps,
) -> Result<Answer, AllocError>
    requires { spec.IsRuleOf asked.now rule.now }
    ensures { IfOk result (spec.IsAnswer profile.now asked.now) }
{
    let other = opposed(alloc, asked, rule)?;
    let answer = found_by(alloc, profile, &other, asked, rule, steps)?;
    Ok(answer)
}

// Whether a profile lets through what is asked about.
fn answer_of(
    alloc: Global,
    profile: &Profile,
    asked: &Asked,
    steps: &mut Steps,
) -> Result<Answer, AllocError>
    ensures { IfOk result (spec.IsAnswer profile.now asked.now) }
{
    match rule_of(asked) {
        Some(rule) => answer_by(alloc, profile, asked, &rule, steps),
        None => Err(AllocError),
    }
}

/// Whether a profile lets through what each of these asks about.
pub(crate) fn judge(
    alloc: Global,
    profile: &Profile,
    list: &[Asked],
    steps: &mut Steps,
) -> Result<Vec<Judged>, AllocError>
    ensures { IfOk result (λ judged. spec.AreJudged profile.now list.now judged.items) }
{
    let mut judged = Vec::new(alloc);
    for asked in list {
        let answer = answer_of(alloc, profile, asked, steps)?;
        judged.push(Judged {
            asked: *asked,
            answer,
        })?;
    }
    Ok(judged)
}
