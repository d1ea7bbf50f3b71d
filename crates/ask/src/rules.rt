//! Rules and conditions of a question.

use crate::answers::Answers;
use crate::question::Question;
use arrayvec::ArrayVec;
use profile::{Cond, Op, Rule};

const OPS: [Op; 7] = [Op::Ne, Op::Lt, Op::Le, Op::Eq, Op::Ge, Op::Gt, Op::MaskedEq];

// The condition `INDEX OP VALUE DATUM`, with its operator's place in the list.
fn cond_in(question: &mut Question<'_>) -> Option<Cond> {
    let index = u8::try_from(question.narrow()).ok()?;
    let op = *OPS.get(question.place())?;
    Cond::new(index, op, question.number(), question.number())
}

// The rule `MACHINE NUMBER WORD COUNT CONDITION ..`.
fn rule_in(question: &mut Question<'_>) -> Option<Rule> {
    let arch = question.machine();
    let nr = question.narrow();
    let word = question.verdict();
    let mut conds = ArrayVec::new();
    for _ in 0..question.number() {
        conds.try_push(cond_in(question)?).ok()?;
    }
    Rule::new(arch, nr, conds, word)
}

/// The rules `COUNT RULE ..`, if all of them are rules.
pub fn rules_in(out: &mut Answers, mut question: Question<'_>) -> Option<Vec<Rule>> {
    let mut rules = Vec::new(out.alloc);
    for _ in 0..question.number() {
        let rule = rule_in(&mut question)?;
        out.keep(rules.push(rule).is_ok());
    }
    Some(rules)
}
