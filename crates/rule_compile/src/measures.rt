//! How much questions ask, and where they are parted.
ghost use Rattle.std.specs.Prelude.{◌≡◌, ◌≤◌, ◌<◌, true, drop, length, All, IfSome, IsTrue};
ghost use Rattle.rule_compile.specs.Rules.{begins_here};
ghost use Rattle.rule_compile.specs.inner.Left.{weight};
ghost use Rattle.rule_compile.specs.inner.Left.{weight_of as question_weight};

use crate::asked::Open;
use crate::ranges::Leaf;
use bpf_insn::MAX_INSNS;

// How many ranges may be looked at for each question, before neighbours that go on alike are one.
const RANGES: usize = 6;

// How many questions of a block are repeated in the time in which a range is looked at.
const REPEATED: usize = 32;

// As many ranges as four filters can tell apart.
const MOST: usize = 4 * MAX_INSNS;

/// Whether each rule has the verdict of what is gone on at without them.
pub(crate) fn all_have(rules: &[Open], other: &Leaf) -> bool
    ensures { IsTrue result → All (λ o. other.now ≡ Leaf.Verdict o.answer) rules.now }
{
    rules
        .iter()
        .all(|open| other.is_like(&Leaf::Verdict(open.answer)))
}

/// How much is left to ask.
pub(crate) fn weight_of(rules: &[Open]) -> usize
    ensures { result ≡ weight rules.now }
{
    let mut sum = 0usize;
    for open in rules {
        sum += weight_of_one(open);
    }
    sum
}

// A question that goes on with the low word counts twice.
fn weight_of_one(this: &Open) -> usize
    ensures weight { result ≡ question_weight this.now.question.low }
    ensures most { result ≤ 2 }
{
    match this.question.low {
        Some(_) => 2,
        None => 1,
    }
}

/// How many ranges a block counts as where so many ranges of questions are looked at. The questions that it repeats count, too.
pub(crate) fn cost_of(rules: &[Open], ranges: usize) -> usize {
    ranges.max(rules.len() / REPEATED)
}

/// How many ranges may be looked at if rules are asked all at once. In the end they are to be no more than these. At most as many are
/// looked at as four filters can tell apart. If these are more than that, those that take the place of them will not be few either.
pub(crate) fn room_for(rules: &[Open], fewest: usize) -> usize {
    if fewest > MOST {
        return 0;
    }
    let looked_at = RANGES.saturating_mul(rules.len().saturating_add(1));
    looked_at.max(fewest.saturating_mul(2)).min(MOST)
}

// Whether each rule asks whether the same bits are a number.
fn are_list(rules: &[Open]) -> bool {
    let Some(first) = rules.first() else {
        return false;
    };
    let subject = first.question.subject;
    for open in rules {
        if !open.begins || !open.question.is_equality_of(subject) {
            return false;
        }
    }
    true
}

/// Where rules are parted: at `middle`. A list of numbers is asked for at once, which never takes more ranges.
pub(crate) fn parting(rules: &[Open]) -> Option<usize>
    ensures within { IfSome result (λ place. (1 ≤ place) × (place < length rules.now)) }
    ensures begins { IfSome result (λ place. begins_here (drop place rules.now) ≡ true) }
{
    if are_list(rules) {
        return None;
    }
    middle(rules)
}

// The place of the rule that begins nearest behind the middle, or else of the last one.
fn middle(rules: &[Open]) -> Option<usize>
    ensures within { IfSome result (λ place. (1 ≤ place) × (place < length rules.now)) }
    ensures begins { IfSome result (λ place. begins_here (drop place rules.now) ≡ true) }
{
    let mut found = None;
    for place in 1..rules.len() {
        if rules[place].begins {
            found = Some(place);
            if place >= rules.len() / 2 {
                return found;
            }
        }
    }
    found
}
