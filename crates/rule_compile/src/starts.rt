//! The bits that are asked for, and the numbers of them from which on something else may be left to ask.
ghost use Rattle.std.specs.Prelude.{◌≡◌, ◌<◌, ◌≤◌, ◌+◌, ◌^◌, ℕ, [], None, Some, slice_get, All, Contains, IfOk, IfSome, OnOk};
ghost use Rattle.rule_compile.specs.inner.Left.{AreStarts, AsksFor, HasTurns};

use crate::asked::Open;
use crate::question::{Question, Subject};
use std::alloc::{AllocError, Global};

/// The bits that are asked for first: a low word where the high one is known, or those of the first
/// question.
pub(crate) fn subject_of(rules: &[Open]) -> Option<Subject>
    ensures none { (result ≡ None) → (rules.now ≡ []) }
    ensures some { IfSome result (AsksFor rules.now) }
{
    for open in rules {
        if open.question.is_last() {
            return Some(open.question.subject);
        }
    }
    let first = rules.first()?;
    Some(first.question.subject)
}

/// The numbers of the bits from which on something else may be left to ask, in order, from 0 on.
pub(crate) fn starts_of(
    alloc: Global,
    rules: &[Open],
    subject: Subject,
) -> Result<Vec<u32>, AllocError>
    ensures { IfOk result (λ starts. AreStarts rules.now subject starts.items) }
{
    let mut starts = turns_of(alloc, rules, subject)?;
    starts.sort()?;
    starts.dedup();
    Ok(starts)
}

// 0 and the numbers from which on the reply to a question of these bits may be another.
fn turns_of(alloc: Global, rules: &[Open], subject: Subject) -> Result<Vec<u32>, AllocError>
    ensures words { IfOk result (λ turns. All (λ number. number < 2 ^ 32) turns.items) }
    ensures zero { IfOk result (λ turns. Contains turns.items 0) }
    ensures turns { IfOk result (λ turns. All (λ o. o.question.subject ≡ subject → HasTurns turns.items o.question) rules.now) }
{
    let mut turns = Vec::new(alloc);
    turns.push(0)?;
    for open in rules {
        add_turns(&mut turns, &open.question, subject)?;
    }
    Ok(turns)
}

// Adds the numbers from which on the reply to the question may be another, if it asks for these bits.
fn add_turns(turns: &mut Vec<u32>, question: &Question, subject: Subject) -> Result<(), AllocError>
    ensures words { All (λ number. number < 2 ^ 32) turns.old.items → OnOk result (All (λ number. number < 2 ^ 32) turns.new.items) }
    ensures kept { OnOk result ((n : ℕ) → Contains turns.old.items n → Contains turns.new.items n) }
    ensures turns { OnOk result (question.now.subject ≡ subject → HasTurns turns.new.items question.now) }
{
    if question.subject != subject {
        return Ok(());
    }
    turns.push(question.number)?;
    if let Some(next) = question.next_turn() {
        turns.push(next)?;
    }
    Ok(())
}

/// Where the range ends that begins at a start: it is the next one's beginning.
pub(crate) fn end_of(starts: &[u32], place: usize) -> u64
    ensures most { result ≤ 2 ^ 32 }
    ensures next { (next : ℕ) → slice_get starts.now (place + 1) ≡ Some next → result ≡ next }
    ensures last { slice_get starts.now (place + 1) ≡ None → result ≡ 2 ^ 32 }
{
    match starts.get(place.saturating_add(1)) {
        Some(next) => u64::from(*next),
        None => 1 << 32,
    }
}
