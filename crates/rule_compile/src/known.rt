//! Questions of which it is known what decides them.
ghost use Rattle.std.specs.Prelude.{◌≡◌, IfOk, IsTrue};
ghost use Rattle.rule_compile.specs.inner.Left.{AreSame};
ghost use Rattle.rule_compile.specs.inner.Noted.{AreBySpans};
ghost use Rattle.rule_compile.specs.inner.Stands.{part_of as questions_of_span};

use crate::asked::{Open, are_alike};
use crate::outline::Part;
use crate::ranges::Leaf;
use std::alloc::{AllocError, Global};

/// Questions that stand together and are asked at once.
#[derive(Clone, Copy)]
pub(crate) struct Span {
    /// The place of the first one among all of its call.
    pub(crate) start: usize,
    pub(crate) count: usize,
    /// What decides, from there on.
    pub(crate) leaf: Leaf,
}

/// All questions of a call, and what decides them.
#[derive(Drop)]
pub(crate) struct Known {
    pub(crate) key: u32,
    pub(crate) asked: Vec<Open>,
    /// What is gone on at where none of their rules holds.
    pub(crate) other: Leaf,
    pub(crate) leaf: Leaf,
    /// The parts in which they are asked, the last one first.
    pub(crate) spans: Vec<Span>,
}

impl Known {
    /// Whether these questions, which have this key, are the same, whoever asks them, and go on at the same.
    pub(crate) fn is_of(&self, key: u32, rules: &[Open], other: &Leaf) -> bool
        ensures { IsTrue result → AreSame self.now.asked.items rules.now × (self.now.other ≡ other.now) }
    {
        if self.key != key {
            return false;
        }
        if !self.other.is_like(other) {
            return false;
        }
        are_alike(&self.asked, rules)
    }

    /// The parts in which questions that are the same are asked.
    pub(crate) fn parts_of(
        &self,
        alloc: Global,
        questions: &[Open],
    ) -> Result<Vec<Part>, AllocError>
        ensures { IfOk result (λ parts. AreBySpans questions.now self.now.spans.items parts.items) }
    {
        let mut parts = Vec::new(alloc);
        for span in &self.spans {
            parts.push(part_of(alloc, questions, *span)?)?;
        }
        Ok(parts)
    }
}

// The questions of a part.
fn part_of(alloc: Global, questions: &[Open], span: Span) -> Result<Part, AllocError>
    ensures rules { IfOk result (λ part. part.rules.items ≡ questions_of_span questions.now span) }
    ensures leaf { IfOk result (λ part. part.leaf ≡ span.leaf) }
{
    let behind = &questions[span.start.min(questions.len())..];
    let own = &behind[..span.count.min(behind.len())];
    let rules = Vec::from_slice(alloc, own)?;
    let leaf = span.leaf;
    Ok(Part { rules, leaf })
}
