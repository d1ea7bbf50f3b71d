//! What decides a call, in the parts in which its questions are asked.
ghost use Rattle.std.specs.Prelude.{◌≡◌, ◌+◌, ◌<◌, ◌^◌, ◌++◌, ◌∷◌, [], length, vec_len, IfOk, OnOk};
ghost use Rattle.rule_compile.specs.inner.Left.{AreRules};
ghost use Rattle.rule_compile.specs.inner.Noted.{AreNoted, ArePartsOf, IsNext, NotesCall, span_of};
ghost use Rattle.rule_compile.specs.inner.Runs.{IsBefore};
ghost use Rattle.rule_compile.specs.inner.Stands.{AreSound, DecidesRules, HasMore, IsFound};

use crate::asked::{Open, Placed, Rest, questions_of};
use crate::blocks::Blocks;
use crate::index::key_of;
use crate::known::{Known, Span};
use crate::measures::{all_have, parting, room_for, weight_of};
use crate::outline::{Asked, Call, Part};
use crate::ranges::Leaf;
use call_record::Word;
use std::alloc::{AllocError, Global};

impl Blocks {
    /// What decides the calls of a number of the machine with the token, which has these rules.
    pub(crate) fn leaf_of(
        &mut self,
        alloc: Global,
        token: u32,
        number: u32,
        rules: &[Placed<'_>],
        default: Word,
    ) -> Result<Leaf, AllocError>
        requires sound { AreSound self.old }
        ensures sound { OnOk result (AreSound self.new) }
        ensures more { OnOk result (HasMore self.old.blocks.items self.new.blocks.items) }
        ensures before { IfOk result (IsBefore (vec_len self.new.blocks)) }
        ensures decides { IfOk result (DecidesRules self.new.blocks.items rules.now default) }
        ensures notes { OnOk result (NotesCall self.old self.new rules.now token number default) }
    {
        match questions_of(alloc, rules, default)? {
            Rest::Met(rule, word) => {
                let leaf = Leaf::Verdict(word);
                self.add_call(token, number, &leaf, Asked::Nothing(rule))?;
                Ok(leaf)
            }
            Rest::Open(open) => {
                let (leaf, parts) = self.asked(alloc, &open, &Leaf::Verdict(default))?;
                self.add_call(token, number, &leaf, Asked::InParts(parts))?;
                Ok(leaf)
            }
        }
    }

    // What decides these questions, and the parts in which they are asked. Calls that ask the same have one answer.
    fn asked(
        &mut self,
        alloc: Global,
        rules: &[Open],
        other: &Leaf,
    ) -> Result<(Leaf, Vec<Part>), AllocError>
        requires sound { AreSound self.old }
        requires rules { AreRules rules.now }
        requires other { IsBefore (vec_len self.old.blocks) other.now }
        ensures sound { OnOk result (AreSound self.new) }
        ensures more { OnOk result (HasMore self.old.blocks.items self.new.blocks.items) }
        ensures calls { OnOk result (self.new.calls.items ≡ self.old.calls.items) }
        ensures found { IfOk result (λ found. IsFound self.new.blocks.items rules.now other.now found.0) }
        ensures parts { IfOk result (λ found. ArePartsOf self.new.blocks.items rules.now other.now found.1.items found.0) }
    {
        let key = key_of(rules, other);
        for known in &self.known {
            if known.is_of(key, rules, other) {
                return Ok((known.leaf, known.parts_of(alloc, rules)?));
            }
        }
        let mut spans = Vec::new(alloc);
        let leaf = self.add(alloc, rules, 0, other, &mut spans)?;
        let asked = Vec::from_slice(alloc, rules)?;
        let other = *other;
        let known = Known {
            key,
            asked,
            other,
            leaf,
            spans,
        };
        let parts = known.parts_of(alloc, &known.asked)?;
        self.known.push(known)?;
        Ok((leaf, parts))
    }

    // Notes what decides a call.
    fn add_call(
        &mut self,
        token: u32,
        number: u32,
        leaf: &Leaf,
        asked: Asked,
    ) -> Result<(), AllocError>
        ensures blocks { OnOk result (self.new.blocks.items ≡ self.old.blocks.items) }
        ensures known { OnOk result (self.new.known.items ≡ self.old.known.items) }
        ensures calls { OnOk result (IsNext self.old self.new token number leaf.now asked) }
    {
        let leaf = *leaf;
        self.calls.push(Call {
            token,
            number,
            leaf,
            asked,
        })?;
        Ok(())
    }

    // The block of these rules. Rules with the verdict of what is gone on at without them make no
    // difference. They are asked all at once where that takes no more ranges than the first half of
    // them before the second. The first of them stands at a place among those of its call. The parts
    // in which they are asked are noted behind the spans that there are.
    fn add(
        &mut self,
        alloc: Global,
        rules: &[Open],
        start: usize,
        other: &Leaf,
        spans: &mut Vec<Span>,
    ) -> Result<Leaf, AllocError>
        requires within { start + length rules.now < 2 ^ 64 }
        requires sound { AreSound self.old }
        requires rules { AreRules rules.now }
        requires other { IsBefore (vec_len self.old.blocks) other.now }
        ensures sound { OnOk result (AreSound self.new) }
        ensures more { OnOk result (HasMore self.old.blocks.items self.new.blocks.items) }
        ensures known { OnOk result (self.new.known.items ≡ self.old.known.items) }
        ensures calls { OnOk result (self.new.calls.items ≡ self.old.calls.items) }
        ensures found { IfOk result (IsFound self.new.blocks.items rules.now other.now) }
        ensures notes { IfOk result (AreNoted self.new.blocks.items spans.old.items spans.new.items rules.now start other.now) }
    {
        if all_have(rules, other) {
            return Ok(*other);
        }
        let Some(place) = parting(rules) else {
            let leaf = self.add_rule(alloc, rules, other)?;
            add_span(spans, start, rules.len(), &leaf)?;
            return Ok(leaf);
        };
        let noted = spans.len();
        let before = self.blocks.len();
        let (first, second) = rules.split_at(place);
        let next = self.add(alloc, second, start + place, other, spans)?;
        let parted = self.add(alloc, first, start, &next, spans)?;
        let fewest = self.ranges_from(before);
        let aside = self.set_aside(before)?;
        self.room = Some(room_for(rules, fewest));
        if let Some(whole) = self.decide(alloc, rules, other, weight_of(rules))?
            && self.ranges_from(before) <= fewest
        {
            spans.truncate(noted);
            add_span(spans, start, rules.len(), &whole)?;
            return Ok(whole);
        }
        self.drop_from(before);
        self.put_back(alloc, aside)?;
        Ok(parted)
    }

    // The block of one rule.
    fn add_rule(&mut self, alloc: Global, rules: &[Open], other: &Leaf) -> Result<Leaf, AllocError>
        requires sound { AreSound self.old }
        requires rules { AreRules rules.now }
        requires other { IsBefore (vec_len self.old.blocks) other.now }
        ensures sound { OnOk result (AreSound self.new) }
        ensures more { OnOk result (HasMore self.old.blocks.items self.new.blocks.items) }
        ensures known { OnOk result (self.new.known.items ≡ self.old.known.items) }
        ensures calls { OnOk result (self.new.calls.items ≡ self.old.calls.items) }
        ensures found { IfOk result (IsFound self.new.blocks.items rules.now other.now) }
    {
        self.room = None;
        match self.decide(alloc, rules, other, weight_of(rules))? {
            Some(leaf) => Ok(leaf),
            None => unreachable!(),
        }
    }
}

// Notes that so many questions from a place on are asked at once.
fn add_span(
    spans: &mut Vec<Span>,
    start: usize,
    count: usize,
    leaf: &Leaf,
) -> Result<(), AllocError>
    ensures { OnOk result (spans.new.items ≡ spans.old.items ++ span_of start count leaf.now ∷ []) }
{
    let leaf = *leaf;
    spans.push(Span { start, count, leaf })?;
    Ok(())
}
