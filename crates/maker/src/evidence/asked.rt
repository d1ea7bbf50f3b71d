//! What the maker by outlines is told of the compiler's outline.

use outline::{AskedCall, are_too_many};
use rule_compile::{Asked, Block, Call, Leaf, Open, Outline, Part};
use std::alloc::{AllocError, Global};

// The rules of a part, each once.
fn rules_of(alloc: Global, questions: &[Open]) -> Result<Vec<u32>, AllocError> {
    let mut rules = Vec::new(alloc);
    for open in questions {
        if open.begins {
            rules.push((open.asker.rule % 0x1_0000_0000) as u32)?;
        }
    }
    Ok(rules)
}

// The rules of all parts. The last part of the outline is asked first.
fn parts_of(alloc: Global, parts: &[Part]) -> Result<Vec<Vec<u32>>, AllocError> {
    let mut all = Vec::new(alloc);
    for part in parts {
        all.push(rules_of(alloc, &part.rules)?)?;
    }
    all.reverse();
    Ok(all)
}

fn asked_call(alloc: Global, call: &Call, parts: &[Part]) -> Result<AskedCall, AllocError> {
    Ok(AskedCall {
        token: call.token,
        number: call.number,
        parts: parts_of(alloc, parts)?,
        is_merged: false,
    })
}

/// The calls of which rules ask for arguments.
pub(crate) fn asked_calls(alloc: Global, outline: &Outline) -> Result<Vec<AskedCall>, AllocError> {
    let mut calls = Vec::new(alloc);
    for call in &outline.calls {
        if let Asked::InParts(parts) = &call.asked {
            calls.push(asked_call(alloc, call, parts)?)?;
        }
    }
    Ok(calls)
}

// Whether a block goes on at one that asks for other bits of the same word, or at one that is marked.
fn is_followed(blocks: &[Block], marks: &[bool], block: &Block) -> bool {
    for range in &block.ranges {
        if let Leaf::Block(place) = range.leaf
            && let (Some(next), Some(is_marked)) = (blocks.get(place), marks.get(place))
            && (*is_marked || next.subject.word == block.subject.word)
        {
            return true;
        }
    }
    false
}

// For each block whether blocks that ask for bits of one word follow one another from it on.
fn followed(alloc: Global, blocks: &[Block]) -> Result<Vec<bool>, AllocError> {
    let mut marks = Vec::with_capacity(alloc, blocks.len())?;
    for block in blocks {
        let is_marked = is_followed(blocks, &marks, block);
        marks.push(is_marked)?;
    }
    Ok(marks)
}

// All rules of a call in one part.
fn merged_call(alloc: Global, call: &Call, parts: &[Part]) -> Result<AskedCall, AllocError> {
    let mut all = Vec::new(alloc);
    for part in parts.iter().rev() {
        all.extend_from_slice(&rules_of(alloc, &part.rules)?)?;
    }
    let mut own = Vec::new(alloc);
    own.push(all)?;
    Ok(AskedCall {
        token: call.token,
        number: call.number,
        parts: own,
        is_merged: true,
    })
}

/// The calls, where the filter asks at once for bits of one word and blocks of the outline ask for them one after the other.
pub(crate) fn merged_calls(alloc: Global, outline: &Outline) -> Result<Vec<AskedCall>, AllocError> {
    let marks = followed(alloc, &outline.blocks)?;
    let mut calls = Vec::new(alloc);
    for call in &outline.calls {
        if let Asked::InParts(parts) = &call.asked {
            let is_merged = match call.leaf {
                Leaf::Block(place) => matches!(marks.get(place), Some(true)),
                Leaf::Verdict(_) => false,
            };
            calls.push(if is_merged {
                merged_call(alloc, call, parts)?
            } else {
                asked_call(alloc, call, parts)?
            })?;
        }
    }
    Ok(calls)
}

/// Whether a call has more rules than a node of a certificate has claims: no certificate is written from the outline.
pub(crate) fn has_too_many(alloc: Global, outline: &Outline) -> Result<bool, AllocError> {
    let calls = asked_calls(alloc, outline)?;
    Ok(are_too_many(&calls))
}
