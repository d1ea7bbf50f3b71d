//! Filters that are shorter than the compiler's own. Nothing is proved of them: who takes one has it checked.

use crate::fault::CompileError;
use crate::filter::{Made, Planned};
use crate::merged::can_merge;
use crate::outline::Outline;
use crate::reached::only_reached;
use crate::shared::{Shared, plan_shared};
use bpf_insn::Insn;
use machines::Family;
use profile::Profile;
use std::alloc::{AllocError, Global};

/// What is known of a filter that is shorter than the compiler's own.
#[derive(Drop)]
pub enum Known {
    /// The outline of the compiler's own.
    AsOwn,
    /// Another outline.
    Outline(Outline),
    /// Another outline, in which blocks that ask for bits of one word still stand apart.
    Merged(Outline),
}

/// A filter that is shorter than the compiler's own, as the bytes of its instructions.
#[derive(Drop)]
pub struct Shorter {
    pub bytes: Vec<u8>,
    pub known: Known,
}

// The bytes of these instructions.
fn bytes_of(alloc: Global, insns: Vec<Insn>) -> Result<Vec<u8>, CompileError> {
    let outline = Outline {
        blocks: Vec::new(alloc),
        calls: Vec::new(alloc),
    };
    let Made { bytes, outline: _ } = Planned { insns, outline }.into_filter(alloc)?;
    Ok(bytes)
}

// The filter of these instructions, if they are fewer than so many, and no more than the kernel takes.
fn if_fewer(
    alloc: Global,
    insns: Vec<Insn>,
    known: Known,
    than: usize,
) -> Result<Option<Shorter>, AllocError> {
    if insns.len() >= than {
        return Ok(None);
    }
    match bytes_of(alloc, insns) {
        Ok(bytes) => Ok(Some(Shorter { bytes, known })),
        Err(CompileError::TooLong) => Ok(None),
        Err(CompileError::OutOfMemory) => Err(AllocError),
    }
}

// The instructions that a path reaches.
fn thinned(alloc: Global, insns: Vec<Insn>) -> Result<Vec<Insn>, AllocError> {
    match only_reached(alloc, &insns)? {
        Some(fewer) => Ok(fewer),
        None => Ok(insns),
    }
}

// The compiler's own without the instructions that no path reaches.
fn without_others(alloc: Global, own: &Planned) -> Result<Option<Shorter>, AllocError> {
    match only_reached(alloc, &own.insns)? {
        Some(fewer) => if_fewer(alloc, fewer, Known::AsOwn, own.insns.len()),
        None => Ok(None),
    }
}

/// A filter that is shorter than the compiler's own of the profile, if one is found. In it the machines of Linux that the
/// profile lists share what they can. Blocks that ask for bits of one word are put together, and each instruction is reached.
pub fn shorten(
    alloc: Global,
    profile: &Profile,
    own: &Planned,
) -> Result<Option<Shorter>, AllocError> {
    if profile.native().family() != Family::Whole {
        return Ok(None);
    }
    if profile.machines().len() < 2 && !can_merge(&own.outline.blocks) {
        return without_others(alloc, own);
    }
    let Some(Shared { planned, is_merged }) = plan_shared(alloc, profile)? else {
        return without_others(alloc, own);
    };
    let Planned { insns, outline } = planned;
    let known = if is_merged {
        Known::Merged(outline)
    } else {
        Known::Outline(outline)
    };
    match if_fewer(alloc, thinned(alloc, insns)?, known, own.insns.len())? {
        Some(found) => Ok(Some(found)),
        None => without_others(alloc, own),
    }
}
