//! Blocks that are written put together, where they ask for bits of one word.
ghost use Rattle.std.specs.Prelude.{IsTrue, OnOk};
ghost use Rattle.rule_compile.specs.inner.Left.{IsOffset};
ghost use Rattle.rule_compile.specs.inner.Runs.{AreIn};
ghost use Rattle.rule_compile.specs.inner.Stands.{AreBlocks};

use crate::assembler::Assembler;
use crate::blocks::Blocks;
use crate::label::Target;
use crate::merged::{Merged, mark, mark_next, merge};
use crate::question::Subject;
use crate::ranges::Range;
use crate::search::{any_bit, masked, write_blocks};
use crate::shared::{Numbers, are_before, keep, write_search};
use crate::written::Written;
use call_record::Word;
use std::alloc::{AllocError, Global};

// Whether a word stands at an offset of a record.
fn is_offset(word: u32) -> bool
    ensures { IsTrue result → IsOffset word }
{
    word % 4 == 0 && word < 64
}

// Writes a search of a whole word.
fn write_word(
    code: &mut Assembler,
    alloc: Global,
    written: &mut Vec<Written>,
    word: u32,
    ranges: &[Range],
) -> Result<bool, AllocError>
    requires placed { AreIn code.old written.old.items }
    requires offset { IsOffset word }
    ensures placed { OnOk result (AreIn code.new written.new.items) }
{
    match write_search(code, alloc, written, ranges, true)? {
        Some(
            Written {
                target: Target::Place(place),
                height,
            },
        ) => {
            code.begin_at(place)?;
            let target = Target::Place(code.load(word)?);
            keep(code, written, target, height.saturating_add(1))?;
            Ok(true)
        }
        Some(Written { target, height }) => {
            keep(code, written, target, height)?;
            Ok(true)
        }
        None => Ok(false),
    }
}

// Writes a block. Answers whether it could be written.
fn write_merged(
    code: &mut Assembler,
    alloc: Global,
    written: &mut Vec<Written>,
    block: &Merged,
) -> Result<bool, AllocError>
    requires placed { AreIn code.old written.old.items }
    ensures placed { OnOk result (AreIn code.new written.new.items) }
{
    let Subject { word, mask } = block.subject;
    if !is_offset(word) || block.ranges.is_empty() || !are_before(&block.ranges, written.len()) {
        return Ok(false);
    }
    if mask == u32::MAX {
        return write_word(code, alloc, written, word, &block.ranges);
    }
    let Written { target, height } = match block.ranges.as_slice() {
        [unset, set] if unset.last == 0 && set.first > 0 => {
            any_bit(code, written, block.subject, unset, set)?
        }
        ranges => masked(code, written, block.subject, ranges)?,
    };
    keep(code, written, target, height)?;
    Ok(true)
}

// Writes the blocks that are needed. In the place of another one stands a return that nothing goes on at.
fn write_needed(
    code: &mut Assembler,
    alloc: Global,
    written: &mut Vec<Written>,
    blocks: &[Merged],
    needed: &[bool],
) -> Result<bool, AllocError>
    requires placed { AreIn code.old written.old.items }
    ensures placed { OnOk result (AreIn code.new written.new.items) }
{
    for (block, is_needed) in blocks.iter().zip(needed) {
        if !*is_needed {
            keep(code, written, Target::Return(Word::KILL_THREAD), 0)?;
        } else if !write_merged(code, alloc, written, block)? {
            return Ok(false);
        }
    }
    Ok(true)
}

/// Writes the blocks, put together where that is possible. Answers whether it is; or nothing, if one could not be
/// written.
pub(crate) fn write_together(
    code: &mut Assembler,
    alloc: Global,
    written: &mut Vec<Written>,
    blocks: &Blocks,
    all: &[Numbers],
) -> Result<Option<bool>, AllocError>
    requires blocks { AreBlocks blocks.now.blocks.items }
    requires placed { AreIn code.old written.old.items }
    ensures placed { OnOk result (AreIn code.new written.new.items) }
{
    let Some(merged) = merge(alloc, &blocks.blocks)? else {
        write_blocks(code, alloc, blocks, written)?;
        return Ok(Some(false));
    };
    let mut needed = vec![in alloc; false; merged.len()]?;
    for numbers in all {
        mark(&mut needed, &numbers.ranges);
    }
    mark_next(&mut needed, &merged);
    if write_needed(code, alloc, written, &merged, &needed)? {
        Ok(Some(true))
    } else {
        Ok(None)
    }
}
