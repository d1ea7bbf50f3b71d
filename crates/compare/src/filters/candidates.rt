//! Records of one call that the comparisons of two filters tell apart.

use crate::filters::word_tests::{WordTest, add_word_tests};
use call_record::Record;
use kernel_check::Accepted;
use std::alloc::{AllocError, Global};

// The number with other bits in its low or its high half.
fn with_half(wide: u64, is_high: bool, half: u32) -> u64 {
    if is_high {
        (u64::from(half) << 32) | (wide & 0xffff_ffff)
    } else {
        (wide >> 32 << 32) | u64::from(half)
    }
}

// The record with another word of an argument. Other words stay.
fn with_word(call: &Record, word: usize, value: u32) -> Record {
    let mut args = call.args;
    if word >= 4 && word < 16 {
        let index = word / 2 - 2;
        args[index] = with_half(args[index], word % 2 == 1, value);
    }
    Record {
        nr: call.nr,
        arch: call.arch,
        ip: call.ip,
        args,
    }
}

// Adds a record, if it is a new one and there is room.
fn add(call: Record, most: usize, todo: &mut Vec<Record>) -> Result<(), AllocError> {
    if todo.len() >= most {
        return Ok(());
    }
    if todo.contains(&call) {
        return Ok(());
    }
    todo.push(call)?;
    Ok(())
}

// Adds the record with these bits in the word that is asked for.
fn add_with(
    call: &Record,
    word_test: &WordTest,
    bits: u32,
    most: usize,
    todo: &mut Vec<Record>,
) -> Result<(), AllocError> {
    if word_test.word >= 16 {
        return Ok(());
    }
    let kept = call.word(word_test.word) & !word_test.mask;
    let other = with_word(call, word_test.word, kept | (bits & word_test.mask));
    add(other, most, todo)
}

// Adds the records that lie on both sides of a comparison.
fn add_beside(
    call: &Record,
    word_test: &WordTest,
    most: usize,
    todo: &mut Vec<Record>,
) -> Result<(), AllocError> {
    let number = word_test.number;
    add_with(call, word_test, number, most, todo)?;
    add_with(call, word_test, number.wrapping_add(1), most, todo)?;
    add_with(call, word_test, number.wrapping_sub(1), most, todo)?;
    add_with(call, word_test, 0, most, todo)
}

/// Adds the records of a call that a filter tells apart from one of them, until there are so many.
pub(crate) fn add_candidates(
    alloc: Global,
    filter: &Accepted<'_>,
    call: &Record,
    most: usize,
    todo: &mut Vec<Record>,
) -> Result<(), AllocError> {
    let mut word_tests = Vec::new(alloc);
    add_word_tests(filter, call, &mut word_tests)?;
    for it in &word_tests {
        add_beside(call, it, most, todo)?;
    }
    Ok(())
}
