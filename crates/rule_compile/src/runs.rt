//! Neighbouring ranges that two lists have in common.

use crate::ranges::{Leaf, Range, place_of};
use std::alloc::{AllocError, Global};

/// Neighbouring ranges that two lists have in common: the place of the first one in either, and how many.
#[derive(Clone, Copy)]
pub(crate) struct Run {
    pub(crate) one: usize,
    pub(crate) other: usize,
    pub(crate) count: usize,
}

// Whether two ranges are the same.
fn are_same(one: &Range, other: &Range) -> bool {
    one.first == other.first && one.last == other.last && one.is_like(other)
}

/// The longest run of ranges that two lists have in common, both of all numbers.
pub(crate) fn longest_run(ones: &[Range], others: &[Range]) -> Run {
    let mut longest = Run {
        one: 0,
        other: 0,
        count: 0,
    };
    let mut run = longest;
    for (one, range) in ones.iter().enumerate() {
        let other = place_of(others, range.first);
        let is_common = match others.get(other) {
            Some(found) => are_same(range, found),
            None => false,
        };
        if !is_common {
            run.count = 0;
        } else if run.count > 0 {
            run.count = run.count.saturating_add(1);
        } else {
            run = Run {
                one,
                other,
                count: 1,
            };
        }
        if run.count > longest.count {
            longest = run;
        }
    }
    longest
}

/// Ranges with one range in the place of those from one place to another.
pub(crate) fn replaced(
    alloc: Global,
    ranges: &[Range],
    place: usize,
    end: usize,
    leaf: &Leaf,
) -> Result<Vec<Range>, AllocError> {
    let first = match ranges.get(place) {
        Some(range) => range.first,
        None => 0,
    };
    let mut all = Vec::new(alloc);
    for (at, range) in ranges.iter().enumerate() {
        if at < place || at >= end {
            all.push(*range)?;
        } else if at + 1 == end {
            all.push(Range {
                first,
                last: range.last,
                leaf: *leaf,
            })?;
        }
    }
    Ok(all)
}
