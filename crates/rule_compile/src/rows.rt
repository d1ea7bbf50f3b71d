//! Long lists of numbers, told in rows.
//!
//! In a list single numbers and a few other ranges are decided unlike the rest. In a row of comparisons each asks for one of the numbers,
//! and only its last one goes on at what decides the rest. So a list takes a comparison for each number, and a cut for each row. Rows
//! are long: fewer cuts count for more here than short paths, since a list is asked for one call alone.
ghost use Rattle.std.specs.Prelude.{◌≡◌, length};

use crate::ranges::Range;
use crate::written::{Written, height_of};

// A list has at least so many numbers.
const LIST: usize = 16;

// There is a row for each so many numbers, and some more: of a short list the rows are shorter.
const ROW: usize = 25;

const MORE: usize = 2;

/// What a range is in a list.
#[derive(Clone, Copy)]
enum Kind {
    /// It is decided like the rest.
    Rest,
    /// A number that is not.
    Number,
    /// Several such.
    Several,
}

fn kind_of(range: &Range, rest: &Range) -> Kind {
    if range.is_like(rest) {
        Kind::Rest
    } else if range.is_single() {
        Kind::Number
    } else {
        Kind::Several
    }
}

// The last range of several numbers, which is decided like the rest.
fn rest_of(ranges: &[Range]) -> Option<Range> {
    for range in ranges.iter().rev() {
        if !range.is_single() {
            return Some(*range);
        }
    }
    None
}

// How many numbers of a list a row has at most; nothing, if there are few.
fn longest_row(ranges: &[Range], rest: &Range) -> Option<usize> {
    let mut count = 0usize;
    for range in ranges {
        if let Kind::Number = kind_of(range, rest) {
            count = count.saturating_add(1);
        }
    }
    if count < LIST {
        return None;
    }
    Some(count.div_ceil((count / ROW).saturating_add(MORE)))
}

/// The rows so far.
#[derive(Drop)]
struct Rows {
    /// How many there are before the last one.
    before: usize,
    /// How many numbers the last one has.
    count: usize,
    /// What its last range is.
    last: Kind,
}

impl Rows {
    // Whether a range begins the next row, where a row has so many numbers at most.
    fn is_next(&self, kind: Kind, most: usize) -> bool {
        match (kind, self.last) {
            (Kind::Several, _) | (_, Kind::Several) => true,
            (Kind::Number, _) => self.count >= most,
            (Kind::Rest, _) => false,
        }
    }

    // Adds a range, and answers the level of the cut in front of it: 0, if there is none.
    fn add(&mut self, kind: Kind, most: usize) -> usize {
        let mut level = 0;
        if self.is_next(kind, most) {
            let row = self.before.saturating_add(1);
            level = row ^ self.before;
            self.before = row;
            self.count = 0;
        }
        if let Kind::Number = kind {
            self.count = self.count.saturating_add(1);
        }
        self.last = kind;
        level
    }

    // How often the rows are halved.
    fn height(&self) -> usize {
        usize::BITS.saturating_sub(self.before.leading_zeros()) as usize
    }
}

// The longest way from any of the ranges to a return.
fn longest(ranges: &[Range], written: &[Written]) -> usize {
    let mut most = 0usize;
    for range in ranges {
        most = most.max(height_of(written, range.leaf));
    }
    most
}

/// If the ranges are a list, and may be told in rows, writes the levels of the cuts in front of its rows. Then it returns how many
/// instructions there are at most from the first comparison to a return.
pub(crate) fn plan_rows(
    ranges: &[Range],
    written: &[Written],
    in_rows: bool,
    levels: &mut [usize],
) -> Option<usize>
    ensures { length levels.new ≡ length levels.old }
{
    if !in_rows {
        return None;
    }
    let rest = rest_of(ranges)?;
    let most = longest_row(ranges, &rest)?;
    let mut rows = Rows {
        before: 0,
        count: 0,
        last: Kind::Rest,
    };
    for (place, range) in ranges.iter().enumerate() {
        let own = rows.add(kind_of(range, &rest), most);
        if let Some(level) = levels.get_mut(place) {
            *level = own;
        }
    }
    let height = rows.height().saturating_add(most);
    Some(height.saturating_add(longest(ranges, written)))
}
