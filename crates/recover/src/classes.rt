//! The numbers of an argument, by what the filter makes of them.
use crate::cells::Cell;
use crate::leaves::{Leaf, push_leaf, say_the_same, wide};
use crate::marks::{Mark, bits_of, blocks_of, cells_of, masked_bits_of, push_mark};
use crate::pieces::Piece;
use crate::work::{Stopped, Work};
use std::alloc::Global;

/// An argument: its numbers, and the parts of them for which conditions are chosen. Also its bits at which the filter looks, and those that
/// it compares under a mask.
#[derive(Drop)]
pub(crate) struct Argument {
    pub(crate) index: u8,
    pub(crate) pieces: Vec<Piece>,
    pub(crate) parts: Vec<Piece>,
    pub(crate) mask: u64,
    pub(crate) bits: u64,
}

/// An argument, and for each class of its numbers the leaves that have some of them.
#[derive(Drop)]
pub(crate) struct Classes {
    pub(crate) argument: Argument,
    pub(crate) leaves: Vec<Vec<Leaf>>,
}

/// The words of an argument, the low half first.
pub(crate) fn words_of(index: u8) -> (u8, u8) {
    let low = index.saturating_mul(2).saturating_add(4);
    (low, low.saturating_add(1))
}

// What leaves tell apart of both halves of an argument.
fn marks_of(
    alloc: Global,
    work: &mut Work,
    leaves: &[Leaf],
    index: u8,
) -> Result<Vec<Mark>, Stopped> {
    let (low, high) = words_of(index);
    let mut marks = Vec::new(alloc);
    for leaf in leaves {
        for word in [low, high] {
            let cell = leaf.cell(word);
            push_mark(work, &mut marks, Mark { word, cell })?;
        }
    }
    Ok(marks)
}

// How many steps it takes to compare two leaves, or two pieces.
const STEPS: usize = 4;

// The leaves that have the numbers of a piece, of which nothing more is asked.
fn leaves_at(
    alloc: Global,
    work: &mut Work,
    leaves: &[Leaf],
    index: u8,
    piece: &Piece,
) -> Result<Vec<Leaf>, Stopped> {
    work.spend_each(leaves.len(), STEPS)?;
    let (low, high) = words_of(index);
    let mut found = Vec::new(alloc);
    for leaf in leaves {
        if leaf.has(index, piece.least) {
            push_leaf(
                work,
                &mut found,
                leaf.with(low, Cell::ALL).with(high, Cell::ALL),
            )?;
        }
    }
    Ok(found)
}

// Adds a piece to the class at a place.
fn push_in(classes: &mut Classes, piece: Piece, class: usize) -> Result<(), Stopped> {
    classes.argument.pieces.push(piece.in_class(class))?;
    Ok(())
}

// Adds a piece to the class of those that are answered alike, or to a new one. A piece of no leaf is left out.
fn push_piece(
    alloc: Global,
    work: &mut Work,
    classes: &mut Classes,
    leaves: &[Leaf],
    piece: Piece,
) -> Result<(), Stopped> {
    let here = leaves_at(alloc, work, leaves, classes.argument.index, &piece)?;
    if here.is_empty() {
        return Ok(());
    }
    let count = classes.leaves.len();
    for class in 0..count {
        if let Some(others) = classes.leaves.get(class)
            && say_the_same(work, &here, others)?
        {
            return push_in(classes, piece, class);
        }
    }
    classes.leaves.push(here)?;
    push_in(classes, piece, count)
}

fn begun(alloc: Global, index: u8, marks: &[Mark]) -> Classes {
    let (low, high) = words_of(index);
    Classes {
        argument: Argument {
            index,
            pieces: Vec::new(alloc),
            parts: Vec::new(alloc),
            mask: wide(bits_of(marks, low), bits_of(marks, high)),
            bits: wide(masked_bits_of(marks, low), masked_bits_of(marks, high)),
        },
        leaves: Vec::new(alloc),
    }
}

/// How an argument's numbers are cut.
#[derive(Clone, Copy, PartialEq, Eq)]
pub(crate) enum Grain {
    /// As the ways of calls have them, if no two ways share some numbers and not others; or else as cells.
    Ways,
    /// So that each way has all numbers of a cell or none.
    Cells,
    /// As `Cells`, and conditions are chosen for parts. The numbers of each have the same bits under some mask, and are
    /// all that have.
    Blocks,
}

// Adds a piece, unless it is there; false if it shares numbers with another one.
fn push_apart(work: &mut Work, found: &mut Vec<Piece>, piece: Piece) -> Result<bool, Stopped> {
    work.spend_each(found.len(), STEPS)?;
    for other in found.iter() {
        if other.is_same(&piece) {
            return Ok(true);
        }
        if other.meets_piece(&piece) {
            return Ok(false);
        }
    }
    found.push(piece)?;
    Ok(true)
}

// The numbers of an argument as the leaves have them, if no two leaves share some and not others.
fn pieces_apart(
    alloc: Global,
    work: &mut Work,
    leaves: &[Leaf],
    index: u8,
) -> Result<Option<Vec<Piece>>, Stopped> {
    let mut found = Vec::new(alloc);
    for leaf in leaves {
        if !push_apart(work, &mut found, Piece::of_leaf(leaf, index))? {
            return Ok(None);
        }
    }
    Ok(Some(found))
}

// How many pieces an argument is cut in at most.
const MOST_PIECES: usize = 1 << 16;

// The numbers of an argument, by the cells of both halves. None if there are too many.
fn pieces_cut(
    alloc: Global,
    work: &mut Work,
    marks: &[Mark],
    index: u8,
) -> Result<Option<Vec<Piece>>, Stopped> {
    let (low, high) = words_of(index);
    let Some(below) = cells_of(alloc, work, marks, low)? else {
        return Ok(None);
    };
    let Some(above) = cells_of(alloc, work, marks, high)? else {
        return Ok(None);
    };
    if above.len().saturating_mul(below.len()) > MOST_PIECES {
        return Ok(None);
    }
    let mut found = Vec::new(alloc);
    for high in &above {
        for low in &below {
            found.push(Piece::new(*low, *high, 0))?;
        }
    }
    Ok(Some(found))
}

// The numbers of an argument, cut as it is wanted. None if they are too many.
fn pieces_of(
    alloc: Global,
    work: &mut Work,
    leaves: &[Leaf],
    marks: &[Mark],
    index: u8,
    grain: Grain,
) -> Result<Option<Vec<Piece>>, Stopped> {
    if grain == Grain::Ways
        && let Some(pieces) = pieces_apart(alloc, work, leaves, index)?
    {
        return Ok(Some(pieces));
    }
    pieces_cut(alloc, work, marks, index)
}

// The parts of a piece whose numbers have the same bits under some mask.
fn push_blocks(
    alloc: Global,
    work: &mut Work,
    parts: &mut Vec<Piece>,
    piece: &Piece,
) -> Result<(), Stopped> {
    let below = blocks_of(alloc, work, piece.low)?;
    for high in &blocks_of(alloc, work, piece.high)? {
        for low in &below {
            work.spend(STEPS)?;
            parts.push(Piece::new(*low, *high, piece.class))?;
        }
    }
    Ok(())
}

// The parts of pieces for which conditions are chosen.
fn parts_of(
    alloc: Global,
    work: &mut Work,
    pieces: &[Piece],
    grain: Grain,
) -> Result<Vec<Piece>, Stopped> {
    if grain != Grain::Blocks {
        return Ok(Vec::from_slice(alloc, pieces)?);
    }
    let mut parts = Vec::new(alloc);
    for piece in pieces {
        push_blocks(alloc, work, &mut parts, piece)?;
    }
    Ok(parts)
}

/// The classes of an argument's numbers: all of a class are answered alike, whatever the arguments behind it. None if there are too many.
pub(crate) fn classes_of(
    alloc: Global,
    work: &mut Work,
    leaves: &[Leaf],
    index: u8,
    grain: Grain,
) -> Result<Option<Classes>, Stopped> {
    let marks = marks_of(alloc, work, leaves, index)?;
    let mut classes = begun(alloc, index, &marks);
    let Some(pieces) = pieces_of(alloc, work, leaves, &marks, index, grain)? else {
        return Ok(None);
    };
    for piece in &pieces {
        push_piece(alloc, work, &mut classes, leaves, *piece)?;
    }
    classes.argument.parts = parts_of(alloc, work, &classes.argument.pieces, grain)?;
    Ok(Some(classes))
}
