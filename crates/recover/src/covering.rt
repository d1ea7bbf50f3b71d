//! Conditions that hold of some numbers of an argument and not of others, as few as are easily found.
use crate::classes::Argument;
use crate::masking::{by_highest, from_highest, widened};
use crate::pieces::Piece;
use crate::work::{Stopped, Work};
use profile::{Cond, Op};
use std::alloc::{AllocError, Global};

/// Which masks are chosen: at first those that are likely to be shown right, and then the others. Masks may have few bits, or all bits from
/// one up. Of the second kind few hold of a number, so that there are few ways to answer them.
#[derive(Clone, Copy, PartialEq, Eq)]
pub(crate) enum Taste {
    First,
    Second,
}

/// What of an argument's classes has to be met, and what may be.
#[derive(Drop)]
pub(crate) struct Aim {
    pub(crate) needed: Vec<bool>,
    pub(crate) allowed: Vec<bool>,
}

impl Aim {
    fn needs(&self, class: usize) -> bool {
        self.needed.get(class).copied().unwrap_or(false)
    }

    fn allows(&self, class: usize) -> bool {
        self.allowed.get(class).copied().unwrap_or(false)
    }

    /// Whether each class may be met.
    pub(crate) fn allows_all(&self) -> bool {
        self.allowed.iter().all(|is_allowed| *is_allowed)
    }
}

/// An argument, its bits that are looked at, those that are compared under masks, and the numbers that may not be met. The least and the
/// greatest of these tell whether a comparison by order holds of one.
#[derive(Drop)]
pub(crate) struct Field {
    pub(crate) index: u8,
    pub(crate) mask: u64,
    bits: u64,
    barred: Vec<Piece>,
    least: u64,
    greatest: u64,
}

// How many steps it takes to ask a condition of a piece.
const STEPS: usize = 16;

impl Field {
    /// Whether a condition holds of no number of which it may not hold.
    pub(crate) fn is_fit(&self, work: &mut Work, cond: &Cond) -> Result<bool, Stopped> {
        match cond.op {
            Op::Lt | Op::Le => Ok(!cond.holds(self.least)),
            Op::Ge | Op::Gt => Ok(!cond.holds(self.greatest)),
            Op::Ne => Ok(self.least == cond.value && self.greatest == cond.value),
            Op::Eq | Op::MaskedEq => self.is_fit_for_each(work, cond),
        }
    }

    // Whether it holds of no number of any piece that may not be met.
    fn is_fit_for_each(&self, work: &mut Work, cond: &Cond) -> Result<bool, Stopped> {
        for piece in &self.barred {
            work.spend(STEPS)?;
            if piece.may_meet(cond) {
                return Ok(false);
            }
        }
        Ok(true)
    }

    // Adds a piece that may not be met.
    fn bar(&mut self, piece: Piece) -> Result<(), AllocError> {
        self.least = if piece.least < self.least {
            piece.least
        } else {
            self.least
        };
        self.greatest = if piece.greatest > self.greatest {
            piece.greatest
        } else {
            self.greatest
        };
        self.barred.push(piece)?;
        Ok(())
    }

    // Whether it is compared under masks, and as a number, too.
    fn is_mixed(&self) -> bool {
        self.bits != 0 && self.bits != self.mask
    }

    // Whether masks of all bits from one up are tried beside conditions, of which so many are under masks. Where numbers are compared, too,
    // they are likely. Where no mask is compared they are tried second.
    fn is_from_highest(&self, taste: Taste, masks: usize) -> bool {
        if self.bits == 0 {
            return taste == Taste::Second && masks > 0;
        }
        self.is_mixed() == (taste == Taste::First)
    }
}

// The field of an argument beside what is aimed at.
fn field_of(alloc: Global, argument: &Argument, aim: &Aim) -> Result<Field, AllocError> {
    let mut field = Field {
        index: argument.index,
        mask: argument.mask,
        bits: argument.bits,
        barred: Vec::new(alloc),
        least: u64::MAX,
        greatest: 0,
    };
    for piece in &argument.pieces {
        if !aim.allows(piece.class) {
            field.bar(*piece)?;
        }
    }
    Ok(field)
}

// The pieces that are needed.
fn needed(alloc: Global, argument: &Argument, aim: &Aim) -> Result<Vec<Piece>, AllocError> {
    let mut left = Vec::new(alloc);
    for piece in &argument.parts {
        if aim.needs(piece.class) {
            left.push(*piece)?;
        }
    }
    Ok(left)
}

// Adds a condition, if it holds of no number of which it may not hold.
fn push_fit(
    work: &mut Work,
    found: &mut Vec<Cond>,
    field: &Field,
    op: Op,
    number: u64,
) -> Result<(), Stopped> {
    if let Some(cond) = Cond::new(field.index, op, number, 0)
        && field.is_fit(work, &cond)?
    {
        found.push(cond)?;
    }
    Ok(())
}

// How the numbers from one on are told: by it, or by the one before it if that is rounder.
fn from_least(number: u64) -> (Op, u64) {
    match number.checked_sub(1) {
        Some(before) if before.trailing_zeros() > number.trailing_zeros() => (Op::Gt, before),
        _ => (Op::Ge, number),
    }
}

// How the numbers up to one are told: by it, or by the one behind it if that is rounder.
fn to_greatest(number: u64) -> (Op, u64) {
    match number.checked_add(1) {
        Some(behind) if behind.trailing_zeros() > number.trailing_zeros() => (Op::Lt, behind),
        _ => (Op::Le, number),
    }
}

// The conditions that compare with one number, of which some may be chosen.
fn plain_fits(
    alloc: Global,
    work: &mut Work,
    argument: &Argument,
    field: &Field,
) -> Result<Vec<Cond>, Stopped> {
    let mut found = Vec::new(alloc);
    for piece in &argument.pieces {
        if let Some(number) = piece.only() {
            push_fit(work, &mut found, field, Op::Eq, number)?;
            push_fit(work, &mut found, field, Op::Ne, number)?;
        }
        let (op, number) = from_least(piece.least);
        push_fit(work, &mut found, field, op, number)?;
        let (op, number) = to_greatest(piece.greatest);
        push_fit(work, &mut found, field, op, number)?;
    }
    Ok(found)
}

// How many of these pieces a condition always holds of.
fn count_of(left: &[Piece], cond: &Cond) -> usize {
    let mut count = 0usize;
    for piece in left {
        if piece.always_meets(cond) {
            count = count.saturating_add(1);
        }
    }
    count
}

// What was chosen so far, and of how many pieces it holds.
#[derive(Clone, Copy)]
struct Best {
    cond: Option<Cond>,
    count: usize,
}

impl Best {
    const NONE: Best = Best {
        cond: None,
        count: 0,
    };

    // Chooses a condition that holds of a piece, if it holds of more than the one before.
    fn try_with(
        &mut self,
        work: &mut Work,
        cond: Option<Cond>,
        piece: &Piece,
        left: &[Piece],
    ) -> Result<(), Stopped> {
        work.spend(STEPS)?;
        if let Some(cond) = cond
            && piece.always_meets(&cond)
        {
            work.spend_each(left.len(), STEPS)?;
            let count = count_of(left, &cond);
            if count > self.count {
                self.cond = Some(cond);
                self.count = count;
            }
        }
        Ok(())
    }
}

// The condition that holds of a piece and of most others, the first of equals. One whose mask has all bits from one up is the first.
fn best_from_one_up(
    work: &mut Work,
    field: &Field,
    fits: &[Cond],
    left: &[Piece],
    piece: &Piece,
) -> Result<Option<Cond>, Stopped> {
    let mut best = Best::NONE;
    let cond = from_highest(work, field, piece)?;
    best.try_with(work, cond, piece, left)?;
    for cond in fits {
        best.try_with(work, Some(*cond), piece, left)?;
    }
    Ok(best.cond)
}

// The condition that holds of a piece and of most others, the first of equals. Bits are asked for where no comparison with one number does.
fn best_of(
    work: &mut Work,
    field: &Field,
    fits: &[Cond],
    left: &[Piece],
    piece: &Piece,
) -> Result<Option<Cond>, Stopped> {
    let mut best = Best::NONE;
    for cond in fits {
        best.try_with(work, Some(*cond), piece, left)?;
    }
    if best.cond.is_some() {
        return Ok(best.cond);
    }
    let number = piece.least;
    let cond = by_highest(work, field, number)?;
    best.try_with(work, cond, piece, left)?;
    let cond = widened(work, field, number, true)?;
    best.try_with(work, cond, piece, left)?;
    let cond = widened(work, field, number, false)?;
    best.try_with(work, cond, piece, left)?;
    Ok(best.cond)
}

// The pieces of which a condition does not always hold.
fn without(
    alloc: Global,
    work: &mut Work,
    left: &[Piece],
    cond: &Cond,
) -> Result<Vec<Piece>, Stopped> {
    work.spend_each(left.len(), STEPS)?;
    let mut rest = Vec::new(alloc);
    for piece in left {
        if !piece.always_meets(cond) {
            rest.push(*piece)?;
        }
    }
    Ok(rest)
}

// How many conditions are chosen at most for one argument.
const MOST: usize = 1024;

// Conditions of which one holds of each of these pieces, whose masks have all bits from one up or few bits.
fn chosen(
    alloc: Global,
    work: &mut Work,
    (field, from_one_up): (&Field, bool),
    fits: &[Cond],
    needed: &[Piece],
) -> Result<Option<Vec<Cond>>, Stopped> {
    let mut left = Vec::from_slice(alloc, needed)?;
    let mut chosen = Vec::new(alloc);
    for _ in 0..MOST {
        if let Some(piece) = left.first().copied() {
            let best = if from_one_up {
                best_from_one_up(work, field, fits, &left, &piece)?
            } else {
                best_of(work, field, fits, &left, &piece)?
            };
            let Some(cond) = best else {
                return Ok(None);
            };
            left = without(alloc, work, &left, &cond)?;
            chosen.push(cond)?;
        }
    }
    if left.is_empty() {
        return Ok(Some(chosen));
    }
    Ok(None)
}

// How many conditions are few: whoever asks them has at most 256 cases to look at, whatever they are.
const FEW: usize = 8;

// The shorter one of two lists. Of equals it is the second one if they are few, and else the first.
fn shorter(first: Option<Vec<Cond>>, other: Option<Vec<Cond>>) -> Option<Vec<Cond>> {
    match (first, other) {
        (Some(first), Some(other)) => {
            if other.len() < first.len() || other.len() == first.len() && other.len() <= FEW {
                Some(other)
            } else {
                Some(first)
            }
        }
        (Some(first), None) => Some(first),
        (None, other) => other,
    }
}

// How many of conditions are under a mask.
fn masks_of(found: &Option<Vec<Cond>>) -> usize {
    let mut count = 0usize;
    if let Some(list) = found {
        for cond in list {
            if cond.op == Op::MaskedEq {
                count = count.saturating_add(1);
            }
        }
    }
    count
}

/// Conditions of which one holds of each number that is needed, and none of a number that is not allowed. None if there are none among
/// those that are tried.
pub(crate) fn covering(
    alloc: Global,
    work: &mut Work,
    argument: &Argument,
    aim: &Aim,
    taste: Taste,
) -> Result<Option<Vec<Cond>>, Stopped> {
    let field = field_of(alloc, argument, aim)?;
    let fits = plain_fits(alloc, work, argument, &field)?;
    let needed = needed(alloc, argument, aim)?;
    let few = chosen(alloc, work, (&field, false), &fits, &needed)?;
    let masks = masks_of(&few);
    work.has_choice |= field.bits != 0 || masks > 0;
    if !field.is_from_highest(taste, masks) {
        return Ok(few);
    }
    let highest = chosen(alloc, work, (&field, true), &fits, &needed)?;
    if field.bits == 0 && highest.is_some() {
        return Ok(highest);
    }
    Ok(shorter(highest, few))
}
