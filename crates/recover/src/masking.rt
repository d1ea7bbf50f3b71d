//! Conditions on some bits of an argument.
use crate::covering::Field;
use crate::pieces::Piece;
use crate::work::{Stopped, Work};
use profile::{Cond, Op};

// The condition that the bits of a number are these under a mask, if it may be chosen.
fn masked_fit(
    work: &mut Work,
    field: &Field,
    mask: u64,
    number: u64,
) -> Result<Option<Cond>, Stopped> {
    let made = if mask == u64::MAX {
        Cond::new(field.index, Op::Eq, number, 0)
    } else {
        Cond::new(field.index, Op::MaskedEq, mask, number & mask)
    };
    let Some(cond) = made else {
        return Ok(None);
    };
    if field.is_fit(work, &cond)? {
        return Ok(Some(cond));
    }
    Ok(None)
}

// The mask without these bits, if the condition may then be chosen.
fn drop_bits(
    work: &mut Work,
    field: &Field,
    mask: u64,
    bits: u64,
    number: u64,
) -> Result<u64, Stopped> {
    let fewer = mask & !bits;
    if fewer != mask && masked_fit(work, field, fewer, number)?.is_some() {
        return Ok(fewer);
    }
    Ok(mask)
}

/// The condition that as few bits of a number as can be are as they are. Bits are let go one by one, the lowest first or the highest.
pub(crate) fn widened(
    work: &mut Work,
    field: &Field,
    number: u64,
    is_low_first: bool,
) -> Result<Option<Cond>, Stopped> {
    let mut mask = drop_bits(work, field, field.mask, u64::MAX << 32, number)?;
    mask = drop_bits(work, field, mask, u64::MAX >> 32, number)?;
    for step in 0..64u32 {
        let place = if is_low_first {
            step
        } else {
            63u32.saturating_sub(step)
        };
        let bit = 1u64.wrapping_shl(place);
        mask = drop_bits(work, field, mask, bit, number)?;
    }
    masked_fit(work, field, mask, number)
}

/// The condition that the highest bits of a number are as they are, as few as can be, and of the lowest ones those that have to be. Numbers
/// with unlike highest bits meet no two such conditions, so that whoever asks them has few cases to look at.
pub(crate) fn by_highest(
    work: &mut Work,
    field: &Field,
    number: u64,
) -> Result<Option<Cond>, Stopped> {
    let mut mask = drop_bits(work, field, field.mask, u64::MAX << 32, number)?;
    let mut has_begun = false;
    for place in 0..64u32 {
        let bit = 1u64.wrapping_shl(place);
        let fewer = drop_bits(work, field, mask, bit, number)?;
        if has_begun && mask & bit != 0 && fewer == mask {
            break;
        }
        has_begun |= fewer != mask;
        mask = fewer;
    }
    masked_fit(work, field, mask, number)
}

// Whether a number may not be met if one of its bits is turned.
fn is_barred_beside(
    work: &mut Work,
    field: &Field,
    number: u64,
    bit: u64,
) -> Result<bool, Stopped> {
    Ok(masked_fit(work, field, field.mask, number ^ bit)?.is_none())
}

// The bits without which the numbers of a piece are not told, whatever the others are.
fn needed_bits(work: &mut Work, field: &Field, piece: &Piece) -> Result<u64, Stopped> {
    let mut bits = 0u64;
    for place in 0..64u32 {
        let bit = 1u64.wrapping_shl(place);
        if field.mask & bit != 0
            && is_barred_beside(work, field, piece.least, bit)?
            && is_barred_beside(work, field, piece.greatest, bit)?
        {
            bits |= bit;
        }
    }
    Ok(bits)
}

// The mask of all bits from one up, as few as can be, and of these lower ones.
fn from_one_up(work: &mut Work, field: &Field, lower: u64, number: u64) -> Result<u64, Stopped> {
    let mut mask = field.mask;
    for place in 0..64u32 {
        let bit = 1u64.wrapping_shl(place);
        if field.mask & !lower & bit != 0 {
            let fewer = drop_bits(work, field, mask, bit, number)?;
            if fewer == mask {
                return Ok(mask);
            }
            mask = fewer;
        }
    }
    Ok(mask)
}

/// The condition that all bits from one up are as they are, as few as can be, and of the lower ones those that have to be.
pub(crate) fn from_highest(
    work: &mut Work,
    field: &Field,
    piece: &Piece,
) -> Result<Option<Cond>, Stopped> {
    let number = piece.least;
    let lower = needed_bits(work, field, piece)?;
    let mut mask = from_one_up(work, field, lower, number)?;
    for place in 0..64u32 {
        let bit = 1u64.wrapping_shl(place);
        mask = drop_bits(work, field, mask, lower & bit, number)?;
    }
    masked_fit(work, field, mask, number)
}
