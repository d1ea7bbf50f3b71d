//! Where what is known is cut at one bit of a mask.
//!
//! A word may be known not to be one number under a mask, and not another one under the next. Together these facts may leave no number,
//! though none of them contradicts another. So a cut is made at a bit that such a mask has and of which nothing is known. Each of the facts
//! becomes a question of fewer bits.

ghost use Rattle.std.specs.Prelude.{◌≡◌, None};
ghost use Rattle.certify.specs.inner.Plain.{IsWhole};

use crate::chain::Chain;
use crate::cuts::Cut;
use bpf_insn::{Insn, Operation, Test};
use cert_state::{AVal, Lit, State, is_bit};

// The bits of a word that are told, and what they are.
#[derive(Clone, Copy)]
struct Told {
    mask: u32,
    datum: u32,
}

// What is told of the bits of a word.
fn told_bits(known: &Chain<'_>, word: u8) -> Told {
    let mut told = Told { mask: 0, datum: 0 };
    let mut at = known.start();
    while let Some((literal, next)) = known.next(at) {
        match literal {
            Lit::Bits(of, mask, datum) if of == word => {
                told.mask |= mask;
                told.datum |= datum;
            }
            _ => {}
        }
        at = next;
    }
    told
}

// The bits that decide whether a word is a number under a mask. There are none if it is known that it is not, or if no bit is left.
fn free_bits(told: Told, mask: u32, datum: u32) -> u32 {
    if told.mask & mask & (told.datum ^ datum) != 0 {
        return 0;
    }
    mask & !told.mask
}

// The lowest bit of a number.
fn lowest(bits: u32) -> u32 {
    bits & bits.wrapping_neg()
}

/// Where a word is cut at one bit. The bit is of a mask under which the word is known not to be a number. It is the mask of which the
/// fewest bits are left.
pub(crate) fn cut_of_mask(known: &Chain<'_>) -> Option<Cut> {
    let mut best: Option<(u8, u32)> = None;
    let mut at = known.start();
    while let Some((literal, next)) = known.next(at) {
        if let Lit::NotBits(word, mask, datum) = literal {
            let told = told_bits(known, word);
            let free = if mask == u32::MAX && told.mask == 0 {
                0
            } else {
                free_bits(told, mask, datum)
            };
            let fewest = best.map_or(u32::MAX, |(_, bits)| bits.count_ones());
            if free != 0 && free.count_ones() < fewest {
                best = Some((word, free));
            }
        }
        at = next;
    }
    let (word, bits) = best?;
    Cut::bit(word, lowest(bits))
}

// Whether an instruction compares by order.
fn is_by_order(insn: &Insn) -> bool {
    matches!(
        insn.operation(),
        Some(Operation::Branch(Test::AtLeast | Test::Greater, _))
    )
}

// The word and the one bit of it that A lacks, if it holds the others. If A lacks the lowest bit, a comparison by order tells all that
// it asks.
fn bit_lacked(a: AVal) -> Option<(u8, u32)>
    ensures { IsWhole a → result ≡ None }
{
    let AVal::Masked(word, mask) = a else {
        return None;
    };
    if mask >= u32::MAX - 1 {
        return None;
    }
    let bit = mask ^ u32::MAX;
    if is_bit(bit) {
        return Some((word, bit));
    }
    None
}

/// Where a word is cut before A is compared by order. It is cut at the one bit of it that A lacks, if nothing is known of that. Behind the
/// cut the comparison tells all that it asks.
pub(crate) fn cut_before(known: &Chain<'_>, a: AVal, insn: &Insn) -> Option<Cut>
    ensures { IsWhole a → result ≡ None }
{
    let (word, bit) = bit_lacked(a)?;
    if !is_by_order(insn) {
        return None;
    }
    if told_bits(known, word).mask & bit != 0 {
        return None;
    }
    Cut::bit(word, bit)
}
