//! Sharp facts: what certificates of form 4 tell on an edge of a conditional jump.
ghost use Rattle.std.specs.Prelude.{◌≡◌};
ghost use Rattle.cert_state.specs.Sharp.{above_fact, any_fact, beside_fact, outside as bits_outside, sharp_masked_fact};
ghost use Rattle.cert_state.specs.Sharp.{is_bit as has_one, is_high as has_high, lowest_bit as lowest_of};
ghost use Rattle.cert_state.specs.Sharp.{sharp_fact as fact_of, sharp_test_fact as fact_of_test};

use crate::after::{FALSE, compared, masked, test_fact};
use crate::literal::{AVal, Lit, Regs};
use crate::state::State;
use crate::summary::summarize;
use bpf_insn::{Insn, Test};

/// The lowest bit of a number; of 0 it is the one above all 32.
pub fn lowest_bit(number: u32) -> u64
    ensures { result ≡ lowest_of number }
{
    1_u64 << number.trailing_zeros()
}

/// Whether a number has one bit.
pub fn is_bit(number: u32) -> bool
    ensures { result ≡ has_one number }
{
    u64::from(number) == lowest_bit(number)
}

// Whether a mask is all bits from its lowest one up.
fn is_high(mask: u32) -> bool
    ensures { result ≡ has_high mask }
{
    u64::from(mask) + lowest_bit(mask) == 1 << 32
}

// What a word has outside a mask, where its literals say it of each bit there.
fn outside<S: State>(state: &S, word: u8, mask: u32) -> Option<u32>
    ensures { result ≡ bits_outside (S.known state.now) word mask }
{
    let rest = mask ^ u32::MAX;
    let summary = summarize(state, word);
    if rest & summary.mask == rest {
        return Some(summary.datum & rest);
    }
    None
}

// What is known where a word has some bit of a mask, or none.
fn any_bit(word: u8, mask: u32, taken: bool) -> Option<Lit>
    ensures { result ≡ any_fact word mask taken }
{
    Some(match taken {
        true if is_bit(mask) => Lit::Bits(word, mask, mask),
        true => Lit::NotBits(word, mask, 0),
        false => Lit::Bits(word, mask, 0),
    })
}

// What is known where a word under a mask is above a number, or is not, by what the word has outside the mask.
fn beside(word: u8, mask: u32, c: u32, outside: Option<u32>, taken: bool) -> Option<Lit>
    ensures { result ≡ beside_fact word mask c outside taken }
{
    if let Some(rest) = outside {
        return masked(Test::Greater, word, u32::MAX, c.saturating_add(rest), taken);
    }
    if u64::from(c) < lowest_bit(mask) {
        return any_bit(word, mask, taken);
    }
    if taken {
        return masked(Test::Greater, word, u32::MAX, c, true);
    }
    None
}

// What is known where a word under a mask is above a number, or is not.
fn above<S: State>(state: &S, word: u8, mask: u32, c: u32, taken: bool) -> Option<Lit>
    ensures { result ≡ above_fact (S.known state.now) word mask c taken }
{
    if is_high(mask) {
        return masked(Test::Greater, word, u32::MAX, c | (u32::MAX - mask), taken);
    }
    if taken && mask <= c {
        return Some(FALSE);
    }
    beside(word, mask, c, outside(state, word, mask), taken)
}

// What is known where a comparison of a word under a mask came out so.
fn sharp<S: State>(state: &S, test: Test, word: u8, mask: u32, c: u32, taken: bool) -> Option<Lit>
    ensures { result ≡ sharp_masked_fact (S.known state.now) test word mask c taken }
{
    match test {
        Test::Greater => above(state, word, mask, c, taken),
        Test::AtLeast if c == 0 => masked(test, word, u32::MAX, 0, taken),
        Test::AtLeast => above(state, word, mask, c - 1, taken),
        Test::AnyBit => any_bit(word, mask & c, taken),
        Test::Equal => masked(test, word, mask, c, taken),
    }
}

// What is known where a comparison of A with its operand came out so.
fn sharp_test_fact<S: State>(
    state: &S,
    test: Test,
    a: AVal,
    operand: AVal,
    taken: bool,
) -> Option<Lit>
    ensures { result ≡ fact_of_test (S.known state.now) test a operand taken }
{
    match (a, operand) {
        (AVal::Masked(word, mask), AVal::Const(c)) => sharp(state, test, word, mask, c, taken),
        _ => test_fact(test, a, operand, taken),
    }
}

/// What certificates of form 4 tell on an edge of a conditional jump, by what is known of the registers. It is the edge
/// that is taken if the test holds, or the other one.
pub fn sharp_fact_by<S: State>(state: &S, regs: &Regs, insn: &Insn, taken: bool) -> Option<Lit>
    ensures { result ≡ fact_of (S.known state.now) regs.now insn.now taken }
{
    let (test, a, operand) = compared(regs, insn)?;
    sharp_test_fact(state, test, a, operand, taken)
}

/// The same by those of the state.
pub fn sharp_fact<S: State>(state: &S, insn: &Insn, taken: bool) -> Option<Lit>
    ensures { result ≡ fact_of (S.known state.now) (S.regs state.now) insn.now taken }
{
    sharp_fact_by(state, &state.regs(), insn, taken)
}
