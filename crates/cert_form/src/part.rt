//! The parts of a certificate where they lie.
ghost use Rattle.std.specs.Prelude.{◌≡◌, ◌≤◌, ◌<◌, ◌+◌, ◌*◌, ◌^◌, ℕ, length};
ghost use Rattle.cert_form.specs.Reading.{long_at, short_at, literal_at, claim_at, value_at, tail_length, kind_at, ones, scratch_from, chain_place};
ghost use Rattle.cert_form.specs.Reading.{scratch_at};

use crate::node::{Claim, Kind};
use byteorder::{ByteOrder, LittleEndian};
use cert_state::{AVal, Lit};

pub(crate) fn read_long(bytes: &[u8], at: usize) -> u32
    requires { at + 4 ≤ length bytes.now }
    ensures { result ≡ long_at bytes.now at }
{
    LittleEndian::read_u32(&bytes[at..])
}

pub(crate) fn read_short(bytes: &[u8], at: usize) -> u16
    requires { at + 2 ≤ length bytes.now }
    ensures { result ≡ short_at bytes.now at }
{
    LittleEndian::read_u16(&bytes[at..])
}

#[tactic(auto, unfolding(crate::specs::Reading::literal_at))]
pub(crate) fn read_literal(bytes: &[u8], at: usize) -> Lit
    requires { at + 10 ≤ length bytes.now }
    ensures { result ≡ literal_at bytes.now at }
{
    let word = bytes[at + 1];
    let first = read_long(bytes, at + 2);
    let second = read_long(bytes, at + 6);
    match bytes[at] {
        1 => Lit::In(word, first, second),
        2 => Lit::Bits(word, first, second),
        _ => Lit::NotBits(word, first, second),
    }
}

// What an entry states, which begins with the tag.
#[tactic(auto, unfolding(crate::specs::Reading::claim_at))]
pub(crate) fn read_claim(bytes: &[u8], at: usize) -> Claim
    requires head { 8 ≤ length bytes.now }
    requires there { at + 10 ≤ length bytes.now }
    ensures { result ≡ claim_at bytes.now at }
{
    if read_long(bytes, 4) == 4 {
        if bytes[at] == 4 {
            return Claim::Out(read_long(bytes, at + 2));
        }
        if bytes[at] == 5 {
            return Claim::Met(read_long(bytes, at + 2), read_long(bytes, at + 6));
        }
    }
    Claim::Knows(read_literal(bytes, at))
}

#[tactic(auto, unfolding(crate::specs::Reading::value_at))]
pub(crate) fn read_value(bytes: &[u8], at: usize) -> AVal
    requires { at + 6 ≤ length bytes.now }
    ensures { result ≡ value_at bytes.now at }
{
    let word = bytes[at + 1];
    let number = read_long(bytes, at + 2);
    match bytes[at] {
        0 => AVal::Unknown,
        1 => AVal::Const(number),
        _ => AVal::Masked(word, number),
    }
}

#[tactic(auto, unfolding(crate::specs::Reading::kind_at))]
pub(crate) fn read_kind(bytes: &[u8], tag: u8, at: usize) -> Kind
    requires { at + tail_length tag ≤ length bytes.now }
    ensures { result ≡ kind_at bytes.now tag at }
{
    match tag {
        0 => Kind::Step(read_long(bytes, at), read_long(bytes, at + 4)),
        1 => Kind::Split(
            read_literal(bytes, at),
            read_literal(bytes, at + 10),
            read_long(bytes, at + 20),
            read_long(bytes, at + 24),
        ),
        2 => Kind::Return,
        _ => Kind::Dead,
    }
}

// The scratch words of form 3 or 4, of which a value may be stated.
pub(crate) fn read_scratch(bytes: &[u8], bits: u16, from: usize) -> [AVal; 16]
    requires { from + 6 * ones bits 16 ≤ length bytes.now }
    ensures { result ≡ scratch_from bytes.now from bits 16 }
{
    if bits == 0 {
        return [AVal::Unknown; 16];
    }
    let mut scratch = [AVal::Unknown; 16];
    let mut left = bits;
    let mut at = from;
    for slot in 0..16 {
        if left % 2 == 1 {
            scratch[slot] = read_value(bytes, at);
            at += 6;
        } else {
            scratch[slot] = AVal::Unknown;
        }
        left /= 2;
    }
    scratch
}

// Where the values end that are stated from a place on.
pub(crate) fn end_of_scratch(bits: u16, from: usize) -> usize
    requires { from + 6 * ones bits 16 < 2 ^ 64 }
    ensures { result ≡ from + 6 * ones bits 16 }
{
    if bits == 0 {
        return from;
    }
    let mut left = bits;
    let mut at = from;
    for _ in 0..16_usize {
        if left % 2 == 1 {
            at += 6;
        }
        left /= 2;
    }
    at
}

// Where the chain of a node of form 2, 3 or 4 stands.
#[tactic(auto, unfolding(crate::specs::Reading::chain_place))]
pub(crate) fn chain_place_of(bytes: &[u8], at: usize) -> usize
    requires { chain_place bytes.now at ≤ length bytes.now }
    ensures { result ≡ chain_place bytes.now at }
{
    if read_long(bytes, 4) == 2 {
        return at + 16;
    }
    end_of_scratch(read_short(bytes, at + 16), at + 18)
}

// The values of scratch words that a node of form 2, 3 or 4 states.
#[tactic(auto, unfolding(crate::specs::Reading::chain_place, crate::specs::Reading::scratch_at))]
pub(crate) fn scratch_of(bytes: &[u8], at: usize) -> [AVal; 16]
    requires { chain_place bytes.now at + 4 ≤ length bytes.now }
    ensures { result ≡ scratch_at bytes.now at }
{
    if read_long(bytes, 4) == 2 {
        return [AVal::Unknown; 16];
    }
    read_scratch(bytes, read_short(bytes, at + 16), at + 18)
}
