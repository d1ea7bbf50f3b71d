//! The parts of a certificate, each written at the end of bytes.
ghost use Rattle.std.specs.Prelude.{◌≡◌, ◌++◌, ◌∷◌, ◌↔◌, [], IsTrue, OnOk};
ghost use Rattle.std.specs.List.{flat_map};
ghost use Rattle.byteorder.specs.Endian.{little_bytes};
ghost use Rattle.cert_form.specs.Spelling.{kind_number, claim, literal, value, tail, scratch, bit_of, stated_bits, if_stated, nothing_stated};

use crate::node::{Claim, Kind};
use cert_state::{AVal, Lit};
use std::alloc::AllocError;

pub(crate) fn put_long(out: &mut Vec<u8>, n: u32) -> Result<(), AllocError>
    ensures { OnOk result (out.new.items ≡ out.old.items ++ little_bytes 4 n) }
{
    out.extend_from_slice(&n.to_le_bytes())
}

pub(crate) fn put_short(out: &mut Vec<u8>, n: u16) -> Result<(), AllocError>
    ensures { OnOk result (out.new.items ≡ out.old.items ++ little_bytes 2 n) }
{
    out.extend_from_slice(&n.to_le_bytes())
}

// A tag, a word and a number, of a value or of the beginning of a literal.
fn put_fields(out: &mut Vec<u8>, tag: u8, word: u8, n: u32) -> Result<(), AllocError>
    ensures { OnOk result (out.new.items ≡ out.old.items ++ (tag ∷ word ∷ little_bytes 4 n)) }
{
    out.extend_from_slice(&[tag, word])?;
    put_long(out, n)
}

pub(crate) fn put_value(out: &mut Vec<u8>, v: AVal) -> Result<(), AllocError>
    ensures { OnOk result (out.new.items ≡ out.old.items ++ value v) }
{
    match v {
        AVal::Unknown => put_fields(out, 0, 0, 0),
        AVal::Const(number) => put_fields(out, 1, 0, number),
        AVal::Masked(word, mask) => put_fields(out, 2, word, mask),
    }
}

pub(crate) fn put_literal(out: &mut Vec<u8>, l: Lit) -> Result<(), AllocError>
    ensures { OnOk result (out.new.items ≡ out.old.items ++ literal l) }
{
    let (tag, word, first, second) = match l {
        Lit::In(word, low, high) => (1, word, low, high),
        Lit::Bits(word, mask, datum) => (2, word, mask, datum),
        Lit::NotBits(word, mask, datum) => (3, word, mask, datum),
    };
    put_fields(out, tag, word, first)?;
    put_long(out, second)
}

pub(crate) fn put_claim(out: &mut Vec<u8>, stated: Claim) -> Result<(), AllocError>
    ensures { OnOk result (out.new.items ≡ out.old.items ++ claim stated) }
{
    match stated {
        Claim::Knows(l) => put_literal(out, l),
        Claim::Out(rule) => {
            put_fields(out, 4, 0, rule)?;
            put_long(out, 0)
        }
        Claim::Met(rule, condition) => {
            put_fields(out, 5, 0, rule)?;
            put_long(out, condition)
        }
    }
}

/// What a kind is told by.
pub(crate) fn tag_of(kind: &Kind) -> u8
    ensures { result ≡ kind_number kind.now }
{
    match kind {
        Kind::Step(..) => 0,
        Kind::Split(..) => 1,
        Kind::Return => 2,
        Kind::Dead => 3,
    }
}

pub(crate) fn put_tail(out: &mut Vec<u8>, kind: &Kind) -> Result<(), AllocError>
    ensures { OnOk result (out.new.items ≡ out.old.items ++ tail kind.now) }
{
    match *kind {
        Kind::Step(first, second) => {
            put_long(out, first)?;
            put_long(out, second)
        }
        Kind::Split(a, b, first, second) => {
            put_literal(out, a)?;
            put_literal(out, b)?;
            put_long(out, first)?;
            put_long(out, second)
        }
        Kind::Return | Kind::Dead => Ok(()),
    }
}

fn bit(v: AVal) -> u16
    ensures { result ≡ bit_of v }
{
    match v {
        AVal::Unknown => 0,
        _ => 1,
    }
}

// Which scratch words have a stated value, from the lowest bit on.
pub(crate) fn bits_of(scratch: &[AVal; 16]) -> u16
    ensures { result ≡ stated_bits scratch.now }
{
    let mut bits = 0;
    for i in 0..16_usize {
        bits = 2 * bits + bit(scratch[15 - i]);
    }
    bits
}

// Whether no scratch word has a stated value.
pub(crate) fn states_nothing(scratch: &[AVal; 16]) -> bool
    ensures { IsTrue result ↔ scratch.now ≡ nothing_stated }
{
    bits_of(scratch) == 0
}

fn put_stated(out: &mut Vec<u8>, v: AVal) -> Result<(), AllocError>
    ensures { OnOk result (out.new.items ≡ out.old.items ++ if_stated v) }
{
    match v {
        AVal::Unknown => Ok(()),
        _ => put_value(out, v),
    }
}

fn put_all_stated(out: &mut Vec<u8>, scratch: &[AVal]) -> Result<(), AllocError>
    ensures { OnOk result (out.new.items ≡ out.old.items ++ flat_map if_stated scratch.now) }
{
    for v in scratch {
        put_stated(out, *v)?;
    }
    Ok(())
}

pub(crate) fn put_scratch(out: &mut Vec<u8>, words: &[AVal; 16]) -> Result<(), AllocError>
    ensures { OnOk result (out.new.items ≡ out.old.items ++ scratch words.now) }
{
    put_short(out, bits_of(words))?;
    put_all_stated(out, words)
}

pub(crate) fn put_literals(out: &mut Vec<u8>, lits: &[Lit]) -> Result<(), AllocError>
    ensures { OnOk result (out.new.items ≡ out.old.items ++ flat_map literal lits.now) }
{
    for l in lits {
        put_literal(out, *l)?;
    }
    Ok(())
}
