//! What a condition asks of a number, and what is left of that where a bit is known.
ghost use Rattle.std.specs.Prelude.{◌≡◌, ◌<◌, ◌≤◌, ◌+◌, ◌*◌, ◌-◌, ◌%◌, ◌^◌, ◌↔◌, ℕ, Bool, IsTrue, if◌then◌else◌};
ghost use Rattle.profile.specs.declared.conditions.Op.TheVariants.{MaskedEq};
ghost use Rattle.profile.specs.Said.{compares};
ghost use Rattle.differ.specs.Asked.{answers, by_order, holds, low_answers};
ghost use Rattle.differ.specs.declared.asked.Answer.TheVariants as answer;

use profile::Op;

/// What is asked of a number, by its lowest bits: so many of them are read.
#[derive(Clone, Copy, Debug)]
pub struct Ask {
    pub op: Op,
    pub value: u64,
    pub datum: u64,
    pub read: u32,
}

/// How a condition answers whatever a number is, or what it asks of it.
#[derive(Clone, Copy, Debug)]
pub(crate) enum Answer {
    /// It is met.
    Met,
    /// It is not met.
    Unmet,
    /// It asks this.
    Asks(Ask),
}

// The lowest bits of a number.
fn low_bits(number: u64, bits: u32) -> u64
    requires { bits < 64 }
    ensures { result ≡ number % 2 ^ bits }
{
    number & ((1u64 << bits) - 1)
}

fn decided(met: bool) -> Answer
    ensures { result ≡ (if met then answer.Met else answer.Unmet) }
{
    if met { Answer::Met } else { Answer::Unmet }
}

// The answer where it is known, and else what is asked.
fn unless(known: bool, met: bool, ask: Ask) -> Answer
    ensures { result ≡ (if known then (if met then answer.Met else answer.Unmet) else answer.Asks ask) }
{
    if known {
        return decided(met);
    }
    Answer::Asks(ask)
}

// What is asked of a number of so many bits.
fn part_of(ask: Ask, bits: u32) -> Answer
    requires { bits < 64 }
    ensures { result ≡ low_answers ask.op ask bits }
{
    let greatest = (1u64 << bits) - 1;
    match ask.op {
        Op::Ne => unless(bits == 0, ask.value != 0, ask),
        Op::Lt => unless(ask.value == 0, false, ask),
        Op::Le => unless(ask.value == greatest, true, ask),
        Op::Eq => unless(bits == 0, ask.value == 0, ask),
        Op::Ge => unless(ask.value == 0, true, ask),
        Op::Gt => unless(ask.value == greatest, false, ask),
        Op::MaskedEq => unless(ask.value == 0, ask.datum == 0, ask),
    }
}

// How a condition answers by an order that is known.
fn by_order(op: Op, below: bool) -> Answer
    ensures { result ≡ by_order op below }
{
    match op {
        Op::Ne => Answer::Met,
        Op::Lt => decided(below),
        Op::Le => decided(below),
        Op::Eq => Answer::Unmet,
        Op::Ge => decided(!below),
        Op::Gt => decided(!below),
        Op::MaskedEq => Answer::Unmet,
    }
}

fn is_masked(op: Op) -> bool
    ensures { IsTrue result ↔ (op ≡ MaskedEq) }
{
    op == Op::MaskedEq
}

/// What is left of what is asked where the bit at a place is known, and all higher ones are 0.
pub(crate) fn answer_with(ask: Ask, place: u32, bit: u64) -> Answer
    requires few { place < 64 }
    requires is_bit { bit < 2 }
    ensures { (u : ℕ) → u < 2 ^ place → answers result u ≡ holds ask (bit * 2 ^ place + u) }
{
    if ask.read <= place {
        return Answer::Asks(ask);
    }
    let low = Ask {
        op: ask.op,
        value: low_bits(ask.value, place),
        datum: low_bits(ask.datum, place),
        read: place,
    };
    let high = ask.value >> place;
    if is_masked(ask.op) {
        if bit & high != ask.datum >> place {
            return Answer::Unmet;
        }
        return part_of(low, place);
    }
    if bit == high {
        return part_of(low, place);
    }
    by_order(ask.op, bit < high)
}
