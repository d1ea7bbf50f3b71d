//! Whether the same is left of two sides.
ghost use Rattle.std.specs.Prelude.{◌≡◌, ℕ, true};
ghost use Rattle.differ.specs.Left.{are_met, side_says, verdict};

use crate::asked::Ask;
use crate::left::{Part, Rest, Side};
use profile::Op;

fn is_same_op(one: Op, other: Op) -> bool
    ensures { result ≡ true → one ≡ other }
{
    one == other
}

fn is_same_ask(one: &Ask, other: &Ask) -> bool
    ensures { result ≡ true → one.now ≡ other.now }
{
    if !is_same_op(one.op, other.op) {
        return false;
    }
    if one.value != other.value {
        return false;
    }
    if one.datum != other.datum {
        return false;
    }
    one.read == other.read
}

fn is_same_part(one: &Part, other: &Part) -> bool
    ensures { result ≡ true → one.now ≡ other.now }
{
    if one.index != other.index {
        return false;
    }
    is_same_ask(&one.ask, &other.ask)
}

// Whether two lists of parts are one.
fn are_same_parts(these: &[Part], those: &[Part]) -> bool
    ensures { result ≡ true → these.now ≡ those.now }
{
    if these.len() != those.len() {
        return false;
    }
    for i in 0..these.len() {
        if !is_same_part(&these[i], &those[i]) {
            return false;
        }
    }
    true
}

// Whether two rules that are left have one verdict and the same parts.
fn is_same_rest(one: &Rest, other: &Rest) -> bool
    ensures word { result ≡ true → one.now.word ≡ other.now.word }
    ensures parts { result ≡ true → one.now.parts.items ≡ other.now.parts.items }
{
    if one.word != other.word {
        return false;
    }
    are_same_parts(&one.parts, &other.parts)
}

fn are_same_rules(these: &[Rest], those: &[Rest]) -> bool
    ensures { result ≡ true → (last : ℕ) (a : ℕ → ℕ) → verdict last these.now a ≡ verdict last those.now a }
{
    if these.len() != those.len() {
        return false;
    }
    for i in 0..these.len() {
        if !is_same_rest(&these[i], &those[i]) {
            return false;
        }
    }
    true
}

/// Whether the same is left of both, so that they say the same.
pub(crate) fn are_same(one: &Side, other: &Side) -> bool
    ensures { result ≡ true → (a : ℕ → ℕ) → side_says one.now a ≡ side_says other.now a }
{
    if one.last != other.last {
        return false;
    }
    are_same_rules(&one.rules, &other.rules)
}
