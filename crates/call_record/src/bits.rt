//! Numbers that have given bits under a mask.
//!
//! Conditions on an argument and the facts of a certificate both name bits under a mask. This is the
//! lowest crate below both.
ghost use Rattle.std.specs.Prelude.{◌≡◌, ◌<◌, ◌≤◌, ◌^◌, ℕ, IfSome, IfNone, bit_and};
ghost use Rattle.call_record.specs.Bits.{IsLeastFrom};

/// The least number `u` of this many bits from `from` on with `u & mask == datum`. There is none where the datum has
/// bits outside the mask, or where no such number is as great as `from`.
pub fn least_below(bits: u32, from: u64, mask: u64, datum: u64) -> Option<u64>
    requires { bits ≤ 64 }
    ensures found { IfSome result (IsLeastFrom from mask datum) }
    ensures below { IfSome result (λ u. u < 2 ^ bits) }
    ensures none { IfNone result ((v : ℕ) → v < 2 ^ bits → from ≤ v → bit_and v mask ≡ datum → ⊥) }
{
    if bits < 64 && from >> bits != 0 {
        return None;
    }
    if from & mask == datum {
        return Some(from);
    }
    if bits == 0 {
        return None;
    }
    if mask % 2 < datum % 2 {
        return None;
    }
    // The lowest bit of the answer is the datum's. The start of the higher bits is rounded up if that bit is below
    // the start's.
    let next = from / 2 + (from % 2 + 1 - datum % 2) / 2;
    let high = least_below(bits - 1, next, mask / 2, datum / 2)?;
    Some(high * 2 + datum % 2)
}
