//! Numbers as bits of several constants.
ghost use Rattle.std.specs.Prelude.{◌≡◌, ◌++◌, IfOk, string_bytes};
ghost use Rattle.std.specs.Option.{option_map};
ghost use Rattle.call_tables.specs.Table.{entries};
ghost use Rattle.call_words.specs.Named as spec;

use std::alloc::{AllocError, Global};

// Whether a number is one bit, which another has.
fn is_bit_of(n: u64, bit: u64) -> bool
    ensures { result ≡ spec.is_bit_of n bit }
{
    bit.is_power_of_two() && n & bit == bit
}

// All bits of the constants of one bit that a number has.
fn all_bits(constants: &[(&str, u64)], n: u64) -> u64
    ensures { result ≡ spec.all_bits (spec.bits_in n (entries constants.now)) }
{
    match constants {
        [first, others @ ..] => {
            let bits = all_bits(others, n);
            if is_bit_of(n, first.1) {
                first.1 | bits
            } else {
                bits
            }
        }
        [] => 0,
    }
}

// Adds the names of the constants of one bit that a number has, the first behind some text and the others behind a bar.
fn put_names(
    text: &mut String,
    before: &str,
    constants: &[(&str, u64)],
    n: u64,
) -> Result<(), AllocError>
    ensures { IfOk result (λ _. string_bytes text.new
        ≡ string_bytes text.old ++ spec.joined before.now (spec.bits_in n (entries constants.now))) }
{
    match constants {
        [first, others @ ..] => {
            if is_bit_of(n, first.1) {
                text.push_str(before)?;
                text.push_str(first.0)?;
                return put_names(text, "|", others, n);
            }
            put_names(text, before, others, n)
        }
        [] => Ok(()),
    }
}

/// The names of all bits of a number, or none if a bit has no name.
pub(crate) fn names_of_bits(
    alloc: Global,
    constants: &[(&str, u64)],
    n: u64,
) -> Result<Option<String>, AllocError>
    ensures { IfOk result (λ names. option_map string_bytes names ≡ spec.names_of_bits n (spec.bits_in n (entries constants.now))) }
{
    if n == 0 {
        return Ok(None);
    }
    if all_bits(constants, n) != n {
        return Ok(None);
    }
    let mut text = String::new(alloc);
    put_names(&mut text, "", constants, n)?;
    Ok(Some(text))
}
