//! The name of a number, by the constants of a kind.
ghost use Rattle.std.specs.Prelude.{◌≡◌, IfOk, Option, option_copied, string_bytes};
ghost use Rattle.std.specs.Option.{option_map};
ghost use Rattle.call_tables.specs.Table.{entries, name_in};
ghost use Rattle.call_words.specs.Named as spec;

use crate::constant_names::bits::names_of_bits;
use crate::constant_names::kinds::{Kind, are_bits, constants};
use std::alloc::{AllocError, Global};

// The name beside the first such number.
fn name_in(table: &[(&'static str, u64)], n: u64) -> Option<&'static str>
    ensures { option_copied result ≡ name_in (entries table.now) n }
{
    for entry in table {
        if entry.1 == n {
            return Some(entry.0);
        }
    }
    None
}

// The names of all bits of a number, if the kind is one of bits.
fn bits_of(
    alloc: Global,
    kind: Kind,
    table: &[(&str, u64)],
    n: u64,
) -> Result<Option<String>, AllocError>
    ensures { IfOk result (λ names. option_map string_bytes names ≡ spec.names_of_kind kind (entries table.now) n) }
{
    if are_bits(kind) {
        return names_of_bits(alloc, table, n);
    }
    Ok(None)
}

/// The first constant of a kind with this number, or else the names of all its bits.
pub(crate) fn name_of(alloc: Global, kind: Kind, n: u64) -> Result<Option<String>, AllocError>
    ensures { IfOk result (λ name. option_map string_bytes name ≡ spec.name_of kind n) }
{
    let table = constants(kind);
    match name_in(table, n) {
        Some(name) => {
            let mut text = String::new(alloc);
            text.push_str(name)?;
            Ok(Some(text))
        }
        None => bits_of(alloc, kind, table, n),
    }
}
