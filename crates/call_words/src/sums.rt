//! Names of constants among the words of a command line.
ghost use Rattle.std.specs.Prelude.{◌≡◌, ◌<◌, ◌∷◌, [], IfSome, MatchOption, length};
ghost use Rattle.call_tables.specs.Table.{entries, number_in};
ghost use Rattle.call_words.specs.Constants as spec;

use crate::tables::{
    advice, cloning, families, ioctl, mappings, opening, personalities, prctl, protections,
    socket_types, tracing,
};
use texts::split;

// The number beside the first such name.
fn number_in_table(table: &[(&str, u64)], name: &str) -> Option<u64>
    ensures { result ≡ number_in (entries table.now) name.now }
{
    for entry in table {
        if entry.0 == name {
            return Some(entry.1);
        }
    }
    None
}

// The number of a constant of the kernel's headers.
#[tactic(auto, unfolding(crate::specs::Constants::constant_of))]
fn constant(name: &str) -> Option<u64>
    ensures { result ≡ spec.constant_of name.now }
{
    number_in_table(families(), name)
        .or(number_in_table(socket_types(), name))
        .or(number_in_table(cloning(), name))
        .or(number_in_table(personalities(), name))
        .or(number_in_table(prctl(), name))
        .or(number_in_table(ioctl(), name))
        .or(number_in_table(protections(), name))
        .or(number_in_table(mappings(), name))
        .or(number_in_table(advice(), name))
        .or(number_in_table(opening(), name))
        .or(number_in_table(tracing(), name))
}

// A word at its first bar, if it has one.
fn split_name(word: &str) -> Option<(&str, &str)>
    ensures names { MatchOption result (spec.names_in word.now ≡ word.now ∷ [])
        (λ parts. spec.names_in word.now ≡ parts.0.now ∷ spec.names_in parts.1.now) }
    ensures shorter { IfSome result (λ parts. length parts.1.now < length word.now) }
{
    split(word, '|')
}

// The bits of a constant beside others.
fn with_constant(bits: u64, name: &str) -> Option<u64>
    ensures { result ≡ spec.bits_with bits (name.now ∷ []) }
{
    let number = constant(name)?;
    Some(bits | number)
}

// The bits of the constants whose names stand in a word, with bars between them.
fn bits_of(word: &str) -> Option<u64>
    ensures { result ≡ spec.bits_with 0 (spec.names_in word.now) }
{
    let mut bits = 0;
    let mut rest = word;
    'name: while let Some((name, more)) = split_name(rest) {
        let Some(all) = with_constant(bits, name) else {
            return None;
        };
        bits = all;
        rest = more;
    }
    with_constant(bits, rest)
}

fn begins_with_digit(word: &str) -> bool
    ensures { result ≡ spec.begins_with_digit word.now }
{
    match word.as_bytes() {
        [first, ..] => first.is_ascii_digit(),
        [] => false,
    }
}

/// The number of a word that is the name of a constant of the kernel's headers, or several with bars between them: all their bits.
#[tactic(auto, unfolding(crate::specs::Constants::sum_of))]
pub fn sum(word: &str) -> Option<u64>
    ensures { result ≡ spec.sum_of word.now }
{
    if begins_with_digit(word) {
        return None;
    }
    bits_of(word)
}
