//! Numbers, and words that name a call.
ghost use Rattle.std.specs.Prelude.{◌≡◌};
ghost use Rattle.machines.specs.Arch.{machine_called};
ghost use Rattle.texts.specs.Splits.{split_at};
ghost use Rattle.call_words.specs.Calls as spec;
ghost use Rattle.call_words.specs.Numbers.{number_of};

use call_tables::call_number;
use machines::{Arch, Family};
use texts::{decimal, hexadecimal, split};

/// The number that a word is: decimal, or hexadecimal behind `0x`.
#[tactic(auto, unfolding(crate::specs::Numbers::number_of))]
pub(crate) fn number(word: &str) -> Option<u64>
    ensures { result ≡ number_of word.now }
{
    match word.strip_prefix("0x") {
        Some(digits) => hexadecimal(digits),
        None => decimal(word),
    }
}

// Whether a word is a number of 32 bits.
fn is_short(word: &str) -> bool
    ensures { result ≡ spec.is_short (number_of word.now) }
{
    match number(word) {
        Some(number) => number <= u64::from(u32::MAX),
        None => false,
    }
}

// Whether a word names a machine of a family.
fn is_of(family: Family, word: &str) -> bool
    ensures { result ≡ spec.is_of family (machine_called word.now) }
{
    match Arch::called(word) {
        Some(arch) => arch.family() == family,
        None => false,
    }
}

// Whether a word is a machine of a family and a number, with a colon between them.
fn is_numbered(family: Family, word: &str) -> bool
    ensures { result ≡ spec.are_call family (split_at spec.colon word.now) }
{
    match split(word, ':') {
        Some((machine, digits)) => is_of(family, machine) && is_short(digits),
        None => false,
    }
}

/// Whether a word names a call: a native one by its name, or one of a machine of the same family by its number.
#[tactic(auto, unfolding(crate::specs::Calls::is_call))]
pub(crate) fn is_call(native: Arch, word: &str) -> bool
    ensures { result ≡ spec.is_call native word.now }
{
    call_number(native, word).is_some() || is_numbered(native.family(), word)
}
