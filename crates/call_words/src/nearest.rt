//! The names that are nearest to a word.
ghost use Rattle.std.specs.Prelude.{◌≡◌, ◌+◌, ◌++◌, ℕ, List, IfOk, Option as TheOption, Some, string_bytes};
ghost use Rattle.call_tables.specs.Tables.{table_of};
ghost use Rattle.call_tables.specs.Table.{name_in};
ghost use Rattle.call_words.specs.Near as spec;
ghost use Rattle.call_words.specs.Wrong.{native_numbers};

use call_tables::call_name;
use machines::Arch;
use std::alloc::{AllocError, Global};
use std::fmt::Write;
use strsim::levenshtein;

// So many edits are too far.
const FAR: usize = 3;

// A longer word is like no name.
const MAX_WORD: usize = 64;

// The numbers of native calls are below this one.
const NATIVE_NUMBERS: u32 = 512;

// How many edits lead from one text to another.
#[tactic(auto, unfolding(crate::specs::Near::edits_between))]
fn edits_between(alloc: Global, word: &str, name: &str) -> Result<usize, AllocError>
    ensures { IfOk result (λ edits. edits ≡ spec.edits_between word.now name.now) }
{
    levenshtein(alloc, word, name)
}

// The least of the edits to the names before and to one more.
fn lesser(least: usize, edits: usize) -> usize
    ensures { (at : ℕ → TheOption (List ℕ)) (places : ℕ) (word name : List ℕ) → at places ≡ Some name
        → spec.edits_between word name ≡ edits
        → spec.IsLeast at places word least
        → spec.IsLeast at (places + 1) word result }
{
    if edits < least { edits } else { least }
}

// The least of the edits to the names before and to one more, which are counted.
fn with_name(alloc: Global, word: &str, least: usize, name: &str) -> Result<usize, AllocError>
    ensures { IfOk result (λ new. (at : ℕ → TheOption (List ℕ)) (places : ℕ) → at places ≡ Some name.now
        → spec.IsLeast at places word.now least
        → spec.IsLeast at (places + 1) word.now new) }
{
    let edits = edits_between(alloc, word, name)?;
    Ok(lesser(least, edits))
}

// The least of the edits to the names of native calls with numbers before this one, and with this number, if there is a call.
fn with_call(
    alloc: Global,
    native: Arch,
    word: &str,
    least: usize,
    number: u32,
) -> Result<usize, AllocError>
    ensures { IfOk result (λ new. spec.IsLeast (name_in (table_of native)) number word.now least
        → spec.IsLeast (name_in (table_of native)) (number + 1) word.now new) }
{
    match call_name(native, number) {
        Some(name) => with_name(alloc, word, least, name),
        None => Ok(least),
    }
}

// The least of the edits to the names of all native calls, however long the word is.
fn least_of_all(alloc: Global, native: Arch, word: &str) -> Result<usize, AllocError>
    ensures { IfOk result (λ edits. spec.IsLeast (name_in (table_of native)) native_numbers word.now edits) }
{
    let mut least = FAR;
    for number in 0..NATIVE_NUMBERS {
        least = with_call(alloc, native, word, least, number)?;
    }
    Ok(least)
}

/// By how many edits the native calls' names that are nearest to a word are away, up to what is far.
pub(crate) fn least_edits(alloc: Global, native: Arch, word: &str) -> Result<usize, AllocError>
    ensures { IfOk result (λ edits. spec.Least (name_in (table_of native)) native_numbers word.now edits) }
{
    if word.len() > MAX_WORD {
        return Ok(FAR);
    }
    least_of_all(alloc, native, word)
}

// Adds a name, if it is so many edits away from a word.
fn put_if_near(
    text: &mut String,
    alloc: Global,
    word: &str,
    edits: usize,
    name: &str,
) -> Result<(), AllocError>
    ensures { IfOk result (λ _. string_bytes text.new ≡ string_bytes text.old ++ spec.near_name word.now edits (Some name.now)) }
{
    if edits_between(alloc, word, name)? == edits {
        return write!(text, " {name}");
    }
    Ok(())
}

// Adds the name of the native call with a number, if there is one and it is so many edits away from a word.
fn put_call_if_near(
    text: &mut String,
    alloc: Global,
    native: Arch,
    word: &str,
    edits: usize,
    number: u32,
) -> Result<(), AllocError>
    ensures { IfOk result (λ _. string_bytes text.new ≡ string_bytes text.old
        ++ spec.near_name word.now edits (name_in (table_of native) number)) }
{
    match call_name(native, number) {
        Some(name) => put_if_near(text, alloc, word, edits, name),
        None => Ok(()),
    }
}

// Adds the names of native calls that are so many edits away from a word.
fn put_near_names(
    text: &mut String,
    alloc: Global,
    native: Arch,
    word: &str,
    edits: usize,
) -> Result<(), AllocError>
    ensures { IfOk result (λ _. string_bytes text.new ≡ string_bytes text.old
        ++ spec.near_names (name_in (table_of native)) native_numbers word.now edits) }
{
    for number in 0..NATIVE_NUMBERS {
        put_call_if_near(text, alloc, native, word, edits, number)?;
    }
    Ok(())
}

/// Adds the names of native calls that are so many edits away from a word, if that is near.
pub(crate) fn put_hint(
    text: &mut String,
    alloc: Global,
    native: Arch,
    word: &str,
    edits: usize,
) -> Result<(), AllocError>
    ensures { IfOk result (λ _. string_bytes text.new ≡ string_bytes text.old
        ++ spec.hint (name_in (table_of native)) native_numbers word.now edits) }
{
    if edits >= FAR {
        return Ok(());
    }
    text.push_str("; nearest:")?;
    put_near_names(text, alloc, native, word, edits)
}
