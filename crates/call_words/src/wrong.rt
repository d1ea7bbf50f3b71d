//! What is wrong with words that ask for no call.
ghost use Rattle.std.specs.Prelude.{◌≡◌, ◌++◌, ℕ, List, IfOk, find, nat_lt, if◌then◌else◌, [], string_bytes};
ghost use Rattle.machines.specs.Arch.{machine_name};
ghost use Rattle.call_words.specs.Constants.{argument_of};
ghost use Rattle.call_words.specs.Wrong as spec;

use crate::nearest::{least_edits, put_hint};
use crate::numbers::{is_call, number};
use crate::sums::sum;
use machines::Arch;
use std::alloc::{AllocError, Global};
use std::fmt::Write;

// Begins a line that says that a word is no call.
fn put_is_no_call(text: &mut String, word: &str) -> Result<(), AllocError>
    ensures { IfOk result (λ _. string_bytes text.new ≡ string_bytes text.old ++ spec.is_no_call word.now) }
{
    write!(text, "\n{word} is no call of ")
}

// Adds the name of a machine.
fn put_machine(text: &mut String, native: Arch) -> Result<(), AllocError>
    ensures { IfOk result (λ _. string_bytes text.new ≡ string_bytes text.old ++ machine_name native) }
{
    text.push_str(native.machine_name())
}

// Adds the line that says that a word is no call, and the native calls' names that are so many edits away.
fn put_line(
    text: &mut String,
    alloc: Global,
    native: Arch,
    word: &str,
    edits: usize,
) -> Result<(), AllocError>
    ensures { IfOk result (λ _. string_bytes text.new ≡ string_bytes text.old ++ spec.no_call native word.now edits) }
{
    put_is_no_call(text, word)?;
    put_machine(text, native)?;
    put_hint(text, alloc, native, word, edits)
}

// Adds the line that says that a word is no call, and the names of native calls that are nearest.
fn put_no_call(text: &mut String, alloc: Global, native: Arch, word: &str) -> Result<(), AllocError>
    ensures { IfOk result (λ _. (line : List ℕ) × spec.TellsNoCall native word.now line × (string_bytes text.new ≡ string_bytes text.old ++ line)) }
{
    let edits = least_edits(alloc, native, word)?;
    put_line(text, alloc, native, word, edits)
}

// The number that an argument is, or that its names are.
fn argument(word: &str) -> Option<u64>
    ensures { result ≡ argument_of word.now }
{
    match number(word) {
        Some(number) => Some(number),
        None => sum(word),
    }
}

fn is_no_number(word: &str) -> bool
    ensures { result ≡ spec.is_no_number word.now }
{
    argument(word).is_none()
}

// The first argument that is no number.
fn no_number_in<'a>(arguments: &[&'a str]) -> Option<&'a str>
    ensures { result ≡ find (λ a. spec.is_no_number a.now) arguments.now }
{
    arguments
        .iter()
        .copied()
        .find(|argument| is_no_number(argument))
}

// Adds what is wrong with arguments, if anything is.
fn put_wrong_arguments(text: &mut String, arguments: &[&str]) -> Result<(), AllocError>
    ensures { IfOk result (λ _. string_bytes text.new ≡ string_bytes text.old
        ++ spec.wrong_arguments (find (λ a. spec.is_no_number a.now) arguments.now) arguments.now) }
{
    match no_number_in(arguments) {
        Some(argument) => write!(text, "\n{argument} is no number"),
        None => put_too_many(text, arguments.len()),
    }
}

// Adds that there are more arguments than a call has, if there are.
fn put_too_many(text: &mut String, count: usize) -> Result<(), AllocError>
    ensures { IfOk result (λ _. string_bytes text.new ≡ string_bytes text.old ++ (if nat_lt 6 count then spec.too_many else [])) }
{
    if count > 6 {
        return text.push_str("\na call has 6 arguments at most");
    }
    Ok(())
}

/// Adds the line that says what is wrong with a word that is to name a call, if it does not.
pub fn put_wrong_call(
    text: &mut String,
    alloc: Global,
    native: Arch,
    word: &str,
) -> Result<(), AllocError>
    ensures { IfOk result (λ _. (line : List ℕ) × spec.TellsWrongCall native word.now [] line × (string_bytes text.new ≡ string_bytes text.old ++ line)) }
{
    put_wrong_of(text, alloc, native, word, &[])
}

// Adds the line that says what is wrong with a word and arguments.
#[tactic(auto, using(crate::proofs::WrongLaws::told_arguments, crate::proofs::WrongLaws::told_call))]
fn put_wrong_of(
    text: &mut String,
    alloc: Global,
    native: Arch,
    word: &str,
    arguments: &[&str],
) -> Result<(), AllocError>
    ensures { IfOk result (λ _. (line : List ℕ) × spec.TellsWrongCall native word.now arguments.now line
        × (string_bytes text.new ≡ string_bytes text.old ++ line)) }
{
    if is_call(native, word) {
        put_wrong_arguments(text, arguments)
    } else {
        put_no_call(text, alloc, native, word)
    }
}

/// Adds the line that says what is wrong with words that are to name a call and its arguments, if anything is.
pub fn put_wrong(
    text: &mut String,
    alloc: Global,
    native: Arch,
    words: &[&str],
) -> Result<(), AllocError>
    ensures { IfOk result (λ _. (line : List ℕ) × spec.TellsWrong native words.now line
        × (string_bytes text.new ≡ string_bytes text.old ++ line)) }
{
    match words {
        [] => Ok(()),
        [word, arguments @ ..] => put_wrong_of(text, alloc, native, word, arguments),
    }
}
