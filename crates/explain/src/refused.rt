//! How words are refused that ask for no call.
ghost use Rattle.std.specs.Prelude.{◌≡◌, ◌++◌, [], ℕ, List, IfOk, codes, string_bytes};
ghost use Rattle.machines.specs.Arch.{family_of};
ghost use Rattle.call_words.specs.Wrong as wrong;
ghost use Rattle.wording.specs.Told.{RefusesBy};
ghost use Rattle.explain.specs.Refused as spec;

use crate::asked::are_bytes;
use call_words::{put_wrong, put_wrong_call};
use machines::{Arch, Family};
use std::alloc::{AllocError, Global};
use wording::{End, Told};

// A text as the line of a refusal.
fn told_line(mut text: String) -> Result<Told, AllocError>
    ensures { IfOk result (RefusesBy (string_bytes text)) }
{
    text.push_str("\n")?;
    Ok(Told {
        bytes: text.into_bytes(),
        end: End::Refused,
    })
}

// Adds why words name no call with arguments, but for the machines of the chosen lists.
fn put_why(text: &mut String, alloc: Global, native: Arch, words: &[&str]) -> Result<(), AllocError>
    ensures { IfOk result (λ _. (line : List ℕ) × spec.is_reason (family_of native) (wrong.TellsWrong native words.now) line
        × (string_bytes text.new ≡ string_bytes text.old ++ line)) }
{
    match native.family() {
        Family::Chosen => Ok(()),
        Family::Whole => put_wrong(text, alloc, native, words),
    }
}

// Adds why a word names no call, but for the machines of the chosen lists.
fn put_why_not(text: &mut String, alloc: Global, native: Arch, word: &str) -> Result<(), AllocError>
    ensures { IfOk result (λ _. (line : List ℕ) × spec.is_reason (family_of native) (wrong.TellsWrongCall native word.now []) line
        × (string_bytes text.new ≡ string_bytes text.old ++ line)) }
{
    match native.family() {
        Family::Chosen => Ok(()),
        Family::Whole => put_wrong_call(text, alloc, native, word),
    }
}

/// The lines that say that words name no call with arguments, and why.
pub(crate) fn refused_words(alloc: Global, native: Arch, words: &[&str]) -> Result<Told, AllocError>
    ensures { IfOk result (spec.Refuses native (wrong.TellsWrong native words.now)) }
{
    let mut text = String::from_str(alloc, "refused call")?;
    put_why(&mut text, alloc, native, words)?;
    told_line(text)
}

/// The lines that say that a word names no call, and why.
pub(crate) fn refused_word(alloc: Global, native: Arch, word: &str) -> Result<Told, AllocError>
    ensures { IfOk result (spec.Refuses native (wrong.TellsWrongCall native word.now [])) }
{
    let mut text = String::from_str(alloc, "refused call")?;
    put_why_not(&mut text, alloc, native, word)?;
    told_line(text)
}

// Adds the line that says that digits are not those of a record.
fn put_no_record(text: &mut String) -> Result<(), AllocError>
    ensures { IfOk result (λ _. string_bytes text.new ≡ string_bytes text.old ++ spec.no_record) }
{
    text.push_str("\na record is 128 hexadecimal digits")
}

// Adds the line that says that digits are not those of a record. For the machines of the chosen lists there is none.
fn put_why_no_record(text: &mut String, native: Arch) -> Result<(), AllocError>
    ensures { IfOk result (λ _. (line : List ℕ) × spec.is_reason (family_of native) (λ line. line ≡ spec.no_record) line
        × (string_bytes text.new ≡ string_bytes text.old ++ line)) }
{
    match native.family() {
        Family::Chosen => Ok(()),
        Family::Whole => put_no_record(text),
    }
}

// The lines that say that digits are not those of a record.
fn refused_digits(alloc: Global, native: Arch) -> Result<Told, AllocError>
    ensures { IfOk result (spec.Refuses native (λ line. line ≡ spec.no_record)) }
{
    let mut text = String::from_str(alloc, "refused call")?;
    put_why_no_record(&mut text, native)?;
    told_line(text)
}

/// The lines that say that words are neither `record` and digits nor a call with arguments, and why.
#[tactic(auto, using(crate::proofs::RefusedLaws::told_by_bytes, crate::proofs::RefusedLaws::told_by_words))]
pub(crate) fn refused_call(alloc: Global, native: Arch, words: &[&str]) -> Result<Told, AllocError>
    ensures { IfOk result (spec.Refuses native (spec.TellsWhyNot native words.now)) }
{
    if are_bytes(words) {
        return refused_digits(alloc, native);
    }
    refused_words(alloc, native, words)
}
