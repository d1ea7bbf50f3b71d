//! What `ccell compare` tells of two filters.
ghost use Rattle.std.specs.Prelude.{◌≡◌, ◌++◌, IfOk, codes, string_bytes};
ghost use Rattle.std.specs.List.{flat_map};
ghost use Rattle.compare.specs.Outcome.{line_of};
ghost use Rattle.compare.specs.FiltersTold as spec;

use crate::change::Change;
use crate::filters::outcome::{Outcome, outcome_of};
use crate::text::lines_of;
use bpf_insn::ViewError;
use kernel_check::Refused;
use machines::Arch;
use std::alloc::{AllocError, Global};
use wording::{End, Told};

// The lines of calls, and the word that says that the filters differ.
fn differences_text(alloc: Global, changes: &[Change]) -> Result<String, AllocError>
    ensures { IfOk result (λ text. string_bytes text ≡ flat_map line_of changes.now ++ codes "differ\n") }
{
    let mut text = lines_of(alloc, changes)?;
    text.push_str("differ\n")?;
    Ok(text)
}

// The line of a filter whose bytes are no program.
fn view_line(alloc: Global, fault: ViewError, place: u32) -> Result<String, AllocError>
    ensures { IfOk result (λ line. string_bytes line ≡ spec.view_line fault place) }
{
    format!(in alloc; "refused view {fault}, filter {place}\n")
}

// The line of a filter that the kernel refuses.
fn kernel_line(alloc: Global, refused: Refused, place: u32) -> Result<String, AllocError>
    ensures { IfOk result (λ line. string_bytes line ≡ spec.kernel_line refused place) }
{
    format!(in alloc; "refused kernel {refused}, filter {place}\n")
}

// The text that says what was found.
fn text_of(alloc: Global, outcome: &Outcome) -> Result<String, AllocError>
    ensures { IfOk result (λ text. string_bytes text ≡ spec.text_of outcome.now) }
{
    match outcome {
        Outcome::Same => String::from_str(alloc, "same\n"),
        Outcome::Differ(changes) => differences_text(alloc, changes),
        Outcome::NoneFound => String::from_str(alloc, "none found\n"),
        Outcome::NoProgram(fault, place) => view_line(alloc, *fault, *place),
        Outcome::Refusal(refused, place) => kernel_line(alloc, *refused, *place),
    }
}

// How the command ends.
fn end_of(outcome: &Outcome) -> End
    ensures { result ≡ spec.ends outcome.now }
{
    match outcome {
        Outcome::Same => End::Done,
        Outcome::Differ(_) => End::No,
        Outcome::NoneFound => End::No,
        Outcome::NoProgram(_, _) => End::Refused,
        Outcome::Refusal(_, _) => End::Refused,
    }
}

/// Tells calls of which two filters answer unlike verdicts, by the names that a native machine's family has. It was done where their
/// bytes are the same.
pub fn compare_filters(
    alloc: Global,
    native: Arch,
    old: &[u8],
    new: &[u8],
) -> Result<Told, AllocError>
    ensures { IfOk result (spec.IsTold native old.now new.now) }
{
    let outcome = outcome_of(alloc, native.family(), old, new)?;
    let text = text_of(alloc, &outcome)?;
    Ok(Told {
        bytes: text.into_bytes(),
        end: end_of(&outcome),
    })
}
