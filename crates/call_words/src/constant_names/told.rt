//! What is told of the constants in a bundle.
ghost use Rattle.std.specs.Prelude.{◌≡◌, [], IfErr, IfOk, IfSome, map, string_bytes};
ghost use Rattle.profile_json.specs.Breaks.{Breaks};
ghost use Rattle.profile_json.specs.Fault.{fault_of};
ghost use Rattle.call_words.specs.Lines as spec;
ghost use Rattle.call_words.specs.Told.{AreNames, TellsNames};

use crate::constant_names::lines::lines_of;
use profile::Rule;
use profile_json::{Document, ProfileError};
use std::alloc::{AllocError, Global};

// Whether a line stands among others.
fn is_among(lines: &[String], line: &str) -> bool
    ensures { result ≡ spec.is_among (map string_bytes lines.now) line.now }
{
    for other in lines {
        if other.as_str() == line {
            return true;
        }
    }
    false
}

// Lines in their order, each once.
fn each_once(alloc: Global, lines: &[String]) -> Result<String, AllocError>
    ensures { IfOk result (λ text. string_bytes text ≡ spec.each_once [] (map string_bytes lines.now)) }
{
    let mut text = String::new(alloc);
    for (at, line) in lines.iter().enumerate() {
        if !is_among(&lines[..at], line) {
            text.push_str(line)?;
        }
    }
    Ok(text)
}

// The lines of rules, each once.
fn text_of(alloc: Global, rules: &[Rule]) -> Result<String, AllocError>
    ensures { IfOk result (λ text. string_bytes text ≡ spec.text_of rules.now) }
{
    let lines = lines_of(alloc, rules)?;
    each_once(alloc, &lines)
}

// The lines of the rules that a bundle means, each once.
fn text_for(alloc: Global, document: &Document) -> Result<String, ProfileError>
    ensures tells { IfOk result (λ text. TellsNames document.now.native document.now.bytes (string_bytes text)) }
    // Unless memory ran out, the fault stands in the bundle.
    ensures fault { IfErr result (λ e. IfSome (fault_of e) (Breaks document.now.bytes document.now.native)) }
{
    let read = document.bundle()?;
    Ok(text_of(alloc, read.profile.rules())?)
}

/// The names of the constants that the conditions of a bundle compare arguments with: a line for each call's name, argument and number.
/// Of a bundle that is refused nothing is told.
pub fn names_of(alloc: Global, document: &Document) -> Result<Vec<u8>, AllocError>
    ensures { IfOk result (λ text. AreNames document.now.native document.now.bytes text.items) }
{
    match text_for(alloc, document) {
        Ok(text) => Ok(text.into_bytes()),
        Err(ProfileError::OutOfMemory) => Err(AllocError),
        Err(_) => Ok(Vec::new(alloc)),
    }
}
