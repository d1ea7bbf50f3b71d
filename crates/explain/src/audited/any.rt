//! What a bundle says of a call whatever its arguments.
ghost use Rattle.std.specs.Prelude.{◌≡◌, IfErr, IfOk, IfSome, string_bytes};
ghost use Rattle.machines.specs.Arch.{family_of};
ghost use Rattle.explain.specs.Any as spec;
ghost use Rattle.profile_json.specs.Breaks.{Breaks};
ghost use Rattle.profile_json.specs.Fault.{fault_of};

use crate::audited::lines::{put_number, put_said};
use crate::audited::what::what_call;
use crate::refused::refused_word;
use machines::{Arch, Family};
use profile::Profile;
use profile_json::{Document, EntryRules, ProfileError};
use std::alloc::{AllocError, Global};
use wording::{End, Told, refused_profile};

// The text of what a profile says of a call.
fn told(
    alloc: Global,
    family: Family,
    profile: &Profile,
    all: &EntryRules,
    token: u32,
    nr: u32,
) -> Result<String, AllocError>
    ensures { IfOk result (λ text. string_bytes text ≡ spec.any_text family profile.now all.now.rules.items all.now.ends.items token nr) }
{
    let mut text = String::new(alloc);
    put_number(&mut text, family, token, nr)?;
    put_said(&mut text, profile, all, token, nr)?;
    Ok(text)
}

// The text of what a bundle says of a call.
fn explanation(
    alloc: Global,
    document: &Document,
    token: u32,
    nr: u32,
) -> Result<String, ProfileError>
    ensures explains { IfOk result (λ text. spec.ExplainsAny document.now.native document.now.bytes token nr (string_bytes text)) }
    // Unless memory ran out, the fault stands in the bundle.
    ensures fault { IfErr result (λ e. IfSome (fault_of e) (Breaks document.now.bytes document.now.native)) }
{
    let read = document.bundle()?;
    let text = told(
        alloc,
        document.native().family(),
        &read.profile,
        &read.by_entry,
        token,
        nr,
    )?;
    Ok(text)
}

/// Tells what a bundle says of a call whatever its arguments. It tells each entry that has a rule for
/// it, with its conditions, and the default.
pub fn explain_any(alloc: Global, document: &Document, word: &str) -> Result<Told, AllocError>
    ensures { IfOk result (spec.IsExplained document.now.native document.now.bytes word.now) }
{
    let native = document.native();
    match what_call(alloc, native, word)? {
        Some((arch, nr)) => match explanation(alloc, document, arch.token(), nr) {
            Ok(text) => Ok(Told {
                bytes: text.into_bytes(),
                end: End::Done,
            }),
            Err(error) => refused_profile(alloc, error),
        },
        None => refused_word(alloc, native, word),
    }
}
