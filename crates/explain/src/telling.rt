//! What a bundle says of a call record, and why.
ghost use Rattle.std.specs.Prelude.{◌≡◌, ◌++◌, ℕ, IfErr, IfOk, IfSome, string_bytes};
ghost use Rattle.call_record.specs.Record.{words};
ghost use Rattle.machines.specs.Arch.{family_of};
ghost use Rattle.profile.specs.Policy.{Says};
ghost use Rattle.explain.specs.Explanation as spec;
ghost use Rattle.wording.specs.Reason.{reason_of};
ghost use Rattle.wording.specs.Phrases.{verdict_line};
ghost use Rattle.profile_json.specs.Breaks.{Breaks};
ghost use Rattle.profile_json.specs.Fault.{fault_of};

use crate::rules::put_rules;
use call_record::{Record, Word};
use machines::{Arch, Family};
use profile::Profile;
use profile_json::{Document, EntryRules, ProfileError};
use std::alloc::{AllocError, Global};
use std::fmt::Write;
use wording::{ActionText, Reason, put_record, reason_of};

// Adds the line of a verdict.
fn put_verdict(text: &mut String, word: Word) -> Result<(), AllocError>
    ensures { IfOk result (λ _. string_bytes text.new ≡ string_bytes text.old ++ verdict_line word) }
{
    let action = ActionText(word);
    writeln!(text, "verdict {word} {action}")
}

// Adds the line of a reason.
fn put_reason(text: &mut String, reason: Reason) -> Result<(), AllocError>
    ensures { IfOk result (λ _. string_bytes text.new ≡ string_bytes text.old ++ spec.reason_line reason) }
{
    match reason {
        Reason::Foreign => writeln!(text, "why foreign"),
        Reason::Entry(entry) => writeln!(text, "why entry {entry}"),
        Reason::Default => writeln!(text, "why default"),
    }
}

// Adds a record, the verdict that is said of it, why, and the rules for its call.
fn put_explanation(
    text: &mut String,
    family: Family,
    word: Word,
    reason: Reason,
    all: &EntryRules,
    call: &Record,
) -> Result<(), AllocError>
    ensures { IfOk result (λ _. string_bytes text.new ≡ string_bytes text.old
        ++ spec.told_by family word reason all.now.rules.items all.now.ends.items call.now) }
{
    put_record(text, family, call)?;
    put_verdict(text, word)?;
    put_reason(text, reason)?;
    put_rules(text, all, call)
}

// What a profile says of a record, and why, as a text.
fn explained(
    alloc: Global,
    native: Arch,
    profile: &Profile,
    all: &EntryRules,
    call: &Record,
) -> Result<String, AllocError>
    ensures { IfOk result (λ text. (said : ℕ) × Says profile.now (words call.now) said × (string_bytes text
        ≡ spec.told_by (family_of native) said (reason_of profile.now all.now.rules.items all.now.ends.items (words call.now))
        all.now.rules.items all.now.ends.items call.now)) }
{
    let word = profile.decide(call);
    let reason = reason_of(profile, all, call);
    let mut text = String::new(alloc);
    put_explanation(&mut text, native.family(), word, reason, all, call)?;
    Ok(text)
}

/// The text that explains what a bundle says of a call record: the call, the verdict, and why it is said. Of each rule for that call it
/// tells whether it matches, and which of its conditions hold.
pub fn explanation(
    alloc: Global,
    document: &Document,
    call: &Record,
) -> Result<String, ProfileError>
    ensures explains { IfOk result (λ text. spec.Explains document.now.native document.now.bytes call.now (string_bytes text)) }
    // Unless memory ran out, the fault stands in the bundle.
    ensures fault { IfErr result (λ e. IfSome (fault_of e) (Breaks document.now.bytes document.now.native)) }
{
    let read = document.bundle()?;
    let text = explained(
        alloc,
        document.native(),
        &read.profile,
        &read.by_entry,
        call,
    )?;
    Ok(text)
}
