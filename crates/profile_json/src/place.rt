//! Where a fault of a bundle stands.
ghost use Rattle.std.specs.Prelude.{◌≡◌, ℕ, List, map, true, IfOk, IfErr, IfSome, Ok};
ghost use Rattle.std.specs.List.{list_any};
ghost use Rattle.serde_json.specs.Data.{Data};
ghost use Rattle.machines.specs.Arch.{family_of, same_arch};
ghost use Rattle.profile_json.specs.Meaning.{IsText, Means};
ghost use Rattle.serde_json.specs.View.{view};
ghost use Rattle.profile_json.specs.ByEntry.{AreRulesOf};
ghost use Rattle.profile_json.specs.Fault.{fault_of};
ghost use Rattle.profile_json.specs.Place.{EntryBreaksAt, AnEntryBreaksAt, SeccompBreaksAt, BreaksAt};
ghost use Rattle.profile_json.specs.inner.View.{entry_parts, said_parts};
ghost use Rattle.profile_json.specs.inner.Reading as spec;

use crate::action::{default_of, verdict_of};
use crate::architectures::archs_of;
use crate::argument::args_of;
use crate::bundle::{Bundle, profile_of, value_of};
use crate::by_entry::rules_said;
use crate::contents::Contents;
use crate::entry::Entry;
use crate::fault::ProfileError;
use crate::key::SYSCALLS;
use crate::lookup::{list_or_empty, object_of};
use crate::refusal::{EntryRefusal, Part, Place, Refusal};
use crate::refused::check_keys;
use crate::root::root_of;
use crate::syscalls::{most_entries, names_of};
use machines::{Arch, Family};
use serde_json::Value;
use std::alloc::Global;

#[tactic(auto, unfolding(crate::specs::inner::Reading::entry_of))]
pub(crate) fn entry_of<'a>(
    alloc: Global,
    value: &'a Value,
    family: Family,
) -> Result<Entry<'a>, EntryRefusal>
    ensures ok { IfOk result (λ e. spec.entry_of family (view value.now) ≡ Ok (entry_parts e)) }
    ensures err { IfErr result (λ r. IfSome (fault_of r.error) (EntryBreaksAt family (view value.now) r.part)) }
{
    let entry = match object_of(value) {
        Ok(entry) => entry,
        Err(error) => return Err(EntryRefusal {
            error,
            part: Part::Itself,
        }),
    };
    let names = match names_of(alloc, entry, family) {
        Ok(names) => names,
        Err(told) => return Err(told),
    };
    let word = match verdict_of(entry, family) {
        Ok(word) => word,
        Err(error) => return Err(EntryRefusal {
            error,
            part: Part::Verdict,
        }),
    };
    match args_of(entry) {
        Ok(conds) => Ok(Entry { names, conds, word }),
        Err(told) => Err(told),
    }
}

// The entries of a list, or the place of the first that is refused.
fn entries_in<'a>(
    alloc: Global,
    values: &'a [Value],
    family: Family,
) -> Result<Vec<Entry<'a>>, Refusal>
    ensures ok { IfOk result (λ v. spec.each (spec.entry_of family) (map view values.now) ≡ Ok (map entry_parts v.items)) }
    ensures err { IfErr result (λ r. IfSome (fault_of r.error) (AnEntryBreaksAt family (map view values.now) r.place)) }
{
    let mut found = Vec::new(alloc);
    for (at, value) in values.iter().enumerate() {
        match entry_of(alloc, value, family) {
            Ok(entry) => found.push(entry)?,
            Err(told) => {
                return Err(Refusal {
                    error: told.error,
                    place: Place::Entry(at, told.part),
                });
            }
        }
    }
    Ok(found)
}

#[tactic(auto, unfolding(crate::specs::inner::Reading::entries_of))]
fn entries_of<'a>(
    alloc: Global,
    seccomp: &'a Value,
    native: Arch,
) -> Result<Vec<Entry<'a>>, Refusal>
    ensures ok { IfOk result (λ v. spec.entries_of (family_of native) (view seccomp.now) ≡ Ok (map entry_parts v.items)) }
    ensures err { IfErr result (λ r. IfSome (fault_of r.error) (SeccompBreaksAt (view seccomp.now) native r.place)) }
{
    let family = native.family();
    let values = match list_or_empty(seccomp, SYSCALLS) {
        Ok(values) => values,
        Err(error) => {
            return Err(Refusal {
                error,
                place: Place::Entries,
            });
        }
    };
    if values.len() > most_entries(family) {
        return Err(Refusal {
            error: ProfileError::TooMany,
            place: Place::Entries,
        });
    }
    entries_in(alloc, values, family)
}

#[tactic(auto, unfolding(crate::specs::inner::Reading::said_of))]
pub(crate) fn said_of<'a>(
    alloc: Global,
    seccomp: &'a Value,
    native: Arch,
) -> Result<Contents<'a>, Refusal>
    ensures ok { IfOk result (λ s. spec.said_of native (view seccomp.now) ≡ Ok (said_parts s)) }
    ensures native_listed { IfOk result (λ s. list_any (same_arch native) s.archs.items ≡ true) }
    ensures err { IfErr result (λ r. IfSome (fault_of r.error) (SeccompBreaksAt (view seccomp.now) native r.place)) }
{
    let family = native.family();
    let default_word = match default_of(seccomp, family) {
        Ok(word) => word,
        Err(error) => {
            return Err(Refusal {
                error,
                place: Place::Default,
            });
        }
    };
    match check_keys(seccomp, family) {
        Ok(()) => {}
        Err(error) => {
            return Err(Refusal {
                error,
                place: Place::Keys,
            });
        }
    }
    let archs = match archs_of(alloc, seccomp, native) {
        Ok(archs) => archs,
        Err(error) => {
            return Err(Refusal {
                error,
                place: Place::Machines,
            });
        }
    };
    match entries_of(alloc, seccomp, native) {
        Ok(entries) => Ok(Contents {
            default_word,
            archs,
            entries,
        }),
        Err(told) => Err(told),
    }
}

// The bundle that a value says, or why it is refused and where the fault stands.
pub(crate) fn bundle_of(alloc: Global, value: &Value, native: Arch) -> Result<Bundle, Refusal>
    ensures ok { IfOk result (λ b. Means (view value.now) native b.profile) }
    ensures rules { (text : List ℕ) → IsText text (view value.now)
        → IfOk result (λ b. AreRulesOf native text b.by_entry.rules.items b.by_entry.ends.items) }
    ensures err { (text : List ℕ) → IsText text (view value.now)
        → IfErr result (λ r. IfSome (fault_of r.error) (BreaksAt text native r.place)) }
{
    let seccomp = match root_of(value, native) {
        Ok(seccomp) => seccomp,
        Err(error) => {
            return Err(Refusal {
                error,
                place: Place::Root,
            });
        }
    };
    let said = match said_of(alloc, seccomp, native) {
        Ok(said) => said,
        Err(told) => return Err(told),
    };
    let profile = match profile_of(alloc, &said, native) {
        Ok(profile) => profile,
        Err(error) => {
            return Err(Refusal {
                error,
                place: Place::Entries,
            });
        }
    };
    match rules_said(alloc, &said, native) {
        Ok(by_entry) => Ok(Bundle { profile, by_entry }),
        Err(_) => Err(Refusal {
            error: ProfileError::OutOfMemory,
            place: Place::Text,
        }),
    }
}

/// Reads a bundle for its native machine, or says why it is refused and where the fault stands.
pub fn read(alloc: Global, text: &[u8], native: Arch) -> Result<Bundle, Refusal>
    // The text is a value, and the profile is what it means.
    ensures ok { IfOk result (λ b. (t : Data) × IsText text.now t × Means t native b.profile) }
    ensures rules { IfOk result (λ b. AreRulesOf native text.now b.by_entry.rules.items b.by_entry.ends.items) }

    // Unless memory ran out, the fault stands at that place of the text.
    ensures err { IfErr result (λ r. IfSome (fault_of r.error) (BreaksAt text.now native r.place)) }
{
    match value_of(alloc, text, native) {
        Ok(value) => bundle_of(alloc, &value, native),
        Err(error) => Err(Refusal {
            error,
            place: Place::Text,
        }),
    }
}
