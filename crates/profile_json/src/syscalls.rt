//! The names of an entry.
ghost use Rattle.std.specs.Prelude.{◌≡◌, map, IfErr, IfOk, IfSome, Ok};
ghost use Rattle.serde_json.specs.View.{view};
ghost use Rattle.profile_json.specs.Fault.{fault_of};
ghost use Rattle.profile_json.specs.Place.{MemberBreaksAt, NameBreaksAt};
ghost use Rattle.profile_json.specs.inner.Outcome.{Gives};
ghost use Rattle.profile_json.specs.inner.Reading as spec;
ghost use Rattle.profile_json.specs.Names as names;

use crate::fault::ProfileError;
use crate::key::NAMES;
use crate::lookup::{list_at, text_of};
use crate::name::{is_known, short_name};
use crate::refusal::{EntryRefusal, Part, RefusedAt};
use machines::Family;
use serde_json::Value;
use std::alloc::Global;

// How many entries there may be: older engines write an entry for each call.
pub(crate) fn most_entries(family: Family) -> usize
    ensures { result ≡ names.most_entries family }
{
    match family {
        Family::Chosen => 256,
        Family::Whole => 1024,
    }
}

// How many names an entry may have: an engine's longest entries have more than 300.
fn most_names(family: Family) -> usize
    ensures { result ≡ names.most_names family }
{
    match family {
        Family::Chosen => 128,
        Family::Whole => 512,
    }
}

#[tactic(auto, unfolding(crate::specs::inner::Reading::name_of))]
fn name_of(value: &Value, family: Family) -> Result<&str, ProfileError>
    ensures { Gives (λ s. s.now) result (spec.name_of family (view value.now)) }
{
    let name = text_of(value)?;
    if is_known(family, name) {
        Ok(name)
    } else {
        Err(ProfileError::UnknownCall(short_name(name)))
    }
}

// The names of a list, or the first value that is none.
fn names_in<'a>(
    alloc: Global,
    values: &'a [Value],
    family: Family,
) -> Result<Vec<&'a str>, RefusedAt>
    ensures ok { IfOk result (λ v. spec.each (spec.name_of family) (map view values.now) ≡ Ok (map (λ n. n.now) v.items)) }
    ensures err { IfErr result (λ r. IfSome (fault_of r.error) (NameBreaksAt family (map view values.now) r.at)) }
{
    let mut found = Vec::new(alloc);
    for (at, value) in values.iter().enumerate() {
        match name_of(value, family) {
            Ok(name) => found.push(name)?,
            Err(error) => return Err(RefusedAt { error, at }),
        }
    }
    Ok(found)
}

#[tactic(auto, unfolding(crate::specs::inner::Reading::names_of))]
pub(crate) fn names_of<'a>(
    alloc: Global,
    entry: &'a Value,
    family: Family,
) -> Result<Vec<&'a str>, EntryRefusal>
    ensures ok { IfOk result (λ v. spec.names_of family (view entry.now) ≡ Ok (map (λ n. n.now) v.items)) }
    ensures err { IfErr result (λ r. IfSome (fault_of r.error) (MemberBreaksAt family (view entry.now) r.part)) }
{
    let values = match list_at(entry, NAMES) {
        Ok(values) => values,
        Err(error) => {
            return Err(EntryRefusal {
                error,
                part: Part::Names,
            });
        }
    };
    if values.is_empty() {
        return Err(EntryRefusal {
            error: ProfileError::EmptyNames,
            part: Part::Names,
        });
    }
    if values.len() > most_names(family) {
        return Err(EntryRefusal {
            error: ProfileError::TooMany,
            part: Part::Names,
        });
    }
    match names_in(alloc, values, family) {
        Ok(names) => Ok(names),
        Err(told) => Err(EntryRefusal {
            error: told.error,
            part: Part::Name(told.at),
        }),
    }
}
