//! Flags and the listener of a filter: machines of the chosen tables refuse their use, and those of whole tables what is none.
ghost use Rattle.std.specs.Prelude.{◌≡◌, map};
ghost use Rattle.std.specs.List.{list_any};
ghost use Rattle.std.specs.Str.{bytes_eq};
ghost use Rattle.serde_json.specs.View.{view};
ghost use Rattle.profile_json.specs.Lookup.{member, text, list};
ghost use Rattle.profile_json.specs.Names.{filter_flags};
ghost use Rattle.profile_json.specs.inner.Outcome.{Gives};
ghost use Rattle.profile_json.specs.inner.Reading as spec;

use crate::fault::ProfileError;
use crate::key::{
    FLAG_LOG, FLAG_SPEC_ALLOW, FLAG_TSYNC, FLAG_WAIT_KILLABLE_RECV, FLAGS, LISTENER_METADATA,
    LISTENER_PATH,
};
use crate::lookup::{list_or_empty, text_of, text_or_empty};
use machines::Family;
use serde_json::Value;

fn no_list(value: &Value, key: &str) -> Result<(), ProfileError>
    ensures { Gives (λ u. u) result (spec.empty (member list key.now (view value.now))) }
{
    let found = list_or_empty(value, key)?;
    if found.is_empty() {
        Ok(())
    } else {
        Err(ProfileError::UnsupportedKey)
    }
}

fn no_text(value: &Value, key: &str) -> Result<(), ProfileError>
    ensures { Gives (λ u. u) result (spec.empty (member text key.now (view value.now))) }
{
    let found = text_or_empty(value, key)?;
    if found.is_empty() {
        Ok(())
    } else {
        Err(ProfileError::UnsupportedKey)
    }
}

/// Refuses flags and a listener: their keys may be missing, or empty.
#[tactic(auto, unfolding(crate::specs::inner::Reading::unused_of))]
fn refuse_use(seccomp: &Value) -> Result<(), ProfileError>
    ensures { Gives (λ u. u) result (spec.unused_of (view seccomp.now)) }
{
    no_list(seccomp, FLAGS)?;
    no_text(seccomp, LISTENER_PATH)?;
    no_text(seccomp, LISTENER_METADATA)
}

fn is_flag(name: &str) -> bool
    ensures { result ≡ list_any (λ f. bytes_eq f name.now) filter_flags }
{
    match name {
        FLAG_TSYNC | FLAG_LOG | FLAG_SPEC_ALLOW | FLAG_WAIT_KILLABLE_RECV => true,
        _ => false,
    }
}

#[tactic(auto, unfolding(crate::specs::inner::Reading::flag_of))]
fn check_flag(value: &Value) -> Result<(), ProfileError>
    ensures { Gives (λ u. u) result (spec.flag_of (view value.now)) }
{
    if is_flag(text_of(value)?) {
        Ok(())
    } else {
        Err(ProfileError::UnsupportedKey)
    }
}

fn check_each(values: &[Value]) -> Result<(), ProfileError>
    ensures { Gives (λ u. u) result (spec.flags_in (map view values.now)) }
{
    for value in values {
        check_flag(value)?;
    }
    Ok(())
}

#[tactic(auto, unfolding(crate::specs::inner::Reading::flags_of))]
fn check_flags(seccomp: &Value) -> Result<(), ProfileError>
    ensures { Gives (λ u. u) result (spec.flags_of (view seccomp.now)) }
{
    check_each(list_or_empty(seccomp, FLAGS)?)
}

/// Refuses metadata without a listener.
#[tactic(auto, unfolding(crate::specs::inner::Reading::listener_of))]
fn check_listener(seccomp: &Value) -> Result<(), ProfileError>
    ensures { Gives (λ u. u) result (spec.listener_of (view seccomp.now)) }
{
    let path = text_or_empty(seccomp, LISTENER_PATH)?;
    let metadata = text_or_empty(seccomp, LISTENER_METADATA)?;
    if path.is_empty() && !metadata.is_empty() {
        Err(ProfileError::UnsupportedKey)
    } else {
        Ok(())
    }
}

#[tactic(auto, unfolding(crate::specs::inner::Reading::named_of))]
fn check_named(seccomp: &Value) -> Result<(), ProfileError>
    ensures { Gives (λ u. u) result (spec.named_of (view seccomp.now)) }
{
    check_flags(seccomp)?;
    check_listener(seccomp)
}

/// Checks the keys of how a filter is loaded, which change no verdict.
pub(crate) fn check_keys(seccomp: &Value, family: Family) -> Result<(), ProfileError>
    ensures { Gives (λ u. u) result (spec.keys_of family (view seccomp.now)) }
{
    match family {
        Family::Chosen => refuse_use(seccomp),
        Family::Whole => check_named(seccomp),
    }
}
