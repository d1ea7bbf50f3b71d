//! Members of an object, each by the type that it should have.
ghost use Rattle.std.specs.Prelude.{◌≡◌, [], map, None};
ghost use Rattle.serde_json.specs.View.{view};
ghost use Rattle.profile_json.specs.Fault.{missing_key};
ghost use Rattle.profile_json.specs.Lookup.{member, or_default, object, text, whole, list};
ghost use Rattle.profile_json.specs.inner.Outcome.{Gives};
ghost use Rattle.profile_json.specs.inner.Reading.{typed, needed, if_there};

use crate::fault::ProfileError;
use serde_json::Value;

pub(crate) fn object_of(value: &Value) -> Result<&Value, ProfileError>
    ensures { Gives (λ v. view v.now) result (typed (object (view value.now))) }
{
    if value.is_object() {
        Ok(value)
    } else {
        Err(ProfileError::WrongType)
    }
}

pub(crate) fn text_of(value: &Value) -> Result<&str, ProfileError>
    ensures { Gives (λ s. s.now) result (typed (text (view value.now))) }
{
    value.as_str().ok_or(ProfileError::WrongType)
}

fn whole_of(value: &Value) -> Result<u64, ProfileError>
    ensures { Gives (λ n. n) result (typed (whole (view value.now))) }
{
    value.as_u64().ok_or(ProfileError::WrongType)
}

fn list_of(value: &Value) -> Result<&[Value], ProfileError>
    ensures { Gives (λ xs. map view xs.now) result (typed (list (view value.now))) }
{
    match value.as_array() {
        Some(values) => Ok(values.as_slice()),
        None => Err(ProfileError::WrongType),
    }
}

/// A text that has to be there.
pub(crate) fn text_at<'a>(value: &'a Value, key: &str) -> Result<&'a str, ProfileError>
    ensures { Gives (λ s. s.now) result (needed missing_key (member text key.now (view value.now))) }
{
    match value.get(key) {
        Some(found) => text_of(found),
        None => Err(ProfileError::MissingKey),
    }
}

/// A whole number that has to be there.
pub(crate) fn whole_at(value: &Value, key: &str) -> Result<u64, ProfileError>
    ensures { Gives (λ n. n) result (needed missing_key (member whole key.now (view value.now))) }
{
    match value.get(key) {
        Some(found) => whole_of(found),
        None => Err(ProfileError::MissingKey),
    }
}

/// A list that has to be there.
pub(crate) fn list_at<'a>(value: &'a Value, key: &str) -> Result<&'a [Value], ProfileError>
    ensures { Gives (λ xs. map view xs.now) result (needed missing_key (member list key.now (view value.now))) }
{
    match value.get(key) {
        Some(found) => list_of(found),
        None => Err(ProfileError::MissingKey),
    }
}

/// A list, empty where it is missing.
pub(crate) fn list_or_empty<'a>(value: &'a Value, key: &str) -> Result<&'a [Value], ProfileError>
    ensures { Gives (λ xs. map view xs.now) result (typed (or_default [] (member list key.now (view value.now)))) }
{
    match value.get(key) {
        Some(found) => list_of(found),
        None => Ok(&[]),
    }
}

/// A text, empty where it is missing.
pub(crate) fn text_or_empty<'a>(value: &'a Value, key: &str) -> Result<&'a str, ProfileError>
    ensures { Gives (λ s. s.now) result (typed (or_default [] (member text key.now (view value.now)))) }
{
    match value.get(key) {
        Some(found) => text_of(found),
        None => Ok(""),
    }
}

/// A whole number, if it is there.
pub(crate) fn whole_if_there(value: &Value, key: &str) -> Result<Option<u64>, ProfileError>
    ensures { Gives (λ n. n) result (if_there (member whole key.now (view value.now))) }
{
    match value.get(key) {
        Some(found) => Ok(Some(whole_of(found)?)),
        None => Ok(None),
    }
}

/// A whole number, 0 where it is missing.
pub(crate) fn whole_or_zero(value: &Value, key: &str) -> Result<u64, ProfileError>
    ensures { Gives (λ n. n) result (typed (or_default 0 (member whole key.now (view value.now)))) }
{
    match value.get(key) {
        Some(found) => whole_of(found),
        None => Ok(0),
    }
}
