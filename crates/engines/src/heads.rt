//! What bundles say beside their entries: the verdict of calls that no entry names, and the machines.
ghost use Rattle.std.specs.Prelude.{◌≡◌, IfOk, IfSome, IsTrue, map, option_map};
ghost use Rattle.serde_json.specs.View.{view};
ghost use Rattle.profile_json.specs.Lookup.{holds, list, member, object, text, whole};
ghost use Rattle.profile_json.specs.Meaning.{IsSeccomp, IsText};
ghost use Rattle.engines.specs.inner.Heads.{AreOfSameHead, HaveSameHead, IsSameHead, list_at as the_list_at, texts_at};

use serde_json::Value;
use std::alloc::{AllocError, Global};

// Whether two values are texts, and the same one.
fn are_one_text(a: &Value, b: &Value) -> bool
    ensures { IsTrue result → text (view a.now) ≡ text (view b.now) }
{
    let Some(a) = a.as_str() else {
        return false;
    };
    let Some(b) = b.as_str() else {
        return false;
    };
    a == b
}

// Whether two values are whole numbers, and the same one.
fn are_one_number(a: &Value, b: &Value) -> bool
    ensures { IsTrue result → whole (view a.now) ≡ whole (view b.now) }
{
    let Some(a) = a.as_u64() else {
        return false;
    };
    let Some(b) = b.as_u64() else {
        return false;
    };
    a == b
}

// Whether two lists have the same texts.
fn are_same_texts(a: &[Value], b: &[Value]) -> bool
    ensures { IsTrue result → map (λ v. text (view v)) a.now ≡ map (λ v. text (view v)) b.now }
{
    if a.len() != b.len() {
        return false;
    }
    for i in 0..a.len() {
        if !are_one_text(&a[i], &b[i]) {
            return false;
        }
    }
    true
}

// Whether two objects have the same text under a key.
fn have_same_text(a: &Value, b: &Value, key: &str) -> bool
    ensures { IsTrue result → member text key.now (view a.now) ≡ member text key.now (view b.now) }
{
    let Some(a) = a.get(key) else {
        return false;
    };
    let Some(b) = b.get(key) else {
        return false;
    };
    are_one_text(a, b)
}

// Whether two objects have the same number under a key, or both have none.
fn have_same_number(a: &Value, b: &Value, key: &str) -> bool
    ensures { IsTrue result → member whole key.now (view a.now) ≡ member whole key.now (view b.now) }
{
    match a.get(key) {
        None => b.get(key).is_none(),
        Some(a) => match b.get(key) {
            None => false,
            Some(b) => are_one_number(a, b),
        },
    }
}

// The items of a list.
fn items_of(value: &Value) -> Option<&[Value]>
    ensures { option_map (λ xs. map view xs.now) result ≡ list (view value.now) }
{
    match value.as_array() {
        Some(values) => Some(values.as_slice()),
        None => None,
    }
}

// The list under a key, empty where there is none.
fn list_at<'a>(value: &'a Value, key: &str) -> Option<&'a [Value]>
    ensures { option_map (λ xs. map view xs.now) result ≡ the_list_at key.now (view value.now) }
{
    match value.get(key) {
        Some(found) => items_of(found),
        None => Some(&[]),
    }
}

// Whether two objects have lists of the same texts under a key, where an empty one may be missing.
fn have_same_texts(a: &Value, b: &Value, key: &str) -> bool
    ensures { IsTrue result → texts_at key.now (view a.now) ≡ texts_at key.now (view b.now) }
{
    let Some(a) = list_at(a, key) else {
        return false;
    };
    let Some(b) = list_at(b, key) else {
        return false;
    };
    are_same_texts(a, b)
}

// Whether two sections give one verdict to calls that no entry names, and list the same machines.
fn are_same_heads(a: &Value, b: &Value) -> bool
    ensures { IsTrue result → IsSameHead (view a.now) (view b.now) }
{
    if !have_same_text(a, b, "defaultAction") {
        return false;
    }
    if !have_same_number(a, b, "defaultErrnoRet") {
        return false;
    }
    have_same_texts(a, b, "architectures")
}

// An object under a key.
fn object_at<'a>(value: &'a Value, key: &str) -> Option<&'a Value>
    ensures { IfSome result (λ v. member object key.now (view value.now) ≡ holds (view v.now)) }
{
    let found = value.get(key)?;
    if !found.is_object() {
        return None;
    }
    Some(found)
}

// The section of a bundle.
fn section_of(bundle: &Value) -> Option<&Value>
    ensures { IfSome result (λ section. IsSeccomp (view bundle.now) (view section.now)) }
{
    let linux = object_at(bundle, "linux")?;
    object_at(linux, "seccomp")
}

// Whether that is so of the sections of two bundles.
fn are_same_beside_entries(a: &Value, b: &Value) -> bool
    ensures { IsTrue result → HaveSameHead (view a.now) (view b.now) }
{
    let Some(a) = section_of(a) else {
        return false;
    };
    let Some(b) = section_of(b) else {
        return false;
    };
    are_same_heads(a, b)
}

// The value of a text that was read before, so that memory alone may be wanting.
fn value_of(alloc: Global, text: &[u8]) -> Result<Value, AllocError>
    ensures { IfOk result (λ value. IsText text.now (view value)) }
{
    match Value::from_slice(alloc, text) {
        Ok(value) => Ok(value),
        Err(_) => Err(AllocError),
    }
}

/// Whether two bundles that were read before give one verdict to calls that no entry names, and list the same machines.
pub(crate) fn have_same_head(alloc: Global, first: &[u8], second: &[u8]) -> Result<bool, AllocError>
    ensures { IfOk result (λ b. IsTrue b → AreOfSameHead first.now second.now) }
{
    let first = value_of(alloc, first)?;
    let second = value_of(alloc, second)?;
    Ok(are_same_beside_entries(&first, &second))
}
