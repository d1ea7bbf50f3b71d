//! The conditions of an entry.
use crate::actions::text_at;
use crate::changes::Changes;
use crate::keys::{CONDITION, member_at, put_member, put_pair, tell_keys};
use crate::near::tell_operator;
use crate::parts::Part;
use crate::place::Place;
use crate::text::Text;
use profile_json::{OPERATORS, key};
use serde_json::Value;

// The whole number under a key of a condition.
fn number_at(condition: &Value, key: &str) -> Option<u64> {
    condition.get(key)?.as_u64()
}

// A bit for the argument of a condition.
fn argument_bit(condition: &Value) -> u64 {
    match number_at(condition, "index") {
        Some(index) if index < 6 => 1 << index,
        _ => 0,
    }
}

// Whether two of these conditions are on one argument.
fn name_one_twice(conditions: &[Value]) -> bool {
    let mut named = 0;
    for condition in conditions {
        let bit = argument_bit(condition);
        if named & bit != 0 {
            return true;
        }
        named |= bit;
    }
    false
}

/// The conditions of an entry if engines ask each by itself, which they do where two are on one argument.
pub(crate) fn asked_alone(entry: &Value) -> Option<&[Value]> {
    let conditions = member_at(entry, "args")?.as_array()?.as_slice();
    if name_one_twice(conditions) {
        Some(conditions)
    } else {
        None
    }
}

// The second value of a condition that asks for bits, cut to those that it asks for, if it has others.
fn cut_datum(condition: &Value) -> Option<u64> {
    if text_at(condition, "op") != key::MASKED_EQ {
        return None;
    }
    let mask = number_at(condition, "value")?;
    let datum = number_at(condition, "valueTwo")?;
    if datum & mask == datum {
        None
    } else {
        Some(datum & mask)
    }
}

// Adds the second value of a condition, if it has one.
fn put_second(text: &mut Text, changes: &mut Changes, place: Place<'_>, condition: &Value) {
    let Some(cut) = cut_datum(condition) else {
        return put_member(text, condition, "valueTwo");
    };
    let what = "has bits that are not in value: engines leave them out, and so they are left out";
    changes.tell(place.key("valueTwo"), what, false);
    put_pair(text, "valueTwo", cut);
}

// Adds the members of a condition.
fn put_members(text: &mut Text, changes: &mut Changes, place: Place<'_>, condition: &Value) {
    put_member(text, condition, "index");
    put_member(text, condition, "value");
    put_second(text, changes, place, condition);
    put_member(text, condition, "op");
}

// Adds a condition behind those that the list has.
fn put_condition(text: &mut Text, changes: &mut Changes, place: Place<'_>, condition: &Value) {
    tell_keys(changes, place, condition, CONDITION, true);
    tell_operator(
        changes,
        place.key("op"),
        text_at(condition, "op"),
        OPERATORS,
    );
    text.separate(", ");
    if !condition.is_object() {
        return text.put(format_args!("{condition}"));
    }
    text.begin("{");
    put_members(text, changes, place, condition);
    text.end("}");
}

/// Adds the list of those conditions of an entry that a written one has. What is no list stays what it is.
pub(crate) fn put_conditions(
    text: &mut Text,
    changes: &mut Changes,
    (part, place): (Part, Place<'_>),
    args: &Value,
) {
    let Some(conditions) = args.as_array() else {
        return text.put(format_args!("{args}"));
    };
    text.begin("[");
    for (at, condition) in conditions.iter().enumerate() {
        if part.has(at) {
            put_condition(text, changes, place.condition(at), condition);
        }
    }
    text.end("]");
}
