//! Conditions as a bundle writes them.
use crate::text::Text;
use profile::{Cond, Op};
use profile_json::operator_name;

// Adds a condition behind those that the list has.
fn put_condition(text: &mut Text, cond: &Cond) {
    let Cond {
        index,
        op,
        value,
        datum,
    } = *cond;
    text.separate(", ");
    text.put(format_args!("{{\"index\": {index}, \"value\": {value}"));
    if op == Op::MaskedEq {
        text.put(format_args!(", \"valueTwo\": {datum}"));
    }
    let name = operator_name(op);
    text.put(format_args!(", \"op\": \"{name}\"}}"));
}

/// Adds the list of an entry's conditions.
pub(crate) fn put_conditions(text: &mut Text, conds: &[Cond]) {
    text.begin("[");
    for cond in conds {
        put_condition(text, cond);
    }
    text.end("]");
}
