//! The fields of a line.
ghost use Rattle.std.specs.Prelude.{◌≡◌, ℕ, List, ◌∷◌, map, None, if◌then◌else◌};
ghost use Rattle.std.specs.Option.{option_map};
ghost use Rattle.script.specs.inner.Reading.{fields_at, fields_from};

use arrayvec::ArrayVec;

/// The most fields of a command: with six arguments and a program.
pub(crate) const MAX_FIELDS: usize = 12;

// Adds a field, unless it is empty or there are too many.
fn add<'a>(fields: &mut ArrayVec<&'a str, MAX_FIELDS>, field: &'a str) -> bool
    ensures { (more : List (List ℕ)) → fields_from (map (λ f. f.now) fields.old.items) (field.now ∷ more) ≡ (if result then fields_from (map (λ f. f.now) fields.new.items) more else None) }
{
    if field.is_empty() {
        return false;
    }
    if fields.len() == MAX_FIELDS {
        return false;
    }
    fields.push(field);
    true
}

/// The fields of a text, with one space between any two, if none is empty and they are not too many.
pub(crate) fn fields_in(text: &str) -> Option<ArrayVec<&str, MAX_FIELDS>>
    ensures { option_map (λ fields. map (λ f. f.now) fields.items) result ≡ fields_at text.now }
{
    let mut fields = ArrayVec::new();
    let mut rest = text;
    'field: while let Some((field, more)) = rest.split_once(' ') {
        if !add(&mut fields, field) {
            return None;
        }
        rest = more;
    }
    if !add(&mut fields, rest) {
        return None;
    }
    Some(fields)
}
