//! Parts of a text.
ghost use Rattle.std.specs.Prelude.{◌≡◌, ◌≢◌, ◌<◌, ◌∷◌, [], length};
ghost use Rattle.std.specs.Option.{option_map};
ghost use Rattle.texts.specs.Splits.{behind};
ghost use Rattle.json_lines.specs.Lines.{parts_by};
ghost use Rattle.json_lines.specs.Shapes as spec;

use texts::split;

/// The first part of a text, and what stands behind the character of ASCII that ends it.
pub(crate) fn first_part(text: &str, end: char) -> (&str, &str)
    requires { end < 128 }
    ensures parts { text.now ≢ [] → parts_by end text.now ≡ result.0.now ∷ parts_by end result.1.now }
    ensures none { text.now ≡ [] → (result.0.now ≡ []) × (result.1.now ≡ []) }
    ensures shorter { text.now ≢ [] → length result.1.now < length text.now }
{
    match split(text, end) {
        Some(parts) => parts,
        None => (text, ""),
    }
}

/// A text behind what it begins with.
pub(crate) fn stripped<'a>(text: &'a str, front: &str) -> Option<&'a str>
    ensures { option_map (λ rest. rest.now) result ≡ behind front.now text.entry.now }
{
    text.strip_prefix(front)
}

// A text at the first place at which another stands in it.
fn split_on<'a>(text: &'a str, mark: &str) -> Option<(&'a str, &'a str)>
    requires { mark.now ≢ [] }
    ensures { option_map (λ parts. (parts.0.now, parts.1.now)) result ≡ spec.split_on mark.now text.entry.now }
{
    text.split_once(mark)
}

/// A text up to a mark, and what stands behind the mark.
pub(crate) fn until<'a>(text: &'a str, mark: &str) -> Option<(&'a str, &'a str)>
    ensures { option_map (λ parts. (parts.0.now, parts.1.now)) result ≡ spec.until mark.now text.entry.now }
{
    if mark.is_empty() {
        return Some((text, ""));
    }
    split_on(text, mark)
}

/// The name of a member, and the fixed text that ends it.
pub(crate) fn mark_in(piece: &str) -> (&str, &str)
    ensures { (result.0.now, result.1.now) ≡ spec.mark_in piece.now }
{
    match split(piece, '}') {
        Some(parts) => parts,
        None => (piece, ""),
    }
}

/// The kind of a shape, and what its lines look like.
pub(crate) fn kind_in(shape: &str) -> (&str, &str)
    ensures { (result.0.now, result.1.now) ≡ spec.kind_in shape.now }
{
    match split(shape, ' ') {
        Some(parts) => parts,
        None => (shape, shape),
    }
}
