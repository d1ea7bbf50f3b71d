//! Parts of a line.
ghost use Rattle.std.specs.Prelude.{◌≡◌, drop};
ghost use Rattle.page.specs.Shown as spec;

use json_lines::split;

// What stands before the first such byte of a text, and behind it.
fn cut(text: &[u8], byte: u8) -> (&[u8], &[u8])
    ensures before { result.0.now ≡ spec.up_to byte text.now }
    ensures behind { result.1.now ≡ spec.past byte text.now }
{
    match split(text, byte) {
        Some(parts) => parts,
        None => (text, b""),
    }
}

/// What stands before the first such byte, or all.
pub(crate) fn up_to(text: &[u8], byte: u8) -> &[u8]
    ensures { result.now ≡ spec.up_to byte text.now }
{
    cut(text, byte).0
}

/// What stands behind the first such byte, or nothing.
pub(crate) fn past(text: &[u8], byte: u8) -> &[u8]
    ensures { result.now ≡ spec.past byte text.now }
{
    cut(text, byte).1
}

/// Whether a text has such a byte.
pub(crate) fn has(text: &[u8], byte: u8) -> bool
    ensures { result ≡ spec.has byte text.now }
{
    match split(text, byte) {
        Some(_) => true,
        None => false,
    }
}

/// A text behind its first byte.
pub(crate) fn behind_one(text: &[u8]) -> &[u8]
    ensures { result.now ≡ drop 1 text.now }
{
    &text[text.len().min(1)..]
}
