//! Which texts are too large to be read.

ghost use Rattle.std.specs.Prelude.{◌≡◌, false, true};
ghost use Rattle.section.specs.Unlike as spec;

/// The most bytes of a text that is read.
pub const MOST_BYTES: usize = 4_194_304;

/// Whether a text has more bytes than are read.
pub fn is_large(bytes: &[u8]) -> bool
    ensures large { result ≡ true → spec.IsLarge bytes.now }
    ensures small { result ≡ false → spec.IsReadable bytes.now }
{
    bytes.len() > MOST_BYTES
}
