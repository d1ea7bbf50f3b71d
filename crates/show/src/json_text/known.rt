//! The keys that are read.

/// The place of a key in a list.
pub(crate) fn place_of(keys: &[&str], key: &str) -> Option<usize> {
    keys.iter().position(|other| *other == key)
}

/// Whether a number's text may be more than a reader takes: only such a text is that long, or has an exponent.
pub(crate) fn may_be_large(number: &str) -> bool {
    number.len() > 300 || number.bytes().any(|byte| byte == b'e' || byte == b'E')
}

/// The place of the first byte from a place on that is no blank.
pub(crate) fn past_blanks(text: &[u8], from: usize) -> usize {
    let rest = text.get(from..).unwrap_or(&[]);
    let blanks = rest.iter().position(|byte| !byte.is_ascii_whitespace());
    from.saturating_add(blanks.unwrap_or(rest.len()))
}
