//! The fields of a line of a kernel's audit. A line may hold any bytes: `ausearch -i` writes a program's names as they are.
ghost use Rattle.std.specs.Prelude.{◌≡◌, ◌<◌, ◌∷◌, [], IfSome, MatchOption, length};
ghost use Rattle.std.specs.Option.{option_map};
ghost use Rattle.texts.specs.Splits.{behind, split_at};
ghost use Rattle.explain.specs.Audit as spec;

// What auditd writes in front of what it says of a line again, by names.
const SEPARATOR: u8 = 0x1d;

// What stands before the first such byte, and what stands behind it.
fn split(line: &[u8], byte: u8) -> Option<(&[u8], &[u8])>
    ensures { option_map (λ parts. (parts.0.now, parts.1.now)) result ≡ split_at byte line.now }
{
    for (at, here) in line.iter().enumerate() {
        if *here == byte {
            return Some((&line[..at], &line[at + 1..]));
        }
    }
    None
}

/// A line at its first space, if it has one.
pub(crate) fn split_word(line: &[u8]) -> Option<(&[u8], &[u8])>
    ensures words { MatchOption result (spec.words_on line.now ≡ line.now ∷ [])
        (λ parts. spec.words_on line.now ≡ parts.0.now ∷ spec.words_on parts.1.now) }
    ensures shorter { IfSome result (λ parts. length parts.1.now < length line.now) }
{
    split(line, b' ')
}

/// What follows a key in a word, if the word begins with it.
pub(crate) fn rest_behind<'a>(key: &[u8], word: &'a [u8]) -> Option<&'a [u8]>
    ensures { option_map (λ text. text.now) result ≡ behind key.now word.now }
{
    word.strip_prefix(key)
}

// What follows a key in the last word that begins with it.
fn last_behind<'a>(key: &[u8], line: &'a [u8]) -> Option<&'a [u8]>
    ensures { option_map (λ text. text.now) result ≡ spec.last_behind key.now (spec.words_on line.now) }
{
    let mut found = None;
    let mut rest = line;
    'word: while let Some((word, more)) = split_word(rest) {
        found = rest_behind(key, word).or(found);
        rest = more;
    }
    rest_behind(key, rest).or(found)
}

// A value as far as auditd's separator.
#[tactic(auto, unfolding(crate::specs::Audit::cut))]
fn cut(value: &[u8]) -> &[u8]
    ensures { result.now ≡ spec.cut value.now }
{
    match split(value, SEPARATOR) {
        Some((front, _)) => front,
        None => value,
    }
}

/// The value of a field.
#[tactic(auto, unfolding(crate::specs::Audit::value_of))]
pub(crate) fn value<'a>(key: &[u8], line: &'a [u8]) -> Option<&'a [u8]>
    ensures { option_map (λ text. text.now) result ≡ spec.value_of key.now line.now }
{
    match last_behind(key, line) {
        Some(text) => Some(cut(text)),
        None => None,
    }
}

/// Whether a line has the fields of a filter's answer.
#[tactic(auto, unfolding(crate::specs::Audit::has_fields))]
pub(crate) fn has_fields(line: &[u8]) -> bool
    ensures { result ≡ spec.has_fields line.now }
{
    if value(b"arch=", line).is_none() {
        return false;
    }
    if value(b"syscall=", line).is_none() {
        return false;
    }
    value(b"code=", line).is_some()
}
