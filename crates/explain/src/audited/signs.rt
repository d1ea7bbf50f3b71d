//! What the words of a line of a kernel's audit say of the line besides the fields that are read.
ghost use Rattle.std.specs.Prelude.{◌≡◌};
ghost use Rattle.explain.specs.Audit.{signs_on as all_signs};
ghost use Rattle.explain.specs.Signs as spec;

use crate::audited::fields::{rest_behind, split_word};

/// How often something stands in a line.
#[derive(Clone, Copy)]
pub(crate) enum Times {
    Never,
    Once,
    Often,
}

/// Signs of a line. They tell how often a word says that it is a filter's record, how many answers stand behind the last signal, and whether
/// records were lost.
#[derive(Clone, Copy)]
pub(crate) struct Signs {
    pub(crate) marks: Times,
    pub(crate) answers: Times,
    pub(crate) lost: bool,
}

// Once more.
fn more(times: Times) -> Times
    ensures { result ≡ spec.more times }
{
    match times {
        Times::Never => Times::Once,
        Times::Once => Times::Often,
        Times::Often => Times::Often,
    }
}

fn is_never(times: Times) -> bool
    ensures { result ≡ spec.is_never times }
{
    match times {
        Times::Never => true,
        Times::Once => false,
        Times::Often => false,
    }
}

fn is_often(times: Times) -> bool
    ensures { result ≡ spec.is_often times }
{
    match times {
        Times::Never => false,
        Times::Once => false,
        Times::Often => true,
    }
}

// Whether a word begins with a key.
fn begins(key: &[u8], word: &[u8]) -> bool
    ensures { result ≡ spec.begins key.now word.now }
{
    rest_behind(key, word).is_some()
}

// Whether a word is a text.
fn is_text(text: &[u8], word: &[u8]) -> bool
    ensures { result ≡ spec.is_text text.now word.now }
{
    match rest_behind(text, word) {
        Some(rest) => rest.is_empty(),
        None => false,
    }
}

// Whether a word says that its line is the record of a filter's answer.
fn is_mark(word: &[u8]) -> bool
    ensures { result ≡ spec.is_mark word.now }
{
    if is_text(b"type=1326", word) {
        return true;
    }
    if is_text(b"type=SECCOMP", word) {
        return true;
    }
    is_text(b"SECCOMP", word)
}

// Whether a word says that records were lost.
fn is_loss(word: &[u8]) -> bool
    ensures { result ≡ spec.is_loss word.now }
{
    if begins(b"audit_lost=", word) {
        return true;
    }
    begins(b"kauditd_printk_skb:", word)
}

// The signs after one word more that is no mark.
fn with_other(signs: Signs, word: &[u8]) -> Signs
    ensures { result ≡ spec.with_other signs word.now }
{
    let Signs {
        marks,
        answers,
        lost,
    } = signs;
    if begins(b"code=", word) {
        return Signs {
            marks,
            answers: more(answers),
            lost,
        };
    }
    if is_loss(word) {
        return Signs {
            marks,
            answers,
            lost: true,
        };
    }
    signs
}

// The signs after one word more.
fn with_word(signs: Signs, word: &[u8]) -> Signs
    ensures { result ≡ spec.with_word signs word.now }
{
    let Signs {
        marks,
        answers,
        lost,
    } = signs;
    if is_mark(word) {
        return Signs {
            marks: more(marks),
            answers,
            lost,
        };
    }
    if begins(b"sig=", word) {
        return Signs {
            marks,
            answers: Times::Never,
            lost,
        };
    }
    with_other(signs, word)
}

/// The signs of a line.
pub(crate) fn signs_on(line: &[u8]) -> Signs
    ensures { result ≡ all_signs line.now }
{
    let mut signs = Signs {
        marks: Times::Never,
        answers: Times::Never,
        lost: false,
    };
    let mut rest = line;
    'word: while let Some((word, more)) = split_word(rest) {
        signs = with_word(signs, word);
        rest = more;
    }
    with_word(signs, rest)
}

/// Whether a line has more than one record.
pub(crate) fn is_doubled(signs: Signs) -> bool
    ensures { result ≡ spec.is_doubled signs }
{
    if is_often(signs.marks) {
        return true;
    }
    is_often(signs.answers)
}

/// Whether a line says that it is a filter's record.
pub(crate) fn is_marked(signs: Signs) -> bool
    ensures { result ≡ spec.is_marked signs }
{
    !is_never(signs.marks)
}
