//! Which of several verdicts counts.
ghost use Rattle.std.specs.Prelude.{◌≡◌, map};
ghost use Rattle.call_record.specs.Verdict.{is_stricter};
ghost use Rattle.together.specs.Word.{is_laxest, laxest_of, word_of};

use call_record::{Word, strictest};

/// Which verdict counts where several profiles say one.
#[derive(Clone, Copy, Debug, PartialEq, Eq)]
pub enum Way {
    /// The laxest, the first of equals.
    Laxest,
    /// The strictest, the last of equals.
    Strictest,
}

// Whether the action of one verdict, as a signed number, is less than that of another.
fn is_stricter(word: Word, other: Word) -> bool
    ensures { result ≡ is_stricter word other }
{
    word.action().0.cast_signed() < other.action().0.cast_signed()
}

// Whether no verdict of a list is laxer.
fn is_laxest(words: &[Word], word: Word) -> bool
    ensures { result ≡ is_laxest words.now word }
{
    words.iter().all(|other| !is_stricter(word, *other))
}

/// The first of the laxest verdicts; KILL_PROCESS if there is none.
pub fn laxest(words: &[Word]) -> Word
    ensures { result ≡ laxest_of words.now }
{
    for word in words {
        if is_laxest(words, *word) {
            return *word;
        }
    }
    Word::KILL_PROCESS
}

/// The verdict that counts.
pub(crate) fn word_of(way: Way, words: Vec<Word>) -> Word
    ensures { result ≡ word_of way words.items }
{
    let mut words = words;
    match way {
        Way::Laxest => laxest(&words),
        Way::Strictest => {
            words.reverse();
            strictest(&words)
        }
    }
}
