//! What is asked of a configuration: the words behind its name.
ghost use Rattle.std.specs.Prelude.{◌≡◌, ◌↔◌, Some, map};
ghost use Rattle.engines.specs.Words.{AskFor};
ghost use Rattle.engines.specs.declared.words.Wanted.{Wanted as TheWanted};
ghost use Rattle.engines.specs.inner.Reading as spec;

use crate::capabilities::{Capabilities, Engine, capability_named, engine_named};
use crate::kernels::{Kernel, TABLES, kernel_of};
use crate::settling::Choice;

/// For which container an engine's own profile is worked out, and on which kernel.
#[derive(Clone, Copy, Debug, PartialEq, Eq)]
pub struct Container {
    pub capabilities: Capabilities,
    pub kernel: Kernel,
}

/// What is asked: whether the bundle may say less than the configuration, and whether refusals are to be logged in place of refused. Also,
/// which of two entries counts that say unlike things of one call. And for which container an engine's own profile is worked out.
#[derive(Clone, Copy, Debug, PartialEq, Eq)]
pub struct Wanted {
    pub may_widen: bool,
    pub logs: bool,
    pub choice: Option<Choice>,
    pub container: Option<Container>,
}

// What the next word may be.
#[derive(Clone, Copy)]
enum Awaits {
    Word,
    Engine,
    Kernel,
    /// A capability, or once there is one also another word.
    Capability,
    More,
}

// The words as far as they were read.
#[derive(Clone, Copy)]
struct Words {
    may_widen: bool,
    logs: bool,
    choice: Option<Choice>,
    engine: Option<Engine>,
    more: Option<u64>,
    kernel: Option<Kernel>,
    awaits: Awaits,
}

#[tactic(auto, unfolding(crate::specs::inner::Reading::choice_called))]
fn choice_named(word: &str) -> Option<Choice>
    ensures { result ≡ spec.choice_called word.now }
{
    match word {
        "first" => Some(Choice::First),
        "looser" => Some(Choice::Looser),
        "stricter" => Some(Choice::Stricter),
        "like-libseccomp" => Some(Choice::LikeLibseccomp),
        _ => None,
    }
}

// What was read with a word, unless such a word stood before.
fn unless(stood: bool, words: Words) -> Option<Words>
    ensures { result ≡ spec.unless stood words }
{
    if stood { None } else { Some(words) }
}

// With a word that settles overlaps, of which there may be one.
fn with_choice(words: Words, word: &str) -> Option<Words>
    ensures { result ≡ spec.with_choice words word.now }
{
    let choice = choice_named(word)?;
    let next = Words {
        choice: Some(choice),
        ..words
    };
    unless(words.choice.is_some(), next)
}

// With a word that begins what is asked. A further one is a row here.
#[tactic(auto, unfolding(crate::specs::inner::Reading::with_word))]
fn with_word(words: Words, word: &str) -> Option<Words>
    ensures { result ≡ spec.with_word words word.now }
{
    let words = Words {
        awaits: Awaits::Word,
        ..words
    };
    match word {
        "widen" => unless(
            words.may_widen,
            Words {
                may_widen: true,
                ..words
            },
        ),
        "log" => unless(
            words.logs,
            Words {
                logs: true,
                ..words
            },
        ),
        "for" => awaiting(words, Awaits::Engine, words.engine.is_some()),
        "cap" => awaiting(words, Awaits::Capability, words.more.is_some()),
        "kernel" => awaiting(words, Awaits::Kernel, words.kernel.is_some()),
        _ => with_choice(words, word),
    }
}

// With a word that others have to follow, unless it stood before.
fn awaiting(words: Words, awaits: Awaits, stood: bool) -> Option<Words>
    ensures { result ≡ spec.unless stood (record words { awaits = awaits }) }
{
    unless(stood, Words { awaits, ..words })
}

// With the name of an engine behind `for`.
fn with_engine(words: Words, word: &str) -> Option<Words>
    ensures { result ≡ spec.with_engine words word.now }
{
    let engine = engine_named(word)?;
    Some(Words {
        engine: Some(engine),
        awaits: Awaits::Word,
        ..words
    })
}

// With the edition of a kernel behind `kernel`.
fn with_kernel(words: Words, word: &str) -> Option<Words>
    ensures { result ≡ spec.with_kernel words word.now }
{
    let kernel = kernel_of(word)?;
    Some(Words {
        kernel: Some(kernel),
        awaits: Awaits::Word,
        ..words
    })
}

// With the bits of a capability behind `cap`.
fn with_bits(words: Words, bits: u64) -> Words
    ensures { result ≡ spec.with_bits words bits }
{
    Words {
        more: Some(words.more.unwrap_or(0) | bits),
        awaits: Awaits::More,
        ..words
    }
}

// With the next word.
fn with_next(words: Words, word: &str) -> Option<Words>
    ensures { result ≡ spec.with_next words word.now }
{
    match words.awaits {
        Awaits::Word => with_word(words, word),
        Awaits::Engine => with_engine(words, word),
        Awaits::Kernel => with_kernel(words, word),
        Awaits::Capability => match capability_named(word) {
            Some(bits) => Some(with_bits(words, bits)),
            None => None,
        },
        Awaits::More => match capability_named(word) {
            Some(bits) => Some(with_bits(words, bits)),
            None => with_word(words, word),
        },
    }
}

// The container of the words. Capabilities and a kernel are those of the container that an engine starts.
fn container_of(words: Words) -> Option<Option<Container>>
    ensures { result ≡ spec.container_of words.engine words.more words.kernel }
{
    let Some(engine) = words.engine else {
        if words.more.is_some() || words.kernel.is_some() {
            return None;
        }
        return Some(None);
    };
    Some(Some(Container {
        capabilities: Capabilities {
            engine,
            more: words.more.unwrap_or(0),
        },
        kernel: words.kernel.unwrap_or(TABLES),
    }))
}

// What is asked by words that were read to their end.
fn finished(words: Words) -> Option<Wanted>
    ensures { result ≡ spec.finished words }
{
    match words.awaits {
        Awaits::Word | Awaits::More => {
            let container = container_of(words)?;
            Some(Wanted {
                may_widen: words.may_widen,
                logs: words.logs,
                choice: words.choice,
                container,
            })
        }
        Awaits::Engine | Awaits::Kernel | Awaits::Capability => None,
    }
}

// What is asked, word by word.
fn read(words: &[&str]) -> Option<Wanted>
    ensures { result ≡ spec.asked (map (λ w. w.now) words.now) }
{
    let mut so_far = Words {
        may_widen: false,
        logs: false,
        choice: None,
        engine: None,
        more: None,
        kernel: None,
        awaits: Awaits::Word,
    };
    for word in words {
        match with_next(so_far, *word) {
            Some(next) => so_far = next,
            None => return None,
        }
    }
    finished(so_far)
}

/// What words ask for: `widen`, `log`, one of `first`, `looser`, `stricter` and `like-libseccomp`, `for` an engine, `cap`
/// capabilities, and `kernel` an edition, in any order, each once. `None` where they ask for nothing.
pub fn wanted_of(words: &[&str]) -> Option<Wanted>
    ensures { (wanted : TheWanted) → (result ≡ Some wanted) ↔ AskFor (map (λ w. w.now) words.now) wanted }
{
    read(words)
}
