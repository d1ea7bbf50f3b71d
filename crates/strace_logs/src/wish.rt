//! What the words of a command ask for.
ghost use Rattle.std.specs.Prelude.{◌≡◌, ◌++◌, ◌∷◌, [], IfOk, IfSome, List, ℕ, codes, map, true};
ghost use Rattle.strace_logs.specs.Wish as spec;
ghost use Rattle.strace_logs.specs.Wish.{AskFor};
ghost use Rattle.strace_logs.specs.inner.Wished.{Asks, AsksTo, IsMark};

use crate::keeps::{Keep, is_kept};
use crate::lists::{Otherwise, Runtime};
use machines::Arch;
use std::alloc::{AllocError, Global};

/// The files of logs, the calls of which values are kept, and the runtime whose own calls are added. Also what becomes of the calls that no
/// log shows, and machines that are listed besides those of the logs.
#[derive(Drop)]
pub struct Wish<'a> {
    pub logs: Vec<&'a str>,
    pub keeps: Vec<Keep<'a>>,
    pub runtime: Option<Runtime>,
    pub otherwise: Otherwise,
    pub machines: Vec<Arch>,
}

// Adds a call of which values are kept, unless the word asks for none or the call has some.
fn put_keep<'a>(native: Arch, wish: &mut Wish<'a>, word: &'a str) -> Result<bool, AllocError>
    ensures { (before : List (List ℕ)) → Asks before wish.old
        → IfOk result (λ is_read. is_read ≡ true → Asks (before ++ codes "keep" ∷ word.entry.now ∷ []) wish.new) }
{
    let Some(keep) = Keep::read(native, word) else {
        return Ok(false);
    };
    if is_kept(&wish.keeps, keep.name) {
        return Ok(false);
    }
    wish.keeps.push(keep)?;
    Ok(true)
}

// Adds what a word and the one behind it ask for: false where they ask for nothing.
fn put_pair<'a>(
    native: Arch,
    wish: &mut Wish<'a>,
    word: &str,
    value: &'a str,
) -> Result<bool, AllocError>
    requires { spec.is_mark word.now ≡ true }
    ensures { (before : List (List ℕ)) → Asks before wish.old
        → IfOk result (λ is_read. is_read ≡ true → Asks (before ++ word.now ∷ value.entry.now ∷ []) wish.new) }
{
    if word == "keep" {
        return put_keep(native, wish, value);
    }
    if word == "for" {
        wish.runtime = Runtime::called(value);
        return Ok(wish.runtime.is_some());
    }
    match Otherwise::called(value) {
        Some(otherwise) => {
            wish.otherwise = otherwise;
            Ok(true)
        }
        None => Ok(false),
    }
}

// Whether a word asks for something by the word behind it.
fn is_mark(word: &str) -> bool
    ensures { result ≡ spec.is_mark word.now }
{
    word == "keep" || word == "for" || word == "else"
}

// Adds what a word asks for, by the mark before it. Returns the mark that it is, or none at all if it asks for nothing.
fn put_word<'a>(
    native: Arch,
    wish: &mut Wish<'a>,
    mark: Option<&'a str>,
    word: &'a str,
) -> Result<Option<Option<&'a str>>, AllocError>
    requires { IfSome mark IsMark }
    ensures mark { IfOk result (λ next. IfSome next (λ m. IfSome m IsMark)) }
    ensures asks { (before : List (List ℕ)) → AsksTo before mark.entry wish.old
        → IfOk result (λ next. IfSome next (λ m. AsksTo (before ++ word.entry.now ∷ []) m wish.new)) }
{
    if let Some(mark) = mark {
        let is_read = put_pair(native, wish, mark, word)?;
        return Ok(if is_read { Some(None) } else { None });
    }
    if is_mark(word) {
        return Ok(Some(Some(word)));
    }
    wish.logs.push(word)?;
    Ok(Some(None))
}

// Adds what words ask for: false where one of them asks for nothing.
fn put_words<'a>(native: Arch, wish: &mut Wish<'a>, words: &[&'a str]) -> Result<bool, AllocError>
    ensures { Asks [] wish.old → IfOk result (λ is_read. is_read ≡ true → Asks (map (λ w. w.now) words.now) wish.new) }
{
    let mut mark = None;
    for word in words {
        match put_word(native, wish, mark, word)? {
            Some(next) => mark = next,
            None => return Ok(false),
        }
    }
    Ok(mark.is_none())
}

// Whether a word stands twice.
fn stands_twice(words: &[&str], word: &str) -> bool {
    let mut stood = false;
    for other in words {
        if *other == word {
            if stood {
                return true;
            }
            stood = true;
        }
    }
    false
}

/// What words ask for: files of logs, one at least, and among them `keep CALL:ARG[,ARG]`, and once at most each
/// `for crun|runc|bwrap|docker|podman` and `else errno|enosys|log|kill`.
pub fn wish_of<'a>(
    alloc: Global,
    native: Arch,
    words: &[&'a str],
) -> Result<Option<Wish<'a>>, AllocError>
    ensures { IfOk result (λ asked. IfSome asked (λ wish.
        AskFor (map (λ w. w.now) words.now) (map (λ log. log.now) wish.logs.items) wish.runtime wish.otherwise)) }
{
    if stands_twice(words, "for") || stands_twice(words, "else") {
        return Ok(None);
    }
    let mut wish = Wish {
        logs: Vec::new(alloc),
        keeps: Vec::new(alloc),
        runtime: None,
        otherwise: Otherwise::Errno,
        machines: Vec::new(alloc),
    };
    let is_read = put_words(native, &mut wish, words)?;
    if !is_read || wish.logs.is_empty() {
        return Ok(None);
    }
    Ok(Some(wish))
}
