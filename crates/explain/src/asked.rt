//! The call record that command line arguments ask for.
ghost use Rattle.std.specs.Prelude.{◌≡◌, ◌++◌, ◌∷◌, IfOk, IfSome, None, string_bytes, true};
ghost use Rattle.std.specs.List.{flat_map, list_any};
ghost use Rattle.texts.specs.Lines.{space};
ghost use Rattle.call_record.specs.declared.layout.Record.{Record as TheRecord};
ghost use Rattle.call_words.specs.Constants.{numeral};
ghost use Rattle.script.specs.Requests.{command_of};
ghost use Rattle.explain.specs.Asked as spec;
ghost use Rattle.explain.specs.inner.Found.{IsRecordIn};

use call_record::Record;
use call_words::sum;
use hex::FromHex;
use machines::Arch;
use script::{Request, one_command, read_line};
use std::alloc::{AllocError, Global};
use std::fmt::Write;

fn has_space(argument: &str) -> bool
    ensures { result ≡ spec.has_space argument.now }
{
    argument.bytes().any(|b| b == b' ')
}

fn any_has_space(arguments: &[&str]) -> bool
    ensures { result ≡ list_any (λ w. spec.has_space w.now) arguments.now }
{
    arguments.iter().any(|argument| has_space(argument))
}

// Adds a word behind a space.
fn put_word(text: &mut String, word: &str) -> Result<(), AllocError>
    ensures { IfOk result (λ _. string_bytes text.new ≡ string_bytes text.old ++ (space ∷ word.now)) }
{
    text.push_str(" ")?;
    text.push_str(word)
}

// Adds an argument behind a space: the number, if it is names of constants.
fn put_argument(text: &mut String, argument: &str) -> Result<(), AllocError>
    ensures { IfOk result (λ _. string_bytes text.new ≡ string_bytes text.old ++ (space ∷ numeral argument.now)) }
{
    match sum(argument) {
        Some(number) => write!(text, " {number}"),
        None => put_word(text, argument),
    }
}

// Adds arguments.
fn put_arguments(text: &mut String, arguments: &[&str]) -> Result<(), AllocError>
    ensures { IfOk result (λ _. string_bytes text.new ≡ string_bytes text.old ++ flat_map (λ a. space ∷ numeral a.now) arguments.now) }
{
    for argument in arguments {
        put_argument(text, argument)?;
    }
    Ok(())
}

// Adds a call's name or number, and its arguments.
fn put_call(text: &mut String, words: &[&str]) -> Result<(), AllocError>
    ensures { IfOk result (λ _. string_bytes text.new ≡ string_bytes text.old ++ spec.call_text words.now) }
{
    match words {
        [] => Ok(()),
        [word, arguments @ ..] => {
            put_word(text, word)?;
            put_arguments(text, arguments)
        }
    }
}

// The line of a script that the command line arguments make.
fn line_of(alloc: Global, arguments: &[&str]) -> Result<String, AllocError>
    ensures { IfOk result (λ text. string_bytes text ≡ spec.line_of arguments.now) }
{
    let mut text = String::from_str(alloc, "call c 1")?;
    put_call(&mut text, arguments)?;
    Ok(text)
}

// The record of a call.
fn record_of(arch: Arch, nr: u32, args: [u64; 6]) -> Record
    ensures { spec.IsRecordOf arch nr args result }
{
    record_with(arch.token(), nr, args)
}

// The record of a call with a token.
fn record_with(token: u32, nr: u32, args: [u64; 6]) -> Record
    ensures number { result.nr ≡ nr }
    ensures token { result.arch ≡ token }
    ensures pointer { result.ip ≡ 0 }
    ensures arguments { result.args ≡ args }
{
    Record {
        nr,
        arch: token,
        ip: 0,
        args,
    }
}

// The record of what a line of a script asks for, if that is a call without a program.
fn record_in(request: Request<'_>) -> Option<Record>
    ensures { IsRecordIn (command_of request.entry) result }
{
    match request {
        Request::Call {
            arch,
            nr,
            args,
            program: None,
            ..
        } => Some(record_of(arch, nr, args)),
        Request::Call {
            program: Some(_),
            ..
        } => None,
        Request::Create { .. } | Request::Start { .. } | Request::Delete { .. } => None,
        Request::State { .. } | Request::Kill { .. } => None,
    }
}

// The record of the call that a line of a script is, if it has no program.
fn call_on(native: Arch, line: &str) -> Option<Record>
    ensures found { IfSome result (λ r. spec.IsOnLine native line.now r) }
    ensures none { result ≡ None → (r : TheRecord) → spec.IsOnLine native line.now r → ⊥ }
{
    one_command();
    match read_line(native, line.as_bytes()) {
        Some(request) => record_in(request),
        None => None,
    }
}

/// The record of a call that command line arguments ask for. They give its name or number, and its arguments, as in a line of a script or
/// by names of constants.
pub(crate) fn asked(
    alloc: Global,
    native: Arch,
    arguments: &[&str],
) -> Result<Option<Record>, AllocError>
    ensures found { IfOk result (λ found. IfSome found (spec.IsAsked native arguments.now)) }
    ensures none { IfOk result (λ found. found ≡ None → (r : TheRecord) → spec.IsAsked native arguments.now r → ⊥) }
{
    if any_has_space(arguments) {
        return Ok(None);
    }
    let line = line_of(alloc, arguments)?;
    Ok(call_on(native, line.as_str()))
}

// The record whose bytes are spelled by 128 hexadecimal digits.
fn spelled(digits: &str) -> Option<Record>
    ensures found { IfSome result (spec.IsSpelled digits.now) }
    ensures none { result ≡ None → (r : TheRecord) → spec.IsSpelled digits.now r → ⊥ }
{
    match <[u8; 64] as FromHex>::from_hex(digits) {
        Ok(bytes) => Some(Record::from_bytes(&bytes)),
        Err(_) => None,
    }
}

/// Whether the arguments are `record` and digits.
pub(crate) fn are_bytes(arguments: &[&str]) -> bool
    ensures { result ≡ spec.are_bytes arguments.now }
{
    match arguments {
        [mark, _digits] => *mark == "record",
        _ => false,
    }
}

// The record that is spelled by the second of two arguments.
fn spelled_in(arguments: &[&str]) -> Option<Record>
    requires { spec.are_bytes arguments.now ≡ true }
    ensures found { IfSome result (spec.IsByBytes arguments.now) }
    ensures none { result ≡ None → (r : TheRecord) → spec.IsByBytes arguments.now r → ⊥ }
{
    match arguments {
        [_mark, digits] => spelled(digits),
        _ => None,
    }
}

/// The record that command line arguments ask for: `record` and its digits, or a call and its arguments.
pub(crate) fn call_in(
    alloc: Global,
    native: Arch,
    arguments: &[&str],
) -> Result<Option<Record>, AllocError>
    ensures found { IfOk result (λ found. IfSome found (spec.IsCall native arguments.now)) }
    ensures none { IfOk result (λ found. found ≡ None → (r : TheRecord) → spec.IsCall native arguments.now r → ⊥) }
{
    if are_bytes(arguments) {
        return Ok(spelled_in(arguments));
    }
    asked(alloc, native, arguments)
}
