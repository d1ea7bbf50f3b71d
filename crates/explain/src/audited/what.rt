//! The call that a word asks for.
ghost use Rattle.std.specs.Prelude.{◌≡◌, ◌++◌, ℕ, List, None, codes, IfOk, IfSome, string_bytes};
ghost use Rattle.machines.specs.declared.arch.Arch.{Arch as TheArch};
ghost use Rattle.explain.specs.inner.Found as spec;
ghost use Rattle.script.specs.Requests.{command_of};
ghost use Rattle.explain.specs.Any.{IsWhat};

use machines::Arch;
use script::{Request, one_command, read_line};
use std::alloc::{AllocError, Global};

// The line of a script with this word.
fn line_of(alloc: Global, word: &str) -> Result<String, AllocError>
    ensures { IfOk result (λ line. string_bytes line ≡ codes "call c 1 " ++ word.now) }
{
    let mut line = String::from_str(alloc, "call c 1 ")?;
    line.push_str(word)?;
    Ok(line)
}

// The call that a line of a script asks for, if it is one without a program.
fn call_of(request: Request<'_>) -> Option<(Arch, u32)>
    ensures { result ≡ spec.call_of (command_of request.entry) }
{
    match request {
        Request::Call {
            arch,
            nr,
            program: None,
            ..
        } => Some((arch, nr)),
        Request::Call {
            program: Some(_),
            ..
        } => None,
        Request::Create { .. } | Request::Start { .. } | Request::Delete { .. } => None,
        Request::State { .. } | Request::Kill { .. } => None,
    }
}

// The call that the line of a word asks for.
fn call_on(native: Arch, line: &str) -> Option<(Arch, u32)>
    ensures found { (word : List ℕ) → line.now ≡ codes "call c 1 " ++ word → IfSome result (λ call. IsWhat native word call.0 call.1) }
    ensures none { (word : List ℕ) → line.now ≡ codes "call c 1 " ++ word → result ≡ None
        → (arch : TheArch) (nr : ℕ) → IsWhat native word arch nr → ⊥ }
{
    one_command();
    match read_line(native, line.as_bytes()) {
        Some(request) => call_of(request),
        None => None,
    }
}

/// The call that a word asks for: a native call by its name, or one of a machine of the family by its number.
pub(crate) fn what_call(
    alloc: Global,
    native: Arch,
    word: &str,
) -> Result<Option<(Arch, u32)>, AllocError>
    ensures found { IfOk result (λ found. IfSome found (λ call. IsWhat native word.now call.0 call.1)) }
    ensures none { IfOk result (λ found. found ≡ None → (arch : TheArch) (nr : ℕ) → IsWhat native word.now arch nr → ⊥) }
{
    let line = line_of(alloc, word)?;
    Ok(call_on(native, line.as_str()))
}
