//! From bundles to their checked filters, with which a script is run: what `ccell run` does.
ghost use Rattle.std.specs.Prelude.{◌≡◌, ◌≢◌, ◌+◌, ◌-◌, ◌<◌, ◌^◌, ℕ, List, All, IfErr, IfOk, Ok, length, map, true, vec_len};
ghost use Rattle.maker.specs.declared.make_error.MakeError.TheVariants.{OutOfMemory};
ghost use Rattle.maker.specs.Exported.{IsMakeError};
ghost use Rattle.maker.specs.Plain.{IsPlainBundle};
ghost use Rattle.cli.specs.Running.{AnswersScript, FirstMakeError, HasAnswered, InTurn, IsBundleOf, RunsBundles, RunsScript};

use crate::stops::Stop;
use machines::Arch;
use maker::{CheckedBundle, MakeError, refuse};
use profile_json::Document;
use session::{Bundle, Bundles, run_script};
use std::alloc::{AllocError, Global};
use texts::{Sink, Source};

// A bundle's name in a script, its text, and what is made of it.
#[derive(Drop)]
struct Named {
    name: Option<String>,
    document: Option<Document>,
    checked_bundle: CheckedBundle,
}

// Room for so many bundles.
fn rooms_of(alloc: Global, count: usize) -> Result<Vec<Named>, AllocError>
    ensures { IfOk result (λ rooms. vec_len rooms ≡ count) }
{
    let mut rooms = Vec::new(alloc);
    for _ in 0..count {
        rooms.push(Named {
            name: None,
            document: None,
            checked_bundle: CheckedBundle::new(),
        })?;
    }
    Ok(rooms)
}

// A text, which is read for a native machine.
fn read_text<'a>(
    alloc: Global,
    native: Arch,
    text: &[u8],
    place: &'a mut Option<Document>,
) -> Result<&'a Document, AllocError>
    ensures native { IfOk result (λ document. document.now.native ≡ native) }
    ensures bytes { IfOk result (λ document. document.now.bytes ≡ text.now) }
{
    let mut bytes = Vec::new(alloc);
    bytes.extend_from_slice(text)?;
    Ok(place.insert(Document::new(alloc, bytes, native)))
}

// The bundle of a text at a place, which is read for a native machine.
fn bundle_of<'a>(
    alloc: Global,
    native: Arch,
    place: usize,
    text: &[u8],
    room: &'a mut Named,
) -> Result<Bundle<'a>, MakeError>
    requires { place < 2 ^ 64 - 1 }
    ensures ok { IfOk result (IsBundleOf native (place + 1) text.now) }
    ensures err { IfErr result (λ make_error. make_error ≢ OutOfMemory → IsMakeError native text.now make_error) }
{
    let Ok(own) = format!(in alloc; "b{}", place + 1) else {
        return Err(MakeError::OutOfMemory);
    };
    let Named {
        name,
        document,
        checked_bundle,
    } = room;
    let name: &'a String = name.insert(own);
    let name = name.as_str();
    let Ok(document) = read_text(alloc, native, text, document) else {
        return Err(MakeError::OutOfMemory);
    };
    match checked_bundle.fill(alloc, document) {
        Ok(checked) => Ok(Bundle { name, checked }),
        Err(make_error) => Err(make_error),
    }
}

// The bundles of texts, or why the first text without a checked filter has none.
fn bundles_of<'a>(
    alloc: Global,
    native: Arch,
    texts: &[Vec<u8>],
    rooms: &'a mut [Named],
) -> Result<Vec<Bundle<'a>>, MakeError>
    requires { length rooms.old ≡ length texts.now }
    ensures ok { IfOk result (λ list. InTurn (IsBundleOf native) 1 (map (λ t. t.items) texts.now) list.items) }
    ensures err { IfErr result (λ make_error. make_error ≢ OutOfMemory → FirstMakeError native (map (λ t. t.items) texts.now) make_error) }
{
    let mut list = Vec::new(alloc);
    for (place, room) in rooms.iter_mut().enumerate() {
        match bundle_of(alloc, native, place, &texts[place], room) {
            Ok(bundle) => {
                if list.push(bundle).is_err() {
                    return Err(MakeError::OutOfMemory);
                }
            }
            Err(make_error) => return Err(make_error),
        }
    }
    Ok(list)
}

// Answers each line of a script by a line. The answer is true.
fn run_checked<'a, 'b, I: Source, O: Sink>(
    alloc: Global,
    native: Arch,
    list: &'b [Bundle<'b>],
    input: &mut I,
    out: &mut O,
) -> Result<bool, Stop<'a>>
    ensures { (texts : List (List ℕ)) → InTurn (IsBundleOf native) 1 texts list.entry.now
        → AnswersScript I.left I.failures O.held O.failures input.old input.new out.old out.new native texts result }
{
    let bundles = Bundles { native, list };
    run_script(alloc, &bundles, input, out)?;
    Ok(true)
}

/// Answers each line of a script by a line, with the checked filters of bundles, which are named `b1`, `b2` and so on.
/// Their texts are read for a native machine. All of them are compiled, certified and checked before the first line is read. If
/// one is refused, the line that says so of the first such is written, and the function returns false.
pub fn run_bundles<'a, I: Source, O: Sink>(
    alloc: Global,
    native: Arch,
    texts: &[Vec<u8>],
    input: &mut I,
    out: &mut O,
) -> Result<bool, Stop<'a>>
    ensures runs { RunsBundles I.left I.failures O.held O.failures input.old input.new out.old out.new
        native (map (λ t. t.items) texts.now) result }
    // An answer of true says that the script was read to its end and answered.
    ensures done { result ≡ Ok true → HasAnswered native (map (λ t. t.items) texts.now)
        (I.left input.old) (I.left input.new) (O.held out.old) (O.held out.new) }
    // Of bundles that mean plain profiles none is refused: the script is run, unless memory is refused first.
    ensures own { All (IsPlainBundle native) (map (λ t. t.items) texts.now)
        → RunsScript I.left I.failures O.held O.failures input.old input.new out.old out.new
        native (map (λ t. t.items) texts.now) result }
{
    let mut rooms = rooms_of(alloc, texts.len())?;
    match bundles_of(alloc, native, texts, &mut rooms) {
        Ok(list) => run_checked(alloc, native, &list, input, out),
        Err(make_error) => Ok(refuse(alloc, &make_error, out)?),
    }
}
