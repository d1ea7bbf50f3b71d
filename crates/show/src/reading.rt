//! What a bundle means, or where it is wrong.
ghost use Rattle.std.specs.Prelude.{◌≡◌, ◌≢◌, ◌≤◌, ◌⊎◌, ◌++◌, ◌∷◌, [], ℕ, List, IfOk, IfSome, codes, length, string_bytes};
ghost use Rattle.texts.specs.Lines.{line_feed};
ghost use Rattle.profile_json.specs.Place.{BreaksAt};
ghost use Rattle.profile_json.specs.Fault.{fault_of, text_of};
ghost use Rattle.wording.specs.Told.{TellsText};
ghost use Rattle.wording.specs.declared.told.End.TheVariants.{Refused};
ghost use Rattle.show.specs.Read as spec;

use crate::edition::{READ, of_first_edition};
use crate::entries::put_bundle;
use crate::json_text::{Trimmed, fault_of, without_unread};
use crate::near::put_nearest;
use crate::place::{Place, shape_of};
use crate::placed::{prefix_of, rest_of};
use crate::search::{Found, Wanted, Within, find, find_in_config};
use crate::unread::{with_beside, with_unread};
use machines::{Arch, Family};
use profile_json::{Bundle, Document, ProfileError, Refusal};
use serde_json::Value;
use std::alloc::{AllocError, Global};
use std::fmt::Write;
use wording::{End, Told};

// Adds why a text is no name that is known.
fn put_unknown(text: &mut String, found: &Found<'_>, what: &str) -> Result<(), AllocError> {
    let name = found.value.and_then(Value::as_str).unwrap_or("");
    write!(text, "{name:?} is no {what}")
}

// Adds that a flag is none, or that a key is not supported.
fn put_unsupported(text: &mut String, found: &Found<'_>) -> Result<(), AllocError> {
    if found.place.list == "flags" {
        return put_unknown(text, found, "flag that is known");
    }
    text.push_str("a key that is not supported")
}

// What an edition is not that is not read.
fn editions(family: Family) -> &'static str {
    match family {
        Family::Chosen => "edition that is read: 1.0.2, 1.1.0",
        Family::Whole => "edition that is read: 1.0.2, 1.1.0, 1.2.0, 1.2.1",
    }
}

// Adds what is wrong at the place of a fault.
fn put_why(
    text: &mut String,
    alloc: Global,
    family: Family,
    found: &Found<'_>,
    error: &ProfileError,
) -> Result<(), AllocError> {
    let asked = found.asked.name();
    match error {
        ProfileError::WrongType => {
            let shape = found.value.map_or("nothing", shape_of);
            write!(text, "{shape}, where {asked} is asked for")
        }
        ProfileError::MissingKey => write!(text, "missing, where {asked} is asked for"),
        ProfileError::NoSeccomp => write!(text, "missing, where {asked} is asked for"),
        ProfileError::Version => put_unknown(text, found, editions(family)),
        ProfileError::UnknownAction => put_unknown(text, found, "action that is known"),
        ProfileError::UnknownArch => put_unknown(text, found, "architecture that is known"),
        ProfileError::UnknownOp => put_unknown(text, found, "operator that is known"),
        ProfileError::UnknownCall(name) => {
            put_unknown(text, found, "call of these machines")?;
            put_nearest(text, alloc, family, name.as_str())
        }
        ProfileError::NativeMissing => text.push_str("the native machine is not listed"),
        ProfileError::EmptyNames => text.push_str("an empty list"),
        ProfileError::ErrnoNotTaken => text.push_str("beside an action that takes no number"),
        ProfileError::ErrnoRange => text.push_str("above 4095"),
        ProfileError::BadIndex => text.push_str("above 5"),
        ProfileError::RepeatedIndex => text.push_str("an argument that an earlier member names"),
        ProfileError::StrayDatum => text.push_str("a bit that is not in value"),
        ProfileError::UnsupportedKey => put_unsupported(text, found),
        _ => text.push_str("too many"),
    }
}

// Adds the line of a fault that was found.
fn put_found(
    text: &mut String,
    alloc: Global,
    family: Family,
    found: &Found<'_>,
    error: &ProfileError,
) -> Result<(), AllocError> {
    let place = found.place;
    write!(text, "{place}: ")?;
    put_why(text, alloc, family, found, error)?;
    text.push_str("\n")
}

// The places of the entries that overlap, where that is the fault.
fn overlap_in(error: &ProfileError) -> Option<(usize, usize)> {
    match error {
        ProfileError::Overlap { first, second, .. } => Some((*first, *second)),
        _ => None,
    }
}

// Adds the line of the entries that overlap.
fn put_overlap(text: &mut String, first: usize, second: usize) -> Result<(), AllocError> {
    writeln!(
        text,
        "linux.seccomp.syscalls[{second}]: another action for a call that linux.seccomp.syscalls[{first}] matches too"
    )
}

// Adds the line of the place of a fault, if it was found.
fn put_if_found(
    text: &mut String,
    alloc: Global,
    family: Family,
    found: Option<Found<'_>>,
    error: &ProfileError,
) -> Result<(), AllocError> {
    match found {
        Some(found) => put_found(text, alloc, family, &found, error),
        None => text.push_str("linux.seccomp.syscalls: too many rules or entries\n"),
    }
}

// The entries of a bundle in which the fault stands of a place.
fn within(place: profile_json::Place) -> Within {
    match place {
        profile_json::Place::Entry(at, _) => Within::One(at),
        _ => Within::None,
    }
}

// Adds the line of the place of a fault.
fn put_place(
    text: &mut String,
    alloc: Global,
    family: Family,
    value: &Value,
    refusal: &Refusal,
) -> Result<(), AllocError> {
    let error = &refusal.error;
    if let Some((first, second)) = overlap_in(error) {
        return put_overlap(text, first, second);
    }
    let (number, _) = error.label();
    let wanted = Wanted {
        number,
        family,
        is_config: false,
        within: within(refusal.place),
    };
    put_if_found(text, alloc, family, find(wanted, value), error)
}

// Adds the line and the column at which a text is no JSON.
fn put_syntax(text: &mut String, alloc: Global, bytes: &[u8]) -> Result<(), AllocError> {
    match Value::from_slice(alloc, bytes) {
        Ok(_) => Ok(()),
        Err(error) => {
            if error.is_memory() {
                return Err(AllocError);
            }
            let fault = fault_of(alloc, bytes, &error);
            writeln!(text, "{fault}")
        }
    }
}

// Adds the line of the place of a fault.
fn put_fault(
    text: &mut String,
    alloc: Global,
    document: &Document,
    refusal: &Refusal,
) -> Result<(), AllocError> {
    match document.tree() {
        Ok(value) => put_place(text, alloc, document.native().family(), value, refusal),
        Err(_) => put_syntax(text, alloc, document.bytes()),
    }
}

/// An engine's configuration, its section, and the place at which that stands.
#[derive(Clone, Copy)]
pub struct Configuration<'a> {
    pub root: &'a Value,
    pub section: &'a Value,
    pub top: &'static str,
}

/// The line of the place of a fault in an engine's configuration, of which a bundle was made that is refused.
pub fn fault_in(
    alloc: Global,
    family: Family,
    config: Configuration<'_>,
    error: &ProfileError,
) -> Result<String, AllocError> {
    let mut text = String::new(alloc);
    let (number, _) = error.label();
    let wanted = Wanted {
        number,
        family,
        is_config: true,
        within: Within::All,
    };
    let found = find_in_config(wanted, config.root, config.top, config.section);
    put_if_found(&mut text, alloc, family, found, error)?;
    Ok(text)
}

// What is told of the place of a fault.
fn found_line(alloc: Global, document: &Document, refusal: &Refusal) -> Result<String, AllocError> {
    let mut text = String::new(alloc);
    put_fault(&mut text, alloc, document, refusal)?;
    Ok(text)
}

/// The line of the place of a fault: the place that was told with it, and what stands there.
pub(crate) fn place_line(
    alloc: Global,
    document: &Document,
    refusal: &Refusal,
) -> Result<String, AllocError>
    ensures { IfOk result (λ line. spec.IsPlaceLine refusal.now.place (string_bytes line)) }
{
    let found = found_line(alloc, document, refusal)?;
    let prefix = prefix_of(alloc, refusal.place)?;
    let rest = rest_of(&found, &prefix);
    format!(in alloc; "at {prefix}{rest}")
}

// Adds why a bundle is refused, and the line of the place.
fn refused_at(mut text: String, place: &str, error: ProfileError) -> Result<Told, AllocError>
    ensures text { IfOk result (λ told. told.bytes.items
        ≡ string_bytes text ++ (codes "refused profile " ++ (text_of error ++ line_feed ∷ place.now))) }
    ensures end { IfOk result (λ told. told.end ≡ Refused) }
{
    write!(text, "refused profile {error}\n{place}")?;
    Ok(Told {
        bytes: text.into_bytes(),
        end: End::Refused,
    })
}

// Adds why and where a bundle is refused.
fn refused(
    text: String,
    alloc: Global,
    document: &Document,
    refusal: &Refusal,
) -> Result<Told, AllocError>
    ensures { IfOk result (λ told. (told.end ≡ Refused) × ((line : List ℕ) × spec.IsPlaceLine refusal.now.place line × (told.bytes.items
        ≡ string_bytes text ++ (codes "refused profile " ++ (text_of refusal.now.error ++ line_feed ∷ line))))) }
{
    let line = place_line(alloc, document, refusal)?;
    refused_at(text, &line, refusal.error)
}

// What a bundle means, behind a text.
fn meaning_of(mut text: String, bundle: &Bundle) -> Result<Told, AllocError>
    ensures { IfOk result (TellsText (string_bytes text
        ++ spec.bundle_text bundle.now.profile bundle.now.by_entry.rules.items bundle.now.by_entry.ends.items)) }
{
    put_bundle(&mut text, &bundle.profile, &bundle.by_entry)?;
    Ok(Told {
        bytes: text.into_bytes(),
        end: End::Done,
    })
}

// Adds what a bundle means, or why and where it is refused.
fn read_behind(text: String, alloc: Global, document: &Document) -> Result<Told, AllocError> {
    match document.outcome() {
        Ok(read) => meaning_of(text, read),
        Err(refusal) => match refusal.error {
            ProfileError::OutOfMemory => Err(AllocError),
            _ => refused(text, alloc, document, refusal),
        },
    }
}

// What was told, as a refusal.
fn as_refusal(told: Told) -> Told
    ensures { result.end ≡ Refused }
{
    Told {
        bytes: told.bytes,
        end: End::Refused,
    }
}

// Tells what a bundle means, or why and where it is refused. An edition that begins with `1.` is told, and read as the first, but
// it is refused.
fn read_trimmed(alloc: Global, document: &Document) -> Result<Told, AllocError> {
    let mut text = String::new(alloc);
    let native = document.native();
    match of_first_edition(alloc, &mut text, native.family(), document.bytes())? {
        Some(other) => {
            let told = read_behind(text, alloc, &Document::new(alloc, other, native))?;
            Ok(as_refusal(told))
        }
        None => read_behind(text, alloc, document),
    }
}

// What a bundle whose edition is refused would mean, as a refusal.
fn read_as_first(alloc: Global, document: &Document) -> Result<Told, AllocError>
    ensures { IfOk result (λ told. told.end ≡ Refused) }
{
    let told = read_trimmed(alloc, document)?;
    Ok(as_refusal(told))
}

// Tells why and where a bundle is refused. One with another edition may be read as the first.
fn not_read(alloc: Global, document: &Document, refusal: &Refusal) -> Result<Told, AllocError>
    ensures { IfSome (fault_of refusal.now.error) (BreaksAt document.now.bytes document.now.native refusal.now.place)
        → IfOk result (spec.IsRead document.now.native document.now.bytes) }
{
    match refusal.error {
        ProfileError::OutOfMemory => Err(AllocError),
        ProfileError::Version => read_as_first(alloc, document),
        _ => refused(String::new(alloc), alloc, document, refusal),
    }
}

// Tells what a bundle means, or why and where it is refused.
fn read_whole(alloc: Global, document: &Document) -> Result<Told, AllocError>
    ensures { IfOk result (spec.IsRead document.now.native document.now.bytes) }
{
    match document.outcome() {
        Ok(read) => meaning_of(String::new(alloc), read),
        Err(refusal) => not_read(alloc, document, refusal),
    }
}

/// Tells what a bundle means. This is its machines, what is said of calls that no entry matches, a line for each entry, and the flags and
/// the listener. Of a bundle that is refused, it is why, and the place of the fault. Behind it stands a line for each member that is not
/// read.
pub fn describe(alloc: Global, document: &Document) -> Result<Told, AllocError>
    ensures { IfOk result (spec.IsReadOut document.now.native document.now.bytes) }
{
    let native = document.native();
    let meaning = read_whole(alloc, document)?;
    let told = with_beside(alloc, native, document.bytes(), meaning)?;
    with_unread(alloc, native, document.bytes(), told)
}
