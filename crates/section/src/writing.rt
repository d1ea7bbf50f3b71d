//! Sections of bundles.
ghost use Rattle.std.specs.Prelude.{◌≡◌, ◌≢◌, IfOk, IfSome, IsTrue, None, string_bytes};
ghost use Rattle.section.specs.declared.kinds.Kind.TheVariants.{Section};
ghost use Rattle.profile_json.specs.Fault.{fault_of};
ghost use Rattle.section.specs.Sections.{IsSectionOf, KeepsMeaning, MeansProfile};
ghost use Rattle.section.specs.Texts.{IsKind, in_bundle};

use crate::equal::are_same;
use crate::kinds::Kind;
use crate::reading::{kind_of_text, put_in_bundle};
use machines::Arch;
use profile::Profile;
use profile_json::{ProfileError, read_bundle};
use std::alloc::{AllocError, Global};

// What stands before a section in the bundles that are written here, and behind it.
const BEFORE: &str = "\"linux\": {\n    \"seccomp\": ";

const BEHIND: &str = "\n  }\n}\n";

// The lines of the section in a bundle.
fn lines_of(bundle: &[u8]) -> Option<&str> {
    let Ok(text) = str::from_utf8(bundle) else {
        return None;
    };
    let (_head, behind) = text.split_once(BEFORE)?;
    behind.strip_suffix(BEHIND)
}

// The lines of a section as they stand where nothing is above them.
fn moved(alloc: Global, lines: &str) -> Result<String, AllocError> {
    let mut text = String::new(alloc);
    for line in lines.lines() {
        text.push_str(line.strip_prefix("    ").unwrap_or(line))?;
        text.push_str("\n")?;
    }
    Ok(text)
}

// Whether a bundle means a profile.
fn means(alloc: Global, native: Arch, bundle: &[u8], profile: &Profile) -> Result<bool, AllocError>
    requires { profile.now.native ≡ native }
    ensures { IfOk result (λ b. IsTrue b → MeansProfile native bundle.now profile.now) }
{
    match read_bundle(alloc, bundle, native) {
        Ok(read) => Ok(are_same(&read.profile, profile)),
        Err(ProfileError::OutOfMemory) => Err(AllocError),
        Err(_) => Ok(false),
    }
}

// Ok(true) unless memory ran out.
fn unless_memory(error: ProfileError) -> Result<bool, AllocError>
    ensures { IfOk result (λ _. fault_of error ≢ None) }
{
    match error {
        ProfileError::OutOfMemory => Err(AllocError),
        _ => Ok(true),
    }
}

/// Whether a bundle means each profile that another one means. False is no promise.
pub fn keeps_meaning(
    alloc: Global,
    native: Arch,
    first: &[u8],
    second: &[u8],
) -> Result<bool, AllocError>
    ensures { IfOk result (λ b. IsTrue b → KeepsMeaning native first.now second.now) }
{
    match read_bundle(alloc, first, native) {
        Ok(read) => means(alloc, native, second, &read.profile),
        Err(error) => unless_memory(error),
    }
}

// Whether a text is a section that means a profile in a bundle.
fn is_section_of(
    alloc: Global,
    native: Arch,
    section: &[u8],
    profile: &Profile,
) -> Result<bool, AllocError>
    requires { profile.now.native ≡ native }
    ensures { IfOk result (λ b. IsTrue b → IsKind section.now Section × MeansProfile native (in_bundle section.now) profile.now) }
{
    match kind_of_text(alloc, section)? {
        Kind::Section => {
            let bundle = put_in_bundle(alloc, section)?;
            means(alloc, native, &bundle, profile)
        }
        _ => Ok(false),
    }
}

// A text, if it is a section that in a bundle means what another bundle means.
fn section_if(
    alloc: Global,
    native: Arch,
    bundle: &[u8],
    text: String,
) -> Result<Option<String>, AllocError>
    ensures { IfOk result (λ o. IfSome o (λ section. IsSectionOf native bundle.now (string_bytes section))) }
{
    match read_bundle(alloc, bundle, native) {
        Ok(read) => {
            let is_same = is_section_of(alloc, native, text.as_bytes(), &read.profile)?;
            if !is_same {
                return Ok(None);
            }
            Ok(Some(text))
        }
        Err(ProfileError::OutOfMemory) => Err(AllocError),
        Err(_) => Ok(None),
    }
}

/// The section of a bundle whose lines stand as this project writes them. What is written was read again: in a bundle it means the
/// same.
pub fn section_of(alloc: Global, native: Arch, bundle: &[u8]) -> Result<Option<String>, AllocError>
    ensures { IfOk result (λ o. IfSome o (λ section. IsSectionOf native bundle.now (string_bytes section))) }
{
    match lines_of(bundle) {
        Some(lines) => {
            let text = moved(alloc, lines)?;
            section_if(alloc, native, bundle, text)
        }
        None => Ok(None),
    }
}
