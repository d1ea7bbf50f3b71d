//! Bundles of the bytes of files.
ghost use Rattle.std.specs.Prelude.{◌≡◌, IfOk};
ghost use Rattle.machines.specs.declared.arch.Family.TheVariants.{Whole};
ghost use Rattle.section.specs.Texts as spec;
ghost use Rattle.section.specs.Texts.{IsBundleText, IsKind, IsPlainKind, IsReadKind, in_bundle};

use crate::kinds::{Kind, kind_of, kind_of_other_text};
use crate::large::is_large;
use crate::unlike::lines_of;
use machines::{Arch, Family};
use serde_json::Value;
use std::alloc::{AllocError, Global};

// What a text is that all readers take alike.
fn kind_of_alike(alloc: Global, bytes: &[u8]) -> Result<Kind, AllocError>
    ensures { IfOk result (IsPlainKind bytes.now) }
{
    match Value::from_slice(alloc, bytes) {
        Ok(value) => Ok(kind_of(&value)),
        Err(error) => {
            if error.is_memory() {
                return Err(AllocError);
            }
            Ok(kind_of_other_text(bytes))
        }
    }
}

// What a text is that is read.
fn kind_of_read(alloc: Global, bytes: &[u8]) -> Result<Kind, AllocError>
    ensures { IfOk result (IsReadKind bytes.now) }
{
    let unlike = lines_of(alloc, bytes)?;
    if unlike.is_empty() {
        return kind_of_alike(alloc, bytes);
    }
    Ok(Kind::Unlike)
}

/// What stands in a file of these bytes.
pub fn kind_of_text(alloc: Global, bytes: &[u8]) -> Result<Kind, AllocError>
    ensures { IfOk result (IsKind bytes.now) }
{
    if is_large(bytes) {
        return Ok(Kind::Large);
    }
    kind_of_read(alloc, bytes)
}

const HEAD: &str = "{\"ociVersion\":\"1.0.2\",\"linux\":{\"seccomp\":";

const TAIL: &str = "}}";

/// The bundle in which a section stands.
pub fn put_in_bundle(alloc: Global, section: &[u8]) -> Result<Vec<u8>, AllocError>
    ensures { IfOk result (λ text. text.items ≡ in_bundle section.now) }
{
    let mut text = Vec::new(alloc);
    text.extend_from_slice(HEAD.as_bytes())?;
    text.extend_from_slice(section)?;
    text.extend_from_slice(TAIL.as_bytes())?;
    Ok(text)
}

// The bundle as which bytes of a kind are taken.
fn taken_as(alloc: Global, kind: Kind, bytes: Vec<u8>) -> Result<Vec<u8>, AllocError>
    ensures { IfOk result (λ text. text.items ≡ spec.bundle_of kind bytes.items) }
{
    match kind {
        Kind::Section => put_in_bundle(alloc, &bytes),
        Kind::Bundle => Ok(bytes),
        Kind::EnginesOwn => Ok(bytes),
        Kind::Kubernetes => Ok(bytes),
        Kind::KubernetesList => Ok(bytes),
        Kind::Yaml => Ok(bytes),
        Kind::NoConfig => Ok(bytes),
        Kind::Unlike => Ok(Vec::new(alloc)),
        Kind::Large => Ok(Vec::new(alloc)),
    }
}

// The bundle of a file, where sections are read.
fn bundle_of(alloc: Global, bytes: Vec<u8>) -> Result<Vec<u8>, AllocError>
    ensures { IfOk result (λ text. spec.IsTakenAs Whole bytes.items text.items) }
{
    let kind = kind_of_text(alloc, &bytes)?;
    taken_as(alloc, kind, bytes)
}

/// The bundle of a file of these bytes, which is read for a native machine. It is the bytes themselves, or the bundle in
/// which the section stands that they are. A text that is too large, or that
/// readers do not take alike, is taken as none: the bundle is empty. For the machines of the chosen lists a section is none.
pub fn bundle_text(alloc: Global, native: Arch, bytes: Vec<u8>) -> Result<Vec<u8>, AllocError>
    ensures { IfOk result (λ text. IsBundleText native bytes.items text.items) }
{
    match native.family() {
        Family::Chosen => Ok(bytes),
        Family::Whole => bundle_of(alloc, bytes),
    }
}
