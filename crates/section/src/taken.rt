//! A file that is read as a bundle.
ghost use Rattle.std.specs.Prelude.{◌≡◌, [], IfOk};
ghost use Rattle.machines.specs.declared.arch.Family.TheVariants.{Whole};
ghost use Rattle.machines.specs.Arch.{family_of};
ghost use Rattle.section.specs.Taken.{IsTaken};
ghost use Rattle.section.specs.Texts.{IsPlainKind, bundle_of};
ghost use Rattle.section.specs.Unlike.{AreLinesOf, IsReadable};

use crate::kinds::{Kind, kind_of, kind_of_other_text};
use crate::large::is_large;
use crate::reading::put_in_bundle;
use crate::unlike::lines_of;
use machines::{Arch, Family};
use profile_json::{Document, ProfileError};
use std::alloc::{AllocError, Global};

/// What a file is, what readers do not take alike in it, a line each, and the bundle as which it is taken, which is read once.
#[derive(Drop)]
pub struct Taken {
    pub kind: Kind,
    pub unlike: Vec<u8>,
    pub document: Document,
}

// What a text is that all readers take alike.
fn kind_of_alike(document: &Document) -> Result<Kind, AllocError>
    ensures { IfOk result (IsPlainKind document.now.bytes) }
{
    match document.tree() {
        Ok(value) => Ok(kind_of(value)),
        Err(error) => match error {
            ProfileError::OutOfMemory => Err(AllocError),
            _ => Ok(kind_of_other_text(document.bytes())),
        },
    }
}

// The bundle as which a text of a kind is taken.
fn taken_as(alloc: Global, kind: Kind, document: Document) -> Result<Document, AllocError>
    ensures native { IfOk result (λ d. d.native ≡ document.native) }
    ensures bytes { IfOk result (λ d. d.bytes ≡ bundle_of kind document.bytes) }
{
    match kind {
        Kind::Section => {
            let text = put_in_bundle(alloc, document.bytes())?;
            Ok(Document::new(alloc, text, document.native()))
        }
        Kind::Bundle => Ok(document),
        Kind::EnginesOwn => Ok(document),
        Kind::Kubernetes => Ok(document),
        Kind::KubernetesList => Ok(document),
        Kind::Yaml => Ok(document),
        Kind::NoConfig => Ok(document),
        Kind::Unlike => Ok(Document::new(alloc, Vec::new(alloc), document.native())),
        Kind::Large => Ok(Document::new(alloc, Vec::new(alloc), document.native())),
    }
}

// A file that all readers take alike, where sections are read.
fn take_alike(
    alloc: Global,
    native: Arch,
    bytes: Vec<u8>,
    unlike: Vec<u8>,
) -> Result<Taken, AllocError>
    requires family { family_of native ≡ Whole }
    requires small { IsReadable bytes.items }
    requires alike { unlike.items ≡ [] }
    requires lines { AreLinesOf bytes.items unlike.items }
    ensures { IfOk result (IsTaken native bytes.items) }
{
    let document = Document::new(alloc, bytes, native);
    let kind = kind_of_alike(&document)?;
    let document = taken_as(alloc, kind, document)?;
    Ok(Taken {
        kind,
        unlike,
        document,
    })
}

// A file, where sections are read.
fn take_whole(alloc: Global, native: Arch, bytes: Vec<u8>) -> Result<Taken, AllocError>
    requires { family_of native ≡ Whole }
    ensures { IfOk result (IsTaken native bytes.items) }
{
    if is_large(&bytes) {
        return Ok(Taken {
            kind: Kind::Large,
            unlike: Vec::new(alloc),
            document: Document::new(alloc, Vec::new(alloc), native),
        });
    }
    take_read(alloc, native, bytes)
}

// What a text is that is not too large, with its document.
fn take_read(alloc: Global, native: Arch, bytes: Vec<u8>) -> Result<Taken, AllocError>
    requires family { family_of native ≡ Whole }
    requires small { IsReadable bytes.items }
    ensures { IfOk result (IsTaken native bytes.items) }
{
    let unlike = lines_of(alloc, &bytes)?;
    if unlike.is_empty() {
        return take_alike(alloc, native, bytes, unlike);
    }
    Ok(Taken {
        kind: Kind::Unlike,
        unlike,
        document: Document::new(alloc, Vec::new(alloc), native),
    })
}

/// Reads a file as a bundle for a native machine. The bundle is the bytes themselves, or the bundle in which the section stands that they
/// are. A text that is too large, or that readers do not take alike, is taken as none: the bundle is empty. For the machines of the chosen
/// lists each file is taken as a bundle.
pub fn take(alloc: Global, native: Arch, bytes: Vec<u8>) -> Result<Taken, AllocError>
    ensures { IfOk result (IsTaken native bytes.items) }
{
    match native.family() {
        Family::Chosen => Ok(Taken {
            kind: Kind::Bundle,
            unlike: Vec::new(alloc),
            document: Document::new(alloc, bytes, native),
        }),
        Family::Whole => take_whole(alloc, native, bytes),
    }
}
