//! Files by their names, and what the commands read of them.
ghost use Rattle.std.specs.Prelude.{◌≡◌, IfErr, IfOk, map};
ghost use Rattle.cli.specs.Dispatch.{FirstUnread, HaveBundles, HaveBytes, StopsAt};
ghost use Rattle.cli.specs.Files.{HasBundle, HasBytes, HasDocument, HasEnough, HasEnoughFilter};

use crate::fault::FileFault;
use crate::stops::Stop;
use bpf_insn::MAX_INSNS;
use byte_order::read_as;
use cert_form::MAX_BYTES;
use machines::Arch;
use profile_json::Document;
use section::{bundle_text, take};
use std::alloc::Global;
use texts::Source;

/// What reads files by their names.
pub trait Files {
    ghost use Rattle.std.specs.Prelude.{Option};
    ghost use Rattle.cli.specs.Files.{Folder, IsOpened, IsUnread};

    /// What gives the bytes of a file, a part at a time.
    type Opened: Source + Drop;

    /// The bytes of the file of each name, where they are told.
    ghost folder: { Self → Option Folder };

    /// All bytes of a file.
    fn read(&mut self, alloc: Global, name: &str) -> Result<Vec<u8>, FileFault>
        ensures same { folder self.new ≡ folder self.old }
        ensures ok { IfOk result (λ bytes. HasBytes (folder self.old) name.now bytes.items) }
        ensures err { IfErr result (λ fault. IsUnread (folder self.old) name.now fault) };

    /// Opens a file, which is then read by its source.
    fn open(&mut self, name: &str) -> Result<Self::Opened, FileFault>
        ensures same { folder self.new ≡ folder self.old }
        ensures ok { IfOk result (λ opened. IsOpened (folder self.old) name.now (Self.Opened.left opened)) }
        ensures err { IfErr result (λ fault. IsUnread (folder self.old) name.now fault) };

    /// The bytes of a file that is refused by its length alone where it has more than so many, a multiple of eight. Of a longer
    /// one it may be the first bytes. They are more than so many, and as many over a multiple of eight as the file has.
    fn read_up_to(&mut self, alloc: Global, name: &str, most: u32) -> Result<Vec<u8>, FileFault>
        ensures same { folder self.new ≡ folder self.old }
        ensures ok { IfOk result (λ bytes. HasEnough most (folder self.old) name.now bytes.items) }
        ensures err { IfErr result (λ fault. IsUnread (folder self.old) name.now fault) };
}

// The longest files that are judged by more than their length, in bytes: a call record, a filter, a certificate.
const RECORD_SIZE: u32 = 64;

const FILTER_SIZE: u32 = 8 * MAX_INSNS as u32;

const CERTIFICATE_SIZE: u32 = MAX_BYTES as u32;

fn read_up_to<'a, F: Files>(
    alloc: Global,
    files: &mut F,
    name: &'a str,
    most: u32,
) -> Result<Vec<u8>, Stop<'a>>
    ensures same { F.folder files.new ≡ F.folder files.old }
    ensures ok { IfOk result (λ bytes. HasEnough most (F.folder files.old) name.entry.now bytes.items) }
    ensures err { IfErr result (λ stop. StopsAt (F.folder files.old) name.entry.now stop) }
{
    match files.read_up_to(alloc, name, most) {
        Ok(bytes) => Ok(bytes),
        Err(FileFault::CannotRead) => Err(Stop::CannotRead(name)),
        Err(FileFault::OutOfMemory) => Err(Stop::OutOfMemory),
    }
}

/// The bytes of a file.
pub fn read<'a, F: Files>(alloc: Global, files: &mut F, name: &'a str) -> Result<Vec<u8>, Stop<'a>>
    ensures same { F.folder files.new ≡ F.folder files.old }
    ensures ok { IfOk result (λ bytes. HasBytes (F.folder files.old) name.entry.now bytes.items) }
    ensures err { IfErr result (λ stop. StopsAt (F.folder files.old) name.entry.now stop) }
{
    match files.read(alloc, name) {
        Ok(bytes) => Ok(bytes),
        Err(FileFault::CannotRead) => Err(Stop::CannotRead(name)),
        Err(FileFault::OutOfMemory) => Err(Stop::OutOfMemory),
    }
}

/// The bundle of a file, which is read for a native machine.
pub fn read_bundle<'a, F: Files>(
    alloc: Global,
    native: Arch,
    files: &mut F,
    name: &'a str,
) -> Result<Vec<u8>, Stop<'a>>
    ensures same { F.folder files.new ≡ F.folder files.old }
    ensures ok { IfOk result (λ bytes. HasBundle native (F.folder files.old) name.entry.now bytes.items) }
    ensures err { IfErr result (λ stop. StopsAt (F.folder files.old) name.entry.now stop) }
{
    match read(alloc, files, name) {
        Ok(bytes) => match bundle_text(alloc, native, bytes) {
            Ok(bundle) => Ok(bundle),
            Err(_no_memory) => Err(Stop::OutOfMemory),
        },
        Err(stop) => Err(stop),
    }
}

/// The bundle of a file, which is read for a native machine, once.
pub fn read_document<'a, F: Files>(
    alloc: Global,
    native: Arch,
    files: &mut F,
    name: &'a str,
) -> Result<Document, Stop<'a>>
    ensures same { F.folder files.new ≡ F.folder files.old }
    ensures ok { IfOk result (HasDocument native (F.folder files.old) name.entry.now) }
    ensures err { IfErr result (λ stop. StopsAt (F.folder files.old) name.entry.now stop) }
{
    match read(alloc, files, name) {
        Ok(bytes) => match take(alloc, native, bytes) {
            Ok(taken) => Ok(taken.document),
            Err(_no_memory) => Err(Stop::OutOfMemory),
        },
        Err(stop) => Err(stop),
    }
}

/// The bytes of a file that is judged as a call record.
pub fn read_record<'a, F: Files>(
    alloc: Global,
    files: &mut F,
    name: &'a str,
) -> Result<Vec<u8>, Stop<'a>>
    ensures same { F.folder files.new ≡ F.folder files.old }
    ensures ok { IfOk result (λ bytes. HasEnough 64 (F.folder files.old) name.entry.now bytes.items) }
    ensures err { IfErr result (λ stop. StopsAt (F.folder files.old) name.entry.now stop) }
{
    read_up_to(alloc, files, name, RECORD_SIZE)
}

/// The bytes of a file that is judged as a filter, with lower halves first.
pub fn read_little_filter<'a, F: Files>(
    alloc: Global,
    files: &mut F,
    name: &'a str,
) -> Result<Vec<u8>, Stop<'a>>
    ensures same { F.folder files.new ≡ F.folder files.old }
    ensures ok { IfOk result (λ bytes. HasEnough 32768 (F.folder files.old) name.entry.now bytes.items) }
    ensures err { IfErr result (λ stop. StopsAt (F.folder files.old) name.entry.now stop) }
{
    read_up_to(alloc, files, name, FILTER_SIZE)
}

/// The filter of a file, which is read for a native machine.
pub fn read_filter<'a, F: Files>(
    alloc: Global,
    native: Arch,
    files: &mut F,
    name: &'a str,
) -> Result<Vec<u8>, Stop<'a>>
    ensures same { F.folder files.new ≡ F.folder files.old }
    ensures ok { IfOk result (λ bytes. HasEnoughFilter native (F.folder files.old) name.entry.now bytes.items) }
    ensures err { IfErr result (λ stop. StopsAt (F.folder files.old) name.entry.now stop) }
{
    match read_little_filter(alloc, files, name) {
        Ok(file) => match read_as(alloc, native, &file) {
            Ok(filter) => Ok(filter),
            Err(_no_memory) => Err(Stop::OutOfMemory),
        },
        Err(stop) => Err(stop),
    }
}

/// The bytes of a file that is judged as a certificate.
pub fn read_certificate<'a, F: Files>(
    alloc: Global,
    files: &mut F,
    name: &'a str,
) -> Result<Vec<u8>, Stop<'a>>
    ensures same { F.folder files.new ≡ F.folder files.old }
    ensures ok { IfOk result
        (λ bytes. HasEnough 4194304 (F.folder files.old) name.entry.now bytes.items) }
    ensures err { IfErr result (λ stop. StopsAt (F.folder files.old) name.entry.now stop) }
{
    read_up_to(alloc, files, name, CERTIFICATE_SIZE)
}

/// The bytes of files, in the order of their names.
pub fn read_each<'a, F: Files>(
    alloc: Global,
    files: &mut F,
    names: &'a [&'a str],
) -> Result<Vec<Vec<u8>>, Stop<'a>>
    ensures ok { IfOk result (λ texts. HaveBytes (F.folder files.old) (map (λ n. n.now) names.entry.now)
        (map (λ t. t.items) texts.items)) }
    ensures err { IfErr result
        (λ stop. FirstUnread (F.folder files.old) (map (λ n. n.now) names.entry.now) stop) }
{
    let mut texts = Vec::new(alloc);
    for name in names {
        match read(alloc, files, name) {
            Ok(text) => {
                if texts.push(text).is_err() {
                    return Err(Stop::OutOfMemory);
                }
            }
            Err(stop) => return Err(stop),
        }
    }
    Ok(texts)
}

/// The bundles of files, in the order of their names.
pub fn read_bundles<'a, F: Files>(
    alloc: Global,
    native: Arch,
    files: &mut F,
    names: &'a [&'a str],
) -> Result<Vec<Vec<u8>>, Stop<'a>>
    ensures ok { IfOk result (λ texts. HaveBundles native (F.folder files.old) (map (λ n. n.now) names.entry.now)
        (map (λ t. t.items) texts.items)) }
    ensures err { IfErr result
        (λ stop. FirstUnread (F.folder files.old) (map (λ n. n.now) names.entry.now) stop) }
{
    let mut texts = Vec::new(alloc);
    for name in names {
        match read_bundle(alloc, native, files, name) {
            Ok(text) => {
                if texts.push(text).is_err() {
                    return Err(Stop::OutOfMemory);
                }
            }
            Err(stop) => return Err(stop),
        }
    }
    Ok(texts)
}
