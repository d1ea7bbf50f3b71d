//! Bundles: their filters, and certificates of filters.
ghost use Rattle.std.specs.Prelude.{◌≡◌, ◌≢◌, ◌≤◌, ◌↔◌, None, take, length};
ghost use Rattle.filter_c.specs.Machine as spec;
ghost use Rattle.filter_c.specs.Machine.{OfMachine};
ghost use Rattle.filter_c.specs.Room.{LacksRoom};
ghost use Rattle.maker.specs.Finding.{IsFinding};
ghost use Rattle.maker.specs.declared.check.Finding.TheVariants.{Yes};
ghost use Rattle.filter_c.specs.Answer.{IsCertifiedAs, IsExportOf, IsFilterOf, IsNoCertificateOf, IsNoOf, IsRefusalOf};

use crate::added::machine_with;
use crate::answers::written;
use crate::of_texts::{certify_text, check_text, export_text};
use crate::status::{DONE, NO_MEMORY, NO_NATIVE, NO_ROOM, REFUSED};
use machines::Arch;
use maker::Form;
use std::alloc::Global;
use texts::ToWrite;

// The filter of a bundle, or the line that says why it has none.
fn filter_for(alloc: Global, native: Arch, bundle: &[u8], out: &mut [u8], count: &mut usize) -> u32
    ensures made { result ≡ 0 → IsFilterOf native bundle.now (take count.new out.new) }
    ensures refused { result ≡ 1 → IsRefusalOf native bundle.now (take count.new out.new) }
    ensures room { result ≡ 2 → LacksRoom (IsExportOf native bundle.now) (length out.old) count.new }
    ensures within { result ≤ 1 → count.new ≤ length out.old }
    ensures unwritten { 2 ≤ result → out.new ≡ out.old }
    ensures statuses { result ≤ 3 }
{
    let mut sink = ToWrite::new(Vec::new(alloc));
    let Ok(is_made) = export_text(alloc, native, bundle, Form::Raw, &mut sink) else {
        return NO_MEMORY;
    };
    if !written(&sink.writer, out, count) {
        return NO_ROOM;
    }
    if is_made { DONE } else { REFUSED }
}

// What is found of a bundle, a filter and a certificate. Of a yes nothing is written.
fn found(
    alloc: Global,
    native: Arch,
    bundle: &[u8],
    filter: &[u8],
    cert: &[u8],
    out: &mut [u8],
    count: &mut usize,
) -> u32
    ensures yes { result ≡ 0 → IsFinding native bundle.now filter.now cert.now Yes }
    ensures no { result ≡ 1 → IsNoOf native bundle.now filter.now cert.now (take count.new out.new) }
    ensures room { result ≡ 2 → LacksRoom (IsNoOf native bundle.now filter.now cert.now) (length out.old) count.new }
    ensures within { result ≤ 1 → count.new ≤ length out.old }
    ensures none { result ≡ 0 → count.new ≡ 0 }
    ensures unwritten { result ≢ 1 → out.new ≡ out.old }
    ensures statuses { result ≤ 3 }
{
    let mut sink = ToWrite::new(Vec::new(alloc));
    let Ok(is_yes) = check_text(alloc, native, bundle, filter, cert, &mut sink) else {
        return NO_MEMORY;
    };
    if is_yes {
        *count = 0;
        return DONE;
    }
    if !written(&sink.writer, out, count) {
        return NO_ROOM;
    }
    REFUSED
}

// A certificate of a filter, or a line that says why there is none.
fn certified(
    alloc: Global,
    native: Arch,
    bundle: &[u8],
    filter: &[u8],
    out: &mut [u8],
    count: &mut usize,
) -> u32
    ensures made { result ≡ 0 → IsFinding native bundle.now filter.now (take count.new out.new) Yes }
    ensures other { result ≡ 1 → IsNoCertificateOf native bundle.now filter.now (take count.new out.new) }
    ensures room { result ≡ 2 → LacksRoom (IsCertifiedAs native bundle.now filter.now) (length out.old) count.new }
    ensures within { result ≤ 1 → count.new ≤ length out.old }
    ensures unwritten { 2 ≤ result → out.new ≡ out.old }
    ensures statuses { result ≤ 3 }
{
    let mut sink = ToWrite::new(Vec::new(alloc));
    let Ok(is_made) = certify_text(alloc, native, bundle, filter, &mut sink) else {
        return NO_MEMORY;
    };
    if !written(&sink.writer, out, count) {
        return NO_ROOM;
    }
    if is_made { DONE } else { REFUSED }
}

/// Writes a filter for a bundle into `out`, and its length into `count`. Returns 0 if the checker said yes to it. Returns 1 if
/// there is none, and the line is written that says why. Returns 2 if there is no room, and `count` is how much is wanted.
/// Returns 3 if there is no memory, and 4 if there is no such machine.
#[unsafe(no_mangle)]
pub extern "C" fn ccell_filter_for_bundle(
    alloc: Global,
    native: u32,
    bundle: &[u8],
    out: &mut [u8],
    count: &mut usize,
) -> u32
    ensures made { result ≡ 0 → OfMachine native (λ arch. IsFilterOf arch bundle.now (take count.new out.new)) }
    ensures refused { result ≡ 1 → OfMachine native (λ arch. IsRefusalOf arch bundle.now (take count.new out.new)) }
    ensures room { result ≡ 2 → OfMachine native (λ arch. LacksRoom (IsExportOf arch bundle.now) (length out.old) count.new) }
    ensures within { result ≤ 1 → count.new ≤ length out.old }
    ensures machine { (result ≡ 4) ↔ (spec.machine_with native ≡ None) }
    ensures unwritten { 2 ≤ result → out.new ≡ out.old }
    ensures statuses { result ≤ 4 }
{
    match machine_with(native) {
        Some(arch) => filter_for(alloc, arch, bundle, out, count),
        None => NO_NATIVE,
    }
}

/// Whether the checker says yes to a filter and a certificate for a bundle. Returns 0 if it does, and nothing is written.
/// Returns 1 if it does not, and the line is written that says what is wrong. Returns 2 if there is no room for it, and `count`
/// is how much is wanted. Returns 3 if there is no memory, and 4 if there is no such machine.
#[unsafe(no_mangle)]
pub extern "C" fn ccell_check(
    alloc: Global,
    native: u32,
    bundle: &[u8],
    filter: &[u8],
    cert: &[u8],
    out: &mut [u8],
    count: &mut usize,
) -> u32
    ensures yes { result ≡ 0 → OfMachine native (λ arch. IsFinding arch bundle.now filter.now cert.now Yes) }
    ensures no { result ≡ 1 → OfMachine native (λ arch. IsNoOf arch bundle.now filter.now cert.now (take count.new out.new)) }
    ensures room { result ≡ 2
        → OfMachine native (λ arch. LacksRoom (IsNoOf arch bundle.now filter.now cert.now) (length out.old) count.new) }
    ensures within { result ≤ 1 → count.new ≤ length out.old }
    ensures machine { (result ≡ 4) ↔ (spec.machine_with native ≡ None) }
    ensures none { result ≡ 0 → count.new ≡ 0 }
    ensures unwritten { result ≢ 1 → out.new ≡ out.old }
    ensures statuses { result ≤ 4 }
{
    match machine_with(native) {
        Some(arch) => found(alloc, arch, bundle, filter, cert, out, count),
        None => NO_NATIVE,
    }
}

/// Writes a certificate that a filter answers what a bundle says, and returns 0. Returns 1 if there is none. Then the line is
/// written of a call record on which it does not, or that says why neither is found. Returns 2 if there is no room, and
/// `count` is how much is wanted. Returns 3 if there is no memory, and 4 if there is no such machine.
#[unsafe(no_mangle)]
pub extern "C" fn ccell_certify(
    alloc: Global,
    native: u32,
    bundle: &[u8],
    filter: &[u8],
    out: &mut [u8],
    count: &mut usize,
) -> u32
    ensures made { result ≡ 0 → OfMachine native (λ arch. IsFinding arch bundle.now filter.now (take count.new out.new) Yes) }
    ensures other { result ≡ 1 → OfMachine native (λ arch. IsNoCertificateOf arch bundle.now filter.now (take count.new out.new)) }
    ensures room { result ≡ 2
        → OfMachine native (λ arch. LacksRoom (IsCertifiedAs arch bundle.now filter.now) (length out.old) count.new) }
    ensures within { result ≤ 1 → count.new ≤ length out.old }
    ensures machine { (result ≡ 4) ↔ (spec.machine_with native ≡ None) }
    ensures unwritten { 2 ≤ result → out.new ≡ out.old }
    ensures statuses { result ≤ 4 }
{
    match machine_with(native) {
        Some(arch) => certified(alloc, arch, bundle, filter, out, count),
        None => NO_NATIVE,
    }
}
