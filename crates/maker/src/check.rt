//! What is found of a bundle, a filter and a certificate, and the line of `ccell check`.
ghost use Rattle.std.specs.Prelude.{◌≡◌, ◌≢◌, ◌↔◌, IsTrue, IfErr, IfOk};
ghost use Rattle.cert_check.specs.declared.fault.CheckError.TheVariants as fault;
ghost use Rattle.profile_json.specs.declared.fault.ProfileError.TheVariants as refusal;
ghost use Rattle.maker.specs.declared.check.Finding.TheVariants.{NoProfile};
ghost use Rattle.maker.specs.Finding.{IsFinding, IsInLimit, IsJudged, IsLight, WritesFinding};

use cert_check::{CheckError, check};
use cert_work::is_within;
use machines::{Arch, Family};
use profile::Profile;
use profile_json::{Document, ProfileError};
use std::alloc::{AllocError, Global};
use std::fmt;
use texts::{Sink, WriteFault, write_all};

/// What is found of a bundle, a filter and a certificate. Its text is the line of `ccell check`.
#[derive(Clone, Copy, Debug, PartialEq, Eq)]
pub enum Finding {
    /// The filter gives each call record the verdict that the bundle says.
    Yes,
    /// A rule is broken: of filters, of the kernel's check, or of certificates.
    No(CheckError),
    /// The bundle is refused.
    NoProfile(ProfileError),
    /// The certificate has more work than one may have.
    TooLarge,
}

impl fmt::Display for Finding {
    ghost use Rattle.std.specs.Prelude.{Some};
    ghost use Rattle.maker.specs.Finding.{text_of};

    ghost output = { λ finding. Some (text_of finding) };

    fn fmt<W: fmt::Write>(&self, f: &mut fmt::Formatter<W>) -> fmt::Result {
        match *self {
            Finding::Yes => write!(f, "yes"),
            Finding::No(error) => write!(f, "no {error}"),
            Finding::NoProfile(error) => write!(f, "refused profile {error}"),
            Finding::TooLarge => write!(f, "refused check 1 TooLarge"),
        }
    }
}

// What is found of a bundle that is refused, if not for want of memory.
fn refused(error: ProfileError) -> Result<Finding, AllocError>
    ensures found { IfOk result (λ finding. (finding ≡ NoProfile error) × (error ≢ refusal.OutOfMemory)) }
    ensures memory { IfErr result (λ _. error ≡ refusal.OutOfMemory) }
{
    match error {
        ProfileError::OutOfMemory => Err(AllocError),
        _ => Ok(Finding::NoProfile(error)),
    }
}

// Whether the certificate was refused for want of memory.
fn lacks_memory_to_check(error: CheckError) -> bool
    ensures { IsTrue result ↔ error ≡ fault.OutOfMemory }
{
    matches!(error, CheckError::OutOfMemory)
}

// Whether a certificate's work is within its limit. With the machines of the chosen lists it has none.
fn is_light(alloc: Global, native: Arch, profile: &Profile, cert: &[u8]) -> Result<bool, AllocError>
    ensures { IfOk result (λ light. IsTrue light ↔ IsLight native profile.now cert.now) }
{
    match native.family() {
        Family::Chosen => Ok(true),
        Family::Whole => is_within(alloc, profile, cert),
    }
}

// What is found of a filter and a certificate beside a profile.
fn judged<'a>(
    alloc: Global,
    profile: &'a Profile,
    filter: &'a [u8],
    cert: &'a [u8],
) -> Result<Finding, AllocError>
    ensures { IfOk result (IsJudged profile.now filter.now cert.now) }
{
    match check(alloc, profile, filter, cert) {
        Ok(_) => Ok(Finding::Yes),
        Err(error) => {
            if lacks_memory_to_check(error) {
                return Err(AllocError);
            }
            Ok(Finding::No(error))
        }
    }
}

/// What is found of a bundle, of the bytes of a filter and of a certificate. The bundle is judged first, and then how much work the
/// certificate has.
pub fn finding_of(
    alloc: Global,
    document: &Document,
    filter: &[u8],
    cert: &[u8],
) -> Result<Finding, AllocError>
    ensures found { IfOk result (IsFinding document.now.native document.now.bytes filter.now cert.now) }
    // No certificate beyond its limit is told yes or no.
    ensures limit { IfOk result (IsInLimit document.now.native document.now.bytes cert.now) }
{
    let bundle = match document.bundle() {
        Ok(bundle) => bundle,
        Err(error) => return refused(error),
    };
    let Ok(light) = is_light(alloc, document.native(), &bundle.profile, cert) else {
        return Err(AllocError);
    };
    if !light {
        return Ok(Finding::TooLarge);
    }
    judged(alloc, &bundle.profile, filter, cert)
}

/// Writes the line for a bundle, the bytes of a filter and of a certificate. It is true of a yes. Where memory is refused, nothing is
/// written.
pub fn check_line<S: Sink>(
    alloc: Global,
    document: &Document,
    filter: &[u8],
    cert: &[u8],
    sink: &mut S,
) -> Result<bool, WriteFault>
    ensures { WritesFinding S.held S.failures sink.old sink.new document.now.native document.now.bytes filter.now cert.now result }
{
    let Ok(finding) = finding_of(alloc, document, filter, cert) else {
        return Err(WriteFault::OutOfMemory);
    };
    let Ok(line) = format!(in alloc; "{finding}\n") else {
        return Err(WriteFault::OutOfMemory);
    };
    write_all(line.as_bytes(), sink)?;
    Ok(matches!(finding, Finding::Yes))
}
