//! From a bundle to its checked filter: read, compile, certify, check.
ghost use Rattle.std.specs.Prelude.{◌≡◌, ◌≢◌, ℕ, List, None, IfErr, IfOk, IfSome};
ghost use Rattle.bpf_insn.specs.Bytes.{insns_of, spelling, view_fault};
ghost use Rattle.machines.specs.declared.arch.Arch.{Arch as TheArch};
ghost use Rattle.cert_check.specs.declared.fault.CheckError.TheVariants as refused;
ghost use Rattle.cert_check.specs.Checked.{profile_of};
ghost use Rattle.rule_compile.specs.Plan.{IsPlanOf};
ghost use Rattle.rule_compile.specs.Shape.{IsPlain};
ghost use Rattle.maker.specs.declared.make_error.MakeError.TheVariants.{OutOfMemory};
ghost use Rattle.maker.specs.Exported.{IsCheckedOf, IsMakeError};
ghost use Rattle.maker.specs.Finding.{IsBundle};
ghost use Rattle.maker.specs.inner.Proposed.{IsUnbroken};

use crate::make_error::MakeError;
use crate::own::{followed, proposed};
use crate::proposal::Proposal;
use crate::shorter::shorter;
use cert_check::{CheckError, Checked, check};
use profile::Profile;
use profile_json::Document;
use rule_compile::{Planned, plan};
use std::alloc::Global;

/// Holds what is made of one bundle, for as long as its checked filter is used, which is lent. The profile is lent to it.
#[derive(Drop)]
pub struct CheckedBundle {
    // What was proposed first, if something was.
    shorter: Option<Proposal>,
    // The compiler's own.
    own: Option<Proposal>,
    // The certificate that follows each path of it, if the checker said no to the one that was proposed.
    followed: Option<Vec<u8>>,
}

// The bytes of a program are those that its instructions spell.
fn are_spelled(filter: &[u8])
    ensures { view_fault filter.now ≡ None → spelling (insns_of filter.now) ≡ filter.now }
{}

// The checker's answer: the filter, or the first rule that is broken.
fn answer<'a>(
    alloc: Global,
    profile: &'a Profile,
    filter: &'a [u8],
    certificate: &'a [u8],
) -> Result<Checked<'a>, CheckError>
    ensures profile { IfOk result (λ checked. profile_of checked ≡ profile.now) }
    ensures ok { (native : TheArch) (bundle : List ℕ) → IsBundle native bundle profile.now → IfOk result (IsCheckedOf native bundle) }
    ensures own { IsUnbroken profile.now filter.now certificate.now → IfErr result (λ e. e ≡ refused.OutOfMemory) }
{
    are_spelled(filter);
    check(alloc, profile, filter, certificate)
}

// The checked filter that is proposed first, if one is to which the checker says yes.
fn from_shorter<'a>(
    alloc: Global,
    profile: &'a Profile,
    planned: &Planned,
    place: &'a mut Option<Proposal>,
) -> Result<Option<Checked<'a>>, MakeError>
    ensures profile { IfOk result (λ found. IfSome found (λ checked. profile_of checked ≡ profile.now)) }
    ensures ok { (native : TheArch) (bundle : List ℕ) → IsBundle native bundle profile.now
        → IfOk result (λ found. IfSome found (IsCheckedOf native bundle)) }
    ensures memory { IfErr result (λ make_error. make_error ≡ OutOfMemory) }
{
    let Some(proposal) = shorter(alloc, profile, planned)? else {
        return Ok(None);
    };
    let made: &'a Proposal = place.insert(proposal);
    match answer(alloc, profile, &made.filter, &made.certificate) {
        Ok(checked) => Ok(Some(checked)),
        Err(CheckError::OutOfMemory) => Err(MakeError::OutOfMemory),
        Err(_) => Ok(None),
    }
}

// The checked filter that is the compiler's own. If the checker says no to the certificate that is proposed, it is asked of the one
// that follows each path.
fn from_own<'a>(
    alloc: Global,
    profile: &'a Profile,
    planned: Planned,
    place: &'a mut Option<Proposal>,
    other: &'a mut Option<Vec<u8>>,
) -> Result<Checked<'a>, MakeError>
    requires { IsPlanOf profile.now planned.insns.items }
    ensures profile { IfOk result (λ checked. profile_of checked ≡ profile.now) }
    ensures ok { (native : TheArch) (bundle : List ℕ) → IsBundle native bundle profile.now → IfOk result (IsCheckedOf native bundle) }
    ensures never { IsPlain profile.now → IfErr result (λ make_error. make_error ≡ OutOfMemory) }
    ensures err { (native : TheArch) (bundle : List ℕ) → IsBundle native bundle profile.now
        → IfErr result (λ make_error. make_error ≢ OutOfMemory → IsMakeError native bundle make_error) }
{
    let own = proposed(alloc, profile, planned)?;
    let made: &'a Proposal = place.insert(own);
    match answer(alloc, profile, &made.filter, &made.certificate) {
        Ok(checked) => return Ok(checked),
        Err(error) => {
            if let CheckError::OutOfMemory = error {
                return Err(MakeError::OutOfMemory);
            }
        }
    }
    let last = followed(alloc, profile, &made.filter)?;
    let certificate: &'a Vec<u8> = other.insert(last);
    Ok(answer(alloc, profile, &made.filter, certificate)?)
}

// The checked filter of a profile: the one that is proposed first, or else the compiler's own.
fn checked_for<'a>(
    alloc: Global,
    profile: &'a Profile,
    shorter: &'a mut Option<Proposal>,
    own: &'a mut Option<Proposal>,
    other: &'a mut Option<Vec<u8>>,
) -> Result<Checked<'a>, MakeError>
    ensures profile { IfOk result (λ checked. profile_of checked ≡ profile.now) }
    ensures ok { (native : TheArch) (bundle : List ℕ) → IsBundle native bundle profile.now → IfOk result (IsCheckedOf native bundle) }
    ensures never { IsPlain profile.now → IfErr result (λ make_error. make_error ≡ OutOfMemory) }
    ensures err { (native : TheArch) (bundle : List ℕ) → IsBundle native bundle profile.now
        → IfErr result (λ make_error. make_error ≢ OutOfMemory → IsMakeError native bundle make_error) }
{
    let Ok(planned) = plan(alloc, profile) else {
        return Err(MakeError::OutOfMemory);
    };
    match from_shorter(alloc, profile, &planned, shorter) {
        Ok(Some(checked)) => Ok(checked),
        Ok(None) => from_own(alloc, profile, planned, own, other),
        Err(make_error) => Err(make_error),
    }
}

impl CheckedBundle {
    /// With nothing in it.
    pub fn new() -> CheckedBundle {
        CheckedBundle {
            shorter: None,
            own: None,
            followed: None,
        }
    }

    /// The checked filter of a bundle. The checker is asked once, unless it says no to a filter or a certificate that is proposed.
    pub fn fill<'a>(
        &'a mut self,
        alloc: Global,
        document: &'a Document,
    ) -> Result<Checked<'a>, MakeError>
        ensures ok { IfOk result (IsCheckedOf document.now.native document.now.bytes) }
        ensures err { IfErr result
            (λ make_error. make_error ≢ OutOfMemory → IsMakeError document.now.native document.now.bytes make_error) }
    {
        let bundle = document.bundle()?;
        self.fill_for(alloc, &bundle.profile)
    }

    /// The checked filter of a profile.
    pub fn fill_for<'a>(
        &'a mut self,
        alloc: Global,
        profile: &'a Profile,
    ) -> Result<Checked<'a>, MakeError>
        ensures profile { IfOk result (λ checked. profile_of checked ≡ profile.now) }
        ensures ok { (native : TheArch) (bundle : List ℕ) → IsBundle native bundle profile.now → IfOk result (IsCheckedOf native bundle) }
        // Of a plain profile only memory is ever refused.
        ensures never { IsPlain profile.now → IfErr result (λ make_error. make_error ≡ OutOfMemory) }
        ensures err { (native : TheArch) (bundle : List ℕ) → IsBundle native bundle profile.now
            → IfErr result (λ make_error. make_error ≢ OutOfMemory → IsMakeError native bundle make_error) }
    {
        let CheckedBundle {
            shorter,
            own,
            followed,
        } = self;
        checked_for(alloc, profile, shorter, own, followed)
    }
}
