//! The whole check.
ghost use Rattle.std.specs.Prelude.{◌≡◌, ◌≢◌, IfErr, IfOk, None};
ghost use Rattle.bpf_insn.specs.Bytes.{insns_of, spelling, view_fault};
ghost use Rattle.kernel_check.specs.Accepted.{IsAccepted};
ghost use Rattle.kernel_check.specs.Lent.{accepted_insns};
ghost use Rattle.profile.specs.Policy.{IsClear};
ghost use Rattle.cert_form.specs.Reading.{version_of};
ghost use Rattle.cert_check.specs.declared.fault.CheckError.{CheckError as TheError};
ghost use Rattle.cert_check.specs.declared.fault.CheckError.TheVariants.{OutOfMemory};
ghost use Rattle.cert_check.specs.Certified.{IsFirst, Kept};
ghost use Rattle.cert_check.specs.Checked.{cert_of, profile_of, program_of};
ghost use Rattle.cert_check.specs.Right.{IsRight};
ghost use Rattle.cert_check.specs.Valid.{IsValidCertificate};
ghost use Rattle.cert_check.specs.inner.Broken.{error_of};

use crate::checked::Checked;
use crate::fault::CheckError;
use crate::nodes::check_nodes;
use bpf_insn::Program;
use cert_form::{CertView, FormError};
use kernel_check::{Accepted, accept};
use profile::Profile;
use std::alloc::Global;

// The error that a fault of a certificate's bytes is.
fn error_of(fault: FormError) -> CheckError
    ensures { result ≡ error_of fault }
{
    match fault {
        FormError::OutOfMemory => CheckError::OutOfMemory,
        _ => CheckError::Form(fault),
    }
}

// The rules of a profile are clear.
fn rules_are_clear(profile: &Profile)
    ensures { IsClear profile.now.rules }
{
    profile.rules();
}

// The bytes that an accepted program was read from are read as that program.
fn is_read(program: &Accepted<'_>)
    ensures accepted { IsAccepted (accepted_insns program.now) }
    ensures read { insns_of (spelling (accepted_insns program.now)) ≡ accepted_insns program.now }
    ensures whole { view_fault (spelling (accepted_insns program.now)) ≡ None }
{
    program.program().bytes();
}

// What passes the check of a filter that the kernel accepts.
fn checked<'a>(
    alloc: Global,
    profile: &'a Profile,
    program: &Accepted<'a>,
    cert: &'a [u8],
) -> Result<Checked<'a>, CheckError>
    ensures profile { IfOk result (λ checked. profile_of checked ≡ profile.now) }
    ensures program { IfOk result (λ checked. program_of checked ≡ accepted_insns program.now) }
    ensures cert { IfOk result (λ checked. cert_of checked ≡ cert.now) }
    ensures right { IfOk result (λ _. IsRight profile.now (accepted_insns program.now)) }
    ensures valid { IfOk result (λ _. IsValidCertificate profile.now (accepted_insns program.now) cert.now) }
    ensures never { IsValidCertificate profile.now (accepted_insns program.now) cert.now → IfErr result (λ e. e ≡ OutOfMemory) }
    ensures first { IfErr result (λ e. e ≢ OutOfMemory
        → IsFirst profile.now (spelling (accepted_insns program.now)) cert.now e) }
    ensures memory { IfErr result (λ e. e ≡ OutOfMemory → version_of cert.now ≡ 1) }
{
    is_read(program);
    let view = match CertView::read(alloc, cert) {
        Ok(view) => view,
        Err(e) => return Err(error_of(e)),
    };
    check_nodes(profile, program, &view)?;
    rules_are_clear(profile);
    Ok(Checked {
        profile,
        program: *program,
        cert,
    })
}

/// Whether the certificate shows that the filter gives each call record the verdict that the profile says.
///
/// The first rule that is broken is reported. The order is: the filter's bytes, the kernel's check, the certificate's
/// bytes, its root. Then come the nodes from 0, at each Edge, Split, Entail, Return. Memory is asked for only if the
/// certificate is of form 1.
pub fn check<'a>(
    alloc: Global,
    profile: &'a Profile,
    filter: &'a [u8],
    cert: &'a [u8],
) -> Result<Checked<'a>, CheckError>
    // What is lent is what was given.
    ensures profile { IfOk result (λ checked. profile_of checked ≡ profile.now) }
    ensures filter { IfOk result (λ checked. program_of checked ≡ insns_of filter.now) }
    ensures cert { IfOk result (λ checked. cert_of checked ≡ cert.now) }

    // Yes: the kernel accepts the filter, which gives each record the profile's verdict and no other.
    ensures accepted { IfOk result (λ _. IsAccepted (insns_of filter.now)) }
    ensures right { IfOk result (λ _. IsRight profile.now (insns_of filter.now)) }

    // Exactly: no rule is broken where it is yes, and an error names the first that is.
    ensures kept { IfOk result (λ _. (e : TheError) → Kept profile.now filter.now cert.now e) }
    ensures first { IfErr result (λ e. e ≢ OutOfMemory → IsFirst profile.now filter.now cert.now e) }

    // Memory is asked for in form 1 alone.
    ensures memory { IfErr result (λ e. e ≡ OutOfMemory → version_of cert.now ≡ 1) }
{
    let program = match Program::view(filter) {
        Ok(program) => program,
        Err(e) => return Err(CheckError::View(e)),
    };
    match accept(&program) {
        Ok(accepted) => checked(alloc, profile, &accepted, cert),
        Err(e) => Err(CheckError::Kernel(e)),
    }
}

/// Whether the certificate shows that an accepted filter gives each call record the verdict that the profile says.
/// Returns no more than yes, or the first rule that is broken.
pub fn check_accepted(
    alloc: Global,
    profile: &Profile,
    program: &Accepted<'_>,
    cert: &[u8],
) -> Result<(), CheckError>
    // Yes: the filter gives each record the profile's verdict and no other.
    ensures right { IfOk result (λ _. IsRight profile.now (accepted_insns program.now)) }

    // Exactly: it is yes where each rule is kept, if there is memory, and an error names the first that is broken.
    ensures valid { IfOk result (λ _. IsValidCertificate profile.now (accepted_insns program.now) cert.now) }
    ensures never { IsValidCertificate profile.now (accepted_insns program.now) cert.now → IfErr result (λ e. e ≡ OutOfMemory) }
    ensures first { IfErr result (λ e. e ≢ OutOfMemory
        → IsFirst profile.now (spelling (accepted_insns program.now)) cert.now e) }

    // Memory is asked for in form 1 alone.
    ensures memory { IfErr result (λ e. e ≡ OutOfMemory → version_of cert.now ≡ 1) }
{
    checked(alloc, profile, program, cert)?;
    Ok(())
}
