//! The compiler's own filter of a profile, with a certificate.
ghost use Rattle.std.specs.Prelude.{◌≡◌, ◌≢◌, ℕ, List, Err, IfErr, IfOk, IsErrOf, None};
ghost use Rattle.bpf_insn.specs.Bytes.{insns_of, view_fault};
ghost use Rattle.machines.specs.declared.arch.Arch.{Arch as TheArch};
ghost use Rattle.rule_compile.specs.declared.fault.CompileError.TheVariants as compiler;
ghost use Rattle.rule_compile.specs.Plan.{IsPlanOf, IsPlannedTooLong};
ghost use Rattle.rule_compile.specs.Right.{IsRightFilter};
ghost use Rattle.rule_compile.specs.Shape.{IsCallFilter, IsPlain};
ghost use Rattle.rule_compile.specs.Steady.{IsSteady, Nothing};
ghost use Rattle.maker.specs.declared.make_error.MakeError.TheVariants.{OutOfMemory};
ghost use Rattle.maker.specs.Exported.{IsMakeError};
ghost use Rattle.maker.specs.Finding.{IsBundle};
ghost use Rattle.maker.specs.inner.Proposed.{IsMade, IsUnbroken};

use crate::evidence::propose;
use crate::make_error::MakeError;
use crate::proposal::Proposal;
use bpf_insn::Program;
use certify::certify_accepted;
use kernel_check::accept;
use profile::Profile;
use rule_compile::{CompileError, Made, Planned};
use std::alloc::Global;

// The filter of what was planned for a profile.
fn compiled(alloc: Global, profile: &Profile, planned: Planned) -> Result<Made, CompileError>
    requires { IsPlanOf profile.now planned.insns.items }
    ensures made { IfOk result (λ made. IsMade profile.now made.bytes.items) }
    ensures shape { IsPlain profile.now → IfOk result (λ made. IsCallFilter profile.now (insns_of made.bytes.items)) }
    ensures never { IsPlain profile.now → IfErr result (λ error. error ≡ compiler.OutOfMemory) }
    ensures planned { IsErrOf result compiler.TooLong → IsPlannedTooLong profile.now }
{
    planned.into_filter(alloc)
}

/// The compiler's filter of a profile, and a certificate of which the checker was not asked.
pub(crate) fn proposed(
    alloc: Global,
    profile: &Profile,
    planned: Planned,
) -> Result<Proposal, MakeError>
    requires { IsPlanOf profile.now planned.insns.items }
    ensures made { IfOk result (λ made. IsMade profile.now made.filter.items) }
    // What is proposed of a plain profile breaks no rule, and only memory is ever refused.
    ensures own { IsPlain profile.now → IfOk result (λ made. IsUnbroken profile.now made.filter.items made.certificate.items) }
    ensures never { IsPlain profile.now → IfErr result (λ make_error. make_error ≡ OutOfMemory) }
    ensures err { (native : TheArch) (bundle : List ℕ) → IsBundle native bundle profile.now
        → IfErr result (λ make_error. make_error ≢ OutOfMemory → IsMakeError native bundle make_error) }
{
    let made = compiled(alloc, profile, planned)?;
    let Ok(program) = Program::view(&made.bytes) else {
        unreachable!();
    };
    let Ok(accepted) = accept(&program) else {
        unreachable!();
    };
    let certificate = propose(alloc, profile, &accepted, &made.outline)?;
    Ok(Proposal {
        filter: made.bytes,
        certificate,
    })
}

/// The certificate that follows each path of the compiler's filter.
pub(crate) fn followed(
    alloc: Global,
    profile: &Profile,
    filter: &[u8],
) -> Result<Vec<u8>, MakeError>
    requires { IsMade profile.now filter.now }
    ensures unbroken { IfOk result (λ cert. IsUnbroken profile.now filter.now cert.items) }
    ensures err { (native : TheArch) (bundle : List ℕ) → IsBundle native bundle profile.now
        → (IsPlain profile.now → ⊥)
        → IfErr result (λ make_error. make_error ≢ OutOfMemory → IsMakeError native bundle make_error) }
{
    let Ok(program) = Program::view(filter) else {
        unreachable!();
    };
    let Ok(accepted) = accept(&program) else {
        unreachable!();
    };
    Ok(certify_accepted(alloc, profile, &accepted)?)
}
