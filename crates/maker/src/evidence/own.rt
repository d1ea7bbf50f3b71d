//! Certificates from the outlines of the compiler's filters. Nothing is promised of them: the checker is asked of each.
ghost use Rattle.std.specs.Prelude.{◌≡◌, ◌↔◌, Err, IfErr, Ok};
ghost use Rattle.certify.specs.declared.error.CertifyError.TheVariants.{OutOfMemory};
ghost use Rattle.maker.specs.declared.evidence.hand.Hand.TheVariants.{TooLarge};

use crate::evidence::asked::{asked_calls, merged_calls};
use crate::evidence::hand::Hand;
use bpf_insn::{Insn, MAX_INSNS, encode_into};
use certify::CertifyError;
use kernel_check::Accepted;
use outline::{AskedCall, OutlineError, are_too_many, asked_by, outlined};
use profile::Profile;
use rule_compile::{Known, Outline, Planned, Shorter, plan, shorten};
use std::alloc::{AllocError, Global};

// What is at hand, by what the maker by outlines made. Only its own `TooLarge` is told as that.
fn hand_of(made: Result<Vec<u8>, OutlineError>) -> Result<Hand, CertifyError>
    ensures too_large { (result ≡ Ok TooLarge) ↔ (made ≡ Err OutlineError.TooLarge) }
    ensures memory { IfErr result (λ e. e ≡ OutOfMemory) }
{
    match made {
        Ok(bytes) => Ok(Hand::Certificate(bytes)),
        Err(OutlineError::OutOfMemory) => Err(CertifyError::OutOfMemory),
        Err(OutlineError::TooLarge) => Ok(Hand::TooLarge),
        Err(OutlineError::Unlike) => Ok(Hand::Nothing),
    }
}

// The certificate of a filter that asks for the rules of calls in these parts. If a call has too many rules, none is written.
fn by_calls(
    alloc: Global,
    profile: &Profile,
    program: Accepted<'_>,
    calls: &[AskedCall],
) -> Result<Hand, CertifyError>
    ensures { IfErr result (λ e. e ≡ OutOfMemory) }
{
    if are_too_many(calls) {
        return Ok(Hand::Nothing);
    }
    hand_of(outlined(alloc, profile, &program.program(), calls))
}

/// The certificate of a filter that is written from an outline. If a call has too many rules, none is.
pub(crate) fn by_outline(
    alloc: Global,
    profile: &Profile,
    program: Accepted<'_>,
    outline: &Outline,
) -> Result<Hand, CertifyError>
    ensures { IfErr result (λ e. e ≡ OutOfMemory) }
{
    let Ok(calls) = asked_calls(alloc, outline) else {
        return Err(CertifyError::OutOfMemory);
    };
    by_calls(alloc, profile, program, &calls)
}

/// The certificate of a filter in which questions for bits of one word were put together, written from its outline.
pub(crate) fn by_merged(
    alloc: Global,
    profile: &Profile,
    program: Accepted<'_>,
    outline: &Outline,
) -> Result<Hand, CertifyError>
    ensures { IfErr result (λ e. e ≡ OutOfMemory) }
{
    let Ok(calls) = merged_calls(alloc, outline) else {
        return Err(CertifyError::OutOfMemory);
    };
    by_calls(alloc, profile, program, &calls)
}

/// A filter that is shorter than the compiler's own, if one is found. None is looked for if the plan is twice as long as a filter may be.
pub(crate) fn shortened(
    alloc: Global,
    profile: &Profile,
    own: &Planned,
) -> Result<Option<Shorter>, AllocError> {
    if own.insns.len() > 2 * MAX_INSNS {
        return Ok(None);
    }
    shorten(alloc, profile, own)
}

/// The bytes of instructions, if they are no more than a filter has.
pub(crate) fn bytes_of(alloc: Global, insns: &[Insn]) -> Result<Option<Vec<u8>>, AllocError> {
    if insns.len() > MAX_INSNS {
        return Ok(None);
    }
    let mut bytes = vec![in alloc; 0u8; 8 * insns.len()]?;
    encode_into(insns, &mut bytes);
    Ok(Some(bytes))
}

// The compiler's own filter, or the one that is shorter, if it has as many instructions as a filter.
fn as_long(
    alloc: Global,
    profile: &Profile,
    program: &Accepted<'_>,
    own: &Planned,
) -> Result<Option<Shorter>, AllocError> {
    if own.insns.len() != program.program().len() {
        return shortened(alloc, profile, own);
    }
    match bytes_of(alloc, &own.insns)? {
        Some(bytes) => Ok(Some(Shorter {
            bytes,
            known: Known::AsOwn,
        })),
        None => Ok(None),
    }
}

/// The certificate of a filter that anyone made, written from the compiler's outline, if the compiler makes the very same.
pub(crate) fn by_same_outline(
    alloc: Global,
    profile: &Profile,
    program: Accepted<'_>,
    own: &Planned,
) -> Result<Hand, CertifyError>
    ensures { IfErr result (λ e. e ≡ OutOfMemory) }
{
    match as_long(alloc, profile, &program, own) {
        Ok(Some(made)) if made.bytes.as_slice() == program.program().bytes() => match &made.known {
            Known::AsOwn => by_outline(alloc, profile, program, &own.outline),
            Known::Outline(outline) => by_outline(alloc, profile, program, outline),
            Known::Merged(outline) => by_merged(alloc, profile, program, outline),
        },
        Ok(_) => Ok(Hand::Nothing),
        Err(_) => Err(CertifyError::OutOfMemory),
    }
}

/// The certificate of a filter that anyone made, written from the outline of the compiler's. A filter that asks for the same in another
/// order may have one.
pub(crate) fn by_compilers_outline(
    alloc: Global,
    profile: &Profile,
    program: Accepted<'_>,
    own: Option<&Planned>,
) -> Result<Hand, CertifyError>
    ensures { IfErr result (λ e. e ≡ OutOfMemory) }
{
    if let Some(own) = own {
        return by_outline(alloc, profile, program, &own.outline);
    }
    match plan(alloc, profile) {
        Ok(own) => by_outline(alloc, profile, program, &own.outline),
        Err(_) => Err(CertifyError::OutOfMemory),
    }
}

/// The certificate of a filter that anyone made, in the parts in which the filter itself asks for rules. The filter may be made of the same
/// rules in another order.
pub(crate) fn by_its_order(
    alloc: Global,
    profile: &Profile,
    program: Accepted<'_>,
) -> Result<Hand, CertifyError>
    ensures { IfErr result (λ e. e ≡ OutOfMemory) }
{
    match asked_by(alloc, profile, &program.program()) {
        Ok(calls) => by_calls(alloc, profile, program, &calls),
        Err(OutlineError::OutOfMemory) => Err(CertifyError::OutOfMemory),
        Err(_) => Ok(Hand::Nothing),
    }
}
