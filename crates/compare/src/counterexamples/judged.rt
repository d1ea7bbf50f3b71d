//! The records that refute a filter, beside a bundle.
ghost use Rattle.std.specs.Prelude.{◌≡◌, ◌∷◌, None, ℕ, List, IfOk, IfSome, OnOk, OnSome};
ghost use Rattle.bpf_insn.specs.Bytes.{insns_of, view_fault};
ghost use Rattle.machines.specs.declared.arch.Arch.{Arch as TheArch};
ghost use Rattle.kernel_check.specs.Accepted.{IsAccepted};
ghost use Rattle.kernel_check.specs.Lent.{accepted_insns};
ghost use Rattle.maker.specs.Certified.{AreJudged};
ghost use Rattle.compare.specs.Counterexamples.{AllRefute, AreFound, Refutes};

use crate::counterexamples::search::add_each;
use crate::filters::find_differences;
use bpf_insn::Program;
use call_record::Record;
use kernel_check::{Accepted, accept};
use machines::Family;
use maker::Counterexample;
use profile::Profile;
use profile_json::Document;
use rule_compile::compile;
use std::alloc::{AllocError, Global};

// The program of a filter, if the kernel accepts it.
fn accepted_of(filter: &[u8]) -> Option<Accepted<'_>>
    ensures same { IfSome result (λ program. accepted_insns program ≡ insns_of filter.entry.now) }
    ensures program { OnSome result (view_fault filter.entry.now ≡ None) }
    ensures accepted { OnSome result (IsAccepted (insns_of filter.entry.now)) }
{
    let program = match Program::view(filter) {
        Ok(program) => program,
        Err(_) => return None,
    };
    match accept(&program) {
        Ok(accepted) => Some(accepted),
        Err(_) => None,
    }
}

// Adds what refutes a filter on the records on which it differs from the filter that is compiled for the profile. Where there is none,
// nothing is added.
fn add_beside(
    alloc: Global,
    family: Family,
    profile: &Profile,
    filter: &Accepted<'_>,
    told: &Record,
    all: &mut Vec<Counterexample>,
) -> Result<(), AllocError>
    ensures { (native : TheArch) (bundle bytes : List ℕ) → AreJudged native bundle bytes profile.now
        → accepted_insns filter.now ≡ insns_of bytes → AllRefute native bundle bytes all.old.items
        → IfOk result (λ _. AllRefute native bundle bytes all.new.items) }
{
    let compiled = match compile(alloc, profile) {
        Ok(compiled) => compiled,
        Err(_) => return Ok(()),
    };
    let own = match accepted_of(&compiled) {
        Some(own) => own,
        None => return Ok(()),
    };
    let differences = find_differences(alloc, family, filter, &own)?;
    add_each(profile, filter, told, &differences, all)
}

// Adds what refutes a filter beside a bundle.
fn add_all(
    alloc: Global,
    document: &Document,
    filter: &[u8],
    told: &Record,
    all: &mut Vec<Counterexample>,
) -> Result<(), AllocError>
    ensures { AllRefute document.now.native document.now.bytes filter.now all.old.items → IfOk result (λ _. AllRefute document.now.native document.now.bytes filter.now all.new.items) }
{
    let bundle = match document.bundle() {
        Ok(bundle) => bundle,
        Err(_) => return Ok(()),
    };
    let program = match accepted_of(filter) {
        Some(program) => program,
        None => return Ok(()),
    };
    add_beside(
        alloc,
        document.native().family(),
        &bundle.profile,
        &program,
        told,
        all,
    )
}

/// Puts a record before all others.
pub(crate) fn put_first(
    found: &Counterexample,
    all: &mut Vec<Counterexample>,
) -> Result<(), AllocError>
    ensures { OnOk result (all.new.items ≡ found.now ∷ all.old.items) }
{
    all.insert(0, *found)?;
    Ok(())
}

/// The record that was found to refute a filter. Then one of each further call on which filter and bundle are found to differ.
pub fn counterexamples_of(
    alloc: Global,
    document: &Document,
    filter: &[u8],
    found: &Counterexample,
) -> Result<Vec<Counterexample>, AllocError>
    requires { Refutes document.now.native document.now.bytes filter.now found.now }
    ensures { IfOk result (λ all. AreFound document.now.native document.now.bytes filter.now found.now all.items) }
{
    let mut all = Vec::new(alloc);
    add_all(alloc, document, filter, &found.call, &mut all)?;
    put_first(found, &mut all)?;
    Ok(all)
}
