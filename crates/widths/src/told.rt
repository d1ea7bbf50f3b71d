//! What narrowing a bundle answers.
ghost use Rattle.std.specs.Prelude.{◌≡◌, ◌++◌, ℕ, List, [], ◌∷◌, IfOk, IfSome, true, false};
ghost use Rattle.widths.specs.Cutting.{Suits};
ghost use Rattle.profile.specs.declared.rules.Rule.{Rule as TheRule};
ghost use Rattle.widths.specs.Narrow as spec;
ghost use Rattle.widths.specs.Lowered.{AreLowered};
ghost use Rattle.widths.specs.Narrowed.{AreNarrowed};
ghost use Rattle.wording.specs.Told.{was_done};

use crate::narrowing::{
    CutError, Plan, WHOLE, add_narrowed, fitting_stay, is_narrowed_of, lowered_rule, suits,
};
use crate::plans::plan_of;
use crate::written::{Draft, written};
use call_tables::call_name;
use machines::Arch;
use profile::{Profile, Rule};
use profile_json::{Bundle, Document, ProfileError, read_bundle};
use std::alloc::{AllocError, Global};
use wording::{End, Told, refused_profile};

/// A bundle of a narrowed profile, or why there is none, and what was changed, a line each.
#[derive(Drop)]
pub struct Narrowing {
    pub told: Told,
    pub changes: String,
}

// What tells that there is no bundle, and nothing more on standard output.
fn nothing(alloc: Global) -> Told
    ensures { was_done result.end ≡ false }
{
    Told {
        bytes: Vec::new(alloc),
        end: End::No,
    }
}

// To how many bits a rule's arguments are cut.
fn plan_of_rule(machines: &[Arch], rule: &Rule) -> Plan {
    match call_name(rule.arch, rule.nr) {
        Some(name) => plan_of(machines, name, rule.conds.as_slice()),
        None => [WHOLE; 6],
    }
}

// The lowered rules of a list, unless one has an order with a value that its argument cannot have.
fn lowered_rules(
    alloc: Global,
    machines: &[Arch],
    rules: &[Rule],
) -> Result<Option<Vec<Rule>>, AllocError>
    ensures { IfOk result (λ found. IfSome found (λ lowers. AreLowered lowers.items rules.now)) }
{
    let mut lowers = Vec::new(alloc);
    for rule in rules {
        let plan = plan_of_rule(machines, rule);
        let Some(lower) = lowered_rule(rule, &plan)? else {
            return Ok(None);
        };
        lowers.push(lower)?;
    }
    Ok(Some(lowers))
}

// Adds the narrowed rules of one rule, unless they are too many.
fn add(
    alloc: Global,
    narrowed: &mut Vec<Rule>,
    rule: &Rule,
    plan: &Plan,
) -> Result<bool, AllocError>
    requires { Suits plan.now rule.now }
    ensures { IfOk result (λ done. done ≡ true → (before : List TheRule) → AreNarrowed before narrowed.old.items
        → AreNarrowed (before ++ rule.now ∷ []) narrowed.new.items) }
{
    match add_narrowed(alloc, narrowed, rule, plan) {
        Ok(()) => Ok(true),
        Err(CutError::TooMany) => Ok(false),
        Err(CutError::OutOfMemory) => Err(AllocError),
    }
}

// The narrowed rules of a list, unless they are too many, or machines of one call read unlike numbers of bits.
fn narrowed_rules(
    alloc: Global,
    machines: &[Arch],
    rules: &[Rule],
) -> Result<Option<Vec<Rule>>, AllocError>
    ensures { IfOk result (λ found. IfSome found (λ narrowed. AreNarrowed rules.now narrowed.items)) }
{
    let mut narrowed = Vec::new(alloc);
    for rule in rules {
        let plan = plan_of_rule(machines, rule);
        if !suits(rule, &plan) {
            return Ok(None);
        }
        let done = add(alloc, &mut narrowed, rule, &plan)?;
        if !done {
            return Ok(None);
        }
    }
    Ok(Some(narrowed))
}

// The bundle, if it is read and is seen to mean the narrowed profile.
fn confirmed(
    alloc: Global,
    native: Arch,
    profile: &Profile,
    lowers: &[Rule],
    rules: &[Rule],
    text: String,
) -> Result<Told, AllocError>
    requires lowered { AreLowered lowers.now profile.now.rules }
    requires narrowed { AreNarrowed lowers.now rules.now }
    ensures { (bundle : List ℕ) → spec.IsBundle native bundle profile.now → IfOk result (spec.IsTold native bundle) }
{
    fitting_stay();
    match read_bundle(alloc, text.as_bytes(), native) {
        Ok(read) => {
            let is_narrowed = is_narrowed_of(profile, lowers, &read.profile, rules);
            Ok(Told {
                bytes: text.into_bytes(),
                end: End::of(is_narrowed),
            })
        }
        Err(error) => refused_profile(alloc, error),
    }
}

// The bundle, if it is seen to mean the narrowed profile. Nothing, if the lowered rules cannot be narrowed.
fn checked_lowered(
    alloc: Global,
    native: Arch,
    profile: &Profile,
    lowers: &[Rule],
    text: String,
) -> Result<Told, AllocError>
    requires { AreLowered lowers.now profile.now.rules }
    ensures { (bundle : List ℕ) → spec.IsBundle native bundle profile.now → IfOk result (spec.IsTold native bundle) }
{
    match narrowed_rules(alloc, profile.machines(), lowers)? {
        Some(rules) => confirmed(alloc, native, profile, lowers, &rules, text),
        None => Ok(nothing(alloc)),
    }
}

// The bundle, if it is seen to mean the narrowed profile. Nothing, if the rules cannot be lowered or narrowed.
fn checked(alloc: Global, native: Arch, profile: &Profile, text: String) -> Result<Told, AllocError>
    ensures { (bundle : List ℕ) → spec.IsBundle native bundle profile.now → IfOk result (spec.IsTold native bundle) }
{
    match lowered_rules(alloc, profile.machines(), profile.rules())? {
        Some(lowers) => checked_lowered(alloc, native, profile, &lowers, text),
        None => Ok(nothing(alloc)),
    }
}

// The bundle that was written, if all of it could be.
fn told_for(
    alloc: Global,
    native: Arch,
    profile: &Profile,
    text: String,
    is_refused: bool,
) -> Result<Told, AllocError>
    ensures { (bundle : List ℕ) → spec.IsBundle native bundle profile.now → IfOk result (spec.IsTold native bundle) }
{
    if is_refused {
        return Ok(nothing(alloc));
    }
    checked(alloc, native, profile, text)
}

// The narrowed bundle of one that was read.
fn narrowed_of(alloc: Global, document: &Document, bundle: &Bundle) -> Result<Narrowing, AllocError>
    requires { spec.IsBundle document.now.native document.now.bytes bundle.now.profile }
    ensures { IfOk result (spec.IsNarrow document.now.native document.now.bytes) }
{
    let Draft {
        text,
        changes,
        is_refused,
    } = written(alloc, document, bundle)?;
    let told = told_for(alloc, document.native(), &bundle.profile, text, is_refused)?;
    Ok(Narrowing { told, changes })
}

// What tells why a bundle is refused.
fn refused(alloc: Global, error: ProfileError) -> Result<Narrowing, AllocError>
    ensures { IfOk result (λ narrowing. was_done narrowing.told.end ≡ false) }
{
    Ok(Narrowing {
        told: refused_profile(alloc, error)?,
        changes: String::new(alloc),
    })
}

/// Makes a bundle of another: it means the narrowed profile.
pub fn narrow(alloc: Global, document: &Document) -> Result<Narrowing, AllocError>
    ensures { IfOk result (spec.IsNarrow document.now.native document.now.bytes) }
{
    match document.bundle() {
        Ok(bundle) => narrowed_of(alloc, document, bundle),
        Err(error) => refused(alloc, error),
    }
}
