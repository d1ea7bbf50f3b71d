//! The rules that stand for one rule whose arguments are cut to their lowest bits.
ghost use Rattle.std.specs.Prelude.{◌≡◌, ℕ, ◌++◌, ◌≤◌, ◌<◌, [], ◌∷◌, map, length, IfOk, IfErr};
ghost use Rattle.std.specs.List.{All, flat_map};
ghost use Rattle.widths.specs.Counts.{IsCutCause, most_lists};
ghost use Rattle.widths.specs.Cutting as spec;

use crate::narrowing::fault::CutError;
use crate::narrowing::parts::parts;
use arrayvec::ArrayVec;
use profile::{Cond, Rule};
use std::alloc::{AllocError, Global};

/// The most rules that one rule becomes: so many different rules a profile has at most.
pub const MOST_PARTS: usize = 8192;

// Adds a list of conditions with each of the parts behind it.
fn extend(
    list: &ArrayVec<Cond, 6>,
    parts: &[Cond],
    made: &mut Vec<ArrayVec<Cond, 6>>,
) -> Result<(), AllocError>
    requires { length list.now.items < 6 }
    ensures { IfOk result (λ _. map (λ v. v.items) made.new.items
        ≡ map (λ v. v.items) made.old.items ++ spec.with_each parts.now list.now.items) }
{
    for part in parts {
        let mut longer = list.clone()?;
        longer.push(*part);
        made.push(longer)?;
    }
    Ok(())
}

// The lists of conditions, each with each of the parts behind it.
fn extended(
    alloc: Global,
    lists: &[ArrayVec<Cond, 6>],
    parts: &[Cond],
) -> Result<Vec<ArrayVec<Cond, 6>>, AllocError>
    requires { All (λ v. length v.items < 6) lists.now }
    ensures { IfOk result (λ made. map (λ v. v.items) made.items ≡ spec.extended parts.now (map (λ v. v.items) lists.now)) }
{
    let mut made = Vec::new(alloc);
    for list in lists {
        extend(list, parts, &mut made)?;
    }
    Ok(made)
}

/// The lists of conditions, each of one part of each condition: how many bits each argument is cut to stands in the plan.
pub fn conditions(
    alloc: Global,
    conds: &[Cond],
    plan: &[u32; 6],
) -> Result<Vec<ArrayVec<Cond, 6>>, CutError>
    requires { length conds.now ≤ 6 }
    ensures ok { IfOk result (λ made. spec.AreCombined plan.now conds.now (map (λ v. v.items) made.items)) }
    ensures err { IfErr result (IsCutCause (most_lists plan.now conds.now)) }
{
    let mut made = Vec::new(alloc);
    made.push(ArrayVec::new())?;
    for cond in conds {
        let parts = parts(alloc, cond, plan[cond.index as usize])?;
        let count = made.len().saturating_mul(parts.len());
        if count > MOST_PARTS {
            return Err(CutError::TooMany);
        }
        let longer = extended(alloc, &made, &parts)?;
        made = longer;
    }
    Ok(made)
}

// The rules of these lists of conditions, each for the call of a rule and with its verdict.
fn with_conds(
    alloc: Global,
    rule: &Rule,
    lists: &[ArrayVec<Cond, 6>],
) -> Result<Vec<Rule>, CutError>
    requires { All (λ v. map (λ d. d.index) v.items ≡ map (λ c. c.index) rule.now.conds.items) lists.now }
    ensures err { (most : ℕ) → IfErr result (IsCutCause most) }
    ensures like { IfOk result (λ made. All (spec.IsLike rule.now) made.items) }
    ensures conds { IfOk result (λ made. map (λ q. q.conds.items) made.items ≡ map (λ v. v.items) lists.now) }
{
    let mut made = Vec::new(alloc);
    for list in lists {
        match Rule::new(rule.arch, rule.nr, list.clone()?, rule.word) {
            Some(part) => made.push(part)?,
            None => unreachable!(),
        }
    }
    Ok(made)
}

/// The rules that stand for one whose arguments are cut.
pub(crate) fn cut(alloc: Global, rule: &Rule, plan: &[u32; 6]) -> Result<Vec<Rule>, CutError>
    ensures ok { IfOk result (λ made. spec.AreCut plan.now rule.now made.items) }
    ensures err { IfErr result (IsCutCause (most_lists plan.now rule.now.conds.items)) }
{
    let lists = conditions(alloc, rule.conds.as_slice(), plan)?;
    with_conds(alloc, rule, &lists)
}
