//! Narrowed rules.
ghost use Rattle.std.specs.Prelude.{◌≡◌, ◌++◌, [], ◌∷◌, ◌+◌, ◌≤◌, length, IfOk, IfErr, ℕ, List};
ghost use Rattle.widths.specs.Counts.{IsCutCause, most_lists, most_narrowed};
ghost use Rattle.widths.specs.Narrowed.{AreNarrowed};
ghost use Rattle.profile.specs.declared.rules.Rule.{Rule as TheRule};
ghost use Rattle.widths.specs.Cutting.{Suits};

use crate::narrowing::cutting::{MOST_PARTS, cut};
use crate::narrowing::fault::CutError;
use crate::narrowing::suiting::own_plan;
use profile::Rule;
use std::alloc::{AllocError, Global};

/// The narrowed rules of one rule, whose arguments are cut so.
pub fn narrowed_rule(alloc: Global, rule: &Rule, plan: &[u32; 6]) -> Result<Vec<Rule>, CutError>
    requires { Suits plan.now rule.now }
    ensures ok { IfOk result (λ parts. AreNarrowed (rule.now ∷ []) parts.items) }
    ensures few { IfOk result (λ parts. length parts.items ≤ most_lists plan.now rule.now.conds.items) }
    ensures err { IfErr result (IsCutCause (most_lists plan.now rule.now.conds.items)) }
{
    cut(alloc, rule, plan)
}

// Adds rules.
fn append(rules: &mut Vec<Rule>, more: &[Rule]) -> Result<(), AllocError>
    ensures { IfOk result (λ _. rules.new.items ≡ rules.old.items ++ more.now) }
{
    for rule in more {
        rules.push(rule.clone()?)?;
    }
    Ok(())
}

/// Adds the narrowed rules of one rule.
pub fn add_narrowed(
    alloc: Global,
    rules: &mut Vec<Rule>,
    rule: &Rule,
    plan: &[u32; 6],
) -> Result<(), CutError>
    requires { Suits plan.now rule.now }
    ensures ok { IfOk result (λ _. (before : List TheRule) → AreNarrowed before rules.old.items
        → AreNarrowed (before ++ rule.now ∷ []) rules.new.items) }
    ensures few { IfOk result (λ _. length rules.new.items ≤ length rules.old.items + most_lists plan.now rule.now.conds.items) }
    ensures err { IfErr result (IsCutCause (length rules.old.items + most_lists plan.now rule.now.conds.items)) }
{
    let parts = narrowed_rule(alloc, rule, plan)?;
    append(rules, &parts)?;
    if rules.len() > 2 * MOST_PARTS {
        return Err(CutError::TooMany);
    }
    Ok(())
}

/// The narrowed rules of a list.
pub fn narrowed_rules(alloc: Global, rules: &[Rule]) -> Result<Vec<Rule>, CutError>
    ensures ok { IfOk result (λ narrowed. AreNarrowed rules.now narrowed.items) }
    ensures few { IfOk result (λ narrowed. length narrowed.items ≤ most_narrowed rules.now) }
    ensures err { IfErr result (IsCutCause (most_narrowed rules.now)) }
{
    let mut narrowed = Vec::new(alloc);
    for rule in rules {
        let plan = own_plan(rule);
        add_narrowed(alloc, &mut narrowed, rule, &plan)?;
    }
    Ok(narrowed)
}
