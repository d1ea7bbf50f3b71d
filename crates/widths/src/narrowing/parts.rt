//! The conditions that stand for one on the lowest bits of its argument.
ghost use Rattle.std.specs.Prelude.{◌≡◌, ◌<◌, ◌≤◌, ◌++◌, [], ◌∷◌, List, IfOk};
ghost use Rattle.widths.specs.declared.narrowing.patterns.Pattern.{Pattern as ThePattern};
ghost use Rattle.widths.specs.Parts.{AreOfPatterns, AreParts};

use crate::narrowing::asked::patterns;
use crate::narrowing::patterns::Pattern;
use profile::{Cond, Op};
use std::alloc::{AllocError, Global};

/// The greatest width to which arguments are cut.
pub const WIDEST: u32 = 32;

fn push(list: &mut Vec<Cond>, cond: Cond) -> Result<(), AllocError>
    ensures { IfOk result (λ _. list.new.items ≡ list.old.items ++ cond ∷ []) }
{
    list.push(cond)?;
    Ok(())
}

// Adds a condition for a pattern, if some number has it.
fn add(list: &mut Vec<Cond>, index: u8, pattern: &Pattern) -> Result<(), AllocError>
    requires { index < 6 }
    ensures { IfOk result (λ _. (before : List ThePattern) → AreOfPatterns index before list.old.items
        → AreOfPatterns index (before ++ pattern.now ∷ []) list.new.items) }
{
    match Cond::new(index, Op::MaskedEq, pattern.mask, pattern.datum) {
        Some(cond) => push(list, cond),
        None => Ok(()),
    }
}

// A condition for each pattern that some number has.
fn of_patterns(alloc: Global, index: u8, patterns: &[Pattern]) -> Result<Vec<Cond>, AllocError>
    requires { index < 6 }
    ensures { IfOk result (λ list. AreOfPatterns index patterns.now list.items) }
{
    let mut list = Vec::new(alloc);
    for pattern in patterns {
        add(&mut list, index, pattern)?;
    }
    Ok(list)
}

fn cut_parts(alloc: Global, cond: &Cond, bits: u32) -> Result<Vec<Cond>, AllocError>
    requires { bits ≤ 32 }
    ensures { IfOk result (λ list. AreParts bits cond.now list.items) }
{
    let list = patterns(alloc, cond, bits)?;
    of_patterns(alloc, cond.index, &list)
}

/// The conditions of which one holds of a number where a condition holds of its lowest bits; above 32 bits the condition itself.
pub(crate) fn parts(alloc: Global, cond: &Cond, bits: u32) -> Result<Vec<Cond>, AllocError>
    ensures { IfOk result (λ list. AreParts bits cond.now list.items) }
{
    if bits <= WIDEST {
        return cut_parts(alloc, cond, bits);
    }
    let mut list = Vec::new(alloc);
    list.push(*cond)?;
    Ok(list)
}
