//! To how many bits the arguments of a call are cut, by its name. An entry of a bundle is for all machines that have the call.
use crate::arguments::cut_bits;
use crate::narrowing::{Plan, WHOLE, WIDEST, cut_to, fits_in, sees_low, suit_call};
use call_tables::call_number;
use machines::Arch;
use profile::Cond;
use std::alloc::{AllocError, Global};

// To how many bits a machine's call cuts the argument of a condition.
fn bits_on(arch: Arch, name: &str, cond: &Cond) -> u32 {
    let Some(nr) = call_number(arch, name) else {
        return WHOLE;
    };
    let bits = cut_bits(arch.token(), nr, cond.index as usize);
    if bits > WIDEST || sees_low(cond, bits) {
        return WHOLE;
    }
    bits
}

// The least to which one of the machines cuts it.
fn bits_of(machines: &[Arch], name: &str, cond: &Cond) -> u32 {
    let mut least = WHOLE;
    for arch in machines {
        least = least.min(bits_on(*arch, name, cond));
    }
    least
}

/// To how many bits the arguments of a call are cut under these conditions.
pub(crate) fn plan_of(machines: &[Arch], name: &str, conds: &[Cond]) -> Plan {
    let mut plan = [WHOLE; 6];
    for cond in conds {
        plan[cond.index as usize] = bits_of(machines, name, cond);
    }
    plan
}

// Whether a machine's call, if it has it, may be cut so.
fn suits_on(arch: Arch, name: &str, conds: &[Cond], plan: &Plan) -> bool {
    match call_number(arch, name) {
        Some(nr) => suit_call(arch.token(), nr, conds, plan),
        None => true,
    }
}

/// Whether the arguments of a call may be cut so on each of the machines.
pub(crate) fn agree(machines: &[Arch], name: &str, conds: &[Cond], plan: &Plan) -> bool {
    machines
        .iter()
        .all(|arch| suits_on(*arch, name, conds, plan))
}

/// Whether an argument is cut.
pub(crate) fn cuts(plan: &Plan) -> bool {
    plan.iter().any(|bits| *bits <= WIDEST)
}

// Whether the argument of a condition is cut, and cannot have the value.
fn is_unfit(cond: &Cond, plan: &Plan) -> bool {
    let bits = plan[cond.index as usize];
    bits <= WIDEST && !fits_in(cond, bits)
}

/// The conditions with the bits that are read of values that their arguments cannot have. Or else the place of the first condition that has
/// no such bits: an order.
pub(crate) fn lowered(
    alloc: Global,
    conds: &[Cond],
    plan: &Plan,
) -> Result<Result<Vec<Cond>, usize>, AllocError> {
    let mut lowers = Vec::new(alloc);
    for (place, cond) in conds.iter().enumerate() {
        match lowered_condition(cond, plan) {
            Some(lower) => lowers.push(lower)?,
            None => return Ok(Err(place)),
        }
    }
    Ok(Ok(lowers))
}

fn lowered_condition(cond: &Cond, plan: &Plan) -> Option<Cond> {
    if is_unfit(cond, plan) {
        return cut_to(cond, plan[cond.index as usize].min(WIDEST));
    }
    Some(*cond)
}
