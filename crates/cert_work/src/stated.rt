//! What nodes state.
ghost use Rattle.std.specs.Prelude.{◌+◌, ◌*◌, length, slice_get};
ghost use Rattle.cert_form.specs.Views.{nodes_of, says};
ghost use Rattle.cert_work.specs.Work as work;
ghost use Rattle.cert_work.specs.Work.{Pays};

use crate::weights::weight_at;
use cert_form::{CertView, Kind, NodeView};
use cert_state::State;
use profile::Rule;

/// Pays for the literals of a node.
pub(crate) fn pay_known(node: &NodeView<'_>, budget: u64) -> Option<u64>
    ensures { Pays budget (length (says node.now).known) result }
{
    let mut left = budget;
    let mut at = node.start();
    while let Some((_, next)) = node.next(at) {
        let Some(rest) = left.checked_sub(1) else {
            return None;
        };
        left = rest;
        at = next;
    }
    Some(left)
}

// Pays twice for the literals of a node.
fn pay_literals(node: &NodeView<'_>, budget: u64) -> Option<u64>
    ensures { Pays budget (2 * length (says node.now).known) result }
{
    let mut left = budget;
    let mut at = node.start();
    while let Some((_, next)) = node.next(at) {
        let Some(rest) = left.checked_sub(2) else {
            return None;
        };
        left = rest;
        at = next;
    }
    Some(left)
}

// Pays twice for the conditions that a node says to be met.
fn pay_met(node: &NodeView<'_>, budget: u64) -> Option<u64>
    ensures { Pays budget (2 * length (says node.now).met) result }
{
    let mut left = budget;
    let mut at = node.first_met();
    while let Some((_, next)) = node.next_met(at) {
        let Some(rest) = left.checked_sub(2) else {
            return None;
        };
        left = rest;
        at = next;
    }
    Some(left)
}

// Pays for the rules that a node says to be out.
fn pay_out(rules: &[Rule], node: &NodeView<'_>, budget: u64) -> Option<u64>
    ensures { Pays budget (work.weights_at rules.now (says node.now).out) result }
{
    let mut left = budget;
    let mut at = node.first_out();
    while let Some((place, next)) = node.next_out(at) {
        let Some(rest) = left.checked_sub(weight_at(rules, place)) else {
            return None;
        };
        left = rest;
        at = next;
    }
    Some(left)
}

// Pays for what a node states.
fn pay_stated(rules: &[Rule], node: &NodeView<'_>, budget: u64) -> Option<u64>
    ensures { Pays budget (work.stated rules.now (says node.now)) result }
{
    let left = pay_literals(node, budget)?;
    let left = pay_met(node, left)?;
    pay_out(rules, node, left)
}

// Pays for what the node of a number states, if there is one.
fn pay_at(rules: &[Rule], view: &CertView<'_>, number: u32, budget: u64) -> Option<u64>
    ensures { Pays budget (work.stated_by rules.now (slice_get (nodes_of view.now) number)) result }
{
    let number = number as usize;
    if number >= view.len() {
        return Some(budget);
    }
    pay_stated(rules, &view.node(number), budget)
}

// Pays for what two successors state.
fn pay_both(
    rules: &[Rule],
    view: &CertView<'_>,
    first: u32,
    second: u32,
    budget: u64,
) -> Option<u64>
    ensures { let ns = nodes_of view.now in
        Pays budget (work.stated_by rules.now (slice_get ns first) + work.stated_by rules.now (slice_get ns second)) result }
{
    let left = pay_at(rules, view, first, budget)?;
    pay_at(rules, view, second, left)
}

/// Pays for what the successors of a node state.
pub(crate) fn pay_next(rules: &[Rule], view: &CertView<'_>, kind: &Kind, budget: u64) -> Option<u64>
    ensures { Pays budget (work.stated_next rules.now (nodes_of view.now) kind.now) result }
{
    match *kind {
        Kind::Step(first, second) => pay_both(rules, view, first, second, budget),
        Kind::Split(_, _, first, second) => pay_both(rules, view, first, second, budget),
        Kind::Return => Some(budget),
        Kind::Dead => Some(budget),
    }
}
