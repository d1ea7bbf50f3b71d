//! The rules about which is asked at a return.
ghost use Rattle.cert_form.specs.declared.node.Kind.TheVariants.{Return};
ghost use Rattle.cert_form.specs.Views.{says};
ghost use Rattle.cert_work.specs.Work.{AreAsked, IsAsked, PaysOne};

use crate::weights::pay_between;
use cert_form::{Kind, NodeView};
use cert_state::{Facts, Knowledge, Lit, Room, State};
use profile::Rule;

// The word of a record that holds the call's number.
const NUMBER: u8 = 0;

// The numbers about which is asked lie between these two.
fn asked_of<S: State>(facts: &Facts<'_, S>) -> (u32, u32)
    ensures { AreAsked (S.known facts.now.state.now) result.0 result.1 }
{
    let Some((least, greatest)) = facts.range(NUMBER) else {
        return (0, u32::MAX);
    };
    if facts.entails(&Lit::NotBits(NUMBER, u32::MAX, least)) {
        return (0, u32::MAX);
    }
    (least, greatest)
}

// Pays for the rules about which is asked at a return.
fn pay_returned(rules: &[Rule], node: &NodeView<'_>, room: &mut Room, budget: u64) -> Option<u64>
    ensures { PaysOne budget (IsAsked rules.now (says node.now).known Return) result }
{
    let facts = Facts::of(node, room);
    let range = asked_of(&facts);
    pay_between(rules, range, budget)
}

/// Pays for the rules about which is asked at a node.
pub(crate) fn pay_asked(
    rules: &[Rule],
    node: &NodeView<'_>,
    kind: &Kind,
    room: &mut Room,
    budget: u64,
) -> Option<u64>
    ensures { PaysOne budget (IsAsked rules.now (says node.now).known kind.now) result }
{
    match *kind {
        Kind::Return => pay_returned(rules, node, room, budget),
        Kind::Step(_, _) => Some(budget),
        Kind::Split(_, _, _, _) => Some(budget),
        Kind::Dead => Some(budget),
    }
}
