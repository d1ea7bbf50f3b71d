//! The ways on from a node, and the nodes that they lead to.
ghost use Rattle.std.specs.Prelude.{◌≡◌, ◌↔◌, IsTrue, All, Some};
ghost use Rattle.std.specs.Option.{option_map};
ghost use Rattle.bpf_insn.specs.Causes.{IsPlain};
ghost use Rattle.bpf_insn.specs.Code.{operation_of};
ghost use Rattle.cert_form.specs.Views.{nodes_of, says};
ghost use Rattle.cert_check.specs.Rules.{Leads, edges, fact_at, one_edge, step_edges};
ghost use Rattle.cert_check.specs.inner.Ways.{edge_list, edge_of};

use bpf_insn::{Insn, Operation};
use cert_form::{CertView, Kind, NodeView};
use cert_state::{Lit, Regs, State, edge_fact_by, sharp_fact_by, transfer};

// The number that stands for no second successor.
const NO_NODE: u32 = u32::MAX;

/// A way on from a node: the node and the position that it leads to, and what is known on the way.
#[derive(Clone, Copy)]
pub(crate) struct Way {
    pub(crate) to: u32,
    pub(crate) pc: u64,
    pub(crate) fact: Option<Lit>,
    pub(crate) regs: Regs,
}

/// The ways on from one node.
#[derive(Clone, Copy)]
pub(crate) enum Ways {
    Nowhere,
    One(Way),
    Two(Way, Way),
}

// The one way of a step that has no second successor.
fn one_way(first: u32, second: u32, pc: u64, regs: Regs) -> Option<Ways>
    ensures { option_map edge_list result ≡ one_edge first second pc regs }
{
    if second != NO_NODE {
        return None;
    }
    Some(Ways::One(Way {
        to: first,
        pc,
        fact: None,
        regs,
    }))
}

// What is known on an edge of a jump, by what is known of the registers.
fn fact_of(node: &NodeView<'_>, regs: &Regs, insn: &Insn, taken: bool) -> Option<Lit>
    requires { regs.now ≡ (says node.now).regs }
    ensures { result ≡ fact_at (says node.now) insn.now taken }
{
    if node.is_sharp() {
        return sharp_fact_by(node, regs, insn, taken);
    }
    edge_fact_by(regs, insn, taken)
}

// The ways of a step at an instruction, or none where it may not stand there.
fn step_ways(node: &NodeView<'_>, first: u32, second: u32, insn: &Insn) -> Option<Ways>
    requires { IsPlain insn.now }
    ensures { option_map edge_list result ≡ step_edges (operation_of insn.now.code) (says node.now) first second insn.now }
{
    let next = u64::from(node.pc()) + 1;
    match insn.operation() {
        Some(Operation::ReturnK | Operation::ReturnA) => None,
        Some(Operation::Branch(_, _)) => {
            // A jump changes no register.
            let regs = node.regs();
            let taken = Way {
                to: first,
                pc: next + u64::from(insn.jt),
                fact: fact_of(node, &regs, insn, true),
                regs,
            };
            let not_taken = Way {
                to: second,
                pc: next + u64::from(insn.jf),
                fact: fact_of(node, &regs, insn, false),
                regs,
            };
            Some(Ways::Two(taken, not_taken))
        }
        Some(Operation::Jump) => {
            one_way(
                first,
                second,
                next + u64::from(insn.k),
                transfer(node, insn),
            )
        }
        _ => one_way(first, second, next, transfer(node, insn)),
    }
}

// The way of a split that learns this literal, and stays at its position.
fn stay(node: &NodeView<'_>, to: u32, literal: Lit) -> Way
    ensures { let n = says node.now in
        edge_of result ≡ record { to = to; pc = n.pc; fact = Some literal; regs = n.regs } }
{
    Way {
        to,
        pc: u64::from(node.pc()),
        fact: Some(literal),
        regs: node.regs(),
    }
}

/// The ways on from a node at its instruction, or none where it may not stand there.
pub(crate) fn ways_of(node: &NodeView<'_>, insn: &Insn) -> Option<Ways>
    requires { IsPlain insn.now }
    ensures { option_map edge_list result ≡ edges (says node.now) insn.now }
{
    match node.kind() {
        Kind::Step(first, second) => step_ways(node, first, second, insn),
        Kind::Split(a, b, first, second) => Some(Ways::Two(
            stay(node, first, a),
            stay(node, second, b),
        )),
        Kind::Return | Kind::Dead => Some(Ways::Nowhere),
    }
}

// Whether a way from node i leads to a greater node at its position.
fn leads(view: &CertView<'_>, i: usize, way: &Way) -> bool
    ensures { IsTrue result ↔ Leads (nodes_of view.now) i (edge_of way.now) }
{
    let to = way.to as usize;
    if to <= i {
        return false;
    }
    if to >= view.len() {
        return false;
    }
    u64::from(view.node(to).pc()) == way.pc
}

/// Whether each way from node i leads to a greater node at its position.
pub(crate) fn all_lead(view: &CertView<'_>, i: usize, ways: &Ways) -> bool
    ensures { IsTrue result ↔ All (Leads (nodes_of view.now) i) (edge_list ways.now) }
{
    match ways {
        Ways::Nowhere => true,
        Ways::One(way) => leads(view, i, way),
        Ways::Two(first, second) => leads(view, i, first) && leads(view, i, second),
    }
}
