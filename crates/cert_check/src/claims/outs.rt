//! The rules that a node says to be out, by their places in the profile's order. Also whether one is out on the way to another
//! node.
ghost use Rattle.std.specs.Prelude.{◌≡◌, ◌↔◌, ◌<◌, ◌⊎◌, [], ℕ, Bool as TheBool, Contains, IsTrue, false, replicate, slice_index_or, true};
ghost use Rattle.cert_form.specs.Views.{says};
ghost use Rattle.cert_check.specs.inner.Claimed.{outs_of};
ghost use Rattle.cert_check.specs.inner.Marked.{AreMarked};
ghost use Rattle.profile.specs.Rule.{is_narrow_rule};
ghost use Rattle.cert_check.specs.Agree.{IsRefuted};
ghost use Rattle.cert_check.specs.declared.judged.Asked.TheVariants as asked;
ghost use Rattle.cert_check.specs.inner.Judged.{IsAnswer};
ghost use Rattle.cert_check.specs.inner.Followed.{IsOutBy};

use crate::agree::TOKEN;
use crate::answered::ask_from;
use crate::claims::mets::Mets;
use crate::judged::Asked;
use crate::numbers::NUMBER;
use cert_form::NodeView;
use cert_state::{Facts, Knowledge, Lit, State};
use profile::{Profile, Rule};

/// The rules that a node says to be out, each marked at its place: a profile has at most 8,192 rules. Without a node none is.
#[derive(Clone, Copy)]
pub(crate) struct Outs<'t, 'a> {
    pub(crate) node: Option<NodeView<'a>>,
    marked: &'t [bool; 8192],
    ghost whole: { AreMarked (outs_of node) marked.now },
}

// No rule is marked.
const NO_RULE: &[bool; 8192] = &[false; 8192];

// Marks a place, if the table has it.
fn mark(marked: &mut [bool; 8192], place: u32)
    ensures { (k : ℕ) (d : TheBool) → k < 8192
        → (slice_index_or marked.new k d ≡ true) ↔ ((slice_index_or marked.old k d ≡ true) ⊎ (k ≡ place)) }
{
    let place = place as usize;
    if place < 8192 {
        marked[place] = true;
    }
}

/// Marks the places that a node says to be out, in a table where none is.
pub(crate) fn mark_outs(node: &NodeView<'_>, marked: &mut [bool; 8192])
    requires { marked.old ≡ replicate 8192 false }
    ensures { AreMarked (says node.now).out marked.new }
{
    let mut at = node.first_out();
    while let Some((place, next)) = node.next_out(at) {
        mark(marked, place);
        at = next;
    }
}

impl<'t, 'a> Outs<'t, 'a> {
    ghost use Rattle.std.specs.Prelude.{◌≡◌, ◌↔◌, ◌<◌, [], Contains, IsTrue};
    ghost use Rattle.cert_form.specs.Views.{says};
    ghost use Rattle.cert_check.specs.inner.Claimed.{outs_of};
    ghost use Rattle.cert_check.specs.inner.Marked.{AreMarked};

    /// No rule is said to be out.
    pub(crate) fn none() -> Outs<'t, 'a>
        ensures { outs_of result.node ≡ [] }
    {
        Outs {
            node: None,
            marked: NO_RULE,
        }
    }

    /// The rules that a node says to be out, by its table.
    pub(crate) fn of(node: &NodeView<'a>, marked: &'t [bool; 8192]) -> Outs<'t, 'a>
        requires { AreMarked (says node.now).out marked.now }
        ensures { outs_of result.node ≡ (says node.now).out }
    {
        Outs {
            node: Some(*node),
            marked,
        }
    }

    /// Whether the rule at a place is said to be out.
    pub(crate) fn has(&self, place: usize) -> bool
        requires { place < 8192 }
        ensures { IsTrue result ↔ Contains (outs_of self.now.node) place }
    {
        self.marked[place]
    }
}

/// Whether a node says no rule to be out.
pub(crate) fn has_none(node: &NodeView<'_>) -> bool
    ensures { IsTrue result ↔ (says node.now).out ≡ [] }
{
    node.next_out(node.first_out()).is_none()
}

// Whether what is known refutes a rule, by whether one of its conditions is no.
fn refutes<S: State>(facts: &Facts<'_, S>, rule: &Rule, one_no: bool) -> bool
    requires { IsAnswer asked.OneNo (is_narrow_rule rule.now) [] (S.known facts.now.state.now) 0 rule.now.conds.items one_no }
    ensures { IsTrue result ↔ IsRefuted (S.known facts.now.state.now) rule.now }
{
    if one_no {
        return true;
    }
    if facts.entails(&Lit::NotBits(TOKEN, u32::MAX, rule.arch.token())) {
        return true;
    }
    facts.entails(&Lit::NotBits(NUMBER, u32::MAX, rule.nr))
}

// Whether a rule, by its place, is out: it is one of the profile's, and was out before or is refuted by what is known. And the place
// of its condition that is no, or the likely one.
pub(crate) fn is_out<S: State>(
    profile: &Profile,
    facts: &Facts<'_, S>,
    here: &Outs<'_, '_>,
    place: u32,
    likely: usize,
) -> (bool, usize)
    ensures { IsTrue result.0 ↔ IsOutBy profile.now (outs_of here.now.node) (S.known facts.now.state.now) place }
{
    let rules = profile.rules();
    let place = place as usize;
    if place >= rules.len() {
        return (false, likely);
    }
    if here.has(place) {
        return (true, likely);
    }
    let rule = &rules[place];
    let (one_no, decides) = ask_from(
        facts,
        &Mets::none(),
        0,
        rule,
        Asked::OneNo,
        (likely, usize::MAX),
    );
    let own = match decides {
        Some(own) => own,
        None => likely,
    };
    (refutes(facts, rule, one_no), own)
}
