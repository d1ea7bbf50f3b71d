//! The conditions that a node says to be met, by the places of their rules in the profile's order and their own. Also
//! whether one is met on the way to another node.
ghost use Rattle.std.specs.Prelude.{◌≡◌, ◌↔◌, ◌+◌, ◌*◌, ◌<◌, ◌⊎◌, [], ℕ, Bool as TheBool, Contains, IsTrue, length, slice_index_or, true};
ghost use Rattle.cert_form.specs.Views.{says};
ghost use Rattle.cert_check.specs.inner.Claimed.{mets_of};
ghost use Rattle.cert_check.specs.inner.Marked.{AreMetMarked, IsClear};
ghost use Rattle.cert_check.specs.Rules.{IsMetBy};

use crate::conditions::is_yes;
use cert_form::NodeView;
use cert_state::{Facts, State};
use profile::Profile;

/// The conditions that a node says to be met. Each is marked at its place in a table of six for each of the first
/// rules. A profile has at most 8,192 rules of at most six conditions. Without a node no condition is marked.
#[derive(Clone, Copy)]
pub(crate) struct Mets<'t, 'a> {
    pub(crate) node: Option<NodeView<'a>>,
    marked: &'t [bool],
    ghost whole: { AreMetMarked (mets_of node) marked.now },
}

/// How many rules a short table is made for: most profiles have no more.
pub(crate) const FEW_RULES: usize = 512;

/// How many rules a table of middle length is made for.
pub(crate) const SOME_RULES: usize = 2048;

// Marks a condition, if the table has it.
fn mark(marked: &mut [bool], place: (u32, u32))
    ensures { (rule own : ℕ) (d : TheBool) → own < 6 → 6 * rule + own < length marked.old
        → (slice_index_or marked.new (6 * rule + own) d ≡ true)
        ↔ ((slice_index_or marked.old (6 * rule + own) d ≡ true) ⊎ ((rule ≡ place.0) × (own ≡ place.1))) }
{
    let own = place.1 as usize;
    if own >= 6 {
        return;
    }
    let at = 6 * place.0 as usize + own;
    if at >= marked.len() {
        return;
    }
    marked[at] = true;
}

/// Marks the conditions that a node says to be met, in a table where none is.
pub(crate) fn mark_mets(node: &NodeView<'_>, marked: &mut [bool])
    requires { IsClear marked.old }
    ensures { AreMetMarked (says node.now).met marked.new }
{
    let mut at = node.first_met();
    while let Some((place, next)) = node.next_met(at) {
        mark(marked, place);
        at = next;
    }
}

// Whether these are the places of a rule and of a condition of it.
fn is_place(place: (u32, u32), rule: usize, own: usize) -> bool
    ensures { IsTrue result ↔ (place ≡ (rule, own)) }
{
    if place.0 as usize != rule {
        return false;
    }
    place.1 as usize == own
}

// Whether a node says a condition to be met, by its chain.
fn says_met(node: &NodeView<'_>, rule: usize, own: usize) -> bool
    ensures { IsTrue result ↔ Contains (says node.now).met (rule, own) }
{
    let mut at = node.first_met();
    while let Some((place, next)) = node.next_met(at) {
        if is_place(place, rule, own) {
            return true;
        }
        at = next;
    }
    false
}

impl<'t, 'a> Mets<'t, 'a> {
    ghost use Rattle.std.specs.Prelude.{◌≡◌, ◌↔◌, ◌<◌, [], ℕ, Contains, IsTrue};
    ghost use Rattle.cert_form.specs.Views.{says};
    ghost use Rattle.cert_check.specs.inner.Claimed.{HasOne, mets_of};
    ghost use Rattle.cert_check.specs.inner.Marked.{AreMetMarked};

    /// No condition is said to be met.
    pub(crate) fn none() -> Mets<'t, 'a>
        ensures { mets_of result.node ≡ [] }
    {
        Mets {
            node: None,
            marked: &[],
        }
    }

    /// The conditions that a node says to be met, by its table.
    pub(crate) fn of(node: &NodeView<'a>, marked: &'t [bool]) -> Mets<'t, 'a>
        requires { AreMetMarked (says node.now).met marked.now }
        ensures { mets_of result.node ≡ (says node.now).met }
    {
        Mets {
            node: Some(*node),
            marked,
        }
    }

    /// Whether a condition of the rule at a place is said to be met.
    #[inline(always)]
    pub(crate) fn has(&self, rule: usize, own: usize) -> bool
        requires rule { rule < 8192 }
        requires own { own < 6 }
        ensures { IsTrue result ↔ Contains (mets_of self.now.node) (rule, own) }
    {
        let at = 6 * rule + own;
        if at < self.marked.len() {
            return self.marked[at];
        }
        match &self.node {
            Some(node) => says_met(node, rule, own),
            None => false,
        }
    }

    // Whether one of the six conditions of the rule at a place is.
    fn has_one(&self, rule: usize) -> bool
        requires { rule < 8192 }
        ensures { IsTrue result ↔ HasOne (mets_of self.now.node) rule }
    {
        for own in 0..6_usize {
            if self.has(rule, own) {
                return true;
            }
        }
        false
    }

    /// Whether some condition of the rule at a place is. Most nodes say it of none.
    #[inline(always)]
    pub(crate) fn has_some(&self, rule: usize) -> bool
        requires { rule < 8192 }
        ensures { IsTrue result ↔ HasOne (mets_of self.now.node) rule }
    {
        match self.node {
            Some(_) => self.has_one(rule),
            None => false,
        }
    }
}

/// Whether a node says no condition to be met.
pub(crate) fn has_no_met(node: &NodeView<'_>) -> bool
    ensures { IsTrue result ↔ (says node.now).met ≡ [] }
{
    node.next_met(node.first_met()).is_none()
}

// Whether a condition, by the places of its rule and its own, is met. It is one of the profile's, and was met before or
// is yes by what is known.
pub(crate) fn is_met<S: State>(
    profile: &Profile,
    facts: &Facts<'_, S>,
    here: &Mets<'_, '_>,
    place: (u32, u32),
) -> bool
    ensures { IsTrue result ↔ IsMetBy profile.now (mets_of here.now.node) (S.known facts.now.state.now) place }
{
    let rules = profile.rules();
    let at = place.0 as usize;
    if at >= rules.len() {
        return false;
    }
    let rule = &rules[at];
    let conds = rule.conds.as_slice();
    let own = place.1 as usize;
    if own >= conds.len() {
        return false;
    }
    if here.has(at, own) {
        return true;
    }
    is_yes(facts, rule.is_narrow(), &conds[own])
}
