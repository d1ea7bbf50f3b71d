//! Whether what is known on an edge gives what its node says.
ghost use Rattle.std.specs.Prelude.{ℕ, ◌≡◌, ◌≢◌, ◌<◌, ◌++◌, ◌↔◌, IfSome, IsTrue, MatchOption, All, Contains, slice_get, Some, slice_index_or, length, option_to_list};
ghost use Rattle.cert_state.specs.declared.literal.AVal.{AVal as TheValue};
ghost use Rattle.cert_state.specs.declared.literal.AVal.TheVariants.{Unknown};
ghost use Rattle.cert_state.specs.Entailment.{Entails, IsDead};
ghost use Rattle.cert_form.specs.declared.node.Kind.TheVariants as kind;
ghost use Rattle.cert_form.specs.Views.{nodes_of, says};
ghost use Rattle.cert_check.specs.Rules.{Allows, Carries};
ghost use Rattle.cert_check.specs.inner.Among.{AreAmong};
ghost use Rattle.cert_check.specs.inner.Broken.{CarriesTo};
ghost use Rattle.cert_check.specs.inner.Passed.{ClaimsFollow};
ghost use Rattle.cert_check.specs.inner.Ways.{edge_list, edge_of};

use crate::edges::{Way, Ways};
use crate::passage::{Origin, Passage};
use cert_form::{Kind, NodeView};
use cert_state::{AVal, Facts, Knowledge, Lit, Room, State, With, dead};

// Whether a node may say this of a register of which that is known.
fn allows(there: AVal, here: AVal) -> bool
    ensures { IsTrue result ↔ Allows there here }
{
    there == AVal::Unknown || there == here
}

// Whether a node may say this of the scratch words.
fn allows_scratch(there: &[AVal; 16], here: &[AVal; 16]) -> bool
    ensures { IsTrue result ↔ ((j : ℕ) (v : TheValue) → slice_get there.now j ≡ Some v
        → Allows v (slice_index_or here.now j Unknown)) }
{
    for j in 0..16_usize {
        if !allows(there[j], here[j]) {
            return false;
        }
    }
    true
}

// Whether a node may say of the scratch words what it says. It mostly says nothing of them.
fn scratch_is_allowed(there: &NodeView<'_>, here: &[AVal; 16]) -> bool
    ensures { IsTrue result ↔ ((j : ℕ) (v : TheValue) → slice_get (says there.now).regs.scratch j ≡ Some v
        → Allows v (slice_index_or here.now j Unknown)) }
{
    if !there.may_state_scratch() {
        return true;
    }
    allows_scratch(&there.regs().scratch, here)
}

// How many literals are looked at for one that stands in its turn: as many as nodes in a row seldom leave out.
const AHEAD: usize = 8;

// The place after a literal among the next few of a state from a place on, if it is one of them.
fn after<S: State>(state: &S, from: usize, wanted: &Lit) -> Option<usize>
    requires { AreAmong (S.rest state.now from) (S.known state.now) }
    ensures { IfSome result (λ next. Contains (S.known state.now) wanted.now × AreAmong (S.rest state.now next) (S.known state.now)) }
{
    let mut at = from;
    for _ in 0..AHEAD {
        let Some((literal, next)) = state.next(at) else {
            return None;
        };
        if literal == *wanted {
            return Some(next);
        }
        at = next;
    }
    None
}

// Whether a literal is the fact of an edge.
fn is_fact(fact: Option<Lit>, literal: &Lit) -> bool
    ensures { IsTrue result ↔ (fact ≡ Some literal.now) }
{
    fact == Some(*literal)
}

// From this place on the next literal is looked for first, if this one stands in its turn or is the fact of the edge.
// Nodes in a row know the same literals in the same order.
fn in_turn<S: State>(known: &With<'_, S>, from: usize, literal: &Lit) -> Option<usize>
    requires { AreAmong (S.rest known.now.state.now from) (S.known known.now.state.now) }
    ensures { IfSome result (λ next. Contains (S.known known.now.state.now ++ option_to_list known.now.more) literal.now
        × AreAmong (S.rest known.now.state.now next) (S.known known.now.state.now)) }
{
    if let Some(next) = after(known.state, from, literal) {
        return Some(next);
    }
    if is_fact(known.more, literal) {
        return Some(from);
    }
    None
}

// The places, at a node and where its literals are looked for, up to which each one stands in its turn.
fn first_out_of_turn<S: State, T: State>(known: &With<'_, S>, there: &T) -> (usize, usize)
    ensures so_far { let all = S.known known.now.state.now ++ option_to_list known.now.more in
        All (Entails all) (T.rest there.now result.0) ↔ All (Entails all) (T.known there.now) }
    ensures place { AreAmong (S.rest known.now.state.now result.1) (S.known known.now.state.now) }
{
    let mut at = there.start();
    let mut from = known.state.start();
    while let Some((literal, next)) = there.next(at) {
        let Some(later) = in_turn(known, from, &literal) else {
            return (at, from);
        };
        from = later;
        at = next;
    }
    (at, from)
}

// Whether a literal follows. If so, the place from which on the next one is looked for first.
fn look<S: State>(facts: &Facts<'_, With<'_, S>>, from: usize, literal: &Lit) -> Option<usize>
    requires { AreAmong (S.rest facts.now.state.now.state.now from) (S.known facts.now.state.now.state.now) }
    ensures { let all = S.known facts.now.state.now.state.now ++ option_to_list facts.now.state.now.more in
        MatchOption result (Entails all literal.now → ⊥)
        (λ next. Entails all literal.now × AreAmong (S.rest facts.now.state.now.state.now next) (S.known facts.now.state.now.state.now)) }
{
    if let Some(next) = in_turn(facts.state, from, literal) {
        return Some(next);
    }
    if facts.entails(literal) {
        return Some(from);
    }
    None
}

// Whether each literal follows that a node says from a place on. What is known of each word is gathered once.
fn follow_from<S: State, T: State>(
    known: &With<'_, S>,
    there: &T,
    start: usize,
    first: usize,
    room: &mut Room,
) -> bool
    requires { AreAmong (S.rest known.now.state.now first) (S.known known.now.state.now) }
    ensures { IsTrue result ↔ All (Entails (S.known known.now.state.now ++ option_to_list known.now.more)) (T.rest there.now start) }
{
    let facts = Facts::of(known, room);
    let mut at = start;
    let mut from = first;
    while let Some((literal, next)) = there.next(at) {
        let Some(later) = look(&facts, from, &literal) else {
            return false;
        };
        from = later;
        at = next;
    }
    true
}

// Whether each literal that a node says follows.
fn entails_all<S: State, T: State>(known: &With<'_, S>, there: &T, room: &mut Room) -> bool
    ensures { IsTrue result ↔ All (Entails (S.known known.now.state.now ++ option_to_list known.now.more)) (T.known there.now) }
{
    let (at, from) = first_out_of_turn(known, there);
    if there.next(at).is_none() {
        return true;
    }
    follow_from(known, there, at, from, room)
}

impl Passage<'_> {
    // Whether all that the node there claims follows: where it has no chain, these are literals.
    fn claims_follow(&self, room: &mut Room) -> bool
        ensures { IsTrue result ↔ ClaimsFollow self.now }
    {
        if self.there.is_chained() {
            return self.chain_follows(room);
        }
        let known = With {
            state: self.node,
            more: self.way.fact,
        };
        entails_all(&known, self.there, room)
    }

    // Whether what is known on the way gives what the node there says.
    fn carries(&self, room: &mut Room) -> bool
        ensures { let p = self.now in
            IsTrue result ↔ Carries p.profile.now (says p.node.now) (edge_of p.way.now) (says p.there.now) }
    {
        if !allows(self.there.a(), self.way.regs.a) {
            return false;
        }
        if !allows(self.there.x(), self.way.regs.x) {
            return false;
        }
        if !scratch_is_allowed(self.there, &self.way.regs.scratch) {
            return false;
        }
        self.claims_follow(room)
    }
}

// Whether a node, if it is dead, can hold no record.
fn dead_is_dead(node: &NodeView<'_>) -> bool
    ensures { IsTrue result ↔ ((says node.now).kind ≡ kind.Dead → IsDead (says node.now).known) }
{
    match node.kind() {
        Kind::Dead => dead(node),
        Kind::Step(_, _) => true,
        Kind::Split(_, _, _, _) => true,
        Kind::Return => true,
    }
}

impl Origin<'_> {
    // Whether what is known on a way gives what the node there says.
    fn carries_to(&self, way: &Way, room: &mut Room) -> bool
        requires { way.now.to < length (nodes_of self.now.view.now) }
        ensures { let o = self.now in
            IsTrue result ↔ CarriesTo o.profile.now (nodes_of o.view.now) (says o.node.now) (edge_of way.now) }
    {
        let there = self.view.node(way.to as usize);
        let passage = Passage {
            profile: self.profile,
            node: self.node,
            way,
            there: &there,
            placed: self.placed,
        };
        passage.carries(room)
    }

    // Whether each way carries what its node says.
    fn all_carry(&self, ways: &Ways, room: &mut Room) -> bool
        requires { All (λ e. e.to < length (nodes_of self.now.view.now)) (edge_list ways.now) }
        ensures { let o = self.now in
            IsTrue result ↔ All (CarriesTo o.profile.now (nodes_of o.view.now) (says o.node.now)) (edge_list ways.now) }
    {
        match ways {
            Ways::Nowhere => true,
            Ways::One(way) => self.carries_to(way, room),
            Ways::Two(first, second) => {
                if !self.carries_to(first, room) {
                    return false;
                }
                self.carries_to(second, room)
            }
        }
    }

    /// Whether each way carries what its node says, and a dead node can hold no record.
    pub(crate) fn entail_is_kept(&self, ways: &Ways, room: &mut Room) -> bool
        requires { All (λ e. e.to < length (nodes_of self.now.view.now)) (edge_list ways.now) }
        ensures { let o = self.now in
            IsTrue result ↔ All (CarriesTo o.profile.now (nodes_of o.view.now) (says o.node.now)) (edge_list ways.now)
            × ((says o.node.now).kind ≡ kind.Dead → IsDead (says o.node.now).known) }
    {
        if !self.all_carry(ways, room) {
            return false;
        }
        dead_is_dead(self.node)
    }
}
