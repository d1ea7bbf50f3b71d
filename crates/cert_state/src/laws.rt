//! Laws of states that are promised to users: what is known is true.
ghost use Rattle.bpf_insn.specs.Causes.{IsPlain};
ghost use Rattle.cert_state.specs.Entailment.{Entails, IsDead};
ghost use Rattle.cert_state.specs.Soundness.{FollowsFact, FollowsSharpFact, HoldsInside, IsEmpty, StaysInside};

use crate::literal::Lit;
use crate::state::State;
use bpf_insn::Insn;

/// One step of the machine from inside a state leads to inside what `transfer` gives.
pub fn transfer_is_sound<S: State>(state: &S, insn: &Insn)
    requires { IsPlain insn.now }
    ensures { StaysInside (S.regs state.now) (S.known state.now) insn.now }
{}

/// The fact of the edge of a conditional jump that the machine takes is true.
pub fn edge_fact_is_sound<S: State>(state: &S, insn: &Insn)
    ensures { FollowsFact (S.regs state.now) (S.known state.now) insn.now }
{}

/// So is its sharp fact, which certificates of form 4 tell.
pub fn sharp_fact_is_sound<S: State>(state: &S, insn: &Insn)
    ensures { FollowsSharpFact (S.regs state.now) (S.known state.now) insn.now }
{}

/// What a state entails is true of each record inside.
pub fn entails_is_sound<S: State>(state: &S, literal: &Lit)
    requires { Entails (S.known state.now) literal.now }
    ensures { HoldsInside (S.regs state.now) (S.known state.now) literal.now }
{}

/// No record is inside a dead state.
pub fn dead_is_sound<S: State>(state: &S)
    requires { IsDead (S.known state.now) }
    ensures { IsEmpty (S.regs state.now) (S.known state.now) }
{}
