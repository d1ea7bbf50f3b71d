//! States, which lend their literals one at a time.
ghost use Rattle.std.specs.Prelude.{◌≡◌, ◌==◌, ◌≤◌, ◌<◌, ◌+◌, ◌++◌, ◌∷◌, [], ℕ, if◌then◌else◌, List, IfSome, MatchOption, drop, length, option_to_list};
ghost use Rattle.cert_state.specs.declared.literal.Lit.{Lit as TheLit};
ghost use Rattle.cert_state.specs.declared.literal.Regs.{Regs as TheRegs};

use crate::literal::{Lit, Regs};

/// What is known where an execution stands.
pub trait State {
    /// What is known of the registers.
    ghost regs: { Self → TheRegs };

    /// What is known of the record.
    ghost known: { Self → List TheLit };

    /// The literals from a place on.
    ghost rest: { Self → ℕ → List TheLit };

    /// No place is above this one.
    ghost last: { Self → ℕ };

    /// What is known of the registers.
    fn regs(&self) -> Regs
        ensures { result ≡ regs self.now };

    /// The place from which all literals are left.
    fn start(&self) -> usize
        ensures all { rest self.now result ≡ known self.now }
        ensures bound { result ≤ last self.now };

    /// The literal at a place, with the place of the next one.
    fn next(&self, at: usize) -> Option<(Lit, usize)>
        ensures more { MatchOption result (rest self.now at ≡ []) (λ p. rest self.now at ≡ p.0 ∷ rest self.now p.1) }
        ensures bound { IfSome result (λ p. p.1 ≤ last self.now) };
}

/// A state over a list of literals, with at most one more.
#[derive(Clone, Copy)]
pub struct Listed<'a> {
    pub regs: Regs,
    pub lits: &'a [Lit],
    pub more: Option<Lit>,
}

impl State for Listed<'_> {
    ghost regs = { λ s. s.regs };

    ghost known = { λ s. s.lits.now ++ option_to_list s.more };

    ghost rest = { λ s at. drop at (s.lits.now ++ option_to_list s.more) };

    ghost last = { λ s. length s.lits.now + 1 };

    fn regs(&self) -> Regs {
        self.regs
    }

    fn start(&self) -> usize {
        0
    }

    fn next(&self, at: usize) -> Option<(Lit, usize)> {
        if at < self.lits.len() {
            return Some((self.lits[at], at + 1));
        }
        if at > self.lits.len() {
            return None;
        }
        self.more.map(|l| (l, at + 1))
    }
}

/// A state with at most one literal more than another has, whose places leave room for one more.
#[derive(Drop)]
pub struct With<'a, S: State> {
    pub state: &'a S,
    pub more: Option<Lit>,
    pub ghost room: { S.last state.now < 0xffffffffffffffff },
}

impl<S: State> State for With<'_, S> {
    ghost regs = { λ s. S.regs s.state.now };

    ghost known = { λ s. S.known s.state.now ++ option_to_list s.more };

    // Nothing is left at the greatest place, which is none of the other state's.
    ghost rest = { λ s at. if at == 0xffffffffffffffff then [] else S.rest s.state.now at ++ option_to_list s.more };

    ghost last = { λ s. 0xffffffffffffffff };

    fn regs(&self) -> Regs {
        self.state.regs()
    }

    fn start(&self) -> usize {
        self.state.start()
    }

    fn next(&self, at: usize) -> Option<(Lit, usize)> {
        if at == usize::MAX {
            return None;
        }
        match self.state.next(at) {
            Some(found) => Some(found),
            None => self.more.map(|l| (l, usize::MAX)),
        }
    }
}
