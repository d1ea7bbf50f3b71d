//! A node where it lies in the bytes of its certificate.
ghost use Rattle.cert_form.specs.inner.Places.{IsHeadThere, IsNodeThere};

use crate::chain::{meeting, next_claim, next_literal, next_met, next_out};
use crate::node::{Claim, Kind};
use crate::part::{
    chain_place_of, read_kind, read_literal, read_long, read_short, read_value, scratch_of,
};
use cert_state::{AVal, Lit, Regs, State};

/// A node of a certificate, lent in the bytes that it was read from.
#[derive(Clone, Copy)]
pub struct NodeView<'a> {
    pub(crate) bytes: &'a [u8],
    pub(crate) at: usize,
    ghost head: { IsHeadThere bytes.now },
    ghost there: { IsNodeThere bytes.now at },
}

#[tactic(auto, unfolding(crate::specs::Views::says, crate::specs::Views::outs_from, crate::specs::Views::mets_from, crate::specs::Reading::node_at, crate::specs::Reading::outs_left, crate::specs::Reading::mets_left, crate::specs::Reading::claims_left, crate::specs::Reading::has_entries, crate::specs::Views::certificate_of))]
impl<'a> NodeView<'a> {
    ghost use Rattle.std.specs.Prelude.{◌≡◌, ◌↔◌, ◌∷◌, [], ℕ, false, Contains, IsTrue, MatchOption};
    ghost use Rattle.cert_form.specs.Nodes.{literals_in, mets_in, outs_in};
    ghost use Rattle.cert_form.specs.Spelling.{nothing_stated};
    ghost use Rattle.cert_form.specs.Views.{AreLast, certificate_of, claims_from, claims_of, is_chained, mets_from, numbers_from, numbers_of, outs_from, says};

    /// What the node does.
    pub fn kind(&self) -> Kind
        ensures { result ≡ (says self.now).kind }
    {
        if read_long(self.bytes, 4) == 1 {
            let tag = self.bytes[self.at];
            let count = read_short(self.bytes, self.at + 3) as usize;
            return read_kind(self.bytes, tag, self.at + 17 + 10 * count);
        }
        let tail = chain_place_of(self.bytes, self.at) + 4;
        read_kind(self.bytes, self.bytes[self.at], tail)
    }

    /// The position of its instruction.
    pub fn pc(&self) -> u16
        ensures { result ≡ (says self.now).pc }
    {
        if read_long(self.bytes, 4) == 1 {
            return read_short(self.bytes, self.at + 1);
        }
        read_short(self.bytes, self.at + 2)
    }

    /// Whether its certificate is sharp, as those of form 4 are.
    pub fn is_sharp(&self) -> bool
        ensures { result ≡ (says self.now).sharp }
    {
        read_long(self.bytes, 4) == 4
    }

    /// Whether what it states stands on a chain of entries, as in all forms but form 1.
    pub fn is_chained(&self) -> bool
        ensures { result ≡ is_chained self.now }
    {
        read_long(self.bytes, 4) != 1
    }

    /// What it says of A.
    pub fn a(&self) -> AVal
        ensures { result ≡ (says self.now).regs.a }
    {
        if read_long(self.bytes, 4) == 1 {
            return read_value(self.bytes, self.at + 5);
        }
        read_value(self.bytes, self.at + 4)
    }

    /// What it says of X.
    pub fn x(&self) -> AVal
        ensures { result ≡ (says self.now).regs.x }
    {
        if read_long(self.bytes, 4) == 1 {
            return read_value(self.bytes, self.at + 11);
        }
        read_value(self.bytes, self.at + 10)
    }

    /// Whether it may state a value of a scratch word, as in forms 3 and 4. If not, it states none.
    pub fn may_state_scratch(&self) -> bool
        ensures { result ≡ false → (says self.now).regs.scratch ≡ nothing_stated }
    {
        let version = read_long(self.bytes, 4);
        if version == 1 {
            return false;
        }
        if version == 2 {
            return false;
        }
        read_short(self.bytes, self.at + 16) != 0
    }

    /// The place of its chain from which all rules are left that it says to be out.
    pub fn first_out(&self) -> usize
        ensures { outs_from self.now result ≡ (says self.now).out }
    {
        if read_long(self.bytes, 4) != 4 {
            return 0;
        }
        read_long(self.bytes, chain_place_of(self.bytes, self.at)) as usize
    }

    /// The first rule that is left from a place on, with the place of the next one.
    pub fn next_out(&self, at: usize) -> Option<(u32, usize)>
        ensures { MatchOption result (outs_from self.now at ≡ []) (λ p. outs_from self.now at ≡ p.0 ∷ outs_from self.now p.1) }
    {
        if read_long(self.bytes, 4) != 4 {
            return None;
        }
        next_out(self.bytes, at)
    }

    /// The place of its chain from which all conditions are left that it says to be met.
    pub fn first_met(&self) -> usize
        ensures { mets_from self.now result ≡ (says self.now).met }
    {
        if read_long(self.bytes, 4) != 4 {
            return 0;
        }
        read_long(self.bytes, chain_place_of(self.bytes, self.at)) as usize
    }

    /// The first condition that is left from a place on, its rule's place and its own, with the place of the next one.
    pub fn next_met(&self, at: usize) -> Option<((u32, u32), usize)>
        ensures { MatchOption result (mets_from self.now at ≡ []) (λ p. mets_from self.now at ≡ p.0 ∷ mets_from self.now p.1) }
    {
        if read_long(self.bytes, 4) != 4 {
            return None;
        }
        next_met(self.bytes, at)
    }

    /// The place of its chain from which all is left that it states. By it form 1 states nothing.
    pub fn chain(&self) -> usize
        ensures claims { claims_from self.now result ≡ claims_of self.now }
        ensures numbers { numbers_from self.now result ≡ numbers_of self.now }
        ensures known { IsTrue (is_chained self.now) → literals_in (claims_of self.now) ≡ (says self.now).known }
        ensures out { outs_in (claims_of self.now) ≡ (says self.now).out }
        ensures met { mets_in (claims_of self.now) ≡ (says self.now).met }
    {
        if read_long(self.bytes, 4) == 1 {
            return 0;
        }
        let place = chain_place_of(self.bytes, self.at);
        read_long(self.bytes, place) as usize
    }

    /// The first claim that is left from a place on, with the place of the next one.
    pub fn next_claim(&self, at: usize) -> Option<(Claim, usize)>
        ensures { MatchOption result (claims_from self.now at ≡ []) (λ p. claims_from self.now at ≡ p.0 ∷ claims_from self.now p.1) }
    {
        if read_long(self.bytes, 4) == 1 {
            return None;
        }
        next_claim(self.bytes, at)
    }

    /// The place where the chain of another node of the same certificate meets this one's. From there on they are one, and
    /// above it they share no entry.
    pub fn meeting(&self, other: &NodeView<'_>) -> usize
        ensures here { AreLast (claims_from self.now result) (claims_of self.now) }
        ensures there { certificate_of self.now ≡ certificate_of other.now → AreLast (claims_from self.now result) (claims_of other.now) }
        ensures shared { certificate_of self.now ≡ certificate_of other.now → (n : ℕ) → Contains (numbers_from self.now result) n
            ↔ (Contains (numbers_of self.now) n × Contains (numbers_of other.now) n) }
    {
        if read_long(self.bytes, 4) == 1 {
            return 0;
        }
        meeting(self.bytes, self.chain(), other.chain())
    }
}

#[tactic(auto, unfolding(crate::specs::Views::says, crate::specs::Reading::node_at, crate::specs::Reading::literals_left))]
impl State for NodeView<'_> {
    ghost use Rattle.cert_form.specs.Views.{says};
    ghost use Rattle.cert_form.specs.Reading.{literals_left};

    ghost regs = { λ node. (says node).regs };

    ghost known = { λ node. (says node).known };

    ghost rest = { λ node place. literals_left node.bytes.now node.at place };

    ghost last = { λ _. 0xffffffff };

    fn regs(&self) -> Regs {
        if read_long(self.bytes, 4) == 1 {
            return Regs {
                a: read_value(self.bytes, self.at + 5),
                x: read_value(self.bytes, self.at + 11),
                scratch: [AVal::Unknown; 16],
            };
        }
        Regs {
            a: read_value(self.bytes, self.at + 4),
            x: read_value(self.bytes, self.at + 10),
            scratch: scratch_of(self.bytes, self.at),
        }
    }

    fn start(&self) -> usize {
        if read_long(self.bytes, 4) == 1 {
            return read_short(self.bytes, self.at + 3) as usize;
        }
        read_long(self.bytes, chain_place_of(self.bytes, self.at)) as usize
    }

    fn next(&self, at: usize) -> Option<(Lit, usize)> {
        if read_long(self.bytes, 4) != 1 {
            return next_literal(self.bytes, at);
        }
        if at == 0 {
            return None;
        }
        let count = read_short(self.bytes, self.at + 3) as usize;
        if at > count {
            return None;
        }
        let end = self.at + 17 + 10 * count;
        Some((read_literal(self.bytes, end - 10 * at), at - 1))
    }
}
