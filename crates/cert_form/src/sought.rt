//! What is looked for among the claims of a chain.
ghost use Rattle.std.specs.Prelude.{◌≡◌, ◌∷◌, [], List, MatchOption, refl};
ghost use Rattle.cert_form.specs.declared.node.Claim.{Claim as TheClaim};
ghost use Rattle.cert_form.specs.Nodes.{literals_in, mets_in, outs_in};

use crate::node::Claim;
use cert_state::Lit;

/// What claims of one kind state.
pub(crate) trait Sought: Sized {
    /// Of a list of claims, what those of this kind state.
    ghost among: { List TheClaim → List Self };

    /// What a claim states, if it is of this kind.
    fn of(claim: Claim) -> Option<Self>
        ensures { (cs : List TheClaim) → MatchOption result (among (claim ∷ cs) ≡ among cs)
            (λ x. among (claim ∷ cs) ≡ x ∷ among cs) };

    /// Of no claims, nothing.
    ghost none: { among [] ≡ [] };
}

/// A literal that is known.
impl Sought for Lit {
    ghost among = { literals_in };

    fn of(claim: Claim) -> Option<Lit> {
        match claim {
            Claim::Knows(literal) => Some(literal),
            Claim::Out(_) | Claim::Met(_, _) => None,
        }
    }

    ghost none = { refl };
}

/// The place of a rule that is out.
impl Sought for u32 {
    ghost among = { outs_in };

    fn of(claim: Claim) -> Option<u32> {
        match claim {
            Claim::Out(place) => Some(place),
            Claim::Knows(_) | Claim::Met(_, _) => None,
        }
    }

    ghost none = { refl };
}

/// The places of a condition that is met: that of its rule, and its own.
impl Sought for (u32, u32) {
    ghost among = { mets_in };

    fn of(claim: Claim) -> Option<(u32, u32)> {
        match claim {
            Claim::Met(rule, condition) => Some((rule, condition)),
            Claim::Knows(_) | Claim::Out(_) => None,
        }
    }

    ghost none = { refl };
}
