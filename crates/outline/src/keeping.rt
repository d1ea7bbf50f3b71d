//! Nodes that state of rules only what is needed behind them and does not follow from literals. For that, what was learned on all
//! ways to a node stays stated, though the spot has forgotten it.

use crate::conditions::{Answer, by_all};
use crate::fault::OutlineError;
use crate::listing::Listing;
use crate::maker::Maker;
use crate::needs::Needs;
use crate::parts::{Chains, Marks, NOBODY, are_many, listed};
use crate::spot::Spot;
use crate::stating::Stated;
use crate::words::{Told, Words};
use cert_form::{Claim, Kind};
use cert_state::{AVal, Facts, Knowledge, Lit, Room};
use std::alloc::AllocError;

/// What is kept on the ways to a spot. This is what the chains of all spots before it have in common, and what the only way tells.
#[derive(Clone, Copy)]
struct Kept {
    chain: u32,
    told: Option<Lit>,
}

impl Kept {
    // Nothing.
    const NOTHING: Kept = Kept {
        chain: 0,
        told: None,
    };

    // What is kept of the ways before and one way more to the same spot.
    fn with_way(before: Option<Kept>, chains: &Chains, way: Kept) -> Kept {
        match before {
            Some(kept) => Kept {
                chain: chains.common(kept.chain, way.chain),
                told: None,
            },
            None => way,
        }
    }
}

// The word of which something is learned behind a node. What was forgotten of it is not stated, since the filter asks anew.
fn asked_word(spot: &Spot, kind: Kind) -> Option<u8> {
    match (kind, spot.a) {
        (Kind::Split(literal, _, _, _), _) => Some(literal.word()),
        (Kind::Step(_, second), AVal::Masked(word, _)) if second != NOBODY => Some(word),
        _ => None,
    }
}

impl<'a> Maker<'a> {
    /// Where a spot leads, and what is told on the ways.
    pub(crate) fn ways(&self, spot: &Spot, kind: Kind) -> [(u32, Option<Lit>); 2] {
        match kind {
            Kind::Split(one, other, first, second) => [(first, Some(one)), (second, Some(other))],
            Kind::Step(first, second) => {
                let (holds, fails) = self.told(spot);
                [(first, holds), (second, fails)]
            }
            Kind::Return | Kind::Dead => [(NOBODY, None), (NOBODY, None)],
        }
    }

    // What is needed of what a spot states.
    fn needed_claims(
        &self,
        needs: &Needs,
        place: u32,
        spot: &Spot,
    ) -> Result<Vec<Claim>, OutlineError> {
        let mut stated = Stated::nothing(self.alloc)?;
        self.state(spot, &mut stated)?;
        let Stated { lasting, passing } = &stated;
        let mut claims = Vec::with_capacity(self.alloc, passing.items.len())?;
        for claim in lasting.items.iter().chain(passing.items.iter()) {
            if needs.has(place, *claim) {
                claims.push(*claim)?;
            }
        }
        Ok(claims)
    }

    // Whether a rule is refuted by what is known, but for conditions that are stated to be met.
    fn is_out<K: Knowledge>(&self, known: &Told<'_, K>, stated: &Marks, number: u32) -> bool {
        let Some(rule) = self.rule(number) else {
            return false;
        };
        for (place, cond) in rule.conds.iter().enumerate() {
            if by_all(known, rule.is_narrow(), cond) == Answer::No
                && !stated.has(Claim::Met(number, (place % 32) as u32))
            {
                return true;
            }
        }
        false
    }

    // Whether what is known says that a condition is met.
    fn is_met<K: Knowledge>(&self, known: &Told<'_, K>, number: u32, place: u32) -> bool {
        match self.rule(number) {
            Some(rule) => match rule.conds.get(place as usize) {
                Some(cond) => by_all(known, rule.is_narrow(), cond) == Answer::Yes,
                None => false,
            },
            None => false,
        }
    }

    // Whether a claim follows from literals.
    fn follows<K: Knowledge>(&self, known: &Told<'_, K>, stated: &Marks, claim: Claim) -> bool {
        match claim {
            Claim::Knows(_) => false,
            Claim::Out(number) => self.is_out(known, stated, number),
            Claim::Met(number, place) => self.is_met(known, number, place),
        }
    }

    // Those of some claims that a chain lacks and that do not follow from the literals of both.
    fn lacking(
        &self,
        chains: &mut Chains,
        chain: u32,
        claims: &[Claim],
        room: &mut Room,
    ) -> Result<Vec<Claim>, AllocError> {
        let open = chains.lacking(self.alloc, chain, claims)?;
        if open.iter().all(|claim| matches!(claim, Claim::Knows(_))) {
            return Ok(open);
        }
        let stated = chains.claims(self.alloc, chain)?;
        let mut known = Words::none(self.alloc);
        known.add_of(&stated)?;
        known.add_of(claims)?;
        let whole = listed(&known.whole);
        let marks = Marks::of(self.alloc, &stated)?;
        if !are_many(open.len(), known.whole.len()) {
            return self.not_following(&known.told(&whole), &marks, &open);
        }
        self.not_following(&known.told(&Facts::of(&whole, room)), &marks, &open)
    }

    // Those of some claims that do not follow from literals.
    fn not_following<K: Knowledge>(
        &self,
        known: &Told<'_, K>,
        stated: &Marks,
        claims: &[Claim],
    ) -> Result<Vec<Claim>, AllocError> {
        let mut lacking = Vec::new(self.alloc);
        for claim in claims {
            if !self.follows(known, stated, *claim) {
                lacking.push(*claim)?;
            }
        }
        Ok(lacking)
    }

    // The chain of a spot, behind what is kept.
    fn kept_chain(
        &self,
        chains: &mut Chains,
        kept: Kept,
        asked: Option<u8>,
        needed: Vec<Claim>,
        room: &mut Room,
    ) -> Result<u32, OutlineError> {
        let mut claims = needed;
        let before = match asked {
            Some(word) => chains.up_to_others(kept.chain, word, &claims),
            None => kept.chain,
        };
        if let Some(literal) = kept.told
            && asked != Some(literal.word())
            && !claims.contains(&Claim::Knows(literal))
        {
            claims.push(Claim::Knows(literal))?;
        }
        let lacking = self.lacking(chains, before, &claims, room)?;
        Ok(chains.behind(self.alloc, before, &lacking, &claims)?)
    }
}

/// The certificate of all spots of a maker, with what they do, in an order.
pub(crate) fn kept_nodes(
    maker: &Maker<'_>,
    kinds: &[Kind],
    order: &[u32],
) -> Result<Vec<u8>, OutlineError> {
    let needs = maker.needs(kinds, order)?;
    let mut listing = Listing::new(maker.alloc, order)?;
    let mut before: Vec<Option<Kept>> = vec![in maker.alloc; None; order.len()]?;
    let mut room = Room::new();
    for place in order {
        let (spot, kind) = maker.spot_at(kinds, *place)?;
        let kept = match before.get(*place as usize) {
            Some(Some(kept)) => *kept,
            _ => Kept::NOTHING,
        };
        let needed = maker.needed_claims(&needs, *place, &spot)?;
        let asked = asked_word(&spot, kind);
        let chain = maker.kept_chain(&mut listing.chains, kept, asked, needed, &mut room)?;
        for (next, told) in maker.ways(&spot, kind) {
            if let Some(own) = before.get_mut(next as usize) {
                *own = Some(Kept::with_way(*own, &listing.chains, Kept { chain, told }));
            }
        }
        listing.push(&spot, kind, chain)?;
    }
    Ok(listing.written(maker.alloc)?.bytes)
}
