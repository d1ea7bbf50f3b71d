//! The nodes of a certificate in their order, each with all that is known there, and its bytes.

use crate::fault::OutlineError;
use crate::maker::{Maker, regs_of};
use crate::parts::{Chains, NOBODY, followers, leading_to};
use crate::spot::Spot;
use crate::stating::Stated;
use cert_form::{ChainNode, Kind};
use std::alloc::{AllocError, Global};

fn number_at(numbers: &[u32], place: u32) -> u32 {
    match numbers.get(place as usize) {
        Some(number) => *number,
        None => NOBODY,
    }
}

fn set(numbers: &mut [u32], place: u32, number: u32) {
    if let Some(own) = numbers.get_mut(place as usize) {
        *own = number;
    }
}

// How many ways lead to each spot.
fn ways_to(alloc: Global, ways: &[Kind]) -> Result<Vec<u32>, AllocError> {
    let mut counts = vec![in alloc; 0u32; ways.len()]?;
    for kind in ways {
        let (first, second) = followers(*kind);
        let count = number_at(&counts, first);
        set(&mut counts, first, count.saturating_add(1));
        let count = number_at(&counts, second);
        set(&mut counts, second, count.saturating_add(1));
    }
    Ok(counts)
}

// Takes one from the count of a spot, which is ready where none is left.
fn pass(ready: &mut Vec<u32>, counts: &mut [u32], place: u32) -> Result<(), AllocError> {
    let count = number_at(counts, place);
    set(counts, place, count.saturating_sub(1));
    if count == 1 {
        ready.push(place)?;
    }
    Ok(())
}

// Takes one from the counts of the two spots that follow. A spot whose count is then 0 is ready.
fn pass_all(ready: &mut Vec<u32>, counts: &mut [u32], kind: Kind) -> Result<(), AllocError> {
    let (first, second) = followers(kind);
    pass(ready, counts, second)?;
    pass(ready, counts, first)
}

/// The places of the spots in an order in which each stands before those to which it leads.
pub(crate) fn sorted(alloc: Global, ways: &[Kind]) -> Result<Vec<u32>, AllocError> {
    let mut counts = ways_to(alloc, ways)?;
    let mut ready = Vec::new(alloc);
    let mut order = Vec::new(alloc);
    ready.push(0)?;
    for _ in 0..ways.len() {
        let Some(place) = ready.pop() else {
            break;
        };
        order.push(place)?;
        if let Some(kind) = ways.get(place as usize) {
            pass_all(&mut ready, &mut counts, *kind)?;
        }
    }
    Ok(order)
}

// For each spot the number of its node.
fn numbers_of(alloc: Global, order: &[u32]) -> Result<Vec<u32>, AllocError> {
    let mut numbers = vec![in alloc; NOBODY; order.len()]?;
    let mut number = 0u32;
    for place in order {
        set(&mut numbers, *place, number);
        number = number.saturating_add(1);
    }
    Ok(numbers)
}

/// The nodes so far, and the chains of what they state.
#[derive(Drop)]
pub(crate) struct Listing {
    // For each spot the number of its node.
    numbers: Vec<u32>,
    pub(crate) chains: Chains,
    nodes: Vec<ChainNode>,
}

impl Listing {
    /// No nodes, of spots in an order.
    pub(crate) fn new(alloc: Global, order: &[u32]) -> Result<Listing, AllocError> {
        Ok(Listing {
            numbers: numbers_of(alloc, order)?,
            chains: Chains::new(alloc),
            nodes: Vec::new(alloc),
        })
    }

    /// Adds the node of a spot, with a chain.
    pub(crate) fn push(&mut self, spot: &Spot, kind: Kind, chain: u32) -> Result<(), AllocError> {
        let (first, second) = followers(kind);
        let first = number_at(&self.numbers, first);
        let second = number_at(&self.numbers, second);
        let is_first = self.nodes.is_empty();
        self.nodes.push(ChainNode {
            kind: leading_to(kind, first, second),
            pc: spot.pc.min(0xffff) as u16,
            regs: regs_of(is_first, spot.a),
            chain,
        })?;
        Ok(())
    }

    /// The certificate of the nodes, and whether it states much: it has an entry a node, or more, and half of them speak of rules.
    pub(crate) fn written(&self, alloc: Global) -> Result<Written, OutlineError> {
        let entries = self.chains.count();
        let are_many = entries >= self.nodes.len();
        Ok(Written {
            bytes: self.chains.written(alloc, &self.nodes)?,
            states_much: are_many && self.chains.count_of_rules() >= entries / 2,
        })
    }
}

/// A certificate.
#[derive(Drop)]
pub(crate) struct Written {
    pub(crate) bytes: Vec<u8>,
    pub(crate) states_much: bool,
}

/// The certificate of all spots of a maker, with what they do, in an order.
pub(crate) fn listed_nodes(
    maker: &Maker<'_>,
    kinds: &[Kind],
    order: &[u32],
) -> Result<Written, OutlineError> {
    let mut listing = Listing::new(maker.alloc, order)?;
    // For each spot the chain of one before it.
    let mut before = vec![in maker.alloc; 0u32; order.len()]?;
    let mut stated = Stated::nothing(maker.alloc)?;
    for place in order {
        let (spot, kind) = maker.spot_at(kinds, *place)?;
        let last = number_at(&before, *place);
        maker.state(&spot, &mut stated)?;
        let Stated { lasting, passing } = &stated;
        let chains = &mut listing.chains;
        let chain = chains.of(maker.alloc, &lasting.items, &passing.items, last)?;
        let (first, second) = followers(kind);
        set(&mut before, first, chain);
        set(&mut before, second, chain);
        listing.push(&spot, kind, chain)?;
    }
    listing.written(maker.alloc)
}
