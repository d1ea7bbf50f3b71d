//! The places of all paths, and what their nodes do.
ghost use Rattle.std.specs.Prelude.{◌≡◌, ◌<◌, ◌≤◌, ◌⊎◌, ◌^◌, ◌++◌, ◌∷◌, [], All, IfErr, IfOk, IfSome, OnOk, length, slice_get};
ghost use Rattle.bpf_insn.specs.declared.instruction.Insn.{Insn as TheInsn};
ghost use Rattle.profile.specs.Policy.{Policy};
ghost use Rattle.cert_state.specs.Literals.{AreValues, IsLit};
ghost use Rattle.cert_form.specs.Nodes.{literals};
ghost use Rattle.cert_form.specs.Writing.{all_known};
ghost use Rattle.cert_form.specs.declared.fault.FormError.TheVariants.{OutOfMemory as NoMemory};
ghost use Rattle.certify.specs.Fault.{IsSize};
ghost use Rattle.certify.specs.declared.fault.PathsError.TheVariants.{OutOfMemory};
ghost use Rattle.certify.specs.inner.Limits.{LacksRoom};
ghost use Rattle.cert_check.specs.Valid.{IsValidCertificate};
ghost use Rattle.certify.specs.inner.Follow.{IsGiven};
ghost use Rattle.certify.specs.inner.Places.{AreInside, AreKept, AreNodes, ArePaths, IsAdded, IsLearned, IsPlace, chain_node_of, known_at};
ghost use Rattle.std.specs.Prelude.{List};

use crate::chain::Chain;
use crate::fault::PathsError;
use crate::place::{Next, Place};
use cert_form::{ChainNode, Claim, FormError, Kind, MAX_LITERALS, MAX_NODES, write_claims};
use cert_state::Lit;
use std::alloc::{AllocError, Global};

/// The places of all paths, each before those that it leads to, and what the nodes of the first ones do. Also the entries of
/// the chains that say what is known.
#[derive(Drop)]
pub(crate) struct Paths {
    pub(crate) entries: Vec<(u32, Lit)>,
    pub(crate) places: Vec<Place>,
    pub(crate) kinds: Vec<Kind>,
}

// A certificate that is not written is too large, or memory ran out.
fn refused(error: FormError) -> PathsError
    ensures size { IsSize result }
    ensures memory { error ≡ NoMemory → result ≡ OutOfMemory }
{
    match error {
        FormError::OutOfMemory => PathsError::OutOfMemory,
        _ => PathsError::TooLarge,
    }
}

// The node of a place that does this.
fn node(place: Place, kind: Kind) -> ChainNode
    ensures node { result ≡ chain_node_of place kind }
    ensures small { result.pc < 2 ^ 16 }
{
    ChainNode {
        kind,
        pc: place.pc,
        regs: place.regs,
        chain: place.chain,
    }
}

// What the entries of a chain state, as claims.
fn as_claims(alloc: Global, entries: &[(u32, Lit)]) -> Result<Vec<(u32, Claim)>, AllocError>
    ensures { IfOk result (λ claims. claims.items ≡ all_known entries.now) }
{
    let mut claims = Vec::new(alloc);
    for (parent, literal) in entries {
        claims.push((*parent, Claim::Knows(*literal)))?;
    }
    Ok(claims)
}

impl Paths {
    /// Where each path begins.
    pub(crate) fn new(alloc: Global) -> Result<Paths, PathsError>
        ensures paths { IfOk result ArePaths }
        ensures places { IfOk result (λ paths. paths.places.items ≡ Place.FIRST ∷ []) }
        ensures kinds { IfOk result (λ paths. paths.kinds.items ≡ []) }
        ensures size { IfErr result IsSize }
        ensures memory { IfErr result (λ e. e ≡ OutOfMemory) }
    {
        let mut places = Vec::new(alloc);
        places.push(Place::FIRST)?;
        Ok(Paths {
            entries: Vec::new(alloc),
            places,
            kinds: Vec::new(alloc),
        })
    }

    /// What is known at a place.
    pub(crate) fn known(&self, place: Place) -> Chain<'_>
        requires { ArePaths self.now }
        ensures { literals result.entries.now result.number ≡ known_at self.now.entries.items place }
    {
        Chain {
            entries: &self.entries,
            number: place.chain,
        }
    }

    /// Adds a place that knows at most one literal more than another. The result is its number.
    pub(crate) fn add(&mut self, from: Place, next: Next) -> Result<u32, PathsError>
        requires paths { ArePaths self.old }
        requires from { IsPlace self.old.entries.items from }
        requires literal { IfSome next.learned IsLit }
        requires values { AreValues next.regs }
        ensures paths { OnOk result (ArePaths self.new) }
        ensures added { IfOk result (IsAdded self.old self.new from next) }
        ensures size { IfErr result IsSize }
        // Too large is a certificate of more places, or of longer chains, than the format allows.
        ensures refused { IfErr result (LacksRoom self.old from 1) }
    {
        let number = self.places.len();
        if number >= MAX_NODES {
            return Err(PathsError::TooLarge);
        }
        let (chain, depth) = self.learn(from, next.learned)?;
        self.places.push(Place {
            pc: next.pc,
            regs: next.regs,
            chain,
            depth,
        })?;
        Ok(number as u32)
    }

    // The chain of what is known at a place, with one literal more where it is given, and how many literals it has.
    fn learn(&mut self, from: Place, learned: Option<Lit>) -> Result<(u32, u32), PathsError>
        requires paths { ArePaths self.old }
        requires from { IsPlace self.old.entries.items from }
        requires literal { IfSome learned IsLit }
        requires room { length self.old.places.items < 16384 }
        ensures learned { IfOk result (IsLearned self.old self.new from learned) }
        ensures size { IfErr result IsSize }
        ensures refused { IfErr result (λ e. (e ≡ OutOfMemory) ⊎ (512 ≤ from.depth)) }
    {
        let Some(literal) = learned else {
            return Ok((from.chain, from.depth));
        };
        if from.depth as usize >= MAX_LITERALS {
            return Err(PathsError::TooLarge);
        }
        let count = self.entries.len();
        self.entries.push((from.chain, literal))?;
        Ok((count as u32 + 1, from.depth + 1))
    }

    // The nodes of all places.
    fn nodes(&self, alloc: Global) -> Result<Vec<ChainNode>, AllocError>
        ensures each { IfOk result (λ nodes. AreNodes self.now.places.items self.now.kinds.items nodes.items) }
        ensures small { IfOk result (λ nodes. All (λ node. node.pc < 2 ^ 16) nodes.items) }
    {
        let mut nodes = Vec::new(alloc);
        for (place, kind) in self.places.iter().zip(self.kinds.iter()) {
            nodes.push(node(*place, *kind))?;
        }
        Ok(nodes)
    }

    /// The first place that has no node yet.
    pub(crate) fn next_place(&self) -> Option<Place>
        ensures { result ≡ slice_get self.now.places.items (length self.now.kinds.items) }
    {
        self.places.get(self.kinds.len()).copied()
    }

    /// Gives a node to the first place that has none.
    pub(crate) fn give(&mut self, kind: Kind) -> Result<(), PathsError>
        ensures given { OnOk result (IsGiven self.old self.new kind) }
        ensures size { IfErr result IsSize }
        ensures memory { IfErr result (λ e. e ≡ OutOfMemory) }
    {
        self.kinds.push(kind)?;
        Ok(())
    }

    /// The certificate, once each place has a node.
    pub(crate) fn written(&self, alloc: Global) -> Result<Vec<u8>, PathsError>
        requires paths { ArePaths self.now }
        requires all { length self.now.kinds.items ≡ length self.now.places.items }
        ensures valid { (policy : Policy) (p : List TheInsn) → AreInside p self.now → AreKept policy p self.now
            → IfOk result (λ bytes. IsValidCertificate policy p bytes.items) }
        // So few places and entries always fit.
        ensures size { IfErr result IsSize }
        ensures memory { IfErr result (λ e. e ≡ OutOfMemory) }
    {
        let claims = as_claims(alloc, &self.entries)?;
        let nodes = self.nodes(alloc)?;
        match write_claims(alloc, &claims, &nodes) {
            Ok(bytes) => Ok(bytes),
            Err(error) => Err(refused(error)),
        }
    }
}
