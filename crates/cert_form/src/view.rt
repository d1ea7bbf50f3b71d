//! The nodes of a certificate, read in its bytes.
ghost use Rattle.std.specs.Prelude.{◌≡◌, ◌≢◌, ◌<◌, OnOk, IfErr};
ghost use Rattle.cert_form.specs.Faults.{Faulty, IsOtherVersion, IsToldFirst};
ghost use Rattle.cert_form.specs.inner.Standing.{IsTopOfFile};
ghost use Rattle.cert_form.specs.inner.Places.{AreNodesThere, IsHeadThere};
ghost use Rattle.cert_form.specs.Reading.{chain_count, claim_of, node_count, place_of, version_of};

use crate::fault::FormError;
use crate::lent::NodeView;
use crate::limits::{MAX_BYTES, MAX_NODES};
use crate::node::Claim;
use crate::part::{read_claim, read_long};
use crate::{chained, listed};
use std::alloc::Global;

/// The nodes of a certificate, lent in the bytes that it was read from.
#[derive(Drop)]
pub struct CertView<'a> {
    bytes: &'a [u8],
    // Where the nodes stand, in form 1; the other forms have a table of that, and this is empty.
    offsets: Vec<u32>,
    ghost head: { IsHeadThere bytes.now },
    ghost there: { AreNodesThere bytes.now offsets.items },
}

impl<'a> CertView<'a> {
    ghost use Rattle.std.specs.Prelude.{◌≡◌, ◌<◌, List, Some, IfOk, IfErr, MatchResult, length, slice_get};
    ghost use Rattle.cert_form.specs.Faults.{Faulty, IsOtherVersion, IsToldFirst};
    ghost use Rattle.cert_form.specs.Nodes.{PlainNode};
    ghost use Rattle.cert_form.specs.Spelling.{Spells};
    ghost use Rattle.cert_form.specs.Views.{all_claims, bytes_of, certificate_of, nodes_of, says};

    /// The nodes that the bytes spell, in any of the four forms. Memory is asked for in form 1 alone.
    pub fn read(alloc: Global, bytes: &'a [u8]) -> Result<CertView<'a>, FormError>
        // What is read is spelled so.
        ensures found { IfOk result (λ view. Spells bytes.now (nodes_of view)) }
        // What is spelled so is read, unless memory runs out.
        ensures only { (ns : List PlainNode) → Spells bytes.now ns
            → MatchResult result (λ view. nodes_of view ≡ ns) (λ e. e ≡ FormError.OutOfMemory) }
        // An error's fault stands in the bytes.
        ensures fault { IfErr result (λ e. Faulty e bytes.now) }
        // Of another version nothing is told that stands behind it.
        ensures version { IfErr result (λ e. IsOtherVersion bytes.now → IsToldFirst e bytes.now) }
    {
        judge_head(bytes)?;
        if read_long(bytes, 4) == 1 {
            let offsets = listed::judge_all(alloc, bytes)?;
            return Ok(CertView { bytes, offsets });
        }
        chained::judge_all(bytes)?;
        Ok(CertView {
            bytes,
            offsets: Vec::new(alloc),
        })
    }

    /// How many nodes there are.
    pub fn len(&self) -> usize
        ensures { result ≡ length (nodes_of self.now) }
    {
        read_long(self.bytes, 8) as usize
    }

    /// How many entries its chains have. Form 1 has none.
    pub fn claim_count(&self) -> usize
        ensures { result ≡ length (all_claims self.now) }
    {
        if read_long(self.bytes, 4) == 1 {
            return 0;
        }
        read_long(self.bytes, 12) as usize
    }

    /// What the entry of a number states, counted from 0, whatever chains it is on.
    pub fn claim(&self, i: usize) -> Claim
        requires { i < length (all_claims self.now) }
        ensures { slice_get (all_claims self.now) i ≡ Some result }
    {
        entry(self.bytes, i)
    }

    /// The node of a number, counted from 0.
    pub fn node(&self, i: usize) -> NodeView<'a>
        requires { i < length (nodes_of self.now) }
        ensures node { slice_get (nodes_of self.now) i ≡ Some (says result) }
        ensures same { certificate_of result ≡ bytes_of self.now }
    {
        NodeView {
            bytes: self.bytes,
            at: place(self.bytes, &self.offsets, i),
        }
    }
}

// The first bytes, the version and the node count.
fn judge_head(bytes: &[u8]) -> Result<(), FormError>
    ensures sound { OnOk result (IsTopOfFile bytes.now) }
    ensures fault { IfErr result (λ e. Faulty e bytes.now × (e ≢ FormError.OutOfMemory)) }
    ensures version { IfErr result (λ e. IsOtherVersion bytes.now → IsToldFirst e bytes.now) }
{
    if bytes.len() > MAX_BYTES {
        return Err(FormError::BadCount);
    }
    if !bytes.starts_with(b"CCRT") {
        return Err(FormError::BadMagic);
    }
    if bytes.len() < 8 {
        return Err(FormError::Truncated);
    }
    let version = read_long(bytes, 4);
    if version == 0 || version > 4 {
        return Err(FormError::BadVersion);
    }
    if bytes.len() < 12 {
        return Err(FormError::Truncated);
    }
    let count = read_long(bytes, 8) as usize;
    if count == 0 || count > MAX_NODES {
        return Err(FormError::BadCount);
    }
    Ok(())
}

// What the entry of a number states, counted from 0.
fn entry(bytes: &[u8], i: usize) -> Claim
    requires head { IsHeadThere bytes.now }
    requires form { version_of bytes.now ≢ 1 }
    requires within { i < chain_count bytes.now }
    ensures { result ≡ claim_of bytes.now i }
{
    read_claim(bytes, 16 + 14 * i + 4)
}

// Where the node of a number stands.
fn place(bytes: &[u8], own: &[u32], i: usize) -> usize
    requires head { IsHeadThere bytes.now }
    requires there { AreNodesThere bytes.now own.now }
    requires within { i < node_count bytes.now }
    ensures { result ≡ place_of bytes.now i }
{
    if read_long(bytes, 4) == 1 {
        return own[i] as usize;
    }
    let table = 16 + 14 * read_long(bytes, 12) as usize;
    read_long(bytes, table + 4 * i) as usize
}
