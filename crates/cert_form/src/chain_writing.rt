//! Certificates written in form 2, 3 or 4.
ghost use Rattle.std.specs.Prelude.{◌≡◌, ◌≤◌, ◌==◌, ◌++◌, [], if◌then◌else◌, OnOk, IfOk, IfErr, length, map};
ghost use Rattle.std.specs.List.{flat_map};
ghost use Rattle.cert_form.specs.Nodes.{said, said_plainly};
ghost use Rattle.byteorder.specs.Endian.{little_bytes};
ghost use Rattle.cert_form.specs.Spelling.{magic, entry, chain_node, chained, offsets, scratch, Spells, SpellsChained};
ghost use Rattle.cert_form.specs.Writing.{AreChainsWritable, AreClaimsMeant, AreClaimsWritable, AreMeant, ChainsRefused, ClaimsRefused};
ghost use Rattle.cert_form.specs.Writing.{all_known, version_for};

use crate::fault::FormError;
use crate::judge::tail_size;
use crate::limits::{MAX_BYTES, MAX_ENTRIES, MAX_NODES};
use crate::node::{ChainNode, Claim};
use crate::part::end_of_scratch;
use crate::put::{
    bits_of, put_claim, put_literal, put_long, put_scratch, put_short, put_tail, put_value, tag_of,
};
use cert_state::{AVal, Lit};
use std::alloc::{AllocError, Global};

// Form 3 where some node states a scratch value, else form 2.
fn version_of(nodes: &[ChainNode]) -> u32
    ensures { result ≡ version_for nodes.now }
{
    for n in nodes {
        if bits_of(&n.regs.scratch) != 0 {
            return 3;
        }
    }
    2
}

// Entries that all state literals.
fn put_entries(out: &mut Vec<u8>, entries: &[(u32, Lit)]) -> Result<(), AllocError>
    ensures { OnOk result (out.new.items ≡ out.old.items ++ flat_map entry (all_known entries.now)) }
{
    for e in entries {
        put_long(out, e.0)?;
        put_literal(out, e.1)?;
    }
    Ok(())
}

fn put_claims(out: &mut Vec<u8>, entries: &[(u32, Claim)]) -> Result<(), AllocError>
    ensures { OnOk result (out.new.items ≡ out.old.items ++ flat_map entry entries.now) }
{
    for e in entries {
        put_long(out, e.0)?;
        put_claim(out, e.1)?;
    }
    Ok(())
}

// How many bytes the scratch words take, for which form 2 has no field.
fn scratch_size(version: u32, words: &[AVal; 16]) -> usize
    ensures size { result ≡ length (if version == 2 then [] else scratch words.now) }
    ensures few { result ≤ 98 }
{
    if version == 2 {
        return 0;
    }
    end_of_scratch(bits_of(words), 2)
}

// How many bytes a node takes.
fn size_of(version: u32, n: &ChainNode) -> usize
    ensures size { result ≡ length (chain_node version n.now) }
    ensures few { result ≤ 200 }
{
    20 + scratch_size(version, &n.regs.scratch) + tail_size(tag_of(&n.kind))
}

// Where the nodes stand, of which the first one stands at a place.
fn put_offsets(
    out: &mut Vec<u8>,
    version: u32,
    first: usize,
    nodes: &[ChainNode],
) -> Result<(), AllocError>
    requires first { first ≤ 2000000 }
    requires few { length nodes.now ≤ 16384 }
    ensures { OnOk result (out.new.items ≡ out.old.items ++ offsets version first nodes.now) }
{
    let mut at = first;
    for n in nodes {
        put_long(out, at as u32)?;
        at += size_of(version, n);
    }
    Ok(())
}

fn put_chained(out: &mut Vec<u8>, version: u32, n: &ChainNode) -> Result<(), AllocError>
    ensures { OnOk result (out.new.items ≡ out.old.items ++ chain_node version n.now) }
{
    out.push(tag_of(&n.kind))?;
    out.push(0)?;
    put_short(out, n.pc)?;
    put_value(out, n.regs.a)?;
    put_value(out, n.regs.x)?;
    if version != 2 {
        put_scratch(out, &n.regs.scratch)?;
    }
    put_long(out, n.chain)?;
    put_tail(out, &n.kind)
}

fn put_all_chained(out: &mut Vec<u8>, version: u32, nodes: &[ChainNode]) -> Result<(), AllocError>
    ensures { OnOk result (out.new.items ≡ out.old.items ++ flat_map (chain_node version) nodes.now) }
{
    for n in nodes {
        put_chained(out, version, n)?;
    }
    Ok(())
}

// The head of a file, in a version.
fn put_head(out: &mut Vec<u8>, version: u32, nodes: usize, entries: usize) -> Result<(), AllocError>
    requires empty { out.old.items ≡ [] }
    requires few { nodes ≤ 16384 }
    requires few_entries { entries ≤ 65536 }
    ensures { OnOk result (out.new.items ≡ magic ++ little_bytes 4 version ++ little_bytes 4 nodes ++ little_bytes 4 entries) }
{
    out.extend_from_slice(b"CCRT")?;
    put_long(out, version)?;
    put_long(out, nodes as u32)?;
    put_long(out, entries as u32)
}

// The whole file of entries that all state literals and of nodes, in a version.
fn put_file(
    out: &mut Vec<u8>,
    version: u32,
    entries: &[(u32, Lit)],
    nodes: &[ChainNode],
) -> Result<(), AllocError>
    requires empty { out.old.items ≡ [] }
    requires few { length nodes.now ≤ 16384 }
    requires few_entries { length entries.now ≤ 65536 }
    ensures { OnOk result (out.new.items ≡ chained version (all_known entries.now) nodes.now) }
{
    let first = 16 + 14 * entries.len() + 4 * nodes.len();
    put_head(out, version, nodes.len(), entries.len())?;
    put_entries(out, entries)?;
    put_offsets(out, version, first, nodes)?;
    put_all_chained(out, version, nodes)
}

// The whole file of these entries and nodes in form 4.
fn put_claims_file(
    out: &mut Vec<u8>,
    entries: &[(u32, Claim)],
    nodes: &[ChainNode],
) -> Result<(), AllocError>
    requires empty { out.old.items ≡ [] }
    requires few { length nodes.now ≤ 16384 }
    requires few_entries { length entries.now ≤ 65536 }
    ensures { OnOk result (out.new.items ≡ chained 4 entries.now nodes.now) }
{
    let first = 16 + 14 * entries.len() + 4 * nodes.len();
    put_head(out, 4, nodes.len(), entries.len())?;
    put_claims(out, entries)?;
    put_offsets(out, 4, first, nodes)?;
    put_all_chained(out, 4, nodes)
}

/// The entries of chains and the nodes in form 2, or in form 3 where some node states a scratch value. They are
/// refused only for a limit of the form or for memory.
pub fn write_chained(
    alloc: Global,
    entries: &[(u32, Lit)],
    nodes: &[ChainNode],
) -> Result<Vec<u8>, FormError>
    // What is written are the bytes of these entries and nodes, which keep the limits.
    ensures spelled { IfOk result (λ bytes. bytes.items ≡ chained (version_for nodes.now) (all_known entries.now) nodes.now) }
    ensures kept { OnOk result (AreChainsWritable entries.now nodes.now) }
    // It is their certificate, given that parents, chains, literals and values are such.
    ensures written { IfOk result (λ bytes. AreMeant entries.now nodes.now
        → SpellsChained (version_for nodes.now) bytes.items (all_known entries.now) nodes.now) }
    // It is read as what the nodes say.
    ensures read { IfOk result (λ bytes. AreMeant entries.now nodes.now → Spells bytes.items (map (said_plainly entries.now) nodes.now)) }
    ensures refused { IfErr result (λ e. ChainsRefused e entries.now nodes.now) }
{
    if nodes.is_empty() || nodes.len() > MAX_NODES || entries.len() > MAX_ENTRIES {
        return Err(FormError::BadCount);
    }
    let version = version_of(nodes);
    let mut out = Vec::new(alloc);
    put_file(&mut out, version, entries, nodes)?;
    if out.len() > MAX_BYTES {
        return Err(FormError::BadCount);
    }
    Ok(out)
}

/// Entries of which some may say that a rule is out or a condition met, and the nodes, in form 4. They are refused only for a limit of
/// the form or for memory.
pub fn write_claims(
    alloc: Global,
    entries: &[(u32, Claim)],
    nodes: &[ChainNode],
) -> Result<Vec<u8>, FormError>
    // What is written are the bytes of these entries and nodes, which keep the limits.
    ensures spelled { IfOk result (λ bytes. bytes.items ≡ chained 4 entries.now nodes.now) }
    ensures kept { OnOk result (AreClaimsWritable entries.now nodes.now) }
    // It is their certificate, given that parents, chains, literals and values are such, and is read as what they say.
    ensures written { IfOk result (λ bytes. AreClaimsMeant entries.now nodes.now → SpellsChained 4 bytes.items entries.now nodes.now) }
    ensures read { IfOk result (λ bytes. AreClaimsMeant entries.now nodes.now → Spells bytes.items (map (said 4 entries.now) nodes.now)) }
    ensures refused { IfErr result (λ e. ClaimsRefused e entries.now nodes.now) }
{
    if nodes.is_empty() || nodes.len() > MAX_NODES || entries.len() > MAX_ENTRIES {
        return Err(FormError::BadCount);
    }
    let mut out = Vec::new(alloc);
    put_claims_file(&mut out, entries, nodes)?;
    if out.len() > MAX_BYTES {
        return Err(FormError::BadCount);
    }
    Ok(out)
}
