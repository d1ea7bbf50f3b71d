//! Whether the parts of a certificate of form 2, 3 or 4 are sound where they lie.
ghost use Rattle.std.specs.Prelude.{◌≡◌, ◌≢◌, ◌≤◌, ◌<◌, ◌+◌, ◌*◌, ◌↔◌, IsTrue, OnOk, IfOk, IfErr, length};
ghost use Rattle.cert_form.specs.Nodes.{on_chain};
ghost use Rattle.cert_form.specs.Faults.{Faulty, HasBadPart, IsBadStated, IsBadChained, IsBadEntry};
ghost use Rattle.cert_form.specs.Reading.{version_of, node_count, chain_count, entries_of, ones, chain_place, node_end, place_of};
ghost use Rattle.cert_form.specs.Reading.{offset_at};
ghost use Rattle.cert_form.specs.inner.Places.{IsHeadThere};
ghost use Rattle.cert_form.specs.inner.Standing.{Fails, HasBadStated, IsStatedThere, AreStatedThere, IsFrontThere, IsScratchThere};
ghost use Rattle.cert_form.specs.inner.Standing.{IsChainThere, IsChainedThere, IsEntryThere, AreEntriesThere, AreChainedThere};

use crate::fault::FormError;
use crate::judge::{judge_claim, judge_tail, judge_value, tail_size};
use crate::limits::{MAX_ENTRIES, MAX_LITERALS};
use crate::part::{chain_place_of, read_long, read_short};

fn judge_entry(bytes: &[u8], j: usize) -> Result<(), FormError>
    requires there { 16 + 14 * j ≤ length bytes.now }
    ensures sound { OnOk result (IsEntryThere bytes.now j) }
    ensures fault { IfErr result (λ e. Fails e bytes.now (16 + 14 * j + 14) (IsBadEntry bytes.now j)) }
{
    let at = 16 + 14 * j;
    if at + 4 > bytes.len() {
        return Err(FormError::Truncated);
    }
    if read_long(bytes, at) as usize > j {
        return Err(FormError::BadNode);
    }
    judge_claim(bytes, at + 4)
}

// The kind, the position and the values of A and X.
fn judge_front(bytes: &[u8], at: usize) -> Result<(), FormError>
    requires { at ≤ length bytes.now }
    ensures sound { OnOk result (IsFrontThere bytes.now at) }
    ensures fault { IfErr result (λ e. Fails e bytes.now (at + 16) (IsBadChained bytes.now at)) }
{
    if at >= bytes.len() {
        return Err(FormError::Truncated);
    }
    if bytes[at] > 3 {
        return Err(FormError::BadNode);
    }
    if at + 1 >= bytes.len() {
        return Err(FormError::Truncated);
    }
    if bytes[at + 1] != 0 {
        return Err(FormError::BadNode);
    }
    if at + 4 > bytes.len() {
        return Err(FormError::Truncated);
    }
    judge_value(bytes, at + 4)?;
    judge_value(bytes, at + 10)
}

// A value that is stated of a scratch word.
fn judge_stated(bytes: &[u8], at: usize) -> Result<(), FormError>
    requires { at ≤ length bytes.now }
    ensures sound { OnOk result (IsStatedThere bytes.now at) }
    ensures fault { IfErr result (λ e. Fails e bytes.now (at + 6) (IsBadStated bytes.now at)) }
{
    if at < bytes.len() && bytes[at] == 0 {
        return Err(FormError::BadNode);
    }
    judge_value(bytes, at)
}

// The values of scratch words that these bits state.
fn judge_values(bytes: &[u8], bits: u16, from: usize) -> Result<(), FormError>
    requires { from ≤ length bytes.now }
    ensures sound { OnOk result (AreStatedThere bytes.now from bits 16) }
    ensures fault { IfErr result (λ e. Fails e bytes.now (from + 6 * ones bits 16) (HasBadStated bytes.now from bits)) }
{
    let mut left = bits;
    let mut at = from;
    for _ in 0..16_usize {
        if left % 2 == 1 {
            judge_stated(bytes, at)?;
            at += 6;
        }
        left /= 2;
    }
    Ok(())
}

// The scratch words, for which form 2 has no field.
fn judge_scratch(bytes: &[u8], at: usize) -> Result<(), FormError>
    requires { at + 16 ≤ length bytes.now }
    ensures sound { OnOk result (IsScratchThere bytes.now at) }
    ensures fault { IfErr result (λ e. Fails e bytes.now (chain_place bytes.now at) (IsBadChained bytes.now at)) }
{
    if read_long(bytes, 4) == 2 {
        return Ok(());
    }
    if at + 18 > bytes.len() {
        return Err(FormError::Truncated);
    }
    judge_values(bytes, read_short(bytes, at + 16), at + 18)
}

// Whether a chain has at most 512 entries.
fn is_short(bytes: &[u8], chain: u32) -> bool
    requires head { IsHeadThere bytes.now }
    requires form { version_of bytes.now ≢ 1 }
    requires known { chain ≤ chain_count bytes.now }
    ensures { IsTrue result ↔ length (on_chain (entries_of bytes.now) chain) ≤ 512 }
{
    let mut entry = chain as usize;
    for _ in 0..MAX_LITERALS {
        if entry == 0 {
            return true;
        }
        entry = read_long(bytes, 16 + 14 * (entry - 1)) as usize;
    }
    entry == 0
}

fn judge_chain(bytes: &[u8], at: usize) -> Result<(), FormError>
    requires head { IsHeadThere bytes.now }
    requires form { version_of bytes.now ≢ 1 }
    requires there { chain_place bytes.now at ≤ length bytes.now }
    ensures sound { OnOk result (IsChainThere bytes.now at) }
    ensures fault { IfErr result (λ e. Fails e bytes.now (chain_place bytes.now at + 4) (IsBadChained bytes.now at)) }
{
    let place = chain_place_of(bytes, at);
    if place + 4 > bytes.len() {
        return Err(FormError::Truncated);
    }
    let chain = read_long(bytes, place);
    if chain > read_long(bytes, 12) {
        return Err(FormError::BadNode);
    }
    if !is_short(bytes, chain) {
        return Err(FormError::BadNode);
    }
    Ok(())
}

// A node at a place, with the place where it ends.
#[tactic(auto, unfolding(crate::specs::Reading::tail_place))]
fn judge_chained(bytes: &[u8], at: usize) -> Result<usize, FormError>
    requires head { IsHeadThere bytes.now }
    requires form { version_of bytes.now ≢ 1 }
    requires there { at ≤ length bytes.now }
    ensures sound { OnOk result (IsChainedThere bytes.now at) }
    ensures end { IfOk result (λ end. end ≡ node_end bytes.now at) }
    ensures fault { IfErr result (λ e. Fails e bytes.now (node_end bytes.now at) (IsBadChained bytes.now at)) }
{
    judge_front(bytes, at)?;
    judge_scratch(bytes, at)?;
    judge_chain(bytes, at)?;
    let kind = bytes[at];
    let place = chain_place_of(bytes, at) + 4;
    judge_tail(bytes, kind, place)?;
    Ok(place + tail_size(kind))
}

// All entries.
fn judge_entries(bytes: &[u8]) -> Result<(), FormError>
    requires there { 16 ≤ length bytes.now }
    requires form { version_of bytes.now ≢ 1 }
    ensures sound { OnOk result (AreEntriesThere bytes.now) }
    ensures room { OnOk result (16 + 14 * chain_count bytes.now ≤ length bytes.now) }
    ensures fault { IfErr result (λ e. Fails e bytes.now (16 + 14 * chain_count bytes.now) (HasBadPart bytes.now)) }
{
    let count = read_long(bytes, 12) as usize;
    for j in 0..count {
        judge_entry(bytes, j)?;
    }
    Ok(())
}

// A node, which stands where the table says, with the place where it ends.
fn judge_placed(bytes: &[u8], i: usize, at: usize) -> Result<usize, FormError>
    requires head { IsHeadThere bytes.now }
    requires form { version_of bytes.now ≢ 1 }
    requires one { i < node_count bytes.now }
    requires table { 16 + 14 * chain_count bytes.now + 4 * node_count bytes.now ≤ length bytes.now }
    requires place { at ≡ place_of bytes.now i }
    requires there { at ≤ length bytes.now }
    ensures sound { OnOk result (IsChainedThere bytes.now at) }
    ensures offset { OnOk result (offset_at bytes.now i ≡ at) }
    ensures end { IfOk result (λ end. end ≡ place_of bytes.now (i + 1)) }
    ensures fault { IfErr result (λ e. Fails e bytes.now (place_of bytes.now (i + 1)) (HasBadPart bytes.now)) }
{
    let table = 16 + 14 * read_long(bytes, 12) as usize;
    if read_long(bytes, table + 4 * i) as usize != at {
        return Err(FormError::BadNode);
    }
    judge_chained(bytes, at)
}

// All nodes, with the place where the last one ends.
fn judge_nodes(bytes: &[u8]) -> Result<usize, FormError>
    requires head { IsHeadThere bytes.now }
    requires form { version_of bytes.now ≢ 1 }
    requires table { 16 + 14 * chain_count bytes.now + 4 * node_count bytes.now ≤ length bytes.now }
    ensures sound { OnOk result (AreChainedThere bytes.now (node_count bytes.now)) }
    ensures end { IfOk result (λ end. end ≡ place_of bytes.now (node_count bytes.now)) }
    ensures room { IfOk result (λ end. end ≤ length bytes.now) }
    ensures fault { IfErr result (λ e. Faulty e bytes.now) }
{
    let count = read_long(bytes, 8) as usize;
    let mut at = 16 + 14 * read_long(bytes, 12) as usize + 4 * count;
    for i in 0..count {
        at = judge_placed(bytes, i, at)?;
    }
    Ok(at)
}

/// The bytes of form 2, 3 or 4 after the node count. Nothing here takes memory.
pub(crate) fn judge_all(bytes: &[u8]) -> Result<(), FormError>
    requires there { 12 ≤ length bytes.now }
    requires form { version_of bytes.now ≢ 1 }
    requires some { 1 ≤ node_count bytes.now }
    ensures counted { OnOk result (chain_count bytes.now ≤ 65536) }
    ensures entries { OnOk result (AreEntriesThere bytes.now) }
    ensures table { OnOk result (16 + 14 * chain_count bytes.now + 4 * node_count bytes.now ≤ length bytes.now) }
    ensures nodes { OnOk result (AreChainedThere bytes.now (node_count bytes.now)) }
    ensures end { OnOk result (place_of bytes.now (node_count bytes.now) ≡ length bytes.now) }
    ensures fault { IfErr result (λ e. Faulty e bytes.now) }
{
    if bytes.len() < 16 {
        return Err(FormError::Truncated);
    }
    let entries = read_long(bytes, 12) as usize;
    if entries > MAX_ENTRIES {
        return Err(FormError::BadCount);
    }
    judge_entries(bytes)?;
    if 16 + 14 * entries + 4 * read_long(bytes, 8) as usize > bytes.len() {
        return Err(FormError::Truncated);
    }
    if judge_nodes(bytes)? < bytes.len() {
        return Err(FormError::Trailing);
    }
    Ok(())
}
