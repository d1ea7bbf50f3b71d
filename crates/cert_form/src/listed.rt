//! Whether the nodes of a certificate of form 1 are sound where they lie.
ghost use Rattle.std.specs.Prelude.{◌≡◌, ◌≤◌, ◌<◌, ◌+◌, OnOk, IfOk, IfErr, length};
ghost use Rattle.cert_form.specs.Faults.{Faulty, IsBadListed};
ghost use Rattle.cert_form.specs.Reading.{version_of, node_count, own_count, own_end, node_end, place_of};
ghost use Rattle.cert_form.specs.inner.Standing.{Fails, FailsListed, IsTopThere, AreOwnThere, IsListedThere, AreListedThere};

use crate::fault::FormError;
use crate::judge::{judge_literal, judge_tail, judge_value, tail_size};
use crate::limits::MAX_LITERALS;
use crate::part::{read_long, read_short};
use std::alloc::Global;

// The kind, the position and the count of literals.
fn judge_top(bytes: &[u8], at: usize) -> Result<(), FormError>
    requires { at ≤ length bytes.now }
    ensures sound { OnOk result (IsTopThere bytes.now at) }
    ensures fault { IfErr result (λ e. FailsListed e bytes.now at (at + 5)) }
{
    if at >= bytes.len() {
        return Err(FormError::Truncated);
    }
    if bytes[at] > 3 {
        return Err(FormError::BadNode);
    }
    if at + 5 > bytes.len() {
        return Err(FormError::Truncated);
    }
    if read_short(bytes, at + 3) as usize > MAX_LITERALS {
        return Err(FormError::BadCount);
    }
    Ok(())
}

// The literals.
fn judge_own(bytes: &[u8], at: usize) -> Result<(), FormError>
    requires { at + 17 ≤ length bytes.now }
    ensures sound { OnOk result (AreOwnThere bytes.now at) }
    ensures room { OnOk result (own_end bytes.now at ≤ length bytes.now) }
    ensures fault { IfErr result (λ e. Fails e bytes.now (own_end bytes.now at) (IsBadListed bytes.now at)) }
{
    let count = read_short(bytes, at + 3) as usize;
    for k in 0..count {
        judge_literal(bytes, at + 17 + 10 * k)?;
    }
    Ok(())
}

// The values of A and X, the literals and the tail, with the place where the node ends.
#[tactic(auto, unfolding(crate::specs::Reading::tail_place))]
fn judge_rest(bytes: &[u8], at: usize) -> Result<usize, FormError>
    requires form { version_of bytes.now ≡ 1 }
    requires top { IsTopThere bytes.now at }
    ensures sound { OnOk result (IsListedThere bytes.now at) }
    ensures end { IfOk result (λ end. end ≡ node_end bytes.now at) }
    ensures fault { IfErr result (λ e. Fails e bytes.now (node_end bytes.now at) (IsBadListed bytes.now at)) }
{
    judge_value(bytes, at + 5)?;
    judge_value(bytes, at + 11)?;
    judge_own(bytes, at)?;
    let kind = bytes[at];
    let end = at + 17 + 10 * read_short(bytes, at + 3) as usize;
    judge_tail(bytes, kind, end)?;
    Ok(end + tail_size(kind))
}

// A node at a place, with the place where it ends.
fn judge_listed(bytes: &[u8], at: usize) -> Result<usize, FormError>
    requires form { version_of bytes.now ≡ 1 }
    requires there { at ≤ length bytes.now }
    ensures sound { OnOk result (IsListedThere bytes.now at) }
    ensures end { IfOk result (λ end. end ≡ node_end bytes.now at) }
    ensures fault { IfErr result (λ e. FailsListed e bytes.now at (node_end bytes.now at)) }
{
    judge_top(bytes, at)?;
    judge_rest(bytes, at)
}

/// The bytes of form 1 after the node count, with the place of each node. The list is all that takes memory.
pub(crate) fn judge_all(alloc: Global, bytes: &[u8]) -> Result<Vec<u32>, FormError>
    requires there { 12 ≤ length bytes.now }
    requires short { length bytes.now ≤ 4194304 }
    requires form { version_of bytes.now ≡ 1 }
    requires some { 1 ≤ node_count bytes.now }
    ensures nodes { IfOk result (λ own. AreListedThere bytes.now own.items (node_count bytes.now)) }
    ensures end { OnOk result (place_of bytes.now (node_count bytes.now) ≡ length bytes.now) }
    ensures fault { IfErr result (λ e. Faulty e bytes.now) }
{
    let mut own = Vec::new(alloc);
    let mut at = 12;
    for _ in 0..read_long(bytes, 8) {
        own.push(at as u32)?;
        at = judge_listed(bytes, at)?;
    }
    if at < bytes.len() {
        return Err(FormError::Trailing);
    }
    Ok(own)
}
