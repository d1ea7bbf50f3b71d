//! The work of a whole certificate.
ghost use Rattle.std.specs.Prelude.{◌≡◌, ◌≢◌, ◌↔◌, true, IfErr, IfOk, IsTrue};
ghost use Rattle.cert_form.specs.declared.fault.FormError.TheVariants as fault;
ghost use Rattle.cert_form.specs.Reading.{version_of};
ghost use Rattle.cert_form.specs.Views.{nodes_of, says};
ghost use Rattle.cert_work.specs.Work.{AreWithin, IsWithin, IsWorkAt, PaysOne};

use crate::asked::pay_asked;
use crate::stated::{pay_known, pay_next};
use cert_form::{CertView, FormError, NodeView};
use cert_state::Room;
use profile::{Profile, Rule};
use std::alloc::{AllocError, Global};

/// The most work that a certificate may have.
pub const MOST_WORK: u64 = 6_291_456;

// Pays for the work at a node.
fn pay_node(
    rules: &[Rule],
    view: &CertView<'_>,
    node: &NodeView<'_>,
    room: &mut Room,
    budget: u64,
) -> Option<u64>
    ensures { PaysOne budget (IsWorkAt rules.now (nodes_of view.now) (says node.now)) result }
{
    let kind = node.kind();
    let rest = pay_asked(rules, node, &kind, room, budget)?;
    let left = pay_known(node, rest)?;
    pay_next(rules, view, &kind, left)
}

// Whether the work at all nodes is within the limit.
fn are_within(rules: &[Rule], view: &CertView<'_>) -> bool
    ensures { IsTrue result ↔ AreWithin rules.now (nodes_of view.now) }
{
    let mut room = Room::new();
    let mut left = MOST_WORK;
    for i in 0..view.len() {
        let node = view.node(i);
        let Some(rest) = pay_node(rules, view, &node, &mut room, left) else {
            return false;
        };
        left = rest;
    }
    true
}

// What is told of bytes that are not read: they are no certificate, or memory was refused.
fn unread(error: FormError) -> Result<bool, AllocError>
    ensures none { IfOk result (λ within. (within ≡ true) × (error ≢ fault.OutOfMemory)) }
    ensures memory { IfErr result (λ _. error ≡ fault.OutOfMemory) }
{
    match error {
        FormError::OutOfMemory => Err(AllocError),
        _ => Ok(true),
    }
}

/// Whether bytes, if they are a certificate, have no more work than a certificate may have, beside a profile. Memory is asked for
/// in form 1 alone.
pub fn is_within(alloc: Global, profile: &Profile, cert: &[u8]) -> Result<bool, AllocError>
    ensures within { IfOk result (λ within. IsTrue within ↔ IsWithin profile.now cert.now) }
    ensures memory { IfErr result (λ _. version_of cert.now ≡ 1) }
{
    let view = match CertView::read(alloc, cert) {
        Ok(view) => view,
        Err(error) => return unread(error),
    };
    Ok(are_within(profile.rules(), &view))
}
