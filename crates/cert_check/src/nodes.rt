//! Whether the root and the nodes of a certificate keep their rules.
ghost use Rattle.std.specs.Prelude.{◌<◌, ◌^◌, All, IsTrue, MatchResult, length};
ghost use Rattle.kernel_check.specs.Lent.{accepted_insns};
ghost use Rattle.cert_form.specs.Views.{all_claims, bytes_of, nodes_of};
ghost use Rattle.cert_check.specs.Rules.{IsValid};
ghost use Rattle.cert_check.specs.inner.Agreed.{AreAgreed};
ghost use Rattle.cert_check.specs.inner.Broken.{IsFound, NodeFound};
ghost use Rattle.cert_check.specs.inner.Followed.{IsPlaced};

use crate::agreed::Agreed;
use crate::claims::are_placed;
use crate::edges::{all_lead, ways_of};
use crate::fault::CheckError;
use crate::passage::Origin;
use crate::returned::return_is_kept;
use crate::root::root_is_kept;
use crate::scratch::Scratch;
use crate::split::split_is_kept;
use cert_form::CertView;
use kernel_check::Accepted;
use profile::Profile;

// Whether node i keeps its rules, in their order; `placed` tells that the profile has what is claimed of rules.
fn check_node(
    profile: &Profile,
    accepted: &Accepted<'_>,
    view: &CertView<'_>,
    i: u32,
    placed: bool,
    agreed: &mut Agreed,
    scratch: &mut Scratch,
) -> Result<(), CheckError>
    requires within { i < length (nodes_of view.now) }
    requires placed { IsTrue placed → All (IsPlaced profile.now) (all_claims view.now) }
    requires agreed { AreAgreed profile.now (bytes_of view.now) agreed.old }
    ensures found { NodeFound profile.now (accepted_insns accepted.now) (nodes_of view.now) i result }
    ensures kept { AreAgreed profile.now (bytes_of view.now) agreed.new }
{
    let node = view.node(i as usize);
    let Some(insn) = accepted.insn_at(node.pc()) else {
        return Err(CheckError::Edge(i));
    };
    let Some(ways) = ways_of(&node, &insn) else {
        return Err(CheckError::Edge(i));
    };
    if !all_lead(view, i as usize, &ways) {
        return Err(CheckError::Edge(i));
    }
    if !split_is_kept(&node) {
        return Err(CheckError::Split(i));
    }
    let origin = Origin {
        profile,
        view,
        node: &node,
        placed,
    };
    if !origin.entail_is_kept(&ways, &mut scratch.room) {
        return Err(CheckError::Entail(i));
    }
    if !return_is_kept(profile, &insn, &node, agreed, scratch) {
        return Err(CheckError::Return(i));
    }
    Ok(())
}

/// Whether the root and each node keep their rules, in their order.
pub(crate) fn check_nodes(
    profile: &Profile,
    accepted: &Accepted<'_>,
    view: &CertView<'_>,
) -> Result<(), CheckError>
    requires some { 0 < length (nodes_of view.now) }
    requires few { length (nodes_of view.now) < 2 ^ 32 }
    ensures { let p = accepted_insns accepted.now in MatchResult result
        (λ _. IsValid profile.now p (nodes_of view.now))
        (λ e. IsFound profile.now p (nodes_of view.now) e) }
{
    if !root_is_kept(view) {
        return Err(CheckError::Root);
    }
    let placed = are_placed(profile, view);
    let mut agreed = Agreed::none();
    let mut scratch = Scratch::new();
    for i in 0..view.len() {
        let i = i as u32;
        check_node(
            profile,
            accepted,
            view,
            i,
            placed,
            &mut agreed,
            &mut scratch,
        )?;
    }
    Ok(())
}
