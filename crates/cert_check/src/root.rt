//! The root.
ghost use Rattle.std.specs.Prelude.{◌↔◌, ◌<◌, IsTrue, length};
ghost use Rattle.cert_form.specs.Views.{nodes_of};
ghost use Rattle.cert_check.specs.Rules.{RootRule};

use crate::claims::{has_no_met, has_none};
use cert_form::CertView;
use cert_state::{AVal, State};

/// Whether node 0 keeps the rule of the root. It stands at position 0 and knows no literal. It says no rule to be out
/// and no condition to be met. A and X are 0, and no scratch word is stated.
pub(crate) fn root_is_kept(view: &CertView<'_>) -> bool
    requires { 0 < length (nodes_of view.now) }
    ensures { IsTrue result ↔ RootRule (nodes_of view.now) }
{
    let root = view.node(0);
    let regs = root.regs();
    if root.pc() != 0 {
        return false;
    }
    if root.next(root.start()).is_some() {
        return false;
    }
    if !has_none(&root) {
        return false;
    }
    if !has_no_met(&root) {
        return false;
    }
    if regs.a != AVal::Const(0) {
        return false;
    }
    if regs.x != AVal::Const(0) {
        return false;
    }
    regs.scratch.iter().all(|value| *value == AVal::Unknown)
}
