//! A way on from a node, with all that is asked to tell whether it carries what the node there says.
ghost use Rattle.std.specs.Prelude.{◌≡◌, All, IsTrue};
ghost use Rattle.cert_form.specs.Reading.{claims_in};
ghost use Rattle.cert_form.specs.Views.{bytes_of, certificate_of};
ghost use Rattle.cert_check.specs.inner.Followed.{ArePlaced-prop, IsPlaced};

use crate::edges::Way;
use cert_form::{CertView, NodeView};
use profile::Profile;

/// A node of a certificate, which is left. `placed` tells that the profile has the rules, and the conditions, of all claims
/// of the certificate.
#[derive(Clone, Copy)]
pub(crate) struct Origin<'a> {
    pub(crate) profile: &'a Profile,
    pub(crate) view: &'a CertView<'a>,
    pub(crate) node: &'a NodeView<'a>,
    pub(crate) placed: bool,
    ghost same: { certificate_of node.now ≡ bytes_of view.now },
    ghost has_rules: { IsTrue placed → All (IsPlaced profile.now) (claims_in (certificate_of node.now)) } by { ArePlaced-prop profile.now placed (claims_in (certificate_of node.now)) },
}

/// A way on from a node to another of the same certificate. `placed` tells the same of it.
#[derive(Clone, Copy)]
pub(crate) struct Passage<'a> {
    pub(crate) profile: &'a Profile,
    pub(crate) node: &'a NodeView<'a>,
    pub(crate) way: &'a Way,
    pub(crate) there: &'a NodeView<'a>,
    pub(crate) placed: bool,
    ghost same: { certificate_of node.now ≡ certificate_of there.now },
    ghost has_rules: { IsTrue placed → All (IsPlaced profile.now) (claims_in (certificate_of node.now)) } by { ArePlaced-prop profile.now placed (claims_in (certificate_of node.now)) },
}
