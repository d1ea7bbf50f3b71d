//! What passed the check.
ghost use Rattle.kernel_check.specs.Lent.{accepted_insns};
ghost use Rattle.cert_check.specs.Right.{GivesOnly};

use kernel_check::Accepted;
use profile::Profile;

/// A profile, a filter that answers each call record with the profile's verdict, and the certificate that says why. They
/// are lent in the bytes that they were read from.
///
/// `check` makes one, and nothing else does.
#[derive(Clone, Copy)]
pub struct Checked<'a> {
    pub(crate) profile: &'a Profile,
    pub(crate) program: Accepted<'a>,
    pub(crate) cert: &'a [u8],
    ghost right: { GivesOnly profile.now (accepted_insns program) },
}

#[tactic(auto, unfolding(crate::specs::Checked::profile_of, crate::specs::Checked::program_of, crate::specs::Checked::cert_of))]
impl<'a> Checked<'a> {
    ghost use Rattle.std.specs.Prelude.{◌≡◌};
    ghost use Rattle.kernel_check.specs.Lent.{accepted_insns};
    ghost use Rattle.cert_check.specs.Checked.{cert_of, profile_of, program_of};
    ghost use Rattle.cert_check.specs.Right.{IsRight};
    ghost use Rattle.kernel_check.specs.Accepted.{IsAccepted};

    /// The profile.
    pub fn profile(&self) -> &'a Profile
        ensures { result.now ≡ profile_of self.now }
    {
        self.profile
    }

    /// The filter, which the kernel accepts.
    pub fn program(&self) -> Accepted<'a>
        ensures same { accepted_insns result ≡ program_of self.now }
        ensures accepted { IsAccepted (program_of self.now) }
        ensures right { IsRight (profile_of self.now) (program_of self.now) }
    {
        self.profile.rules();
        self.program
    }

    /// The bytes of the certificate.
    pub fn cert(&self) -> &'a [u8]
        ensures { result.now ≡ cert_of self.now }
    {
        self.cert
    }
}
