//! The root of a bundle: its version, and the object under `linux.seccomp`.
ghost use Rattle.std.specs.Prelude.{◌≡◌};
ghost use Rattle.std.specs.List.{list_any};
ghost use Rattle.std.specs.Str.{bytes_eq};
ghost use Rattle.serde_json.specs.View.{view};
ghost use Rattle.machines.specs.Arch.{family_of};
ghost use Rattle.profile_json.specs.Fault.{no_seccomp};
ghost use Rattle.profile_json.specs.Lookup.{member, object};
ghost use Rattle.profile_json.specs.Names.{editions};
ghost use Rattle.profile_json.specs.inner.Outcome.{Gives};
ghost use Rattle.profile_json.specs.inner.Reading as spec;

use crate::fault::ProfileError;
use crate::key::{
    LINUX, OCI_VERSION, SECCOMP, VERSION_1_0_2, VERSION_1_1_0, VERSION_1_2_0, VERSION_1_2_1,
};
use crate::lookup::{object_of, text_at};
use machines::{Arch, Family};
use serde_json::Value;

/// Whether an edition of the specification is read.
fn is_edition(version: &str, family: Family) -> bool
    ensures { result ≡ list_any (λ e. bytes_eq e version.now) (editions family) }
{
    match version {
        VERSION_1_0_2 | VERSION_1_1_0 => true,
        VERSION_1_2_0 | VERSION_1_2_1 => family == Family::Whole,
        _ => false,
    }
}

#[tactic(auto, unfolding(crate::specs::inner::Reading::version_of))]
fn check_version(root: &Value, family: Family) -> Result<(), ProfileError>
    ensures { Gives (λ u. u) result (spec.version_of family (view root.now)) }
{
    let version = text_at(root, OCI_VERSION)?;
    if is_edition(version, family) {
        Ok(())
    } else {
        Err(ProfileError::Version)
    }
}

/// An object on the way to `linux.seccomp`.
fn object_at<'a>(value: &'a Value, key: &str) -> Result<&'a Value, ProfileError>
    ensures { Gives (λ v. view v.now) result (spec.needed no_seccomp (member object key.now (view value.now))) }
{
    match value.get(key) {
        Some(found) => object_of(found),
        None => Err(ProfileError::NoSeccomp),
    }
}

#[tactic(auto, unfolding(crate::specs::inner::Reading::seccomp_of))]
fn seccomp_of(root: &Value) -> Result<&Value, ProfileError>
    ensures { Gives (λ v. view v.now) result (spec.seccomp_of (view root.now)) }
{
    let linux = object_at(root, LINUX)?;
    object_at(linux, SECCOMP)
}

/// The object under `linux.seccomp` of a bundle of an edition that is read.
#[tactic(auto, unfolding(crate::specs::inner::Reading::root_of))]
pub(crate) fn root_of(value: &Value, native: Arch) -> Result<&Value, ProfileError>
    ensures { Gives (λ v. view v.now) result (spec.root_of (family_of native) (view value.now)) }
{
    let root = object_of(value)?;
    check_version(root, native.family())?;
    seccomp_of(root)
}
