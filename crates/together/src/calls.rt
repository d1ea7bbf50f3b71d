//! Calls that stand for all.
ghost use Rattle.std.specs.Prelude.{◌≡◌, ℕ, true, IfOk};
ghost use Rattle.std.specs.List.{All, list_any};
ghost use Rattle.profile.specs.Policy.{Policy};
ghost use Rattle.differ.specs.Named.{is_named};
ghost use Rattle.differ.specs.OnCall.{is_for};
ghost use Rattle.together.specs.OnCall.{Names};

use differ::{Call, name_calls};
use profile::Profile;
use std::alloc::{AllocError, Global};

/// The calls that rules of profiles, and of one more, are for.
pub(crate) fn named_calls(
    alloc: Global,
    profiles: &[Profile],
    joined: &Profile,
) -> Result<Vec<Call>, AllocError>
    ensures each { IfOk result (λ list. All (Names list.items) profiles.now) }
    ensures joined { IfOk result (λ list. Names list.items joined.now) }
{
    let mut list = Vec::new(alloc);
    for profile in profiles {
        name_calls(profile.rules(), &mut list)?;
    }
    name_calls(joined.rules(), &mut list)?;
    Ok(list)
}
