//! Whether `lint` is worth asking about a bundle.
ghost use Rattle.std.specs.Prelude.{◌≡◌, ◌≢◌, true, false, IfOk};
ghost use Rattle.machines.specs.declared.arch.Family.{Family as TheFamily};
ghost use Rattle.profile.specs.Policy.{Policy};
ghost use Rattle.profile_json.specs.declared.fault.ProfileError.TheVariants.{OutOfMemory};
ghost use Rattle.differ.specs.declared.direction.Direction.TheVariants.{More, Less};
ghost use Rattle.compare.specs.Hints.{AreLikeAsDecided, IsHint};
ghost use Rattle.compare.specs.Past.{IsFinding};
ghost use Rattle.widths.specs.Past.{GetsPast, IsStopped};
ghost use Rattle.widths.specs.declared.unread_bits.past.Past.{Past as ThePast};
ghost use Rattle.widths.specs.Narrow.{IsBundle};

use crate::lint::decided::finding;
use crate::lint::past::Finding;
use profile::Profile;
use profile_json::{Document, ProfileError};
use std::alloc::{AllocError, Global};

/// What `lint` has to report of a bundle, as far as it is decided.
#[derive(Clone, Copy, Debug)]
pub struct Hinted {
    /// Whether some call gets past.
    pub past: bool,
    /// Whether some call is stopped.
    pub stopped: bool,
}

// Whether some call gets past.
fn is_past(found: &Finding) -> bool
    ensures some { (family : TheFamily) (p : Policy) → IsFinding family p found.now → result ≡ true → (past : ThePast) × GetsPast p past }
    ensures none { (family : TheFamily) (p : Policy) → IsFinding family p found.now → result ≡ false → AreLikeAsDecided p Less }
{
    match found {
        Finding::Nothing => false,
        Finding::Unlike(past, _) => !past.is_empty(),
        Finding::Undecided(past, _, _) => !past.is_empty(),
    }
}

// Whether some call is stopped.
fn is_stopped(found: &Finding) -> bool
    ensures some { (family : TheFamily) (p : Policy) → IsFinding family p found.now → result ≡ true → (past : ThePast) × IsStopped p past }
    ensures none { (family : TheFamily) (p : Policy) → IsFinding family p found.now → result ≡ false → AreLikeAsDecided p More }
{
    match found {
        Finding::Nothing => false,
        Finding::Unlike(_, stopped) => !stopped.is_empty(),
        Finding::Undecided(_, stopped, _) => !stopped.is_empty(),
    }
}

// What there is to report of a profile.
fn hint_of(alloc: Global, document: &Document, profile: &Profile) -> Result<Hinted, AllocError>
    requires { IsBundle document.now.native document.now.bytes profile.now }
    ensures { IfOk result (IsHint document.now.native document.now.bytes) }
{
    let found = finding(alloc, document.native().family(), profile)?;
    Ok(Hinted {
        past: is_past(&found),
        stopped: is_stopped(&found),
    })
}

// A bundle that is refused gets no hint. Want of memory is no refusal, and an error here.
fn refused(error: ProfileError) -> Result<Hinted, AllocError>
    ensures past { IfOk result (λ hint. hint.past ≡ false) }
    ensures stopped { IfOk result (λ hint. hint.stopped ≡ false) }
    ensures fault { IfOk result (λ hint. error ≢ OutOfMemory) }
{
    if let ProfileError::OutOfMemory = error {
        return Err(AllocError);
    }
    Ok(Hinted {
        past: false,
        stopped: false,
    })
}

/// What `lint` has to report of a bundle. If it has nothing to report, the bundle is refused, or no call gets past it or is stopped, as far as
/// its calls are decided.
pub fn hint(alloc: Global, document: &Document) -> Result<Hinted, AllocError>
    ensures { IfOk result (IsHint document.now.native document.now.bytes) }
{
    match document.bundle() {
        Ok(bundle) => hint_of(alloc, document, &bundle.profile),
        Err(error) => refused(error),
    }
}
