//! A text that was read for a native machine.
ghost use Rattle.std.specs.Prelude.{◌≡◌, ℕ, List, IfSome};
ghost use Rattle.machines.specs.declared.arch.Arch.{Arch as TheArch};
ghost use Rattle.profile_json.specs.Breaks.{Breaks};
ghost use Rattle.profile_json.specs.Fault.{fault_of};
ghost use Rattle.profile_json.specs.Place.{BreaksAt};
ghost use Rattle.profile_json.specs.declared.refusal.Place.TheVariants.{Text};

use crate::bundle::{Bundle, value_of};
use crate::fault::ProfileError;
use crate::place::bundle_of;
use crate::refusal::{Place, Refusal};
use machines::Arch;
use serde_json::Value;
use std::alloc::Global;
use std::marker::Model;

/// A text with what it says for a native machine: its bundle, or why it is refused. It is read once, by `new`. Clauses see its bytes and
/// the machine.
#[derive(Drop)]
pub struct Document {
    bytes: Vec<u8>,
    native: Arch,
    tree: Result<Value, ProfileError>,
    read: Result<Bundle, Refusal>,
}

// The refusal of a text that is no value.
fn refusal_of(error: &ProfileError) -> Refusal
    ensures error { result.error ≡ error.now }
    ensures place { result.place ≡ Text }
{
    Refusal {
        error: *error,
        place: Place::Text,
    }
}

impl Model for Document {
    ghost use Rattle.profile_json.specs.Document.{TextFor, IsReadAs};

    ghost Value = { TextFor };

    ghost view = { λ d. record { bytes = d.bytes.items; native = d.native } };

    ghost invariant = { λ d. IsReadAs d.bytes.items d.native d.tree d.read };
}

// The fault that is told with its place stands in the text.
fn cause_of(refusal: &Refusal) -> ProfileError
    ensures { (bytes : List ℕ) (native : TheArch) → IfSome (fault_of refusal.now.error) (BreaksAt bytes native refusal.now.place)
        → IfSome (fault_of result) (Breaks bytes native) }
{
    refusal.error
}

impl Document {
    ghost use Rattle.std.specs.Prelude.{◌≡◌, ◌≢◌, IfErr, IfOk, IfSome};
    ghost use Rattle.serde_json.specs.Data.{Data};
    ghost use Rattle.serde_json.specs.View.{view};
    ghost use Rattle.profile_json.specs.Breaks.{Breaks};
    ghost use Rattle.profile_json.specs.declared.fault.ProfileError.TheVariants.{OutOfMemory};
    ghost use Rattle.profile_json.specs.ByEntry.{AreRulesOf};
    ghost use Rattle.profile_json.specs.Fault.{fault_of};
    ghost use Rattle.profile_json.specs.Meaning.{IsText, Means};
    ghost use Rattle.profile_json.specs.Place.{BreaksAt};

    /// Reads a text for its native machine.
    pub fn new(alloc: Global, bytes: Vec<u8>, native: Arch) -> Document
        ensures bytes { result.bytes ≡ bytes.items }
        ensures native { result.native ≡ native }
    {
        match value_of(alloc, &bytes, native) {
            Ok(value) => {
                let read = bundle_of(alloc, &value, native);
                Document {
                    bytes,
                    native,
                    tree: Ok(value),
                    read,
                }
            }
            Err(error) => {
                let refusal = refusal_of(&error);
                Document {
                    bytes,
                    native,
                    tree: Err(error),
                    read: Err(refusal),
                }
            }
        }
    }

    /// The bytes of the text.
    pub fn bytes(&self) -> &[u8]
        ensures { result.now ≡ self.now.bytes }
    {
        &self.bytes
    }

    /// The machine for which it was read.
    pub fn native(&self) -> Arch
        ensures { result ≡ self.now.native }
    {
        self.native
    }

    /// The JSON value that the text is.
    pub fn tree(&self) -> Result<&Value, ProfileError>
        ensures ok { IfOk result (λ value. IsText self.now.bytes (view value.now)) }

        // Unless memory ran out, the text is none.
        ensures err { IfErr result (λ e. e ≢ OutOfMemory → (t : Data) → ¬ IsText self.now.bytes t) }
    {
        match &self.tree {
            Ok(value) => Ok(value),
            Err(error) => Err(*error),
        }
    }

    /// The bundle, or why there is none.
    pub fn bundle(&self) -> Result<&Bundle, ProfileError>
        // The text is a value, and the profile is what it means.
        ensures ok { IfOk result (λ b. (t : Data) × IsText self.now.bytes t × Means t self.now.native b.now.profile) }
        ensures rules { IfOk result
            (λ b. AreRulesOf self.now.native self.now.bytes b.now.by_entry.rules.items b.now.by_entry.ends.items) }

        // Unless memory ran out, the fault stands in the text.
        ensures err { IfErr result (λ e. IfSome (fault_of e) (Breaks self.now.bytes self.now.native)) }
    {
        match &self.read {
            Ok(bundle) => Ok(bundle),
            Err(refusal) => Err(cause_of(refusal)),
        }
    }

    /// The bundle, or why the text is refused and where the fault stands.
    pub fn outcome(&self) -> Result<&Bundle, &Refusal>
        // The text is a value, and the profile is what it means.
        ensures ok { IfOk result (λ b. (t : Data) × IsText self.now.bytes t × Means t self.now.native b.now.profile) }
        ensures rules { IfOk result (λ b. AreRulesOf self.now.native self.now.bytes b.now.by_entry.rules.items b.now.by_entry.ends.items) }

        // Unless memory ran out, the fault stands at that place of the text.
        ensures err { IfErr result (λ r. IfSome (fault_of r.now.error) (BreaksAt self.now.bytes self.now.native r.now.place)) }
    {
        match &self.read {
            Ok(bundle) => Ok(bundle),
            Err(refusal) => Err(refusal),
        }
    }
}
