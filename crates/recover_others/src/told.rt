//! Whether a section tells that the calls of machines that it does not list are allowed. No engine reads this.
ghost use Rattle.std.specs.Prelude.{◌≡◌, IfOk};
ghost use Rattle.serde_json.specs.View.{view};
ghost use Rattle.recover_others.specs.Others as spec;

use serde_json::Value;
use std::alloc::{AllocError, Global};

// Whether a value is the name of ALLOW.
fn is_allow(value: &Value) -> bool
    ensures { result ≡ spec.is_allow (view value.now) }
{
    match value.as_str() {
        Some(name) => name == "SCMP_ACT_ALLOW",
        None => false,
    }
}

// Whether a section tells it.
fn in_section(section: &Value) -> bool
    ensures { result ≡ spec.in_section (view section.now) }
{
    match section.get("x-ccell-otherMachines") {
        Some(found) => is_allow(found),
        None => false,
    }
}

// Whether the section under `linux` does.
fn in_linux(linux: &Value) -> bool
    ensures { result ≡ spec.in_linux (view linux.now) }
{
    match linux.get("seccomp") {
        Some(found) => in_section(found),
        None => false,
    }
}

// Whether the section of a bundle does.
fn in_bundle(bundle: &Value) -> bool
    ensures { result ≡ spec.in_bundle (view bundle.now) }
{
    match bundle.get("linux") {
        Some(found) => in_linux(found),
        None => false,
    }
}

/// Whether a text is a bundle whose section tells that the calls of other machines are allowed.
pub(crate) fn allows_others(alloc: Global, bundle: &[u8]) -> Result<bool, AllocError>
    ensures { IfOk result (spec.Tells bundle.now) }
{
    match Value::from_slice(alloc, bundle) {
        Ok(value) => Ok(in_bundle(&value)),
        Err(error) => {
            if error.is_memory() {
                return Err(AllocError);
            }
            Ok(false)
        }
    }
}
