//! Kinds of files, by what stands at the top.
ghost use Rattle.std.specs.Prelude.{◌≡◌};
ghost use Rattle.std.specs.List.{list_any};
ghost use Rattle.serde_json.specs.View.{view};
ghost use Rattle.profile_json.specs.Lookup.{list};
ghost use Rattle.section.specs.Kinds as spec;

use serde_json::Value;

/// What stands in a file that is taken as a bundle.
#[derive(Clone, Copy, Debug, PartialEq, Eq)]
pub enum Kind {
    /// A bundle, another config, or a text that is none of the others.
    Bundle,
    /// What stands under `linux.seccomp` in a bundle, by itself.
    Section,
    /// An engine's own profile, of which a container gets a part.
    EnginesOwn,
    /// An object of Kubernetes with a section under `spec`.
    Kubernetes,
    /// A list of objects of Kubernetes.
    KubernetesList,
    /// A text of YAML, which is not read.
    Yaml,
    /// JSON that is neither a config nor a profile.
    NoConfig,
    /// A text that runtimes and engines do not take alike.
    Unlike,
    /// A text of more bytes than are read.
    Large,
}

// Whether an object has a member.
fn has(value: &Value, key: &str) -> bool
    ensures { result ≡ spec.has key.now (view value.now) }
{
    value.get(key).is_some()
}

// Whether an entry counts in some containers alone.
fn is_conditional(entry: &Value) -> bool
    ensures { result ≡ spec.is_conditional (view entry.now) }
{
    has(entry, "includes") || has(entry, "excludes")
}

// Whether one of the entries does.
fn some_conditional(entries: &[Value]) -> bool
    ensures { result ≡ list_any (λ entry. spec.is_conditional (view entry)) entries.now }
{
    entries.iter().any(|entry| is_conditional(entry))
}

// Whether a list has such an entry.
fn are_conditional(entries: &Value) -> bool
    ensures { result ≡ spec.some_conditional (list (view entries.now)) }
{
    match entries.as_array() {
        Some(values) => some_conditional(values.as_slice()),
        None => false,
    }
}

// Whether a profile has one.
fn has_conditional(value: &Value) -> bool
    ensures { result ≡ spec.has_conditional (view value.now) }
{
    match value.get("syscalls") {
        Some(found) => are_conditional(found),
        None => false,
    }
}

// Whether a profile is an engine's own.
fn is_engines_own(value: &Value) -> bool
    ensures { result ≡ spec.is_engines_own (view value.now) }
{
    has(value, "archMap") || has_conditional(value)
}

// Whether a default verdict stands under `spec`, as in an object of Kubernetes.
fn is_kubernetes(value: &Value) -> bool
    ensures { result ≡ spec.is_kubernetes (view value.now) }
{
    match value.get("spec") {
        Some(object) => has(object, "defaultAction"),
        None => false,
    }
}

// What has a default verdict at its top.
fn kind_by_itself(value: &Value) -> Kind
    ensures { result ≡ spec.kind_by_itself (view value.now) }
{
    if is_engines_own(value) {
        return Kind::EnginesOwn;
    }
    Kind::Section
}

// What has neither that nor a member `linux`.
fn kind_of_other(value: &Value) -> Kind
    ensures { result ≡ spec.kind_of_other (view value.now) }
{
    if is_kubernetes(value) {
        return Kind::Kubernetes;
    }
    if has(value, "ociVersion") {
        return Kind::Bundle;
    }
    if has(value, "items") {
        return Kind::KubernetesList;
    }
    Kind::NoConfig
}

/// What a value is.
pub fn kind_of(value: &Value) -> Kind
    ensures { result ≡ spec.kind_of (view value.now) }
{
    if has(value, "linux") {
        return Kind::Bundle;
    }
    if has(value, "defaultAction") {
        return kind_by_itself(value);
    }
    kind_of_other(value)
}

// Whether a text begins as an object of Kubernetes does in YAML.
fn is_yaml(bytes: &[u8]) -> bool
    ensures { result ≡ spec.is_yaml bytes.now }
{
    bytes.starts_with(b"apiVersion:") || bytes.starts_with(b"kind:") || bytes.starts_with(b"---")
}

/// What a text is that is no JSON.
pub(crate) fn kind_of_other_text(bytes: &[u8]) -> Kind
    ensures { result ≡ spec.kind_of_other_text bytes.now }
{
    if is_yaml(bytes) {
        return Kind::Yaml;
    }
    Kind::Bundle
}
