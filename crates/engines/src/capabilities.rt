//! Capabilities (capabilities(7)), and those that containers of engines have by default.
ghost use Rattle.std.specs.Prelude.{◌≡◌, ◌^◌, ◌<◌, ◌≤◌, IfSome, length, option_map, position};
ghost use Rattle.std.specs.Str.{bytes_eq};
ghost use Rattle.engines.specs.Words.{capability_called};
ghost use Rattle.engines.specs.inner.Reading.{engine_called};

use crate::keys::is_one_of;

/// A container engine.
#[derive(Clone, Copy, Debug, PartialEq, Eq)]
pub enum Engine {
    Docker,
    Podman,
    Containerd,
}

/// The engine of a name.
#[tactic(auto, unfolding(crate::specs::inner::Reading::engine_called))]
pub(crate) fn engine_named(word: &str) -> Option<Engine>
    ensures { result ≡ engine_called word.now }
{
    match word {
        "docker" => Some(Engine::Docker),
        "podman" => Some(Engine::Podman),
        "containerd" => Some(Engine::Containerd),
        _ => None,
    }
}

/// The capabilities of Linux, by their numbers.
pub(crate) const CAPABILITIES: &[&str] = &[
    "CAP_CHOWN",
    "CAP_DAC_OVERRIDE",
    "CAP_DAC_READ_SEARCH",
    "CAP_FOWNER",
    "CAP_FSETID",
    "CAP_KILL",
    "CAP_SETGID",
    "CAP_SETUID",
    "CAP_SETPCAP",
    "CAP_LINUX_IMMUTABLE",
    "CAP_NET_BIND_SERVICE",
    "CAP_NET_BROADCAST",
    "CAP_NET_ADMIN",
    "CAP_NET_RAW",
    "CAP_IPC_LOCK",
    "CAP_IPC_OWNER",
    "CAP_SYS_MODULE",
    "CAP_SYS_RAWIO",
    "CAP_SYS_CHROOT",
    "CAP_SYS_PTRACE",
    "CAP_SYS_PACCT",
    "CAP_SYS_ADMIN",
    "CAP_SYS_BOOT",
    "CAP_SYS_NICE",
    "CAP_SYS_RESOURCE",
    "CAP_SYS_TIME",
    "CAP_SYS_TTY_CONFIG",
    "CAP_MKNOD",
    "CAP_LEASE",
    "CAP_AUDIT_WRITE",
    "CAP_AUDIT_CONTROL",
    "CAP_SETFCAP",
    "CAP_MAC_OVERRIDE",
    "CAP_MAC_ADMIN",
    "CAP_SYSLOG",
    "CAP_WAKE_ALARM",
    "CAP_BLOCK_SUSPEND",
    "CAP_AUDIT_READ",
    "CAP_PERFMON",
    "CAP_BPF",
    "CAP_CHECKPOINT_RESTORE",
];

// Those of a container of podman that was started with no options.
const PODMAN: &[&str] = &[
    "CAP_CHOWN",
    "CAP_DAC_OVERRIDE",
    "CAP_FOWNER",
    "CAP_FSETID",
    "CAP_KILL",
    "CAP_NET_BIND_SERVICE",
    "CAP_SETFCAP",
    "CAP_SETGID",
    "CAP_SETPCAP",
    "CAP_SETUID",
    "CAP_SYS_CHROOT",
];

// Those of a container of docker, or of containerd, has besides.
const DOCKER_BESIDES: &[&str] = &["CAP_AUDIT_WRITE", "CAP_MKNOD", "CAP_NET_RAW"];

/// The capabilities of a container: those that its engine gives, and further ones, a bit each.
#[derive(Clone, Copy, Debug, PartialEq, Eq)]
pub struct Capabilities {
    pub engine: Engine,
    pub more: u64,
}

/// The place of a name among names.
pub(crate) fn place_of(names: &[&str], name: &str) -> Option<usize>
    ensures place { result ≡ position (λ n. bytes_eq n.now name.now) names.now }
    ensures within { IfSome result (λ place. place < length names.now) }
{
    names.iter().position(|other| *other == name)
}

// The bit at the place of a name among names.
fn bit_among(names: &[&str], name: &str) -> Option<u64>
    requires { length names.now ≤ 64 }
    ensures { result ≡ option_map (λ place. 2 ^ place) (position (λ n. bytes_eq n.now name.now) names.now) }
{
    match place_of(names, name) {
        Some(place) => Some(1 << place),
        None => None,
    }
}

/// The bits of a capability by its name, or of all.
#[tactic(auto, unfolding(crate::specs::Words::capability_called))]
pub(crate) fn capability_named(word: &str) -> Option<u64>
    ensures { result ≡ capability_called word.now }
{
    if word == "all" {
        Some(u64::MAX)
    } else {
        bit_among(CAPABILITIES, word)
    }
}

impl Capabilities {
    /// Whether the container has a capability.
    pub(crate) fn have(self, name: &str) -> bool {
        let bit = bit_among(CAPABILITIES, name).unwrap_or(0);
        if self.more & bit != 0 || is_one_of(PODMAN, name) {
            return true;
        }
        self.engine != Engine::Podman && is_one_of(DOCKER_BESIDES, name)
    }
}
