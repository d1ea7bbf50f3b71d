//! What is known wherever a part of a configuration is judged.
use crate::capabilities::Engine;
use crate::dropped::Dropped;
use crate::parts::Part;
use crate::words::{Container, Wanted};
use machines::{Arch, Family};

/// The machine, the default action, what is asked, and the names that give way to those of other entries.
#[derive(Clone, Copy)]
pub(crate) struct Settings<'a> {
    pub(crate) native: Arch,
    pub(crate) default: &'a str,
    pub(crate) wanted: Wanted,
    pub(crate) dropped: Option<&'a Dropped>,
}

impl Settings<'_> {
    pub(crate) fn family(&self) -> Family {
        self.native.family()
    }

    /// The container for which an engine's own profile is worked out, if it is.
    pub(crate) fn container(&self) -> Option<Container> {
        self.wanted.container
    }

    /// Whether a profile is worked out for podman. It alone reads an error by its name, and docker alone the edition of a kernel
    /// (types.go of containers/common, seccomp.go of moby).
    pub(crate) fn is_for_podman(&self) -> bool {
        self.is_for(Engine::Podman)
    }

    /// Whether one is worked out for containerd. It reads what stands in a section of a config alone (WithProfile of its
    /// contrib/seccomp).
    pub(crate) fn is_for_containerd(&self) -> bool {
        self.is_for(Engine::Containerd)
    }

    fn is_for(&self, engine: Engine) -> bool {
        match self.wanted.container {
            Some(container) => container.capabilities.engine == engine,
            None => false,
        }
    }

    /// Whether a name of what is written for an entry gives way.
    pub(crate) fn drops(&self, part: Part, name: &str) -> bool {
        match self.dropped {
            Some(dropped) => dropped.contains(part, name),
            None => false,
        }
    }
}
