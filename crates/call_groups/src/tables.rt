//! The tables of names, for whoever looks a group up.
ghost use Rattle.std.specs.Prelude.{◌≡◌, map};
ghost use Rattle.call_groups.specs.Groups as spec;

use crate::later_names::{
    MOUNT_TO_NETWORK, OBSOLETE_TO_PKEY, PRIVILEGED, PROCESS_TO_REBOOT, RESOURCES_TO_SETUID,
    SERVICES, SERVICES_TO_TIMER, SIGNAL_TO_SYNC,
};
use crate::names::{
    BASIC_IO_TO_DEBUG, DEFAULTS, DEFAULTS_TO_AIO, EVENTS, FILES, FILES_LATER, IPC_TO_MODULE,
};
use crate::row::Row;

/// `@default`.
#[tactic(auto, unfolding(crate::specs::Groups::defaults))]
pub(crate) fn defaults() -> &'static [Row]
    ensures { map spec.row result.now ≡ spec.defaults }
{
    DEFAULTS
}

/// `@default`, its later names; `@aio`.
#[tactic(auto, unfolding(crate::specs::Groups::defaults_to_aio))]
pub(crate) fn defaults_to_aio() -> &'static [Row]
    ensures { map spec.row result.now ≡ spec.defaults_to_aio }
{
    DEFAULTS_TO_AIO
}

/// `@basic-io`; `@chown`; `@clock`; `@cpu-emulation`; `@debug`.
#[tactic(auto, unfolding(crate::specs::Groups::basic_io_to_debug))]
pub(crate) fn basic_io_to_debug() -> &'static [Row]
    ensures { map spec.row result.now ≡ spec.basic_io_to_debug }
{
    BASIC_IO_TO_DEBUG
}

/// `@file-system`.
#[tactic(auto, unfolding(crate::specs::Groups::files))]
pub(crate) fn files() -> &'static [Row]
    ensures { map spec.row result.now ≡ spec.files }
{
    FILES
}

/// `@file-system`, its later names.
#[tactic(auto, unfolding(crate::specs::Groups::files_later))]
pub(crate) fn files_later() -> &'static [Row]
    ensures { map spec.row result.now ≡ spec.files_later }
{
    FILES_LATER
}

/// `@io-event`.
#[tactic(auto, unfolding(crate::specs::Groups::events))]
pub(crate) fn events() -> &'static [Row]
    ensures { map spec.row result.now ≡ spec.events }
{
    EVENTS
}

/// `@ipc`; `@keyring`; `@memlock`; `@module`.
#[tactic(auto, unfolding(crate::specs::Groups::ipc_to_module))]
pub(crate) fn ipc_to_module() -> &'static [Row]
    ensures { map spec.row result.now ≡ spec.ipc_to_module }
{
    IPC_TO_MODULE
}

/// `@mount`; `@network-io`.
#[tactic(auto, unfolding(crate::specs::Groups::mount_to_network))]
pub(crate) fn mount_to_network() -> &'static [Row]
    ensures { map spec.row result.now ≡ spec.mount_to_network }
{
    MOUNT_TO_NETWORK
}

/// `@obsolete`; `@pkey`.
#[tactic(auto, unfolding(crate::specs::Groups::obsolete_to_pkey))]
pub(crate) fn obsolete_to_pkey() -> &'static [Row]
    ensures { map spec.row result.now ≡ spec.obsolete_to_pkey }
{
    OBSOLETE_TO_PKEY
}

/// `@privileged`.
#[tactic(auto, unfolding(crate::specs::Groups::privileged))]
pub(crate) fn privileged() -> &'static [Row]
    ensures { map spec.row result.now ≡ spec.privileged }
{
    PRIVILEGED
}

/// `@process`; `@raw-io`; `@reboot`.
#[tactic(auto, unfolding(crate::specs::Groups::process_to_reboot))]
pub(crate) fn process_to_reboot() -> &'static [Row]
    ensures { map spec.row result.now ≡ spec.process_to_reboot }
{
    PROCESS_TO_REBOOT
}

/// `@resources`; `@sandbox`; `@setuid`.
#[tactic(auto, unfolding(crate::specs::Groups::resources_to_setuid))]
pub(crate) fn resources_to_setuid() -> &'static [Row]
    ensures { map spec.row result.now ≡ spec.resources_to_setuid }
{
    RESOURCES_TO_SETUID
}

/// `@signal`; `@swap`; `@sync`.
#[tactic(auto, unfolding(crate::specs::Groups::signal_to_sync))]
pub(crate) fn signal_to_sync() -> &'static [Row]
    ensures { map spec.row result.now ≡ spec.signal_to_sync }
{
    SIGNAL_TO_SYNC
}

/// `@system-service`.
#[tactic(auto, unfolding(crate::specs::Groups::services))]
pub(crate) fn services() -> &'static [Row]
    ensures { map spec.row result.now ≡ spec.services }
{
    SERVICES
}

/// `@system-service`, its later names; `@timer`.
#[tactic(auto, unfolding(crate::specs::Groups::services_to_timer))]
pub(crate) fn services_to_timer() -> &'static [Row]
    ensures { map spec.row result.now ≡ spec.services_to_timer }
{
    SERVICES_TO_TIMER
}
