//! systemd's groups of calls. `docs/REVIEW.md` says where they come from.
ghost use Rattle.std.specs.Prelude.{◌≡◌, map};
ghost use Rattle.call_groups.specs.Groups.{now_of};
ghost use Rattle.review.specs.Systemd as spec;

/// The names of all groups, in the order of their table in `docs/REVIEW.md`.
pub(crate) const NAMES: &[&str] = &[
    "@default",
    "@aio",
    "@basic-io",
    "@chown",
    "@clock",
    "@cpu-emulation",
    "@debug",
    "@file-system",
    "@io-event",
    "@ipc",
    "@keyring",
    "@memlock",
    "@module",
    "@mount",
    "@network-io",
    "@obsolete",
    "@pkey",
    "@privileged",
    "@process",
    "@raw-io",
    "@reboot",
    "@resources",
    "@sandbox",
    "@setuid",
    "@signal",
    "@swap",
    "@sync",
    "@system-service",
    "@timer",
];

/// The names of the groups.
#[tactic(auto, unfolding(crate::specs::Systemd::group_names))]
pub(crate) fn group_names() -> &'static [&'static str]
    ensures { map now_of result.now ≡ spec.group_names }
{
    NAMES
}
