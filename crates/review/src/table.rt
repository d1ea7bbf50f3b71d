//! The groups. `docs/REVIEW.md` has the sources of each.
ghost use Rattle.review.specs.Groups.{AreAllGroups};

use crate::groups::{Group, Part};

// All records of a call.
const ANY: Part = ("any", 0, 0, 0);

// The bits that the kernel reads of an argument of 32 bits.
const LOW: u64 = 0xffff_ffff;

/// Each group by its name, why it matters, and its rows.
pub(crate) const GROUPS: &[Group] = &[
    (
        "bpf",
        "it loads programs into the kernel",
        &[(&["bpf"], ANY)],
    ),
    (
        "io_uring",
        "it does calls on files and sockets where no filter sees them",
        &[(
            &["io_uring_setup", "io_uring_enter", "io_uring_register"],
            ANY,
        )],
    ),
    (
        "userfaultfd",
        "it holds the kernel at a page fault for as long as a task likes",
        &[(&["userfaultfd"], ANY)],
    ),
    (
        "keyrings",
        "keys are kept for a user, not for a container",
        &[(&["add_key", "request_key", "keyctl"], ANY)],
    ),
    (
        "tracing",
        "it reads and changes other tasks",
        &[(
            &[
                "ptrace",
                "process_vm_readv",
                "process_vm_writev",
                "process_madvise",
                "kcmp",
                "pidfd_getfd",
            ],
            ANY,
        )],
    ),
    (
        "mounts",
        "it changes which files a task sees, and reaches the code of file systems",
        &[(
            &[
                "mount",
                "umount",
                "umount2",
                "pivot_root",
                "move_mount",
                "open_tree",
                "open_tree_attr",
                "fsopen",
                "fsconfig",
                "fsmount",
                "fspick",
                "mount_setattr",
            ],
            ANY,
        )],
    ),
    (
        "modules",
        "it loads code into the kernel",
        &[(
            &[
                "create_module",
                "init_module",
                "finit_module",
                "delete_module",
            ],
            ANY,
        )],
    ),
    (
        "boot",
        "it starts another kernel, or stops this one",
        &[(&["kexec_load", "kexec_file_load", "reboot"], ANY)],
    ),
    (
        "namespaces",
        "in a new one a task may do what else root alone may",
        &[
            (&["setns", "clone3"], ANY),
            (
                &["clone", "unshare"],
                ("CLONE_NEWNS", 0, 0x0002_0000, 0x0002_0000),
            ),
            (
                &["clone", "unshare"],
                ("CLONE_NEWCGROUP", 0, 0x0200_0000, 0x0200_0000),
            ),
            (
                &["clone", "unshare"],
                ("CLONE_NEWUTS", 0, 0x0400_0000, 0x0400_0000),
            ),
            (
                &["clone", "unshare"],
                ("CLONE_NEWIPC", 0, 0x0800_0000, 0x0800_0000),
            ),
            (
                &["clone", "unshare"],
                ("CLONE_NEWUSER", 0, 0x1000_0000, 0x1000_0000),
            ),
            (
                &["clone", "unshare"],
                ("CLONE_NEWPID", 0, 0x2000_0000, 0x2000_0000),
            ),
            (
                &["clone", "unshare"],
                ("CLONE_NEWNET", 0, 0x4000_0000, 0x4000_0000),
            ),
            (&["unshare"], ("CLONE_NEWTIME", 0, 0x0000_0080, 0x0000_0080)),
        ],
    ),
    (
        "terminal",
        "it puts input into a terminal as if somebody had typed it",
        &[
            (&["ioctl"], ("TIOCSTI", 1, LOW, 0x5412)),
            (&["ioctl"], ("TIOCLINUX", 1, LOW, 0x541c)),
        ],
    ),
    (
        "sockets",
        "the code of seldom used families is loaded where one is asked for",
        &[
            (&["socket"], ("AF_NETLINK", 0, LOW, 16)),
            (&["socket"], ("AF_PACKET", 0, LOW, 17)),
            (&["socket"], ("AF_RDS", 0, LOW, 21)),
            (&["socket"], ("AF_CAN", 0, LOW, 29)),
            (&["socket"], ("AF_TIPC", 0, LOW, 30)),
            (&["socket"], ("AF_BLUETOOTH", 0, LOW, 31)),
            (&["socket"], ("AF_ALG", 0, LOW, 38)),
            (&["socket"], ("AF_NFC", 0, LOW, 39)),
            (&["socket"], ("AF_VSOCK", 0, LOW, 40)),
            (&["socket"], ("AF_KCM", 0, LOW, 41)),
            (&["socket"], ("AF_XDP", 0, LOW, 44)),
            (&["socketcall"], ("SYS_SOCKET", 0, LOW, 1)),
        ],
    ),
    (
        "perf",
        "it counts and traces the whole machine, with a long list of mended faults",
        &[(&["perf_event_open"], ANY)],
    ),
    (
        "personality",
        "it takes away what makes faults harder to use",
        &[
            (
                &["personality"],
                ("ADDR_NO_RANDOMIZE", 0, 0x8004_0000, 0x0004_0000),
            ),
            (
                &["personality"],
                ("MMAP_PAGE_ZERO", 0, 0x8010_0000, 0x0010_0000),
            ),
            (
                &["personality"],
                ("READ_IMPLIES_EXEC", 0, 0x8040_0000, 0x0040_0000),
            ),
        ],
    ),
    (
        "handles",
        "it opens files past the directories that they stand in",
        &[(&["open_by_handle_at"], ANY)],
    ),
    (
        "clock",
        "one clock is for all containers",
        &[(
            &[
                "settimeofday",
                "stime",
                "clock_settime",
                "clock_settime64",
                "clock_adjtime",
                "clock_adjtime64",
                "adjtimex",
            ],
            ANY,
        )],
    ),
    (
        "devices",
        "it reaches devices by their ports",
        &[(
            &[
                "iopl",
                "ioperm",
                "pciconfig_read",
                "pciconfig_write",
                "pciconfig_iobase",
            ],
            ANY,
        )],
    ),
    (
        "memory",
        "where pages lie is settled for other tasks, too",
        &[(
            &[
                "mbind",
                "set_mempolicy",
                "set_mempolicy_home_node",
                "get_mempolicy",
                "migrate_pages",
                "move_pages",
            ],
            ANY,
        )],
    ),
    (
        "machine",
        "it changes or reads what belongs to the whole machine",
        &[(
            &[
                "acct",
                "quotactl",
                "quotactl_fd",
                "swapon",
                "swapoff",
                "syslog",
            ],
            ANY,
        )],
    ),
    (
        "old",
        "hardly anybody uses or tests it any more",
        &[(
            &[
                "_sysctl",
                "uselib",
                "ustat",
                "sysfs",
                "lookup_dcookie",
                "nfsservctl",
                "modify_ldt",
                "vm86",
                "vm86old",
            ],
            ANY,
        )],
    ),
];

/// The groups.
#[tactic(auto, unfolding(crate::specs::Groups::all_groups))]
pub(crate) fn groups() -> &'static [Group]
    ensures { AreAllGroups result.now }
{
    GROUPS
}
