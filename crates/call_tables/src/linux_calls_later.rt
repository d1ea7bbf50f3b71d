//! The later half of all calls of Linux 7.3, in the columns of `linux_calls`.
use crate::linux_calls::NONE;

/// The next calls by their names, each with its numbers on the machines in this order.
pub(crate) const THIRD_CALLS: &[(&str, [u32; 10])] = &[
    (
        "newfstatat",
        [262, NONE, 0x4000_0106, 79, NONE, 79, 291, 79, 293, NONE],
    ),
    (
        "nfsservctl",
        [180, 169, NONE, 42, 169, 42, 168, 42, 169, 169],
    ),
    ("nice", [NONE, 34, NONE, NONE, 34, NONE, 34, NONE, 34, 34]),
    (
        "oldfstat",
        [NONE, 28, NONE, NONE, NONE, NONE, 28, NONE, NONE, NONE],
    ),
    (
        "oldlstat",
        [NONE, 84, NONE, NONE, NONE, NONE, 84, NONE, NONE, NONE],
    ),
    (
        "oldolduname",
        [NONE, 59, NONE, NONE, NONE, NONE, 59, NONE, NONE, NONE],
    ),
    (
        "oldstat",
        [NONE, 18, NONE, NONE, NONE, NONE, 18, NONE, NONE, NONE],
    ),
    (
        "olduname",
        [NONE, 109, NONE, NONE, NONE, NONE, 109, NONE, NONE, NONE],
    ),
    ("open", [2, 5, 0x4000_0002, NONE, 5, NONE, 5, NONE, 5, 5]),
    (
        "open_by_handle_at",
        [304, 342, 0x4000_0130, 265, 371, 265, 346, 265, 336, 336],
    ),
    (
        "open_tree",
        [428, 428, 0x4000_01ac, 428, 428, 428, 428, 428, 428, 428],
    ),
    (
        "open_tree_attr",
        [467, 467, 0x4000_01d3, 467, 467, 467, 467, 467, 467, 467],
    ),
    (
        "openat",
        [257, 295, 0x4000_0101, 56, 322, 56, 286, 56, 288, 288],
    ),
    (
        "openat2",
        [437, 437, 0x4000_01b5, 437, 437, 437, 437, 437, 437, 437],
    ),
    (
        "pause",
        [34, 29, 0x4000_0022, NONE, 29, NONE, 29, NONE, 29, 29],
    ),
    (
        "pciconfig_iobase",
        [NONE, NONE, NONE, NONE, 271, NONE, 200, NONE, NONE, NONE],
    ),
    (
        "pciconfig_read",
        [NONE, NONE, NONE, NONE, 272, NONE, 198, NONE, NONE, NONE],
    ),
    (
        "pciconfig_write",
        [NONE, NONE, NONE, NONE, 273, NONE, 199, NONE, NONE, NONE],
    ),
    (
        "perf_event_open",
        [298, 336, 0x4000_012a, 241, 364, 241, 319, 241, 331, 331],
    ),
    (
        "personality",
        [135, 136, 0x4000_0087, 92, 136, 92, 136, 92, 136, 136],
    ),
    (
        "pidfd_getfd",
        [438, 438, 0x4000_01b6, 438, 438, 438, 438, 438, 438, 438],
    ),
    (
        "pidfd_open",
        [434, 434, 0x4000_01b2, 434, 434, 434, 434, 434, 434, 434],
    ),
    (
        "pidfd_send_signal",
        [424, 424, 0x4000_01a8, 424, 424, 424, 424, 424, 424, 424],
    ),
    (
        "pipe",
        [22, 42, 0x4000_0016, NONE, 42, NONE, 42, NONE, 42, 42],
    ),
    (
        "pipe2",
        [293, 331, 0x4000_0125, 59, 359, 59, 317, 59, 325, 325],
    ),
    (
        "pivot_root",
        [155, 217, 0x4000_009b, 41, 218, 41, 203, 41, 217, 217],
    ),
    (
        "pkey_alloc",
        [330, 381, 0x4000_014a, 289, 395, 289, 384, 289, 385, 385],
    ),
    (
        "pkey_free",
        [331, 382, 0x4000_014b, 290, 396, 290, 385, 290, 386, 386],
    ),
    (
        "pkey_mprotect",
        [329, 380, 0x4000_0149, 288, 394, 288, 386, 288, 384, 384],
    ),
    (
        "poll",
        [7, 168, 0x4000_0007, NONE, 168, NONE, 167, NONE, 168, 168],
    ),
    (
        "ppoll",
        [271, 309, 0x4000_010f, 73, 336, 73, 281, 73, 302, 302],
    ),
    (
        "ppoll_time64",
        [NONE, 414, NONE, NONE, 414, NONE, NONE, NONE, NONE, 414],
    ),
    (
        "prctl",
        [157, 172, 0x4000_009d, 167, 172, 167, 171, 167, 172, 172],
    ),
    (
        "pread64",
        [17, 180, 0x4000_0011, 67, 180, 67, 179, 67, 180, 180],
    ),
    (
        "preadv",
        [295, 333, 0x4000_0216, 69, 361, 69, 320, 69, 328, 328],
    ),
    (
        "preadv2",
        [327, 378, 0x4000_0222, 286, 392, 286, 380, 286, 376, 376],
    ),
    (
        "prlimit64",
        [302, 340, 0x4000_012e, 261, 369, 261, 325, 261, 334, 334],
    ),
    (
        "process_madvise",
        [440, 440, 0x4000_01b8, 440, 440, 440, 440, 440, 440, 440],
    ),
    (
        "process_mrelease",
        [448, 448, 0x4000_01c0, 448, 448, 448, 448, 448, 448, 448],
    ),
    (
        "process_vm_readv",
        [310, 347, 0x4000_021b, 270, 376, 270, 351, 270, 340, 340],
    ),
    (
        "process_vm_writev",
        [311, 348, 0x4000_021c, 271, 377, 271, 352, 271, 341, 341],
    ),
    (
        "prof",
        [NONE, 44, NONE, NONE, NONE, NONE, 44, NONE, NONE, NONE],
    ),
    (
        "profil",
        [NONE, 98, NONE, NONE, NONE, NONE, 98, NONE, NONE, NONE],
    ),
    (
        "pselect6",
        [270, 308, 0x4000_010e, 72, 335, 72, 280, 72, 301, 301],
    ),
    (
        "pselect6_time64",
        [NONE, 413, NONE, NONE, 413, NONE, NONE, NONE, NONE, 413],
    ),
    (
        "ptrace",
        [101, 26, 0x4000_0209, 117, 26, 117, 26, 117, 26, 26],
    ),
    (
        "putpmsg",
        [182, 189, 0x4000_00b6, NONE, NONE, NONE, 188, NONE, 189, 189],
    ),
    (
        "pwrite64",
        [18, 181, 0x4000_0012, 68, 181, 68, 180, 68, 181, 181],
    ),
    (
        "pwritev",
        [296, 334, 0x4000_0217, 70, 362, 70, 321, 70, 329, 329],
    ),
    (
        "pwritev2",
        [328, 379, 0x4000_0223, 287, 393, 287, 381, 287, 377, 377],
    ),
    (
        "query_module",
        [178, 167, NONE, NONE, NONE, NONE, 166, NONE, 167, 167],
    ),
    (
        "quotactl",
        [179, 131, 0x4000_00b3, 60, 131, 60, 131, 60, 131, 131],
    ),
    (
        "quotactl_fd",
        [443, 443, 0x4000_01bb, 443, 443, 443, 443, 443, 443, 443],
    ),
    ("read", [0, 3, 0x4000_0000, 63, 3, 63, 3, 63, 3, 3]),
    (
        "readahead",
        [187, 225, 0x4000_00bb, 213, 225, 213, 191, 213, 222, 222],
    ),
    (
        "readdir",
        [NONE, 89, NONE, NONE, NONE, NONE, 89, NONE, 89, 89],
    ),
    (
        "readlink",
        [89, 85, 0x4000_0059, NONE, 85, NONE, 85, NONE, 85, 85],
    ),
    (
        "readlinkat",
        [267, 305, 0x4000_010b, 78, 332, 78, 296, 78, 298, 298],
    ),
    (
        "readv",
        [19, 145, 0x4000_0203, 65, 145, 65, 145, 65, 145, 145],
    ),
    (
        "reboot",
        [169, 88, 0x4000_00a9, 142, 88, 142, 88, 142, 88, 88],
    ),
    (
        "recv",
        [NONE, NONE, NONE, NONE, 291, NONE, 336, NONE, NONE, NONE],
    ),
    (
        "recvfrom",
        [45, 371, 0x4000_0205, 207, 292, 207, 337, 207, 371, 371],
    ),
    (
        "recvmmsg",
        [299, 337, 0x4000_0219, 243, 365, 243, 343, 243, 357, 357],
    ),
    (
        "recvmmsg_time64",
        [NONE, 417, NONE, NONE, 417, NONE, NONE, NONE, NONE, 417],
    ),
    (
        "recvmsg",
        [47, 372, 0x4000_0207, 212, 297, 212, 342, 212, 372, 372],
    ),
    (
        "remap_file_pages",
        [216, 257, 0x4000_00d8, 234, 253, 234, 239, 234, 267, 267],
    ),
    (
        "removexattr",
        [197, 235, 0x4000_00c5, 14, 235, 14, 218, 14, 233, 233],
    ),
    (
        "removexattrat",
        [466, 466, 0x4000_01d2, 466, 466, 466, 466, 466, 466, 466],
    ),
    (
        "rename",
        [82, 38, 0x4000_0052, NONE, 38, NONE, 38, NONE, 38, 38],
    ),
    (
        "renameat",
        [264, 302, 0x4000_0108, 38, 329, NONE, 293, NONE, 295, 295],
    ),
    (
        "renameat2",
        [316, 353, 0x4000_013c, 276, 382, 276, 357, 276, 347, 347],
    ),
    (
        "request_key",
        [249, 287, 0x4000_00f9, 218, 310, 218, 270, 218, 279, 279],
    ),
    (
        "restart_syscall",
        [219, 0, 0x4000_00db, 128, 0, 128, 0, 128, 7, 7],
    ),
    (
        "riscv_flush_icache",
        [NONE, NONE, NONE, NONE, NONE, 259, NONE, NONE, NONE, NONE],
    ),
    (
        "riscv_hwprobe",
        [NONE, NONE, NONE, NONE, NONE, 258, NONE, NONE, NONE, NONE],
    ),
    (
        "rmdir",
        [84, 40, 0x4000_0054, NONE, 40, NONE, 40, NONE, 40, 40],
    ),
    (
        "rseq",
        [334, 386, 0x4000_014e, 293, 398, 293, 387, 293, 383, 383],
    ),
    (
        "rseq_slice_yield",
        [471, 471, 0x4000_01d7, 471, 471, 471, 471, 471, 471, NONE],
    ),
    (
        "rt_sigaction",
        [13, 174, 0x4000_0200, 134, 174, 134, 173, 134, 174, 174],
    ),
    (
        "rt_sigpending",
        [127, 176, 0x4000_020a, 136, 176, 136, 175, 136, 176, 176],
    ),
    (
        "rt_sigprocmask",
        [14, 175, 0x4000_000e, 135, 175, 135, 174, 135, 175, 175],
    ),
    (
        "rt_sigqueueinfo",
        [129, 178, 0x4000_020c, 138, 178, 138, 177, 138, 178, 178],
    ),
    (
        "rt_sigreturn",
        [15, 173, 0x4000_0201, 139, 173, 139, 172, 139, 173, 173],
    ),
    (
        "rt_sigsuspend",
        [130, 179, 0x4000_0082, 133, 179, 133, 178, 133, 179, 179],
    ),
    (
        "rt_sigtimedwait",
        [128, 177, 0x4000_020b, 137, 177, 137, 176, 137, 177, 177],
    ),
    (
        "rt_sigtimedwait_time64",
        [NONE, 421, NONE, NONE, 421, NONE, NONE, NONE, NONE, 421],
    ),
    (
        "rt_tgsigqueueinfo",
        [297, 335, 0x4000_0218, 240, 363, 240, 322, 240, 330, 330],
    ),
    (
        "rtas",
        [NONE, NONE, NONE, NONE, NONE, NONE, 255, NONE, NONE, NONE],
    ),
    (
        "s390_guarded_storage",
        [NONE, NONE, NONE, NONE, NONE, NONE, NONE, NONE, 378, 378],
    ),
    (
        "s390_pci_mmio_read",
        [NONE, NONE, NONE, NONE, NONE, NONE, NONE, NONE, 353, 353],
    ),
    (
        "s390_pci_mmio_write",
        [NONE, NONE, NONE, NONE, NONE, NONE, NONE, NONE, 352, 352],
    ),
    (
        "s390_runtime_instr",
        [NONE, NONE, NONE, NONE, NONE, NONE, NONE, NONE, 342, 342],
    ),
    (
        "s390_sthyi",
        [NONE, NONE, NONE, NONE, NONE, NONE, NONE, NONE, 380, 380],
    ),
    (
        "sched_get_priority_max",
        [146, 159, 0x4000_0092, 125, 159, 125, 159, 125, 159, 159],
    ),
    (
        "sched_get_priority_min",
        [147, 160, 0x4000_0093, 126, 160, 126, 160, 126, 160, 160],
    ),
    (
        "sched_getaffinity",
        [204, 242, 0x4000_00cc, 123, 242, 123, 223, 123, 240, 240],
    ),
    (
        "sched_getattr",
        [315, 352, 0x4000_013b, 275, 381, 275, 356, 275, 346, 346],
    ),
    (
        "sched_getparam",
        [143, 155, 0x4000_008f, 121, 155, 121, 155, 121, 155, 155],
    ),
    (
        "sched_getscheduler",
        [145, 157, 0x4000_0091, 120, 157, 120, 157, 120, 157, 157],
    ),
    (
        "sched_rr_get_interval",
        [148, 161, 0x4000_0094, 127, 161, 127, 161, 127, 161, 161],
    ),
    (
        "sched_rr_get_interval_time64",
        [NONE, 423, NONE, NONE, 423, NONE, NONE, NONE, NONE, 423],
    ),
    (
        "sched_setaffinity",
        [203, 241, 0x4000_00cb, 122, 241, 122, 222, 122, 239, 239],
    ),
    (
        "sched_setattr",
        [314, 351, 0x4000_013a, 274, 380, 274, 355, 274, 345, 345],
    ),
    (
        "sched_setparam",
        [142, 154, 0x4000_008e, 118, 154, 118, 154, 118, 154, 154],
    ),
    (
        "sched_setscheduler",
        [144, 156, 0x4000_0090, 119, 156, 119, 156, 119, 156, 156],
    ),
    (
        "sched_yield",
        [24, 158, 0x4000_0018, 124, 158, 124, 158, 124, 158, 158],
    ),
    (
        "seccomp",
        [317, 354, 0x4000_013d, 277, 383, 277, 358, 277, 348, 348],
    ),
    (
        "security",
        [
            185,
            NONE,
            0x4000_00b9,
            NONE,
            NONE,
            NONE,
            NONE,
            NONE,
            NONE,
            NONE,
        ],
    ),
    (
        "select",
        [23, 82, 0x4000_0017, NONE, NONE, NONE, 82, NONE, 142, NONE],
    ),
    (
        "semctl",
        [66, 394, 0x4000_0042, 191, 300, 191, 394, 191, 394, 394],
    ),
    (
        "semget",
        [64, 393, 0x4000_0040, 190, 299, 190, 393, 190, 393, 393],
    ),
    (
        "semop",
        [65, NONE, 0x4000_0041, 193, 298, 193, NONE, 193, NONE, NONE],
    ),
    (
        "semtimedop",
        [220, NONE, 0x4000_00dc, 192, 312, 192, 392, 192, 392, NONE],
    ),
    (
        "semtimedop_time64",
        [NONE, 420, NONE, NONE, 420, NONE, NONE, NONE, NONE, 420],
    ),
    (
        "send",
        [NONE, NONE, NONE, NONE, 289, NONE, 334, NONE, NONE, NONE],
    ),
    (
        "sendfile",
        [40, 187, 0x4000_0028, 71, 187, 71, 186, 71, 187, 187],
    ),
    (
        "sendfile64",
        [NONE, 239, NONE, NONE, 239, NONE, NONE, NONE, NONE, 223],
    ),
    (
        "sendmmsg",
        [307, 345, 0x4000_021a, 269, 374, 269, 349, 269, 358, 358],
    ),
    (
        "sendmsg",
        [46, 370, 0x4000_0206, 211, 296, 211, 341, 211, 370, 370],
    ),
    (
        "sendto",
        [44, 369, 0x4000_002c, 206, 290, 206, 335, 206, 369, 369],
    ),
    (
        "set_mempolicy",
        [238, 276, 0x4000_00ee, 237, 321, 237, 261, 237, 270, 270],
    ),
    (
        "set_mempolicy_home_node",
        [450, 450, 0x4000_01c2, 450, 450, 450, 450, 450, 450, 450],
    ),
    (
        "set_robust_list",
        [273, 311, 0x4000_0212, 99, 338, 99, 300, 99, 304, 304],
    ),
    (
        "set_thread_area",
        [205, 243, NONE, NONE, NONE, NONE, NONE, NONE, NONE, NONE],
    ),
    (
        "set_tid_address",
        [218, 258, 0x4000_00da, 96, 256, 96, 232, 96, 252, 252],
    ),
    (
        "set_tls",
        [
            NONE, NONE, NONE, NONE, 0xf_0005, NONE, NONE, NONE, NONE, NONE,
        ],
    ),
    (
        "setdomainname",
        [171, 121, 0x4000_00ab, 162, 121, 162, 121, 162, 121, 121],
    ),
    (
        "setfsgid",
        [123, 139, 0x4000_007b, 152, 139, 152, 139, 152, 216, 139],
    ),
    (
        "setfsgid32",
        [NONE, 216, NONE, NONE, 216, NONE, NONE, NONE, NONE, 216],
    ),
    (
        "setfsuid",
        [122, 138, 0x4000_007a, 151, 138, 151, 138, 151, 215, 138],
    ),
];

/// The last calls by their names, each with its numbers on the machines in this order.
pub(crate) const FOURTH_CALLS: &[(&str, [u32; 10])] = &[
    (
        "setfsuid32",
        [NONE, 215, NONE, NONE, 215, NONE, NONE, NONE, NONE, 215],
    ),
    (
        "setgid",
        [106, 46, 0x4000_006a, 144, 46, 144, 46, 144, 214, 46],
    ),
    (
        "setgid32",
        [NONE, 214, NONE, NONE, 214, NONE, NONE, NONE, NONE, 214],
    ),
    (
        "setgroups",
        [116, 81, 0x4000_0074, 159, 81, 159, 81, 159, 206, 81],
    ),
    (
        "setgroups32",
        [NONE, 206, NONE, NONE, 206, NONE, NONE, NONE, NONE, 206],
    ),
    (
        "sethostname",
        [170, 74, 0x4000_00aa, 161, 74, 161, 74, 161, 74, 74],
    ),
    (
        "setitimer",
        [38, 104, 0x4000_0026, 103, 104, 103, 104, 103, 104, 104],
    ),
    (
        "setns",
        [308, 346, 0x4000_0134, 268, 375, 268, 350, 268, 339, 339],
    ),
    (
        "setpgid",
        [109, 57, 0x4000_006d, 154, 57, 154, 57, 154, 57, 57],
    ),
    (
        "setpriority",
        [141, 97, 0x4000_008d, 140, 97, 140, 97, 140, 97, 97],
    ),
    (
        "setregid",
        [114, 71, 0x4000_0072, 143, 71, 143, 71, 143, 204, 71],
    ),
    (
        "setregid32",
        [NONE, 204, NONE, NONE, 204, NONE, NONE, NONE, NONE, 204],
    ),
    (
        "setresgid",
        [119, 170, 0x4000_0077, 149, 170, 149, 169, 149, 210, 170],
    ),
    (
        "setresgid32",
        [NONE, 210, NONE, NONE, 210, NONE, NONE, NONE, NONE, 210],
    ),
    (
        "setresuid",
        [117, 164, 0x4000_0075, 147, 164, 147, 164, 147, 208, 164],
    ),
    (
        "setresuid32",
        [NONE, 208, NONE, NONE, 208, NONE, NONE, NONE, NONE, 208],
    ),
    (
        "setreuid",
        [113, 70, 0x4000_0071, 145, 70, 145, 70, 145, 203, 70],
    ),
    (
        "setreuid32",
        [NONE, 203, NONE, NONE, 203, NONE, NONE, NONE, NONE, 203],
    ),
    (
        "setrlimit",
        [160, 75, 0x4000_00a0, 164, 75, 164, 75, NONE, 75, 75],
    ),
    (
        "setsid",
        [112, 66, 0x4000_0070, 157, 66, 157, 66, 157, 66, 66],
    ),
    (
        "setsockopt",
        [54, 366, 0x4000_021d, 208, 294, 208, 339, 208, 366, 366],
    ),
    (
        "settimeofday",
        [164, 79, 0x4000_00a4, 170, 79, 170, 79, 170, 79, 79],
    ),
    (
        "setuid",
        [105, 23, 0x4000_0069, 146, 23, 146, 23, 146, 213, 23],
    ),
    (
        "setuid32",
        [NONE, 213, NONE, NONE, 213, NONE, NONE, NONE, NONE, 213],
    ),
    (
        "setxattr",
        [188, 226, 0x4000_00bc, 5, 226, 5, 209, 5, 224, 224],
    ),
    (
        "setxattrat",
        [463, 463, 0x4000_01cf, 463, 463, 463, 463, 463, 463, 463],
    ),
    (
        "sgetmask",
        [NONE, 68, NONE, NONE, NONE, NONE, 68, NONE, NONE, NONE],
    ),
    (
        "shmat",
        [30, 397, 0x4000_001e, 196, 305, 196, 397, 196, 397, 397],
    ),
    (
        "shmctl",
        [31, 396, 0x4000_001f, 195, 308, 195, 396, 195, 396, 396],
    ),
    (
        "shmdt",
        [67, 398, 0x4000_0043, 197, 306, 197, 398, 197, 398, 398],
    ),
    (
        "shmget",
        [29, 395, 0x4000_001d, 194, 307, 194, 395, 194, 395, 395],
    ),
    (
        "shutdown",
        [48, 373, 0x4000_0030, 210, 293, 210, 338, 210, 373, 373],
    ),
    (
        "sigaction",
        [NONE, 67, NONE, NONE, 67, NONE, 67, NONE, 67, 67],
    ),
    (
        "sigaltstack",
        [131, 186, 0x4000_020d, 132, 186, 132, 185, 132, 186, 186],
    ),
    (
        "signal",
        [NONE, 48, NONE, NONE, NONE, NONE, 48, NONE, 48, 48],
    ),
    (
        "signalfd",
        [282, 321, 0x4000_011a, NONE, 349, NONE, 305, NONE, 316, 316],
    ),
    (
        "signalfd4",
        [289, 327, 0x4000_0121, 74, 355, 74, 313, 74, 322, 322],
    ),
    (
        "sigpending",
        [NONE, 73, NONE, NONE, 73, NONE, 73, NONE, 73, 73],
    ),
    (
        "sigprocmask",
        [NONE, 126, NONE, NONE, 126, NONE, 126, NONE, 126, 126],
    ),
    (
        "sigreturn",
        [NONE, 119, NONE, NONE, 119, NONE, 119, NONE, 119, 119],
    ),
    (
        "sigsuspend",
        [NONE, 72, NONE, NONE, 72, NONE, 72, NONE, 72, 72],
    ),
    (
        "socket",
        [41, 359, 0x4000_0029, 198, 281, 198, 326, 198, 359, 359],
    ),
    (
        "socketcall",
        [NONE, 102, NONE, NONE, NONE, NONE, 102, NONE, 102, 102],
    ),
    (
        "socketpair",
        [53, 360, 0x4000_0035, 199, 288, 199, 333, 199, 360, 360],
    ),
    (
        "splice",
        [275, 313, 0x4000_0113, 76, 340, 76, 283, 76, 306, 306],
    ),
    (
        "spu_create",
        [NONE, NONE, NONE, NONE, NONE, NONE, 279, NONE, NONE, NONE],
    ),
    (
        "spu_run",
        [NONE, NONE, NONE, NONE, NONE, NONE, 278, NONE, NONE, NONE],
    ),
    (
        "ssetmask",
        [NONE, 69, NONE, NONE, NONE, NONE, 69, NONE, NONE, NONE],
    ),
    (
        "stat",
        [4, 106, 0x4000_0004, NONE, 106, NONE, 106, NONE, 106, 106],
    ),
    (
        "stat64",
        [NONE, 195, NONE, NONE, 195, NONE, NONE, NONE, NONE, 195],
    ),
    ("statfs", [137, 99, 0x4000_0089, 43, 99, 43, 99, 43, 99, 99]),
    (
        "statfs64",
        [NONE, 268, NONE, NONE, 266, NONE, 252, NONE, 265, 265],
    ),
    (
        "statmount",
        [457, 457, 0x4000_01c9, 457, 457, 457, 457, 457, 457, 457],
    ),
    (
        "statx",
        [332, 383, 0x4000_014c, 291, 397, 291, 383, 291, 379, 379],
    ),
    (
        "stime",
        [NONE, 25, NONE, NONE, NONE, NONE, 25, NONE, NONE, 25],
    ),
    (
        "stty",
        [NONE, 31, NONE, NONE, NONE, NONE, 31, NONE, NONE, NONE],
    ),
    (
        "subpage_prot",
        [NONE, NONE, NONE, NONE, NONE, NONE, 310, NONE, NONE, NONE],
    ),
    (
        "swapcontext",
        [NONE, NONE, NONE, NONE, NONE, NONE, 249, NONE, NONE, NONE],
    ),
    (
        "swapoff",
        [168, 115, 0x4000_00a8, 225, 115, 225, 115, 225, 115, 115],
    ),
    (
        "swapon",
        [167, 87, 0x4000_00a7, 224, 87, 224, 87, 224, 87, 87],
    ),
    (
        "switch_endian",
        [NONE, NONE, NONE, NONE, NONE, NONE, 363, NONE, NONE, NONE],
    ),
    (
        "symlink",
        [88, 83, 0x4000_0058, NONE, 83, NONE, 83, NONE, 83, 83],
    ),
    (
        "symlinkat",
        [266, 304, 0x4000_010a, 36, 331, 36, 295, 36, 297, 297],
    ),
    ("sync", [162, 36, 0x4000_00a2, 81, 36, 81, 36, 81, 36, 36]),
    (
        "sync_file_range",
        [277, 314, 0x4000_0115, 84, NONE, 84, NONE, 84, 307, 307],
    ),
    (
        "sync_file_range2",
        [NONE, NONE, NONE, NONE, NONE, NONE, 308, NONE, NONE, NONE],
    ),
    (
        "syncfs",
        [306, 344, 0x4000_0132, 267, 373, 267, 348, 267, 338, 338],
    ),
    (
        "sys_debug_setcontext",
        [NONE, NONE, NONE, NONE, NONE, NONE, 256, NONE, NONE, NONE],
    ),
    (
        "sysfs",
        [139, 135, 0x4000_008b, NONE, 135, NONE, 135, NONE, 135, 135],
    ),
    (
        "sysinfo",
        [99, 116, 0x4000_0063, 179, 116, 179, 116, 179, 116, 116],
    ),
    (
        "syslog",
        [103, 103, 0x4000_0067, 116, 103, 116, 103, 116, 103, 103],
    ),
    (
        "tee",
        [276, 315, 0x4000_0114, 77, 342, 77, 284, 77, 308, 308],
    ),
    (
        "tgkill",
        [234, 270, 0x4000_00ea, 131, 268, 131, 250, 131, 241, 241],
    ),
    (
        "time",
        [201, 13, 0x4000_00c9, NONE, NONE, NONE, 13, NONE, NONE, 13],
    ),
    (
        "timer_create",
        [222, 259, 0x4000_020e, 107, 257, 107, 240, 107, 254, 254],
    ),
    (
        "timer_delete",
        [226, 263, 0x4000_00e2, 111, 261, 111, 244, 111, 258, 258],
    ),
    (
        "timer_getoverrun",
        [225, 262, 0x4000_00e1, 109, 260, 109, 243, 109, 257, 257],
    ),
    (
        "timer_gettime",
        [224, 261, 0x4000_00e0, 108, 259, 108, 242, 108, 256, 256],
    ),
    (
        "timer_gettime64",
        [NONE, 408, NONE, NONE, 408, NONE, NONE, NONE, NONE, 408],
    ),
    (
        "timer_settime",
        [223, 260, 0x4000_00df, 110, 258, 110, 241, 110, 255, 255],
    ),
    (
        "timer_settime64",
        [NONE, 409, NONE, NONE, 409, NONE, NONE, NONE, NONE, 409],
    ),
    (
        "timerfd",
        [NONE, NONE, NONE, NONE, NONE, NONE, NONE, NONE, 317, 317],
    ),
    (
        "timerfd_create",
        [283, 322, 0x4000_011b, 85, 350, 85, 306, 85, 319, 319],
    ),
    (
        "timerfd_gettime",
        [287, 326, 0x4000_011f, 87, 354, 87, 312, 87, 321, 321],
    ),
    (
        "timerfd_gettime64",
        [NONE, 410, NONE, NONE, 410, NONE, NONE, NONE, NONE, 410],
    ),
    (
        "timerfd_settime",
        [286, 325, 0x4000_011e, 86, 353, 86, 311, 86, 320, 320],
    ),
    (
        "timerfd_settime64",
        [NONE, 411, NONE, NONE, 411, NONE, NONE, NONE, NONE, 411],
    ),
    (
        "times",
        [100, 43, 0x4000_0064, 153, 43, 153, 43, 153, 43, 43],
    ),
    (
        "tkill",
        [200, 238, 0x4000_00c8, 130, 238, 130, 208, 130, 237, 237],
    ),
    (
        "truncate",
        [76, 92, 0x4000_004c, 45, 92, 45, 92, 45, 92, 92],
    ),
    (
        "truncate64",
        [NONE, 193, NONE, NONE, 193, NONE, NONE, NONE, NONE, 193],
    ),
    (
        "tuxcall",
        [
            184,
            NONE,
            0x4000_00b8,
            NONE,
            NONE,
            NONE,
            225,
            NONE,
            NONE,
            NONE,
        ],
    ),
    (
        "ugetrlimit",
        [NONE, 191, NONE, NONE, 191, NONE, 190, NONE, NONE, 191],
    ),
    (
        "ulimit",
        [NONE, 58, NONE, NONE, NONE, NONE, 58, NONE, NONE, NONE],
    ),
    (
        "umask",
        [95, 60, 0x4000_005f, 166, 60, 166, 60, 166, 60, 60],
    ),
    (
        "umount",
        [NONE, 22, NONE, NONE, NONE, NONE, 22, NONE, 22, 22],
    ),
    (
        "umount2",
        [166, 52, 0x4000_00a6, 39, 52, 39, 52, 39, 52, 52],
    ),
    (
        "uname",
        [63, 122, 0x4000_003f, 160, 122, 160, 122, 160, 122, 122],
    ),
    (
        "unlink",
        [87, 10, 0x4000_0057, NONE, 10, NONE, 10, NONE, 10, 10],
    ),
    (
        "unlinkat",
        [263, 301, 0x4000_0107, 35, 328, 35, 292, 35, 294, 294],
    ),
    (
        "unshare",
        [272, 310, 0x4000_0110, 97, 337, 97, 282, 97, 303, 303],
    ),
    (
        "uprobe",
        [
            336,
            NONE,
            0x4000_0150,
            NONE,
            NONE,
            NONE,
            NONE,
            NONE,
            NONE,
            NONE,
        ],
    ),
    (
        "uretprobe",
        [
            335,
            NONE,
            0x4000_014f,
            NONE,
            NONE,
            NONE,
            NONE,
            NONE,
            NONE,
            NONE,
        ],
    ),
    ("uselib", [134, 86, NONE, NONE, 86, NONE, 86, NONE, 86, 86]),
    (
        "userfaultfd",
        [323, 374, 0x4000_0143, 282, 388, 282, 364, 282, 355, 355],
    ),
    (
        "usr26",
        [
            NONE, NONE, NONE, NONE, 0xf_0003, NONE, NONE, NONE, NONE, NONE,
        ],
    ),
    (
        "usr32",
        [
            NONE, NONE, NONE, NONE, 0xf_0004, NONE, NONE, NONE, NONE, NONE,
        ],
    ),
    (
        "ustat",
        [136, 62, 0x4000_0088, NONE, 62, NONE, 62, NONE, 62, 62],
    ),
    (
        "utime",
        [132, 30, 0x4000_0084, NONE, NONE, NONE, 30, NONE, 30, 30],
    ),
    (
        "utimensat",
        [280, 320, 0x4000_0118, 88, 348, 88, 304, 88, 315, 315],
    ),
    (
        "utimensat_time64",
        [NONE, 412, NONE, NONE, 412, NONE, NONE, NONE, NONE, 412],
    ),
    (
        "utimes",
        [235, 271, 0x4000_00eb, NONE, 269, NONE, 251, NONE, 313, 313],
    ),
    (
        "vfork",
        [58, 190, 0x4000_003a, NONE, 190, NONE, 189, NONE, 190, 190],
    ),
    (
        "vhangup",
        [153, 111, 0x4000_0099, 58, 111, 58, 111, 58, 111, 111],
    ),
    (
        "vm86",
        [NONE, 166, NONE, NONE, NONE, NONE, 113, NONE, NONE, NONE],
    ),
    (
        "vm86old",
        [NONE, 113, NONE, NONE, NONE, NONE, NONE, NONE, NONE, NONE],
    ),
    (
        "vmsplice",
        [278, 316, 0x4000_0214, 75, 343, 75, 285, 75, 309, 309],
    ),
    (
        "vserver",
        [236, 273, NONE, NONE, 313, NONE, NONE, NONE, NONE, NONE],
    ),
    (
        "wait4",
        [61, 114, 0x4000_003d, 260, 114, 260, 114, 260, 114, 114],
    ),
    (
        "waitid",
        [247, 284, 0x4000_0211, 95, 280, 95, 272, 95, 281, 281],
    ),
    (
        "waitpid",
        [NONE, 7, NONE, NONE, NONE, NONE, 7, NONE, NONE, NONE],
    ),
    ("write", [1, 4, 0x4000_0001, 64, 4, 64, 4, 64, 4, 4]),
    (
        "writev",
        [20, 146, 0x4000_0204, 66, 146, 66, 146, 66, 146, 146],
    ),
];
