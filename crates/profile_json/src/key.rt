//! The keys and names of a bundle (OCI Runtime Specification 1.0.2 to 1.2.1, config-linux, Seccomp).

pub const OCI_VERSION: &str = "ociVersion";

pub const LINUX: &str = "linux";

pub const SECCOMP: &str = "seccomp";

pub const DEFAULT_ACTION: &str = "defaultAction";

pub const DEFAULT_ERRNO_RET: &str = "defaultErrnoRet";

pub const FLAGS: &str = "flags";

pub const LISTENER_PATH: &str = "listenerPath";

pub const LISTENER_METADATA: &str = "listenerMetadata";

pub const ARCHITECTURES: &str = "architectures";

pub const SYSCALLS: &str = "syscalls";

pub const NAMES: &str = "names";

pub const ACTION: &str = "action";

pub const ERRNO_RET: &str = "errnoRet";

pub const ARGS: &str = "args";

pub const INDEX: &str = "index";

pub const VALUE: &str = "value";

pub const VALUE_TWO: &str = "valueTwo";

pub const OP: &str = "op";

/// The editions of the specification that are read.
pub const VERSION_1_0_2: &str = "1.0.2";

pub const VERSION_1_1_0: &str = "1.1.0";

pub const VERSION_1_2_0: &str = "1.2.0";

pub const VERSION_1_2_1: &str = "1.2.1";

pub const KILL: &str = "SCMP_ACT_KILL";

pub const KILL_PROCESS: &str = "SCMP_ACT_KILL_PROCESS";

pub const TRAP: &str = "SCMP_ACT_TRAP";

pub const ERRNO: &str = "SCMP_ACT_ERRNO";

pub const TRACE: &str = "SCMP_ACT_TRACE";

pub const LOG: &str = "SCMP_ACT_LOG";

pub const ALLOW: &str = "SCMP_ACT_ALLOW";

pub const KILL_THREAD: &str = "SCMP_ACT_KILL_THREAD";

pub const NOTIFY: &str = "SCMP_ACT_NOTIFY";

pub const FLAG_TSYNC: &str = "SECCOMP_FILTER_FLAG_TSYNC";

pub const FLAG_LOG: &str = "SECCOMP_FILTER_FLAG_LOG";

pub const FLAG_SPEC_ALLOW: &str = "SECCOMP_FILTER_FLAG_SPEC_ALLOW";

pub const FLAG_WAIT_KILLABLE_RECV: &str = "SECCOMP_FILTER_FLAG_WAIT_KILLABLE_RECV";

pub const NE: &str = "SCMP_CMP_NE";

pub const LT: &str = "SCMP_CMP_LT";

pub const LE: &str = "SCMP_CMP_LE";

pub const EQ: &str = "SCMP_CMP_EQ";

pub const GE: &str = "SCMP_CMP_GE";

pub const GT: &str = "SCMP_CMP_GT";

pub const MASKED_EQ: &str = "SCMP_CMP_MASKED_EQ";
