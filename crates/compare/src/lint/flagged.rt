//! Conditions on a number where Linux reads flags in the same argument.
use call_record::lets_through;
use machines::Arch;
use profile::{Cond, Op, Rule};

// A call, the place of an argument, and the flags that Linux reads there: beside a number, or alone.
const FLAGGED: &[(&str, u8, u64)] = &[
    ("clone", 0, 0xffff_ff00),
    ("futex", 1, 0x180),
    ("mmap", 2, 0x7),
    ("mmap", 3, 0xffff_fff0),
    ("mmap2", 2, 0x7),
    ("mmap2", 3, 0xffff_fff0),
    ("mprotect", 2, 0x7),
    ("open", 1, 0xffff_fffc),
    ("openat", 2, 0xffff_fffc),
    ("personality", 0, 0xffff_ff00),
    ("pkey_mprotect", 2, 0x7),
    ("sched_setscheduler", 1, 0x4000_0000),
    ("socket", 1, 0x8_0800),
    ("socketpair", 1, 0x8_0800),
    ("unshare", 0, 0x7e02_0080),
];

// The place of an argument in the table: on s390 the first two arguments of clone are exchanged.
fn place_in(rule: &Rule, name: &str, index: u8) -> u8 {
    match rule.arch {
        Arch::LinuxS390 | Arch::LinuxS390x if name == "clone" && index < 2 => 1 - index,
        _ => index,
    }
}

// The flags that Linux reads in the argument of a condition.
fn flags_of(rule: &Rule, name: &str, cond: &Cond) -> u64 {
    let place = place_in(rule, name, cond.index);
    for (call, index, flags) in FLAGGED {
        if *call == name && *index == place {
            return *flags;
        }
    }
    0
}

// Whether bits under a mask are to be something else than no flag at all, and a flag is to be 0.
fn asks_both(flags: u64, mask: u64, datum: u64) -> bool {
    let asks_number = mask & !flags & 0xffff_ffff != 0 || datum & flags != 0;
    asks_number && mask & flags & !datum != 0
}

/// The flags by which a call gets past a condition on a number: a rule refuses the number, or lets all others through.
pub(crate) fn flags_beside(rule: &Rule, name: &str, cond: &Cond) -> Option<u64> {
    let flags = flags_of(rule, name, cond);
    let gets_past = match cond.op {
        Op::Eq => !lets_through(rule.word) && asks_both(flags, 0xffff_ffff, cond.value),
        Op::MaskedEq => !lets_through(rule.word) && asks_both(flags, cond.value, cond.datum),
        Op::Ne => lets_through(rule.word) && asks_both(flags, 0xffff_ffff, cond.value),
        _ => false,
    };
    if gets_past { Some(flags) } else { None }
}
