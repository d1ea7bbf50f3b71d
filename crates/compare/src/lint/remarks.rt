//! What else in a bundle says less than it seems to. None of it changes what is decided.
use crate::lint::flagged::flags_beside;
use crate::lint::pairs::put_pairs;
use call_record::{Word, lets_through};
use call_tables::call_name;
use profile::{Cond, Op, Profile, Rule};
use profile_json::EntryRules;
use std::alloc::{AllocError, Global};
use widths::{Reading, Text, readings, sees_low};
use wording::ConditionText;

// How an argument is read, if that is known. On x86 and ARM it has 32 bits.
fn reading_of(rule: &Rule, cond: &Cond) -> Option<Reading> {
    let known = match readings(rule.arch.token(), rule.nr) {
        Some(row) => row.get(cond.index as usize).copied(),
        None => None,
    };
    if rule.is_narrow() && matches!(known, None | Some(Reading::Bits64)) {
        return Some(Reading::Bits32);
    }
    known
}

// Whether a condition refuses a call that has a bit set that nobody reads.
fn asks_unread(rule: &Rule, cond: &Cond) -> bool {
    let Some(reading) = reading_of(rule, cond) else {
        return false;
    };
    let bits = reading.bits();
    let compared = if rule.is_narrow() { 32 } else { 64 };
    if bits >= compared || sees_low(cond, bits) {
        return false;
    }
    matches!(cond.op, Op::Eq | Op::Lt | Op::Le | Op::MaskedEq)
}

// Whether a rule that lets through has such a condition.
fn is_strict(rule: &Rule) -> bool {
    lets_through(rule.word)
        && rule
            .conds
            .as_slice()
            .iter()
            .any(|cond| asks_unread(rule, cond))
}

// What an argument or the bits of it are compared with.
fn compared_with(cond: &Cond) -> u64 {
    if cond.op == Op::MaskedEq {
        cond.datum
    } else {
        cond.value
    }
}

// Why a condition says less than it seems to.
fn remark_of(rule: &Rule, cond: &Cond) -> Option<&'static str> {
    match reading_of(rule, cond)? {
        Reading::NotTaken => Some("the call has no such argument"),
        Reading::Pointer => {
            Some("a pointer: the address is compared, and not what stands there")
        }
        Reading::Bits16 => {
            if compared_with(cond) >> 16 != 0 {
                return Some("16 bits are read, and the argument never has this value");
            }
            Some("16 bits are read")
        }
        Reading::Bits32 => {
            if compared_with(cond) >> 32 != 0 {
                return Some("32 bits are read, and the argument never has this value");
            }
            None
        }
        Reading::Bits64 => None,
    }
}

// Adds the remark on a condition.
fn put_condition(text: &mut Text, entry: usize, place: usize, rule: &Rule, cond: &Cond) {
    let Some(remark) = remark_of(rule, cond) else {
        return;
    };
    let name = call_name(rule.arch, rule.nr).unwrap_or("a call");
    let condition = ConditionText(cond);
    text.put(format_args!(
        "remark: linux.seccomp.syscalls[{entry}].args[{place}]: {name} if {condition}: {remark}\n"
    ));
}

// Adds that a call with a flag beside the number of a condition is another one to it.
fn put_flags(text: &mut Text, entry: usize, place: usize, rule: &Rule, cond: &Cond) {
    if matches!(
        reading_of(rule, cond),
        Some(Reading::NotTaken | Reading::Pointer)
    ) {
        return;
    }
    let name = call_name(rule.arch, rule.nr).unwrap_or("a call");
    if let Some(flags) = flags_beside(rule, name, cond) {
        let condition = ConditionText(cond);
        text.put(format_args!(
            "remark: linux.seccomp.syscalls[{entry}].args[{place}]: {name} if {condition}: a call with flags of 0x{flags:x} gets past it\n"
        ));
    }
}

// Whether another rule before one is of the same entry and of the same name.
fn is_again(all: &EntryRules, at: usize, rule: &Rule) -> bool {
    let Some(before) = at.checked_sub(1) else {
        return false;
    };
    let Some(other) = all.rules.get(before) else {
        return false;
    };
    all.entry_of(before) == all.entry_of(at)
        && call_name(other.arch, other.nr) == call_name(rule.arch, rule.nr)
}

// Adds the remarks on a rule's conditions, once for all machines.
fn put_rule(text: &mut Text, all: &EntryRules, at: usize, rule: &Rule) {
    let Some(entry) = all.entry_of(at) else {
        return;
    };
    if is_again(all, at, rule) {
        return;
    }
    for (place, cond) in rule.conds.as_slice().iter().enumerate() {
        put_condition(text, entry, place, rule, cond);
        put_flags(text, entry, place, rule, cond);
    }
}

// Whether the rule before one is of the same entry.
fn is_same_entry(all: &EntryRules, at: usize) -> bool {
    let Some(before) = at.checked_sub(1) else {
        return false;
    };
    all.entry_of(before) == all.entry_of(at)
}

// Adds the remark on an entry that says what the default says, at its first rule.
fn put_default(text: &mut Text, profile: &Profile, all: &EntryRules, at: usize, rule: &Rule) {
    if rule.word != profile.default_word() || is_same_entry(all, at) {
        return;
    }
    if let Some(entry) = all.entry_of(at) {
        text.put(format_args!(
            "remark: linux.seccomp.syscalls[{entry}]: it says what the default says\n"
        ));
    }
}

// Adds that a listener is asked about all other calls, which runc refuses to set up.
fn put_notified_default(text: &mut Text, profile: &Profile) {
    if profile.default_word() == Word::USER_NOTIF {
        text.put(
            "remark: linux.seccomp.defaultAction: runc starts no container with SCMP_ACT_NOTIFY here\n",
        );
    }
}

// Adds that a listener is asked about write, which runc refuses to set up.
fn put_notified(text: &mut Text, all: &EntryRules, at: usize, rule: &Rule) {
    if rule.word != Word::USER_NOTIF || call_name(rule.arch, rule.nr) != Some("write") {
        return;
    }
    if is_again(all, at, rule) {
        return;
    }
    if let Some(entry) = all.entry_of(at) {
        text.put(format_args!(
            "remark: linux.seccomp.syscalls[{entry}]: write: runc starts no container with SCMP_ACT_NOTIFY here\n"
        ));
    }
}

// Adds that a refused call reports success, of all calls that no rule is for.
fn put_success_by_default(text: &mut Text, profile: &Profile) {
    if profile.default_word() == Word::ERRNO {
        text.put(
            "remark: linux.seccomp.defaultAction: errno 0: the call is not made, and reports success\n",
        );
    }
}

// Adds that a refused call reports success, at the first rule of an entry.
fn put_success(text: &mut Text, all: &EntryRules, at: usize, rule: &Rule) {
    if rule.word != Word::ERRNO || is_same_entry(all, at) {
        return;
    }
    if let Some(entry) = all.entry_of(at) {
        text.put(format_args!(
            "remark: linux.seccomp.syscalls[{entry}]: errno 0: the call is not made, and reports success\n"
        ));
    }
}

// Adds how many rules refuse calls that others would carry out alike, if the default refuses them.
fn put_strict(text: &mut Text, profile: &Profile) {
    if lets_through(profile.default_word()) {
        return;
    }
    let count = profile
        .rules()
        .iter()
        .filter(|rule| is_strict(rule))
        .count();
    if count > 0 {
        let rules = if count == 1 { "rule lets" } else { "rules let" };
        text.put(format_args!(
            "remark: {count} {rules} a call through, but not with a bit set that nobody reads\n"
        ));
    }
}

// Adds the remarks.
fn put_remarks(
    alloc: Global,
    text: &mut Text,
    profile: &Profile,
    all: &EntryRules,
) -> Result<(), AllocError> {
    put_strict(text, profile);
    put_pairs(alloc, text, profile, all)?;
    put_notified_default(text, profile);
    put_success_by_default(text, profile);
    for (at, rule) in all.rules.iter().enumerate() {
        put_default(text, profile, all, at, rule);
        put_notified(text, all, at, rule);
        put_success(text, all, at, rule);
        if !rule.conds.as_slice().is_empty() {
            put_rule(text, all, at, rule);
        }
    }
    Ok(())
}

/// The remarks on a bundle.
pub(crate) fn remarks_of(
    alloc: Global,
    profile: &Profile,
    all: &EntryRules,
) -> Result<String, AllocError> {
    let mut text = Text::new(alloc);
    put_remarks(alloc, &mut text, profile, all)?;
    text.whole()
}
