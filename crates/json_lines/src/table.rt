//! The table of the kinds of lines that each command writes.
ghost use Rattle.std.specs.Prelude.{◌≡◌, find, map};
ghost use Rattle.std.specs.Str.{bytes_eq};
ghost use Rattle.json_lines.specs.Kinds.{entry_of, table as entries, texts_of};

/// A command's name, the shapes of its lines, and those of its details, a line each. The first shape that a line has counts. A shape is
/// its kind and, behind a blank, what its lines look like, with the names of members in braces.
pub type Entry = (&'static str, &'static str, &'static str);

const VERDICT: &str = "refused_record refused record
refused_view refused view {number} {fault}
refused_kernel refused kernel {number} {fault} pc {pc}
verdict {verdict}
";

const CHECK: &str = "yes
refused_profile refused profile {number} {fault} {of}
refused_profile refused profile {number} {fault}
refused_check refused check {number} {fault}
no_view no 1 View {number} {fault}
no_kernel no 2 Kernel {number} {fault} pc {pc}
no_form no 3 Form {number} {fault}
no_rule no {number} {rule} node {node}
no_rule no {number} {rule}
";

const CERTIFY: &str = "no_record no record {record} filter {filter} profile {profile}
refused_profile refused profile {number} {fault} {of}
refused_profile refused profile {number} {fault}
no_view no 1 View {number} {fault}
no_kernel no 2 Kernel {number} {fault} pc {pc}
refused_certify refused certify {number} {fault} pc {pc}
refused_certify refused certify {number} {fault}
yes_but yes, but for these calls:
";

const LEFT_ASIDE: &str = "aside {first} to {last} of {machine}
";

const EXPLAIN: &str = "call call {call}, number {number} of {machine}
call call {number} of {machine}
arguments arguments {arguments}
verdict verdict {verdict} {action}
why why {why}
matches entry {entry} {action} matches
matches_not entry {entry} {action} does not match
entry entry {entry} {action} if {conditions}
entry entry {entry} {action}
default default {action}
foreign foreign {action}
logged told {times} times, code {code} {action}
process process {process}
more_processes more lines of other processes: {lines}
may_answer the bundle may answer so
never_answers the bundle never answers so: another filter did
entries_above entries as above
more_lines more lines that tell others: {lines}
not_read lines of filters that are not read: {lines}
refused_profile refused profile {number} {fault} {of}
refused_profile refused profile {number} {fault}
refused_call refused call
refused_lines refused lines
no_call {word} is no call of {machine}; nearest: {nearest}
no_call {word} is no call of {machine}
no_number {word} is no number
";

const CONDITIONS: &str = "holds_not {condition} does not hold
holds {condition} holds
";

const READ: &str = "machines machines {machines}
default default {action}
entry_of_none entry {entry} names no call of these machines
entry entry {entry} {action}: {names} if {conditions}
entry entry {entry} {action}: {names}
flags flags {flags}
listener listener {path}
metadata metadata {metadata}
not_read {member}: is not read
twice {member}: stands twice, and the last one counts
constant in {call} arg{argument} {number} is {name}
lint_reports ccell lint reports calls that get past this bundle
lint_reports_stopped ccell lint reports calls that this bundle stops by bits that Linux does not read
edition edition {edition}, and read as {read_as}
refused_profile refused profile {number} {fault} {of}
refused_profile refused profile {number} {fault}
at_text at line {line}, column {column}: {fault}
at at {place}: {fault}
rules_form ccell-profile {form}
native native {machine}
rules rules {rules}
rule {machine} {number} {verdict} {conditions}
rule {machine} {number} {verdict}
";

const LINT: &str =
    "past linux.seccomp.syscalls[{entry}]: {call} of {machine}: {refused} is refused, {through} is let through, and Linux reads {reads} of both
past {call} of {machine}: {refused} is refused, {through} is let through, and Linux reads {reads} of both
past linux.seccomp.syscalls[{entry}]: {call} of {machine}: {refused} is refused, {left} is left to a tracer or a listener, and Linux reads {reads} of both
past {call} of {machine}: {refused} is refused, {left} is left to a tracer or a listener, and Linux reads {reads} of both
past linux.seccomp.syscalls[{entry}]: {call} of {machine}: {left} is left to a tracer or a listener, {through} is let through, and Linux reads {reads} of both
past {call} of {machine}: {left} is left to a tracer or a listener, {through} is let through, and Linux reads {reads} of both
stopped linux.seccomp.syscalls[{entry}]: {call} of {machine}: {refused} is refused, but Linux reads {reads}, which is let through
stopped {call} of {machine}: {refused} is refused, but Linux reads {reads}, which is let through
stopped linux.seccomp.syscalls[{entry}]: {call} of {machine}: {refused} is refused, but Linux reads {reads}, which is left to a tracer or a listener
stopped {call} of {machine}: {refused} is refused, but Linux reads {reads}, which is left to a tracer or a listener
stopped linux.seccomp.syscalls[{entry}]: {call} of {machine}: {left} is left to a tracer or a listener, but Linux reads {reads}, which is let through
stopped {call} of {machine}: {left} is left to a tracer or a listener, but Linux reads {reads}, which is let through
nothing_past nothing gets past
past_in_all {calls} calls get past
past_in_all {calls} call gets past
stopped_in_all {calls} calls are stopped by bits that Linux does not read
stopped_in_all {calls} call is stopped by bits that Linux does not read
undecided undecided TooLarge {call} of {machine}
remark remark: {remark}
refused_profile refused profile {number} {fault} {of}
refused_profile refused profile {number} {fault}
not_read {member}: is not read
twice {member}: stands twice, and the last one counts
constant in {call} arg{argument} {number} is {name}
several linux.seccomp.syscalls[{entry}]: {call} of {machine}: {arguments}
several {call} of {machine}: {arguments}
";

const RECORDS: &str = "record {action}, record {record}
";

const COMPARE: &str = "same
no_more allows no more
no_less allows no less
no_more_and_no_less allows no more and no less
more_and_less allows more and less
differ
none_found none found
undecided undecided 2 TooLarge {call} of {machine}
refused_profile refused profile {number} {fault} {of}, bundle {bundle}
refused_profile refused profile {number} {fault}, bundle {bundle}
refused_view refused view {number} {fault}, filter {filter}
refused_kernel refused kernel {number} {fault} pc {pc}, filter {filter}
beside_nothing beside its profile the {bundle} bundle has nothing
beside beside its profile the {bundle} bundle has
flags flags {flags}
listener listener {path}
metadata metadata {metadata}
change {call} of {machines} where {arguments}: {old}, {new}
change {call} of {machines}: {old}, {new}
";

const REPLAY: &str =
    "refused refused {call}, number {number} of {machine}: {action}, {why}, {times} times
left left {call}, number {number} of {machine}: {action}, {why}, {times} times
refused_profile refused profile {number} {fault} {of}
refused_profile refused profile {number} {fault}
refused_log refused log {log}: {why}
refused_in_all {refused} of {records} records refused, {left} left to a tracer or a listener
refused_in_all {refused} of {records} records refused
not_read {log}: {lines} lines are not read
partly_used partly used entry {entry}: {names}
unused unused entry {entry}: {names}
";

const LOG_LINES: &str = "log_line {log}:{number}: {line}
";

const REVIEW: &str = "group group {group}: {state}; {why}
refused_profile refused profile {number} {fault} {of}
refused_profile refused profile {number} {fault}
";

const OPEN: &str = "open open {call} of {machine}: {by}
undecided undecided TooLarge {call} of {machine}
open_calls open: {calls}
refused_calls refused: {calls}
undecided_calls undecided: {calls}
";

/// The commands whose answers are told as JSON lines.
pub const TABLE: &[Entry] = &[
    ("verdict", VERDICT, ""),
    ("check", CHECK, ""),
    ("certify", CERTIFY, LEFT_ASIDE),
    ("explain", EXPLAIN, CONDITIONS),
    ("read", READ, ""),
    ("lint", LINT, RECORDS),
    ("compare", COMPARE, ""),
    ("replay", REPLAY, LOG_LINES),
    ("review", REVIEW, OPEN),
];

// The table.
#[tactic(auto, unfolding(crate::specs::Kinds::table))]
fn table() -> &'static [Entry]
    ensures { map entry_of result.now ≡ entries }
{
    TABLE
}

// The entry of that name.
fn called(entries: &[Entry], name: &str) -> Option<Entry>
    ensures { result ≡ find (λ entry. bytes_eq entry.0.now name.now) entries.now }
{
    entries.iter().copied().find(|entry| entry.0 == name)
}

/// The shapes of the lines of a command, and those of its details.
pub(crate) fn texts_called(name: &str) -> (&'static str, &'static str)
    ensures { (result.0.now, result.1.now) ≡ texts_of entries name.now }
{
    match called(table(), name) {
        Some(entry) => (entry.1, entry.2),
        None => ("", ""),
    }
}
