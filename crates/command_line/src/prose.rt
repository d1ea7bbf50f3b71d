//! The prose of the pages: what a command does, its statuses, and an example. Its usage and its parts are the table's.
ghost use Rattle.std.specs.Prelude.{◌≡◌};
ghost use Rattle.command_line.specs.Prose.{prose_text};

/// A command of the program.
#[derive(Clone, Copy)]
pub enum Command {
    Verdict,
    Check,
    Certify,
    Export,
    Run,
    Explain,
    Read,
    Lint,
    Compare,
    Adapt,
    Learn,
    Replay,
    Record,
    Assemble,
    Annotate,
    Draw,
    Recover,
    Join,
    Meet,
    Stack,
    Flatten,
    Review,
    Json,
    Manual,
    Version,
}

const VERDICT: &str =
    "Runs a filter that passes the kernel's check on a call record of 64 bytes, and returns its verdict.
Status 0, or 1 and a line that begins with 'refused'.

Example: ccell verdict web.bpf write.rec
";

const CHECK: &str =
    "Answers yes if the certificate shows that the filter gives each call record the profile's verdict.
Status 0, or 1 and a line that begins with 'no' or 'refused'.

Example: ccell check x86-64 web.json web.bpf web.cert
";

const CERTIFY: &str =
    "Writes a certificate that the filter answers what the profile says, or a counterexample: a call
record that the filter gets wrong. Standard error explains it.
With runc, the stub that runc puts in front of a filter is judged by itself: standard error lists
the calls that it answers ENOSYS. If the profile refuses them by its default, without a kill, and names none
of them, the certificate is of the filter behind the stub. Otherwise the whole filter is judged.
With all, a filter without a certificate gets a record of each call that is found on which it differs;
with both, also a filter behind the stub.
With calls, numbers that no table has are left aside if profile and filter differ on them; with
without-x32, all calls of x32 are. Where others are right the answer is yes, and these are listed.
Status 0, or 1 and a line that begins with 'no' or 'refused'.

Example: ccell certify linux-x86-64 web.json web.bpf > web.cert
";

const EXPORT: &str =
    "Compiles a profile, and writes its filter if the checker answers yes: raw is eight bytes an
instruction, listing the text, and cert the certificate.
Status 0, or 1 and a line that begins with 'no' or 'refused'.

Example: ccell export linux-x86-64 web.json raw > web.bpf
";

const RUN: &str =
    "Reads commands from standard input, a line each, and answers each with a line. The profiles are
called b1, b2 and so on.
Status 0, or 1 if a profile has no checked filter.

Example: ccell run x86-64 web.json < life.script
";

const EXPLAIN: &str =
    "Reports the call in plain sentences, the profile's verdict, and why: the entry that
matches, default or foreign. Under it each entry for that call, whether it matches, and which of its
conditions hold.
CALL any: what the profile says of the call whatever its arguments.
record HEX: the call of the 128 digits that certify reports.
audit: the lines that a kernel logs of filters (type=1326), read from standard input. Each answer is
told with its processes.
Status 0, or 4 and a line that begins with 'refused'. With linux-.. a second line says which word
is wrong.

Example: ccell explain x86-64 web.json write 1 0 0x100000000
";

const READ: &str =
    "Reports a profile's machines, the verdict of calls that no entry matches, and each entry in a line. Of
a profile that is refused it reports why and, in a second line, the place.
With rules, it writes the profile as a program reads it: the machines, the default verdict, and a
line for each rule, with numbers in place of names.
Status 0, 1 for an edition that is not read, or 4 and a line that begins with 'refused'.

Example: ccell read linux-x86-64 web.json
";

const LINT: &str =
    "Reports each call that the profile lets through, and refuses if the bits that the kernel does not
read are 0: it gets past. Then each call that the profile refuses, and lets through if these bits are
0: it is stopped. Each has its entry, both values, and the records. A call that is left to a tracer
or a listener goes further than a refused one, and less far than one that is let through. None is
left out; one with too many answers may be undecided, and is named. Remarks follow, on conditions
that mean little, on refused calls that report success, and on members that are not read.
Status 0 if no call gets past or is stopped and each member is read, 4 if the profile is refused, or 1.

Example: ccell lint linux-x86-64 web.json
";

const COMPARE: &str =
    "Reports all calls that the two answer unlike, a line for each and each direction, and last what is
proved: same, allows no more, allows no less, or allows more and less. A call with too many
answers may be undecided, and is named.
Status 0 for same, 4 if a profile is refused, or 1. With atmost, status 0 if the new profile allows no more,
and has the same flags and listener.
filters: OLD and NEW are filters. A line stands for each call that is found of which they answer
unlike verdicts. Status 0 if their bytes are the same, or 1.

Example: ccell compare linux-x86-64 old.json new.json atmost
";

const ADAPT: &str =
    "Writes the section that engines take and the other commands read, and reports each change on
standard error, with its place. Each word stands once at most.
widen: write it though it lets more through.
first, looser, stricter or like-libseccomp: which of two entries counts that answer one call unlike.
narrow: compare only the bits that the kernel reads.
log: log what would be refused.
for docker|podman|containerd: work out an engine's own profile.
cap CAP.. or cap all, and kernel 6.12: the capabilities and the kernel that it is worked out for.
@basic-io and the like, groups of calls as systemd has them: allow their calls, too.
bundle, as the last word: write a bundle, a config.json with the section in it.
Status 0, or 5 if a name that was left out may be a slip. 1 and the reason on standard error, or 4
and a line that begins with 'refused'.

Example: ccell adapt linux-x86-64 config.json first > web.json
";

const LEARN: &str =
    "Writes a section, which engines take, that allows each call of the logs. Standard error reports
what was read, and what was added and why. Beside the logs may stand:
keep CALL:ARG[,ARG]: compare these arguments with the values seen; once for each call.
for crun|runc|bwrap|docker|podman: add the calls that a runtime makes behind the load.
else errno|enosys|log|kill: the answer to all other calls.
@basic-io and the like, groups of calls as systemd has them: allow their calls, too.
bundle, as the last word: write a bundle, a config.json with the section in it.
With from and a profile in front of the logs it adds to what this profile allows.
Status 0, 1 if no section says both, or 4 and a line that begins with 'refused'.

Example: ccell learn linux-x86-64 web.log for crun > web.json
";

const REPLAY: &str =
    "Reports each call of logs that the profile refuses, or leaves to a tracer or a listener: why, how often,
and where first. With unused behind the logs, it reports each entry that no call of the logs matches.
Status 0 if each call is let through, 4 if the profile is refused, or 1.

Example: ccell replay linux-x86-64 web.json web.log unused
";

const RECORD: &str = "Writes the 64 bytes of a call record, as verdict takes it.
Status 0, or 4 and the line 'refused call'; with linux-.. a second line says which word is wrong.

Example: ccell record x86-64 write 1 0 4097 > write.rec
";

const ASSEMBLE: &str =
    "Writes the bytes of the filter whose listing the file is, as export writes listings.
Status 0, or 4 and a line that begins with 'refused listing'.

Example: ccell assemble web.listing > web.bpf
";

const ANNOTATE: &str =
    "Shows each instruction with its position, where jumps lead, and the names of calls, arguments and
actions. An L stands before a position that jumps lead to. With cost it shows what the filter costs a
call: which calls Linux answers without running it, and how many instructions the others run.
Status 0, 1 if the kernel refuses the filter, with the cause in the last line, or 4 if it is no program.

Example: ccell annotate linux-x86-64 web.bpf
";

const DRAW: &str =
    "Shows a filter as a graph in the language of Graphviz: a node is a block of instructions, with the
names that annotate shows, and coloured by its action; an edge leads to the next block, by the
outcome of the test.
Status 0, 1 if the kernel refuses the filter, with the cause in the last line, or 4 if it is no program.

Example: ccell draw linux-x86-64 web.bpf | dot -Tsvg > web.svg
";

const RECOVER: &str =
    "Writes the section that any filter means: each call gets the filter's verdict, whatever its arguments
are, as certify shows it. With bundle it writes the config.json of runc and crun.
With runc, it is the section of the filter behind the stub that runc puts in front. With calls, numbers
that no table has are left aside if section and filter differ on them; with without-x32, all calls of
x32 are. Standard error lists these, and the calls that the stub answers ENOSYS. With others, the filter
allows the calls of all machines that it does not know, as systemd's do; x-ccell-otherMachines tells it.
Status 0, or 1 if no section means the same, with a call that shows why, or what was drafted without a yes.

Example: ccell recover linux-x86-64 container.bpf runc without-x32 > container.json
";

const JOIN: &str =
    "Writes the section of a profile that gives each call the laxest of the answers that the profiles give
it: what one of them allows is allowed. With bundle as the last word it writes the config.json of runc
and crun.
Status 0, 1 if no section says so, with a call that shows why, or 4 if a profile is refused.

Example: ccell join linux-x86-64 monday.json tuesday.json > both.json
";

const MEET: &str =
    "Writes the section of a profile that gives each call the strictest of the answers that the profiles
give it: only what all of them allow is allowed. Of equally strict answers the last profile's counts. With
bundle as the last word it writes the config.json of runc and crun.
Status 0, 1 if no section says so, with a call that shows why, or 4 if a profile is refused.

Example: ccell meet linux-x86-64 docker.json own.json > strict.json
";

const STACK: &str =
    "Writes the section of a profile that gives each call the answer of several filters, which were loaded
in this order: the strictest counts, and of equally strict ones the newest filter's. With bundle as the
last word it writes the config.json of runc and crun.
Status 0, or 1 if no section says so, with a call that shows why.

Example: ccell stack linux-x86-64 first.bpf second.bpf > process.json
";

const FLATTEN: &str =
    "Writes one filter that answers each call as several do, which were loaded in this order: the strictest
answer counts, and of equally strict ones the newest filter's. Every command that reads a filter then
reads the stack. Filters with scratch words, or that return what they computed, are not put together.
Status 0, 1 if there is none, or 4 if one is no filter.

Example: ccell flatten linux-x86-64 1234.0.bpf 1234.1.bpf > process.bpf
";

const REVIEW: &str =
    "Reports what a profile leaves open of the calls by which a kernel is attacked most, group by group.
Of each call it is decided for all arguments whether the profile lets it through. With html it writes a page
for a browser, with the graph of the profile's filter; with a second profile and html, a page on which both
stand side by side, with what compare tells of them. A page has no scripts, and nothing from elsewhere.
Status 0, also if two profiles differ, or 4 if a profile is refused.

Example: ccell review linux-x86-64 web.json
";

const JSON: &str =
    "Carries out a command that judges, and writes each line of its answer as a JSON object, and a last object
with the status. The member kind says what the line tells, and the other members are its parts. Indented
lines are objects in the member details of the line above. A certificate is an object with its bytes in
hexadecimal digits. Standard error is that of the command.
Status: that of the command. If the program stops, with status 2 or 3, no object is written.

Example: ccell json compare linux-x86-64 old.json new.json atmost
";

const MANUAL: &str = "Reports how a command is used, or which commands there are.
Status 0, or 2 if there is no such command.

Example: ccell manual explain
";

const VERSION: &str =
    "Reports the edition of the program, what it reads, and with which kit it was proved.

Example: ccell version
";

impl Command {
    /// Its prose.
    #[tactic(auto, unfolding(crate::specs::Prose::prose_text))]
    pub(crate) fn prose(self) -> &'static str
        ensures { result.now ≡ prose_text self }
    {
        match self {
            Command::Verdict => VERDICT,
            Command::Check => CHECK,
            Command::Certify => CERTIFY,
            Command::Export => EXPORT,
            Command::Run => RUN,
            Command::Explain => EXPLAIN,
            Command::Read => READ,
            Command::Lint => LINT,
            Command::Compare => COMPARE,
            Command::Adapt => ADAPT,
            Command::Learn => LEARN,
            Command::Replay => REPLAY,
            Command::Record => RECORD,
            Command::Assemble => ASSEMBLE,
            Command::Annotate => ANNOTATE,
            Command::Draw => DRAW,
            Command::Recover => RECOVER,
            Command::Join => JOIN,
            Command::Meet => MEET,
            Command::Stack => STACK,
            Command::Flatten => FLATTEN,
            Command::Review => REVIEW,
            Command::Json => JSON,
            Command::Manual => MANUAL,
            Command::Version => VERSION,
        }
    }
}
