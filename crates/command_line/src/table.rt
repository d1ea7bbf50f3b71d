//! The one table of commands: their names, how many arguments they take, their parts in order, and what each is for.
ghost use Rattle.std.specs.Prelude.{◌≡◌, map};
ghost use Rattle.command_line.specs.Table.{row, rows};

use crate::meanings::Meaning;
use crate::prose::Command;

/// A part of a command: its name, and what it is.
pub type Part = (&'static str, Meaning);

/// How many arguments a command takes, at least and at most.
pub type Count = (usize, usize);

/// A command: its name, how many arguments it takes, its parts, what it is for, and which one it is. Each part is one argument; the last
/// may be left out or stand for several, by the count.
pub type Entry = (&'static str, Count, &'static [Part], &'static str, Command);

// As many arguments as there are.
const MANY: usize = usize::MAX;

// The parts, each with what it is.
const MACHINE: Part = ("MACHINE", Meaning::Machine);

const PROFILE: Part = ("PROFILE", Meaning::Profile);

const PROFILES: Part = ("PROFILE", Meaning::Profiles);

const OLD: Part = ("OLD", Meaning::Old);

const NEW: Part = ("NEW", Meaning::New);

const COMPARED: Part = ("WORD", Meaning::Compared);

const READ_AS: Part = ("WORD", Meaning::ReadAs);

const REVIEWED: Part = ("WORD", Meaning::Reviewed);

const REVIEWED_BOTH: Part = ("OTHER", Meaning::ReviewedBoth);

const FILTER: Part = ("FILTER", Meaning::Filter);

const FILTERS: Part = ("FILTER", Meaning::Filters);

const SHOWN_AS: Part = ("WORD", Meaning::ShownAs);

const RECOVERED: Part = ("WORD", Meaning::Recovered);

const RECOVERED_TOO: Part = ("OTHER", Meaning::RecoveredToo);

const RECOVERED_THIRD: Part = ("THIRD", Meaning::RecoveredToo);

const RECOVERED_FOURTH: Part = ("FOURTH", Meaning::RecoveredToo);

const CERTIFIED: Part = ("WORD", Meaning::Certified);

const CERTIFIED_TOO: Part = ("OTHER", Meaning::CertifiedToo);

const CERTIFIED_THIRD: Part = ("THIRD", Meaning::CertifiedToo);

const CERTIFIED_FOURTH: Part = ("FOURTH", Meaning::CertifiedToo);

const RECORD: Part = ("RECORD", Meaning::Record);

const CERTIFICATE: Part = ("CERTIFICATE", Meaning::Certificate);

const LISTING: Part = ("LISTING", Meaning::Listing);

const FORM: Part = ("FORM", Meaning::Form);

const CALL: Part = ("CALL", Meaning::Call);

const ASKED_CALL: Part = ("CALL", Meaning::AskedCall);

const CONFIG: Part = ("CONFIG", Meaning::Config);

const WORD: Part = ("WORD", Meaning::Word);

const LEARNED_LOG: Part = ("LOG", Meaning::LearnedLog);

const REPLAYED_LOG: Part = ("LOG", Meaning::ReplayedLog);

const COMMAND: Part = ("COMMAND", Meaning::Command);

const JUDGE: Part = ("COMMAND", Meaning::Judge);

const ARGUMENT: Part = ("ARGUMENT", Meaning::Argument);

/// The commands of the program.
pub const COMMANDS: &[Entry] = &[
    (
        "verdict",
        (2, 2),
        &[FILTER, RECORD],
        "what a filter answers to one call",
        Command::Verdict,
    ),
    (
        "check",
        (4, 4),
        &[MACHINE, PROFILE, FILTER, CERTIFICATE],
        "whether a filter does what a profile says, by a certificate",
        Command::Check,
    ),
    (
        "certify",
        (3, 7),
        &[
            MACHINE,
            PROFILE,
            FILTER,
            CERTIFIED,
            CERTIFIED_TOO,
            CERTIFIED_THIRD,
            CERTIFIED_FOURTH,
        ],
        "a certificate for any filter, or a counterexample",
        Command::Certify,
    ),
    (
        "export",
        (3, 3),
        &[MACHINE, PROFILE, FORM],
        "a checked filter for a profile",
        Command::Export,
    ),
    (
        "run",
        (2, MANY),
        &[MACHINE, PROFILES],
        "containers on the modelled kernel, by a script",
        Command::Run,
    ),
    (
        "explain",
        (3, MANY),
        &[MACHINE, PROFILE, ASKED_CALL],
        "what a profile says of one call, and why",
        Command::Explain,
    ),
    (
        "read",
        (2, 3),
        &[MACHINE, PROFILE, READ_AS],
        "what a profile means, or where it is wrong",
        Command::Read,
    ),
    (
        "lint",
        (2, 2),
        &[MACHINE, PROFILE],
        "the calls that get past a profile by bits that the kernel does not read",
        Command::Lint,
    ),
    (
        "compare",
        (3, 4),
        &[MACHINE, OLD, NEW, COMPARED],
        "whether a new profile says the same as an old one, or allows no more",
        Command::Compare,
    ),
    (
        "adapt",
        (2, MANY),
        &[MACHINE, CONFIG, WORD],
        "a profile of what an engine hands to its runtime",
        Command::Adapt,
    ),
    (
        "learn",
        (2, MANY),
        &[MACHINE, LEARNED_LOG],
        "a profile that allows what logs of strace show",
        Command::Learn,
    ),
    (
        "replay",
        (3, MANY),
        &[MACHINE, PROFILE, REPLAYED_LOG],
        "the calls of logs of strace that a profile refuses",
        Command::Replay,
    ),
    (
        "record",
        (2, MANY),
        &[MACHINE, CALL],
        "the call record of a call",
        Command::Record,
    ),
    (
        "assemble",
        (1, 1),
        &[LISTING],
        "the bytes of a listing",
        Command::Assemble,
    ),
    (
        "annotate",
        (2, 3),
        &[MACHINE, FILTER, SHOWN_AS],
        "the listing of any filter, with what its lines mean",
        Command::Annotate,
    ),
    (
        "draw",
        (2, 2),
        &[MACHINE, FILTER],
        "the graph of any filter, in the language of Graphviz",
        Command::Draw,
    ),
    (
        "recover",
        (2, 6),
        &[
            MACHINE,
            FILTER,
            RECOVERED,
            RECOVERED_TOO,
            RECOVERED_THIRD,
            RECOVERED_FOURTH,
        ],
        "the profile that any filter means",
        Command::Recover,
    ),
    (
        "join",
        (3, MANY),
        &[MACHINE, PROFILES],
        "a profile that allows what one of several allows",
        Command::Join,
    ),
    (
        "meet",
        (3, MANY),
        &[MACHINE, PROFILES],
        "a profile that allows only what all of several allow",
        Command::Meet,
    ),
    (
        "stack",
        (2, MANY),
        &[MACHINE, FILTERS],
        "the profile that several filters mean, which are loaded together",
        Command::Stack,
    ),
    (
        "flatten",
        (2, MANY),
        &[MACHINE, FILTERS],
        "one filter that answers as several, which are loaded together",
        Command::Flatten,
    ),
    (
        "review",
        (2, 4),
        &[MACHINE, PROFILE, REVIEWED, REVIEWED_BOTH],
        "what a profile leaves open of the calls by which a kernel is attacked most",
        Command::Review,
    ),
    (
        "json",
        (2, MANY),
        &[JUDGE, ARGUMENT],
        "the answer of a command that judges, as JSON lines",
        Command::Json,
    ),
    (
        "manual",
        (0, 1),
        &[COMMAND],
        "how a command is used",
        Command::Manual,
    ),
    (
        "version",
        (0, 0),
        &[],
        "the edition of the program",
        Command::Version,
    ),
];

/// The commands of the table.
#[tactic(auto, unfolding(crate::specs::Table::rows))]
pub(crate) fn commands() -> &'static [Entry]
    ensures { map row result.now ≡ rows }
{
    COMMANDS
}
