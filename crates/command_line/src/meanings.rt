//! What each part of a command is, and the words that may stand for it, which are in brackets too, as clap shows them.
ghost use Rattle.std.specs.Prelude.{◌≡◌, map};
ghost use Rattle.command_line.specs.Table.{words_of};

use crate::said::{
    ARGUMENT, ASKED_CALL, CALL, CERTIFICATE, CERTIFIED, CERTIFIED_TOO, COMMAND, COMPARED, CONFIG,
    FILTER, FILTERS, FORM, JUDGE, LEARNED_LOG, LISTING, MACHINE, NEW, OLD, PROFILE, PROFILES,
    READ_AS, RECORD, RECOVERED, RECOVERED_TOO, REPLAYED_LOG, REVIEWED, REVIEWED_BOTH, SHOWN_AS,
    WORD,
};

/// What a part is.
#[derive(Clone, Copy)]
pub enum Meaning {
    Machine,
    Profile,
    Profiles,
    Old,
    New,
    Compared,
    ReadAs,
    Reviewed,
    ReviewedBoth,
    Filter,
    Filters,
    ShownAs,
    Recovered,
    RecoveredToo,
    Certified,
    CertifiedToo,
    Record,
    Certificate,
    Listing,
    Form,
    Call,
    AskedCall,
    Config,
    Word,
    LearnedLog,
    ReplayedLog,
    Command,
    Judge,
    Argument,
}

impl Meaning {
    /// The lines that say it.
    pub(crate) fn text(self) -> &'static str {
        match self {
            Meaning::Machine => MACHINE,
            Meaning::Profile => PROFILE,
            Meaning::Profiles => PROFILES,
            Meaning::Old => OLD,
            Meaning::New => NEW,
            Meaning::Compared => COMPARED,
            Meaning::ReadAs => READ_AS,
            Meaning::Reviewed => REVIEWED,
            Meaning::ReviewedBoth => REVIEWED_BOTH,
            Meaning::Filter => FILTER,
            Meaning::Filters => FILTERS,
            Meaning::ShownAs => SHOWN_AS,
            Meaning::Recovered => RECOVERED,
            Meaning::RecoveredToo => RECOVERED_TOO,
            Meaning::Certified => CERTIFIED,
            Meaning::CertifiedToo => CERTIFIED_TOO,
            Meaning::Record => RECORD,
            Meaning::Certificate => CERTIFICATE,
            Meaning::Listing => LISTING,
            Meaning::Form => FORM,
            Meaning::Call => CALL,
            Meaning::AskedCall => ASKED_CALL,
            Meaning::Config => CONFIG,
            Meaning::Word => WORD,
            Meaning::LearnedLog => LEARNED_LOG,
            Meaning::ReplayedLog => REPLAYED_LOG,
            Meaning::Command => COMMAND,
            Meaning::Judge => JUDGE,
            Meaning::Argument => ARGUMENT,
        }
    }

    /// The words that may stand for it; none are named where any may.
    pub(crate) fn words(self) -> &'static [&'static str]
        ensures { map (λ word. word.now) result.now ≡ words_of self }
    {
        match self {
            Meaning::Machine => &[
                "linux-x86-64",
                "linux-aarch64",
                "linux-riscv64",
                "linux-ppc64le",
                "linux-loongarch64",
                "linux-s390x",
                "x86-64",
                "aarch64",
            ],
            Meaning::Form => &["raw", "listing", "cert"],
            Meaning::Judge => &[
                "verdict", "check", "certify", "explain", "read", "lint", "compare", "replay",
                "review",
            ],
            Meaning::Certified | Meaning::CertifiedToo => &["runc", "all", "calls", "without-x32"],
            Meaning::ReadAs => &["rules"],
            Meaning::ReviewedBoth => &["html"],
            Meaning::ShownAs => &["cost"],
            Meaning::Recovered | Meaning::RecoveredToo => &[
                "bundle",
                "runc",
                "calls",
                "without-x32",
                "others",
            ],
            Meaning::Compared => &["atmost", "filters"],
            _ => &[],
        }
    }
}
