//! Which constants of the kernel's headers an argument of a call takes.
ghost use Rattle.std.specs.Prelude.{◌≡◌};
ghost use Rattle.call_tables.specs.Table.{entries};
ghost use Rattle.call_words.specs.Kinds as spec;

use crate::tables;

/// A kind of constants.
#[derive(Clone, Copy)]
pub enum Kind {
    Family,
    Cloning,
    Personality,
    Prctl,
    Ioctl,
    Protection,
    Mapping,
    Advice,
    Opening,
    Tracing,
}

/// The kind that an argument of a call takes: the call's name, the place of the argument, and the kind.
pub(crate) const TAKEN: &[(&str, u8, Kind)] = &[
    ("socket", 0, Kind::Family),
    ("socketpair", 0, Kind::Family),
    ("clone", 0, Kind::Cloning),
    ("unshare", 0, Kind::Cloning),
    ("setns", 1, Kind::Cloning),
    ("personality", 0, Kind::Personality),
    ("prctl", 0, Kind::Prctl),
    ("ioctl", 1, Kind::Ioctl),
    ("mmap", 2, Kind::Protection),
    ("mprotect", 2, Kind::Protection),
    ("mmap", 3, Kind::Mapping),
    ("madvise", 2, Kind::Advice),
    ("open", 1, Kind::Opening),
    ("openat", 2, Kind::Opening),
    ("ptrace", 0, Kind::Tracing),
];

// Whether a row is that of an argument of a call.
fn is_for(row: &(&str, u8, Kind), call: &str, argument: u8) -> bool
    ensures { result ≡ spec.is_for call.now argument (row.now.0.now, row.now.1, row.now.2) }
{
    row.1 == argument && row.0 == call
}

// The kind beside the first such row.
fn kind_in(table: &[(&str, u8, Kind)], call: &str, argument: u8) -> Option<Kind>
    ensures { result ≡ spec.kind_in call.now argument (spec.plain table.now) }
{
    for row in table {
        if is_for(row, call, argument) {
            return Some(row.2);
        }
    }
    None
}

/// The kind of constants that an argument of a call takes, if it takes any.
#[tactic(auto, unfolding(crate::specs::Kinds::taken))]
pub(crate) fn kind_of(call: &str, argument: u8) -> Option<Kind>
    ensures { result ≡ spec.kind_of call.now argument }
{
    kind_in(TAKEN, call, argument)
}

/// Whether bits of several constants of the kind may stand in one number.
pub(crate) fn are_bits(kind: Kind) -> bool
    ensures { result ≡ spec.are_bits kind }
{
    match kind {
        Kind::Family | Kind::Prctl | Kind::Ioctl | Kind::Advice | Kind::Tracing => false,
        Kind::Cloning | Kind::Personality | Kind::Protection | Kind::Mapping | Kind::Opening =>
            true,
    }
}

/// The constants of a kind.
pub(crate) fn constants(kind: Kind) -> &'static [(&'static str, u64)]
    ensures { entries result.now ≡ spec.constants kind }
{
    match kind {
        Kind::Family => tables::families(),
        Kind::Cloning => tables::cloning(),
        Kind::Personality => tables::personalities(),
        Kind::Prctl => tables::prctl(),
        Kind::Ioctl => tables::ioctl(),
        Kind::Protection => tables::protections(),
        Kind::Mapping => tables::mappings(),
        Kind::Advice => tables::advice(),
        Kind::Opening => tables::opening(),
        Kind::Tracing => tables::tracing(),
    }
}
