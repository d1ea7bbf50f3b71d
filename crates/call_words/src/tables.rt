//! The tables of constants, for whoever looks names up.
ghost use Rattle.std.specs.Prelude.{◌≡◌};
ghost use Rattle.call_tables.specs.Table.{entries};
ghost use Rattle.call_words.specs.Constants as spec;

use crate::constants::{
    ADVICE, CLONING, FAMILIES, IOCTL, MAPPINGS, OPENING, PERSONALITIES, PRCTL, PROTECTIONS,
    SOCKET_TYPES, TRACING,
};

/// Address families: of the first argument of socket and socketpair.
#[tactic(auto, unfolding(crate::specs::Constants::families))]
pub fn families() -> &'static [(&'static str, u64)]
    ensures { entries result.now ≡ spec.families }
{
    FAMILIES
}

/// Types of sockets: of their second argument.
#[tactic(auto, unfolding(crate::specs::Constants::socket_types))]
pub fn socket_types() -> &'static [(&'static str, u64)]
    ensures { entries result.now ≡ spec.socket_types }
{
    SOCKET_TYPES
}

/// Flags of clone, unshare and setns.
#[tactic(auto, unfolding(crate::specs::Constants::cloning))]
pub fn cloning() -> &'static [(&'static str, u64)]
    ensures { entries result.now ≡ spec.cloning }
{
    CLONING
}

/// What personality takes.
#[tactic(auto, unfolding(crate::specs::Constants::personalities))]
pub fn personalities() -> &'static [(&'static str, u64)]
    ensures { entries result.now ≡ spec.personalities }
{
    PERSONALITIES
}

/// Operations of prctl.
#[tactic(auto, unfolding(crate::specs::Constants::prctl))]
pub fn prctl() -> &'static [(&'static str, u64)]
    ensures { entries result.now ≡ spec.prctl }
{
    PRCTL
}

/// Requests of ioctl.
#[tactic(auto, unfolding(crate::specs::Constants::ioctl))]
pub fn ioctl() -> &'static [(&'static str, u64)]
    ensures { entries result.now ≡ spec.ioctl }
{
    IOCTL
}

/// Protection of memory: of mmap and mprotect.
#[tactic(auto, unfolding(crate::specs::Constants::protections))]
pub fn protections() -> &'static [(&'static str, u64)]
    ensures { entries result.now ≡ spec.protections }
{
    PROTECTIONS
}

/// Flags of mmap.
#[tactic(auto, unfolding(crate::specs::Constants::mappings))]
pub fn mappings() -> &'static [(&'static str, u64)]
    ensures { entries result.now ≡ spec.mappings }
{
    MAPPINGS
}

/// Advice of madvise.
#[tactic(auto, unfolding(crate::specs::Constants::advice))]
pub fn advice() -> &'static [(&'static str, u64)]
    ensures { entries result.now ≡ spec.advice }
{
    ADVICE
}

/// Flags of open.
#[tactic(auto, unfolding(crate::specs::Constants::opening))]
pub fn opening() -> &'static [(&'static str, u64)]
    ensures { entries result.now ≡ spec.opening }
{
    OPENING
}

/// Requests of ptrace.
#[tactic(auto, unfolding(crate::specs::Constants::tracing))]
pub fn tracing() -> &'static [(&'static str, u64)]
    ensures { entries result.now ≡ spec.tracing }
{
    TRACING
}
