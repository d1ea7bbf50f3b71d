//! Call records of which two profiles say unlike verdicts.
ghost use Rattle.std.specs.Prelude.{◌≡◌, IfSome};
ghost use Rattle.call_record.specs.Record.{words};
ghost use Rattle.call_record.specs.Words.{IsRecord};
ghost use Rattle.machines.specs.Arch.{token_of};
ghost use Rattle.wording.specs.Phrases.{machine_with};
ghost use Rattle.compare.specs.Difference.{record_of};

use call_record::{Record, Word, words_are_a_record};
use machines::{Arch, Family};
use wording::machine_with;

/// A call record, and the verdicts that a first and a second profile say of it.
#[derive(Clone, Copy, Debug)]
pub struct Difference {
    /// The machine of the call.
    pub arch: Option<Arch>,
    /// The token of the machine.
    pub token: u32,
    /// The number of the call.
    pub nr: u32,
    /// The address of the instruction that made the call.
    pub ip: u64,
    /// The arguments of the call.
    pub args: [u64; 6],
    /// Which of the arguments are asked for.
    pub asked: [bool; 6],
    /// What the first profile says.
    pub first: Word,
    /// What the second profile says.
    pub second: Word,
}

impl Difference {
    ghost use Rattle.std.specs.Prelude.{◌≡◌};
    ghost use Rattle.compare.specs.Order.{is_less, is_more};

    /// Whether the call goes further by the first profile.
    pub fn is_less(&self) -> bool
        ensures { result ≡ is_less self.now }
    {
        self.first.goes_further(self.second)
    }

    /// Whether the call goes further by the second profile.
    pub fn is_more(&self) -> bool
        ensures { result ≡ is_more self.now }
    {
        self.second.goes_further(self.first)
    }
}

/// A call record with the verdicts of two profiles or filters.
pub fn difference_on(
    family: Family,
    call: &Record,
    asked: [bool; 6],
    first: Word,
    second: Word,
) -> Difference
    ensures record_is { record_of result ≡ words call.now }
    ensures is_record { IsRecord (words call.now) }
    ensures pinned { result.arch ≡ machine_with family result.token result.nr }
    ensures machine { IfSome result.arch (λ arch. token_of arch ≡ result.token) }
    ensures token { result.token ≡ call.now.arch }
    ensures nr { result.nr ≡ call.now.nr }
    ensures pointer { result.ip ≡ call.now.ip }
    ensures first_is { result.first ≡ first }
    ensures second_is { result.second ≡ second }
{
    words_are_a_record(call);
    let Record { nr, arch, ip, args } = *call;
    Difference {
        arch: machine_with(family, arch, nr),
        token: arch,
        nr,
        ip,
        args,
        asked,
        first,
        second,
    }
}
