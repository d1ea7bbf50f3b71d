//! Which machines a filter answers, and what it answers to numbers without a name.
use crate::calls::{leaves_of, plain_record, show};
use crate::cells::Cell;
use crate::leaves::Called;
use crate::numbers::{cells_or_all, named_of, number_cells, unnamed_of, unnamed_within};
use crate::passed::Passed;
use crate::said::only_word;
use crate::survey::{Known, survey_of};
use crate::unsaid::{Shown, Unsaid};
use crate::work::Work;
use call_record::Word;
use call_tables::call_name;
use kernel_check::Accepted;
use machines::{Arch, Family, LEAST_X32_NUMBER, Numbers};
use std::alloc::Global;

/// A machine that is listed: its numbers with a name, and numbers that stand for those without.
#[derive(Drop)]
pub(crate) struct Listed {
    pub(crate) arch: Arch,
    pub(crate) named: Vec<u32>,
    pub(crate) unnamed: Vec<u32>,
}

// Whether each call of which this is known is killed, as far as it can be seen.
fn are_killed(
    alloc: Global,
    work: &mut Work,
    program: &Accepted<'_>,
    known: Known,
) -> Result<bool, Unsaid> {
    let found = survey_of(alloc, work, program, known)?;
    match found.only() {
        Some(word) => Ok(word == Word::KILL_THREAD.0),
        None => Ok(false),
    }
}

// Whether each call with one of these numbers is killed.
fn are_all_killed(
    alloc: Global,
    work: &mut Work,
    program: &Accepted<'_>,
    token: u32,
    numbers: &[u32],
) -> Result<bool, Unsaid> {
    match numbers {
        [number, more @ ..] => {
            let known = Known {
                token: Some(token),
                number: Some(*number),
            };
            match are_killed(alloc, work, program, known) {
                Ok(true) => are_all_killed(alloc, work, program, token, more),
                found => found,
            }
        }
        [] => Ok(true),
    }
}

// A machine with its numbers, unless it is another than the native one and all its calls are killed.
fn listed_if(
    alloc: Global,
    work: &mut Work,
    program: &Accepted<'_>,
    native: Arch,
    arch: Arch,
) -> Result<Option<Listed>, Unsaid> {
    let token = arch.token();
    let known = Known {
        token: Some(token),
        number: None,
    };
    if arch != native && are_killed(alloc, work, program, known)? {
        return Ok(None);
    }
    let cells = number_cells(alloc, work, program, token)?;
    let named = named_of(alloc, arch)?;
    let unnamed = unnamed_of(alloc, work, arch, &cells)?;
    if arch != native
        && are_all_killed(alloc, work, program, token, &named)?
        && are_all_killed(alloc, work, program, token, &unnamed)?
    {
        return Ok(None);
    }
    Ok(Some(Listed {
        arch,
        named,
        unnamed,
    }))
}

// The numbers behind all calls of x32 that are x32's own where it is listed.
const BEHIND_X32: Numbers = Numbers {
    first: 0x8000_0000,
    last: u32::MAX - 1,
};

// x32 without its calls, unless all numbers behind these are killed.
fn x32_if(
    alloc: Global,
    work: &mut Work,
    program: &Accepted<'_>,
) -> Result<Option<Listed>, Unsaid> {
    let arch = Arch::LinuxX32;
    let cells = number_cells(alloc, work, program, arch.token())?;
    let mut unnamed = Vec::new(alloc);
    unnamed_within(work, arch, &cells, BEHIND_X32, &mut unnamed)?;
    if are_all_killed(alloc, work, program, arch.token(), &unnamed)? {
        return Ok(None);
    }
    Ok(Some(Listed {
        arch,
        named: Vec::new(alloc),
        unnamed,
    }))
}

/// The machines of which the filter does not kill all calls, and the native one.
pub(crate) fn machines_of(
    alloc: Global,
    work: &mut Work,
    program: &Accepted<'_>,
    native: Arch,
    passed: Passed,
) -> Result<Vec<Listed>, Unsaid> {
    let mut found = Vec::new(alloc);
    for arch in native.family().machines() {
        let machine = if passed.x32 && *arch == Arch::LinuxX32 {
            x32_if(alloc, work, program)?
        } else {
            listed_if(alloc, work, program, native, *arch)?
        };
        if let Some(machine) = machine {
            found.push(machine)?;
        }
    }
    Ok(found)
}

// How many tokens are tried until there is one that no machine has.
const MOST_TRIED: usize = 16;

// Whether a machine of the family has the token.
fn is_known(family: Family, token: u32) -> bool {
    family.machines().iter().any(|arch| arch.token() == token)
}

// The first token in a cell that no machine of the family has.
fn unknown_in(family: Family, cell: Cell) -> Option<u32> {
    let mut from = 0u32;
    for _ in 0..MOST_TRIED {
        let token = cell.least_from(from)?;
        if !is_known(family, token) {
            return Some(token);
        }
        from = token.checked_add(1)?;
    }
    None
}

// A call with a token that is not killed, if one is found.
fn not_killed(
    alloc: Global,
    work: &mut Work,
    program: &Accepted<'_>,
    token: u32,
) -> Result<Option<Shown>, Unsaid> {
    let steps = program.program().len();
    for cell in &number_cells(alloc, work, program, token)? {
        work.spend(steps)?;
        let call = Called {
            token,
            number: cell.least().unwrap_or(0),
        };
        let shown = show(program, plain_record(call));
        if shown.given != Word::KILL_THREAD {
            return Ok(Some(shown));
        }
    }
    Ok(None)
}

/// Refuses a filter that does not kill the calls of machines that no section of the family lists.
pub(crate) fn refuse_others(
    alloc: Global,
    work: &mut Work,
    program: &Accepted<'_>,
    family: Family,
) -> Result<(), Unsaid> {
    let known = Known {
        token: None,
        number: None,
    };
    let found = survey_of(alloc, work, program, known)?;
    for cell in &cells_or_all(alloc, work, &found.word_tests, 1)? {
        if let Some(token) = unknown_in(family, *cell)
            && let Some(shown) = not_killed(alloc, work, program, token)?
        {
            return Err(Unsaid::OtherMachine(shown));
        }
    }
    Ok(())
}

// The verdict of a number without a name, as it is shown, if the call gets only one.
fn word_of(
    alloc: Global,
    work: &mut Work,
    program: &Accepted<'_>,
    arch: Arch,
    number: u32,
) -> Result<Shown, Unsaid> {
    let call = Called {
        token: arch.token(),
        number,
    };
    let shown = show(program, plain_record(call));
    let leaves = leaves_of(alloc, work, program, call)?;
    match only_word(&leaves) {
        Some(_) => Ok(shown),
        None => Err(Unsaid::Conditions(shown)),
    }
}

// Whether a number of a machine has no name, and its plain call another verdict than the default.
fn is_unlike(program: &Accepted<'_>, arch: Arch, number: u32, default: Word) -> bool {
    let call = Called {
        token: arch.token(),
        number,
    };
    let is_own = arch
        .own_numbers()
        .iter()
        .any(|own| own.first <= number && number <= own.last);
    is_own
        && call_name(arch, number).is_none()
        && show(program, plain_record(call)).given != default
}

// More numbers than are left aside one by one.
const TOO_MANY: u32 = 66;

// Whether so many numbers from one on have no name and another verdict than the default.
fn are_too_many(program: &Accepted<'_>, arch: Arch, from: u32, default: Word) -> bool {
    for step in 0..TOO_MANY {
        let Some(number) = from.checked_add(step) else {
            return false;
        };
        if !is_unlike(program, arch, number, default) {
            return false;
        }
    }
    true
}

// Refuses a filter that gives too many numbers without a name another verdict than the default, unless a stub may answer these.
fn refuse_unlike(
    work: &mut Work,
    program: &Accepted<'_>,
    machines: &[Listed],
    passed: Passed,
    default: &Shown,
) -> Result<(), Unsaid> {
    if passed.has_stub {
        return Ok(());
    }
    let steps = program.program().len();
    for machine in machines {
        for number in &machine.unnamed {
            work.spend(steps)?;
            if are_too_many(program, machine.arch, *number, default.given) {
                let call = Called {
                    token: machine.arch.token(),
                    number: *number,
                };
                let shown = show(program, plain_record(call));
                return Err(Unsaid::Unnamed(*default, shown));
            }
        }
    }
    Ok(())
}

// A number behind all that have a name, on each machine but x32.
const BEHIND_NAMES: u32 = LEAST_X32_NUMBER - 1;

/// The verdict of all calls without a name, shown by one of them. Where they are passed over, it is one of those behind all names that
/// shows it: they are too many to be left aside. So are others of one verdict in a row, unless a stub may answer them.
pub(crate) fn default_of(
    alloc: Global,
    work: &mut Work,
    program: &Accepted<'_>,
    native: Arch,
    machines: &[Listed],
    passed: Passed,
) -> Result<Option<Shown>, Unsaid> {
    if passed.unnamed {
        let shown = word_of(alloc, work, program, native, BEHIND_NAMES)?;
        refuse_unlike(work, program, machines, passed, &shown)?;
        return Ok(Some(shown));
    }
    let mut found: Option<Shown> = None;
    for machine in machines {
        for number in &machine.unnamed {
            let shown = word_of(alloc, work, program, machine.arch, *number)?;
            match found {
                Some(first) if first.given != shown.given => {
                    return Err(Unsaid::Unnamed(first, shown));
                }
                Some(_) => {}
                None => found = Some(shown),
            }
        }
    }
    Ok(found)
}
