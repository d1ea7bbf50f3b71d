//! What is told of calls for which a section is not.
ghost use Rattle.std.specs.Prelude.{◌≡◌, ◌-◌, [], IfOk, false, if◌then◌else◌, length, string_bytes};
ghost use Rattle.machines.specs.Arch.{family_of};
ghost use Rattle.compare.specs.Behind.{IsBehind};
ghost use Rattle.compare.specs.StubTold as stub;
ghost use Rattle.aside.specs.RecoveredBut as spec;

use crate::leave::Leave;
use crate::recovered::recovering::{RecoveredBundle, recover_but};
use compare::{Behind, Calls, behind_stub, calls_text, stub_text};
use machines::{Arch, Family};
use recover::Unsaid;
use std::alloc::{AllocError, Global};

/// A bundle that was made of a filter, and the lines on the calls of which the filter need not be right.
#[derive(Drop)]
pub struct RecoveredBut {
    pub bundle: String,
    pub lines: String,
}

// The filter behind a stub, if this is asked for, and else the whole filter.
fn behind_of<'a>(alloc: Global, filter: &'a [u8], runc: bool) -> Result<Behind<'a>, AllocError>
    ensures is { IfOk result (λ behind. IsBehind filter.entry.now behind.rest.now behind.answered.items) }
    ensures asked { runc ≡ false → IfOk result (λ behind. behind.answered.items ≡ []) }
{
    if runc {
        return behind_stub(alloc, filter);
    }
    Ok(Behind {
        answered: Vec::new(alloc),
        rest: filter,
    })
}

// The lines on the stub of so many bytes, if it was asked for.
fn stub_lines(
    alloc: Global,
    family: Family,
    size: usize,
    answered: &[Calls],
    whole: bool,
    runc: bool,
) -> Result<String, AllocError>
    ensures { IfOk result (λ text. string_bytes text ≡ (if runc then stub.stub_text family size answered.now whole else [])) }
{
    if runc {
        return stub_text(alloc, family, size, answered, whole);
    }
    Ok(String::new(alloc))
}

// A line, and the lines of the calls that are left aside.
fn but_text(alloc: Global, family: Family, aside: &[Calls]) -> Result<String, AllocError>
    ensures { IfOk result (λ text. string_bytes text ≡ spec.but_text family aside.now) }
{
    let lines = calls_text(alloc, family, aside)?;
    let mut text = String::from_str(alloc, "this section is the filter's but for these calls:\n")?;
    text.push_str(&lines)?;
    Ok(text)
}

// A line and the lines of the calls that are left aside; nothing if there are none.
fn aside_text(alloc: Global, family: Family, aside: &[Calls]) -> Result<String, AllocError>
    ensures { IfOk result (λ text. string_bytes text ≡ spec.aside_text family aside.now) }
{
    if aside.is_empty() {
        return Ok(String::new(alloc));
    }
    but_text(alloc, family, aside)
}

// The lines on the stub, if it was asked for, and on the calls that are left aside.
fn lines_of(
    alloc: Global,
    family: Family,
    filter: &[u8],
    behind: &Behind<'_>,
    whole: bool,
    runc: bool,
    aside: &[Calls],
) -> Result<String, AllocError>
    ensures { IfOk result (λ text. string_bytes text ≡ spec.lines_of family runc (length filter.now - length behind.now.rest.now)
        behind.now.answered.items whole aside.now) }
{
    let size = filter.len().saturating_sub(behind.rest.len());
    let left = aside_text(alloc, family, aside)?;
    let mut text = stub_lines(alloc, family, size, &behind.answered, whole, runc)?;
    text.push_str(&left)?;
    Ok(text)
}

/// The bundle of which a filter is right but for calls that may be left aside. If it is asked for, also but for those that runc's stub
/// answers. With it come the lines that report these calls. Else what no section says of it.
pub fn recover_told(
    alloc: Global,
    native: Arch,
    filter: &[u8],
    runc: bool,
    leave: Leave,
) -> Result<RecoveredBut, Unsaid>
    ensures { IfOk result (λ made. spec.IsToldBut native filter.now runc leave (string_bytes made.bundle) (string_bytes made.lines)) }
{
    let behind = behind_of(alloc, filter, runc)?;
    let RecoveredBundle { bundle, but } = recover_but(alloc, native, filter, &behind, leave)?;
    let lines = lines_of(
        alloc,
        native.family(),
        filter,
        &behind,
        but.judged.whole,
        runc,
        &but.aside,
    )?;
    Ok(RecoveredBut { bundle, lines })
}
