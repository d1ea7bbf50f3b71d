//! What is told of a bundle, with what stands in it beside its profile, or is not read.
ghost use Rattle.std.specs.Prelude.{◌≡◌, ◌++◌, ◌==◌, IfOk, length};
ghost use Rattle.wording.specs.Told.{end_if};
ghost use Rattle.show.specs.Unread.{RefusesUnread, TellsBeside, TellsUnread};

use machines::Arch;
use section::{beside_of, unread_of};
use std::alloc::{AllocError, Global};
use wording::Told;

// What was told, with lines behind it.
fn with_lines(told: Told, lines: &[u8]) -> Result<Told, AllocError>
    ensures bytes { IfOk result (λ new. new.bytes.items ≡ told.bytes.items ++ lines.now) }
    ensures end { IfOk result (λ new. new.end ≡ told.end) }
{
    let Told { mut bytes, end } = told;
    bytes.extend_from_slice(lines)?;
    Ok(Told { bytes, end })
}

// What was told, with lines behind it. It is done only if there are no lines.
fn done_without_lines(told: Told, lines: &[u8]) -> Result<Told, AllocError>
    ensures bytes { IfOk result (λ new. new.bytes.items ≡ told.bytes.items ++ lines.now) }
    ensures end { IfOk result (λ new. new.end ≡ end_if (length lines.now == 0) told.end) }
{
    let Told { mut bytes, end } = told;
    bytes.extend_from_slice(lines)?;
    Ok(Told {
        bytes,
        end: end.only_if(lines.is_empty()),
    })
}

/// What was told of a bundle, and behind it, if it was done, the lines of its flags and its listener.
pub(crate) fn with_beside(
    alloc: Global,
    native: Arch,
    bundle: &[u8],
    told: Told,
) -> Result<Told, AllocError>
    ensures { IfOk result (TellsBeside native bundle.now told) }
{
    if !told.end.is_done() {
        return Ok(told);
    }
    let lines = beside_of(alloc, native, bundle)?;
    with_lines(told, &lines)
}

/// What was told of a bundle, and lines behind it. There is one for each member of its section that is not read, and for each key that
/// stands twice.
pub fn with_unread(
    alloc: Global,
    native: Arch,
    bundle: &[u8],
    told: Told,
) -> Result<Told, AllocError>
    ensures { IfOk result (TellsUnread native bundle.now told) }
{
    let lines = unread_of(alloc, native, bundle)?;
    with_lines(told, &lines)
}

/// What was told of a bundle, with a line for each part of its section that is not read. It is done only if there are
/// no lines.
pub fn refusing_unread(
    alloc: Global,
    native: Arch,
    bundle: &[u8],
    told: Told,
) -> Result<Told, AllocError>
    ensures { IfOk result (RefusesUnread native bundle.now told) }
{
    let lines = unread_of(alloc, native, bundle)?;
    done_without_lines(told, &lines)
}
