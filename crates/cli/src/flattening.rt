//! What `ccell flatten` does.
ghost use Rattle.std.specs.Prelude.{◌≡◌, IfOk, false, map};
ghost use Rattle.byte_order.specs.Turned.{written_as};
ghost use Rattle.cli.specs.Flat.{TellsFlat};
ghost use Rattle.wording.specs.Told.{was_done};
ghost use Rattle.wording.specs.declared.told.End.TheVariants.{Done};
ghost use Rattle.cli.specs.inner.Telling.{IsToldOf};

use crate::files::{Files, read_each};
use crate::stops::Stop;
use byte_order::{each_read_as, written_as};
use flatten::{Unflat, flatten, line_of};
use machines::Arch;
use std::alloc::{AllocError, Global};
use wording::{End, Told};

// How it ends where there is none: a file that is no filter is refused.
fn end_of(why: &Unflat) -> End
    ensures { was_done result ≡ false }
{
    match why {
        Unflat::Bytes(_, _) => End::Refused,
        Unflat::Refused(_, _) => End::Refused,
        _ => End::No,
    }
}

// Why there is none.
fn untold(alloc: Global, why: &Unflat) -> Result<Told, AllocError>
    ensures { IfOk result (λ told. was_done told.end ≡ false) }
{
    let line = line_of(alloc, why)?;
    Ok(Told {
        bytes: line.into_bytes(),
        end: end_of(why),
    })
}

// The file of a filter.
fn told_filter(alloc: Global, native: Arch, filter: &[u8]) -> Result<Told, AllocError>
    ensures file { IfOk result (λ told. told.bytes.items ≡ written_as native filter.now) }
    ensures end { IfOk result (λ told. told.end ≡ Done) }
{
    let bytes = written_as(alloc, native, filter)?;
    Ok(Told {
        bytes,
        end: End::Done,
    })
}

// The filter that answers as those of files do, or why there is none.
fn flat_of(alloc: Global, native: Arch, files: &[Vec<u8>]) -> Result<Told, AllocError>
    ensures { IfOk result (TellsFlat native (map (λ f. f.items) files.now)) }
{
    let filters = each_read_as(alloc, native, files)?;
    match flatten(alloc, &filters) {
        Ok(made) => told_filter(alloc, native, &made),
        Err(why) => untold(alloc, &why),
    }
}

/// Makes one filter of a stack.
pub(crate) fn flattened<'a, F: Files>(
    alloc: Global,
    native: Arch,
    filters: &'a [&'a str],
    files: &mut F,
) -> Result<Told, Stop<'a>>
    ensures { IsToldOf (F.folder files.old) (map (λ f. f.now) filters.entry.now) (TellsFlat native) result }
{
    match read_each(alloc, files, filters) {
        Ok(texts) => match flat_of(alloc, native, &texts) {
            Ok(told) => Ok(told),
            Err(_no_memory) => Err(Stop::OutOfMemory),
        },
        Err(stop) => Err(stop),
    }
}
