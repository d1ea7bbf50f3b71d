//! The names of constants behind what is told of a bundle.
ghost use Rattle.std.specs.Prelude.{IfOk};
ghost use Rattle.cli.specs.Read.{HasNames};

use call_words::names_of;
use profile_json::Document;
use std::alloc::{AllocError, Global};
use wording::Told;

/// What was told of a bundle, and behind it the names of the constants in its conditions.
pub(crate) fn with_names(alloc: Global, document: &Document, told: Told) -> Result<Told, AllocError>
    ensures { IfOk result (HasNames document.now.native document.now.bytes told) }
{
    let lines = names_of(alloc, document)?;
    let Told { mut bytes, end } = told;
    bytes.extend_from_slice(&lines)?;
    Ok(Told { bytes, end })
}
