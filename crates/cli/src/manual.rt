//! What `ccell manual` and `ccell version` tell.
ghost use Rattle.std.specs.Prelude.{[], Option, option_map};
ghost use Rattle.explain.specs.Told.{IsVersion};
ghost use Rattle.cli.specs.Files.{Folder};
ghost use Rattle.cli.specs.Told.{of_none};
ghost use Rattle.cli.specs.inner.Telling.{IsManualOf, IsToldOf};

use crate::stops::Stop;
use std::alloc::Global;
use wording::{End, Told};

/// The commands, or the page of one.
pub(crate) fn manual<'a>(alloc: Global, command: Option<&str>) -> Result<Told, Stop<'a>>
    ensures { (folder : Option Folder) → IsManualOf folder (option_map (λ n. n.now) command.entry) result }
{
    match command_line::manual(alloc, command) {
        Ok(Some(text)) => Ok(Told {
            bytes: text.into_bytes(),
            end: End::Done,
        }),
        Ok(None) => Err(Stop::Usage),
        Err(_no_memory) => Err(Stop::OutOfMemory),
    }
}

/// The edition of the program.
pub(crate) fn version<'a>(alloc: Global) -> Result<Told, Stop<'a>>
    ensures { (folder : Option Folder) → IsToldOf folder [] (of_none IsVersion) result }
{
    match explain::version(alloc) {
        Ok(told) => Ok(told),
        Err(_no_memory) => Err(Stop::OutOfMemory),
    }
}
