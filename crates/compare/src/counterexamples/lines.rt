//! The lines of records that refute a filter.
ghost use Rattle.std.specs.Prelude.{◌⊎◌, IfOk, string_bytes};
ghost use Rattle.compare.specs.Counterexamples.{AreLines, WritesLines};
ghost use Rattle.maker.specs.Exported.{LacksMemory};

use maker::{Counterexample, line_of};
use std::alloc::{AllocError, Global};
use texts::{Sink, WriteFault, write_all};

// The lines of all.
fn lines_of(alloc: Global, all: &[Counterexample]) -> Result<String, AllocError>
    ensures { IfOk result (λ text. AreLines all.now (string_bytes text)) }
{
    let mut text = String::new(alloc);
    for found in all {
        let line = line_of(alloc, found)?;
        text.push_str(&line)?;
    }
    Ok(text)
}

/// Writes the lines of records that refute a filter, each in order. The answer is false.
pub fn write_counterexamples<S: Sink>(
    alloc: Global,
    all: &[Counterexample],
    sink: &mut S,
) -> Result<bool, WriteFault>
    ensures { WritesLines S.held S.failures sink.old sink.new all.now result ⊎ LacksMemory sink.old sink.new result }
{
    let Ok(text) = lines_of(alloc, all) else {
        return Err(WriteFault::OutOfMemory);
    };
    write_all(text.as_bytes(), sink)?;
    Ok(false)
}
