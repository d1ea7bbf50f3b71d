//! Laws of scripts: a text is read in one way at most.
ghost use Rattle.script.specs.Laws.{OneCommand, OneReading};

/// A line is one command at most.
pub fn one_command()
    ensures { OneCommand }
{}

/// A text is one list of commands.
pub fn one_reading()
    ensures { OneReading }
{}
