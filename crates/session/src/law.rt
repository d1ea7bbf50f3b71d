//! Laws of scripts.
ghost use Rattle.session.specs.Laws.{OneScript};

use script::one_command;

/// A text is one list of commands, a line each, and so has one answer.
pub fn one_script()
    ensures { OneScript }
{
    one_command();
}
