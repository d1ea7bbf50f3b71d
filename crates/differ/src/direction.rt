//! In which direction two verdicts are unlike.
ghost use Rattle.std.specs.Prelude.{◌≡◌};
ghost use Rattle.differ.specs.declared.direction.Direction.TheVariants.{Any, More};
ghost use Rattle.differ.specs.Direction.{tells};

use call_record::Word;

/// Which unlike verdicts of two profiles are looked for.
#[derive(Clone, Copy, Debug, PartialEq, Eq)]
pub enum Direction {
    /// Any.
    Any,
    /// By the second one the call goes further: it is let through and not by the first, or left to a tracer or a listener
    /// where the first refuses it.
    More,
    /// By the first one it goes further.
    Less,
}

fn are_unlike(first: Word, second: Word) -> bool
    ensures { result ≡ tells Any first second }
{
    first != second
}

// Whether a call goes further by the second verdict.
fn is_gained(first: Word, second: Word) -> bool
    ensures { result ≡ tells More first second }
{
    second.goes_further(first)
}

/// Whether two verdicts are unlike in a direction.
pub(crate) fn tells(direction: Direction, first: Word, second: Word) -> bool
    ensures { result ≡ tells direction first second }
{
    match direction {
        Direction::Any => are_unlike(first, second),
        Direction::More => is_gained(first, second),
        Direction::Less => is_gained(second, first),
    }
}
