//! The arguments that stand for the parts of a command, by their places in its row.
ghost use Rattle.std.specs.Prelude.{◌≡◌, drop, option_map};
ghost use Rattle.cli.specs.Dispatch as dispatch;
ghost use Rattle.cli.specs.Parts as spec;
ghost use Rattle.command_line.specs.Lines.{texts};
ghost use Rattle.command_line.specs.Table.{words_of};
ghost use Rattle.command_line.specs.declared.meanings.Meaning.TheVariants.{Machine};

use aside::Leave;
use machines::Arch;
pub use maker::Form;

/// The arguments behind the name of a command, in the order of its row. One that is not there is empty.
#[derive(Clone, Copy)]
pub(crate) struct Parts<'a> {
    /// The machine that the first one calls.
    pub native: Arch,
    /// The first, if there is one.
    pub first: Option<&'a str>,
    pub one: &'a str,
    pub two: &'a str,
    pub three: &'a str,
    pub four: &'a str,
    pub five: &'a str,
    pub six: &'a str,
    pub seven: &'a str,
    /// All but the first.
    pub from_two: &'a [&'a str],
    /// All but the first two.
    pub from_three: &'a [&'a str],
}

// The machine of that name.
fn native_of(name: &str) -> Arch
    ensures { result ≡ spec.native_of name.now }
{
    match Arch::native_called(name) {
        Some(native) => native,
        None => Arch::LinuxX86_64,
    }
}

/// Each word that the table takes for a machine calls one.
pub fn machines_are_called()
    ensures { spec.AreCalled (words_of Machine) }
{}

/// The form of an export by its name, `raw`, `listing` or `cert`.
pub(crate) fn form_of(name: &str) -> Form
    ensures { result ≡ spec.form_of name.now }
{
    if name == "listing" {
        return Form::Listing;
    }
    if name == "cert" {
        return Form::Certificate;
    }
    Form::Raw
}

// The first argument.
fn first<'a>(arguments: &'a [&'a str]) -> Option<&'a str>
    ensures { option_map (λ argument. argument.now) result ≡ spec.first (texts arguments.entry.now) }
{
    match arguments {
        [argument, ..] => Some(*argument),
        _ => None,
    }
}

// The argument at a place.
fn part<'a>(arguments: &'a [&'a str], place: usize) -> &'a str
    ensures { result.now ≡ spec.part place (texts arguments.entry.now) }
{
    match arguments.get(place) {
        Some(argument) => *argument,
        None => "",
    }
}

// The arguments from a place on.
fn from<'a>(arguments: &'a [&'a str], place: usize) -> &'a [&'a str]
    ensures { texts result.now ≡ drop place (texts arguments.entry.now) }
{
    &arguments[place.min(arguments.len())..]
}

/// The parts of a command that these arguments are.
pub(crate) fn parts_of<'a>(arguments: &'a [&'a str]) -> Parts<'a>
    ensures { spec.read result ≡ spec.parts_of (texts arguments.entry.now) }
{
    let one = part(arguments, 0);
    Parts {
        native: native_of(one),
        first: first(arguments),
        one,
        two: part(arguments, 1),
        three: part(arguments, 2),
        four: part(arguments, 3),
        five: part(arguments, 4),
        six: part(arguments, 5),
        seven: part(arguments, 6),
        from_two: from(arguments, 1),
        from_three: from(arguments, 2),
    }
}

/// Whether one of the words behind the files is this.
pub(crate) fn asks(parts: &Parts<'_>, word: &str) -> bool
    ensures { result ≡ dispatch.asks word.now (spec.read parts.now) }
{
    parts.four == word || parts.five == word || parts.six == word || parts.seven == word
}

/// Which calls may be left aside.
pub(crate) fn leave_of(parts: &Parts<'_>) -> Leave
    ensures { result ≡ dispatch.leave_of (spec.read parts.now) }
{
    Leave {
        unnamed: asks(parts, "calls"),
        x32: asks(parts, "without-x32"),
    }
}

/// Whether calls may be left aside.
pub(crate) fn asks_but(parts: &Parts<'_>) -> bool
    ensures { result ≡ dispatch.asks_but (spec.read parts.now) }
{
    let leave = leave_of(parts);
    leave.unnamed || leave.x32
}
