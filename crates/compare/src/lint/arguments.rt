//! The arguments of which two calls of a pair have unlike values, and what becomes of both.
ghost use Rattle.std.specs.Prelude.{◌≡◌, ◌++◌, false, length, IfOk, string_bytes};
ghost use Rattle.compare.specs.LintTold as spec;
ghost use Rattle.compare.specs.declared.lint.past.Way.TheVariants.{GetsPast, IsStopped};

use crate::lint::past::{Past, Way};
use call_record::Fate;
use std::alloc::AllocError;
use std::fmt::Write;

// What stands in front of an argument.
fn joint_of(begun: bool) -> &'static str
    ensures { result.now ≡ spec.joint_of begun }
{
    if begun { ";" } else { ":" }
}

// What becomes of a call.
fn fate_text(fate: Fate) -> &'static str
    ensures { result.now ≡ spec.fate_text fate }
{
    match fate {
        Fate::Refused => " is refused",
        Fate::Left => " is left to a tracer or a listener",
        Fate::LetThrough => " is let through",
    }
}

// Adds an argument with a value, and what becomes of the call.
fn put_value(text: &mut String, index: u32, value: u64, fate: Fate) -> Result<(), AllocError>
    ensures { IfOk result (λ _. string_bytes text.new ≡ string_bytes text.old ++ spec.value_text index value fate) }
{
    let said = fate_text(fate);
    write!(text, " arg{index} = 0x{value:x}{said},")
}

// Adds what the kernel reads of both values.
fn put_read(text: &mut String, read: u64) -> Result<(), AllocError>
    ensures { IfOk result (λ _. string_bytes text.new ≡ string_bytes text.old ++ spec.read_text read) }
{
    write!(text, " and Linux reads 0x{read:x} of both")
}

// Adds what it reads of one, and what becomes of the call with that.
fn put_only(text: &mut String, read: u64, said: &str) -> Result<(), AllocError>
    ensures { IfOk result (λ _. string_bytes text.new ≡ string_bytes text.old ++ spec.only_text read said.now) }
{
    write!(text, " but Linux reads 0x{read:x}, which{said}")
}

// Adds an argument as it is read and as it goes further.
fn put_passing(
    text: &mut String,
    past: &Past,
    begun: bool,
    index: u32,
    whole: u64,
    read: u64,
) -> Result<(), AllocError>
    ensures { IfOk result (λ _. string_bytes text.new ≡ string_bytes text.old
        ++ spec.argument_text GetsPast past.now.word past.now.cleared_word begun index whole read) }
{
    text.push_str(joint_of(begun))?;
    put_value(text, index, read, past.cleared_word.fate())?;
    put_value(text, index, whole, past.word.fate())?;
    put_read(text, read)
}

// Adds an argument as it is stopped, and as it is read.
fn put_stopped(
    text: &mut String,
    past: &Past,
    begun: bool,
    index: u32,
    whole: u64,
    read: u64,
) -> Result<(), AllocError>
    ensures { IfOk result (λ _. string_bytes text.new ≡ string_bytes text.old
        ++ spec.argument_text IsStopped past.now.word past.now.cleared_word begun index whole read) }
{
    text.push_str(joint_of(begun))?;
    put_value(text, index, whole, past.word.fate())?;
    put_only(text, read, fate_text(past.cleared_word.fate()))
}

// Adds an argument of which the two calls of a pair have unlike values.
fn put_argument(
    text: &mut String,
    way: Way,
    past: &Past,
    begun: bool,
    index: u32,
    whole: u64,
    read: u64,
) -> Result<(), AllocError>
    ensures { IfOk result (λ _. string_bytes text.new ≡ string_bytes text.old
        ++ spec.argument_text way past.now.word past.now.cleared_word begun index whole read) }
{
    match way {
        Way::GetsPast => put_passing(text, past, begun, index, whole, read),
        Way::IsStopped => put_stopped(text, past, begun, index, whole, read),
    }
}

/// Adds the arguments of which the two calls of a pair have unlike values.
pub(crate) fn put_arguments(
    text: &mut String,
    way: Way,
    past: &Past,
    mut wholes: &[u64],
    mut reads: &[u64],
) -> Result<(), AllocError>
    requires { length wholes.now ≡ 6 }
    ensures { IfOk result (λ _. string_bytes text.new ≡ string_bytes text.old
        ++ spec.arguments_from (spec.argument_text way past.now.word past.now.cleared_word) false 0 wholes.entry.now reads.entry.now) }
{
    let mut begun = false;
    let mut index = 0;
    while let [whole, rest @ ..] = wholes {
        let [read, more @ ..] = reads else {
            return Ok(());
        };
        if *whole != *read {
            put_argument(text, way, past, begun, index, *whole, *read)?;
            begun = true;
        }
        index += 1;
        wholes = rest;
        reads = more;
    }
    Ok(())
}
