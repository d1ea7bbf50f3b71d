//! What stands after the mnemonic of a line.
ghost use Rattle.std.specs.Prelude.{◌≡◌};
ghost use Rattle.texts.specs.Splits.{split_at};
ghost use Rattle.bpf_asm.specs.inner.Reading.{arguments_at, bracketed_at, decimal_at, hexadecimal_at, last_parts, part_at};

use texts::{is_decimal, is_hexadecimal, split};

/// What stands after the mnemonic of a line, between two commas.
///
/// Of a number there is the value, where it has no leading zero and 64 bits hold it.
#[derive(Clone, Copy)]
pub(crate) enum Part {
    /// `a`
    RegisterA,
    /// `x`
    RegisterX,
    /// `[4]`
    Address(Option<u64>),
    /// `M[4]`
    Scratch(Option<u64>),
    /// `#0x4`
    Constant(Option<u64>),
    /// `4`
    Decimal(Option<u64>),
    /// `0x4`
    Hexadecimal(Option<u64>),
}

/// All that stands after the mnemonic of a line.
#[derive(Clone, Copy)]
pub(crate) enum Arguments {
    Nothing,
    One(Part),
    Three(Part, Part, Part),
    Four(Part, Part, Part, Part),
}

// The number that a text is in decimal, if it is digits alone.
#[tactic(auto, unfolding(crate::specs::inner::Reading::decimal_at, texts::specs::Numbers::decimal_at))]
fn decimal(text: &str) -> Option<Option<u64>>
    ensures { result ≡ decimal_at text.now }
{
    if is_decimal(text) {
        Some(texts::decimal(text))
    } else {
        None
    }
}

// The number that a text is in hexadecimal, if it is `0x` and digits alone.
#[tactic(auto, unfolding(crate::specs::inner::Reading::hexadecimal_at, texts::specs::Numbers::hexadecimal_at))]
fn hexadecimal(text: &str) -> Option<Option<u64>>
    ensures { result ≡ hexadecimal_at text.now }
{
    let digits = text.strip_prefix("0x")?;
    if is_hexadecimal(digits) {
        Some(texts::hexadecimal(digits))
    } else {
        None
    }
}

// The number that a text is in decimal, up to a bracket at its end.
#[tactic(auto, unfolding(crate::specs::inner::Reading::bracketed_at))]
fn bracketed(rest: &str) -> Option<Option<u64>>
    ensures { result ≡ bracketed_at rest.now }
{
    decimal(rest.strip_suffix(']')?)
}

// The part that a text is, if it is one.
#[tactic(auto, unfolding(crate::specs::inner::Reading::part_at))]
fn read_part(text: &str) -> Option<Part>
    ensures { result ≡ part_at text.now }
{
    if text == "a" {
        return Some(Part::RegisterA);
    }
    if text == "x" {
        return Some(Part::RegisterX);
    }
    if let Some(constant) = text.strip_prefix('#') {
        return hexadecimal(constant).map(Part::Constant);
    }
    if let Some(rest) = text.strip_prefix('[') {
        return bracketed(rest).map(Part::Address);
    }
    if let Some(rest) = text.strip_prefix("M[") {
        return bracketed(rest).map(Part::Scratch);
    }
    match hexadecimal(text) {
        Some(number) => Some(Part::Hexadecimal(number)),
        None => decimal(text).map(Part::Decimal),
    }
}

// The arguments behind the first two, if the rest is one part or two, with a comma between them.
fn read_last(first: Part, second: Part, rest: &str) -> Option<Arguments>
    ensures { result ≡ last_parts first second rest.now (split_at 44 rest.now) }
{
    match split(rest, ',') {
        None => Some(Arguments::Three(first, second, read_part(rest)?)),
        Some((third, fourth)) => {
            let third = read_part(third)?;
            Some(Arguments::Four(first, second, third, read_part(fourth)?))
        }
    }
}

/// The arguments that a text is, if it is such: one part, three or four, with commas between them.
#[tactic(auto, unfolding(crate::specs::inner::Reading::arguments_at))]
pub(crate) fn read_arguments(text: &str) -> Option<Arguments>
    ensures { result ≡ arguments_at text.now }
{
    let Some((first, rest)) = split(text, ',') else {
        return Some(Arguments::One(read_part(text)?));
    };
    let first = read_part(first)?;
    let (second, rest) = split(rest, ',')?;
    let second = read_part(second)?;
    read_last(first, second, rest)
}
