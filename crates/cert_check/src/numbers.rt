//! What is known of the call's number.
ghost use Rattle.std.specs.Prelude.{◌≡◌};
ghost use Rattle.cert_check.specs.inner.Judged.{AreKnownNumbers, IsKnownNumber, IsOnlyNumber, NumberLies};

use crate::judged::Number;
use cert_state::{Facts, Knowledge, Lit, State};

// The word of a record that holds the call's number.
pub(crate) const NUMBER: u8 = 0;

/// What is known of a number.
pub(crate) fn ask_number<S: State>(facts: &Facts<'_, S>, nr: u32) -> Number
    ensures { IsKnownNumber (S.known facts.now.state.now) nr result }
{
    Number {
        own: facts.entails(&Lit::Bits(NUMBER, u32::MAX, nr)),
        other: facts.entails(&Lit::NotBits(NUMBER, u32::MAX, nr)),
    }
}

// What is known of a number that is not possible.
const OTHER: Number = Number {
    own: false,
    other: true,
};

/// Two numbers between which the call's lies: it is known to be none of those below the first, and of those above the second.
pub(crate) fn number_range<S: State>(facts: &Facts<'_, S>) -> (u32, u32)
    ensures range { NumberLies (S.known facts.now.state.now) result.0 result.1 }
    ensures only { result.0 ≡ result.1 → IsOnlyNumber (S.known facts.now.state.now) result.0 }
{
    let Some((least, greatest)) = facts.range(NUMBER) else {
        return (0, u32::MAX);
    };
    if facts.entails(&Lit::NotBits(NUMBER, u32::MAX, least)) {
        return (0, u32::MAX);
    }
    (least, greatest)
}

/// What is known of a number, asked once for each of the least ones: the numbers of all calls are among them. One outside of
/// the range is not asked for.
pub(crate) fn number_of<S: State>(
    facts: &Facts<'_, S>,
    range: (u32, u32),
    numbers: &mut [Option<Number>; 512],
    nr: u32,
) -> Number
    requires range { NumberLies (S.known facts.now.state.now) range.0 range.1 }
    requires asked { AreKnownNumbers (S.known facts.now.state.now) numbers.old }
    ensures number { IsKnownNumber (S.known facts.now.state.now) nr result }
    ensures kept { AreKnownNumbers (S.known facts.now.state.now) numbers.new }
{
    let (least, greatest) = range;
    if nr < least {
        return OTHER;
    }
    if nr > greatest {
        return OTHER;
    }
    if nr >= 512 {
        return ask_number(facts, nr);
    }
    let i = nr as usize;
    if let Some(number) = numbers[i] {
        return number;
    }
    let number = ask_number(facts, nr);
    numbers[i] = Some(number);
    number
}
