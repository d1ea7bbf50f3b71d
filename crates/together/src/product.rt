//! What two sides say together.
ghost use Rattle.std.specs.Prelude.{◌≡◌, ◌++◌, ◌∷◌, [], ℕ, IfOk, IfSome, if◌then◌else◌};
ghost use Rattle.differ.specs.Left.{are_met, side_says};
ghost use Rattle.together.specs.inner.Walked.{SaysAll};
ghost use Rattle.together.specs.Word.{word_of};

use crate::way::{Way, word_of};
use call_record::Word;
use differ::{Call, Part, Rest, Side, add_rest, side_of};
use profile::Profile;
use std::alloc::{AllocError, Global};

// The verdict that counts of one.
fn of_one(alloc: Global, way: Way, word: Word) -> Result<Word, AllocError>
    ensures { IfOk result (λ counts. counts ≡ word_of way (word ∷ [])) }
{
    let mut words = Vec::new(alloc);
    words.push(word)?;
    Ok(word_of(way, words))
}

// The verdict that counts of two.
fn of_two(alloc: Global, way: Way, older: Word, newer: Word) -> Result<Word, AllocError>
    ensures { IfOk result (λ word. word ≡ word_of way (older ∷ newer ∷ [])) }
{
    let mut words = Vec::new(alloc);
    words.push(older)?;
    words.push(newer)?;
    Ok(word_of(way, words))
}

// The parts of two rules.
fn both(alloc: Global, these: &[Part], those: &[Part]) -> Result<Vec<Part>, AllocError>
    ensures { IfOk result (λ parts. parts.items ≡ these.now ++ those.now) }
{
    let mut parts = Vec::from_slice(alloc, these)?;
    parts.extend_from_slice(those)?;
    Ok(parts)
}

// Adds what is said where these parts are met: what counts of what a side says and of a verdict.
fn add_under(
    alloc: Global,
    way: Way,
    made: &mut Side,
    one: &Side,
    parts: &[Part],
    word: Word,
) -> Result<(), AllocError>
    ensures { IfOk result (λ _. (a : ℕ → ℕ)
        → side_says made.new a ≡ (if are_met parts.now a then word_of way (side_says one.now a ∷ word ∷ []) else side_says made.old a)) }
{
    let last = of_two(alloc, way, one.last, word)?;
    let under = Vec::from_slice(alloc, parts)?;
    add_rest(
        made,
        Rest {
            parts: under,
            word: last,
        },
    )?;
    for rest in &one.rules {
        let parts = both(alloc, parts, &rest.parts)?;
        let word = of_two(alloc, way, rest.word, word)?;
        add_rest(made, Rest { parts, word })?;
    }
    Ok(())
}

// A side that says what counts of what one says.
fn alone(alloc: Global, way: Way, one: &Side) -> Result<Side, AllocError>
    ensures { IfOk result (λ made. (a : ℕ → ℕ) → side_says made a ≡ word_of way (side_says one.now a ∷ [])) }
{
    let mut made = Side {
        rules: Vec::new(alloc),
        last: of_one(alloc, way, one.last)?,
    };
    for rest in &one.rules {
        let parts = Vec::from_slice(alloc, &rest.parts)?;
        let word = of_one(alloc, way, rest.word)?;
        add_rest(&mut made, Rest { parts, word })?;
    }
    Ok(made)
}

// A side that says what counts of what two sides say.
fn times(alloc: Global, way: Way, one: &Side, other: &Side) -> Result<Side, AllocError>
    ensures { IfOk result (λ made. (a : ℕ → ℕ) → side_says made a ≡ word_of way (side_says one.now a ∷ side_says other.now a ∷ [])) }
{
    let mut made = Side {
        rules: Vec::new(alloc),
        last: other.last,
    };
    add_under(alloc, way, &mut made, one, &[], other.last)?;
    for rest in &other.rules {
        add_under(alloc, way, &mut made, one, &rest.parts, rest.word)?;
    }
    Ok(made)
}

// What a profile and others say together of the records of a call.
fn together_with(
    alloc: Global,
    way: Way,
    first: &Profile,
    others: &[Profile],
    call: &Call,
) -> Result<Side, AllocError>
    ensures { IfOk result (SaysAll way (first.now ∷ others.now) call.now) }
{
    let own = side_of(alloc, first, call.token, call.nr)?;
    let mut made = alone(alloc, way, &own)?;
    for profile in others {
        let own = side_of(alloc, profile, call.token, call.nr)?;
        made = times(alloc, way, &made, &own)?;
    }
    Ok(made)
}

/// What profiles say together of the records of a call; `None` if there are no profiles.
pub(crate) fn together_on(
    alloc: Global,
    way: Way,
    profiles: &[Profile],
    call: &Call,
) -> Result<Option<Side>, AllocError>
    ensures { IfOk result (λ found. IfSome found (SaysAll way profiles.now call.now)) }
{
    let [first, others @ ..] = profiles else {
        return Ok(None);
    };
    let made = together_with(alloc, way, first, others, call)?;
    Ok(Some(made))
}
