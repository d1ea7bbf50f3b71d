//! What is known until each word of a record is told.
ghost use Rattle.std.specs.Prelude.{◌≡◌, ◌<◌, ◌+◌, ◌%◌, ◌/◌, ◌^◌, ℕ, Contains, IfErr, IfOk, None};
ghost use Rattle.call_record.specs.Record.{words};
ghost use Rattle.cert_state.specs.declared.literal.Lit.TheVariants.{Bits};
ghost use Rattle.cert_state.specs.Literals.{all_bits};
ghost use Rattle.cert_form.specs.Nodes.{literals};
ghost use Rattle.cert_check.specs.Settled.{AreStated};
ghost use Rattle.certify.specs.inner.Plain.{IsUnsettled, PartsAtReturn};

use crate::chain::Chain;
use crate::cuts::{Cut, cut_of_profile};
use crate::masks::cut_of_mask;
use call_record::Record;
use cert_state::{Lit, range};
use profile::Profile;

// The cut, or else the number.
fn or_number(cut: Option<Cut>, number: u32) -> Result<u32, Cut>
    ensures { IfOk result (λ u. (cut ≡ None) × (u ≡ number)) }
{
    match cut {
        Some(cut) => Err(cut),
        None => Ok(number),
    }
}

// The number of a word that is stated, or where the word is cut in halves until it is one number, which is then stated.
fn told_word(known: &Chain<'_>, word: u8) -> Result<u32, Cut>
    requires { word < 16 }
    ensures { IfOk result (λ u. Contains (literals known.now.entries.now known.now.number) (Bits word all_bits u)) }
{
    let (low, high) = range(known, word).unwrap_or((0, 0));
    if low < high {
        return or_number(Cut::below(word, low + (high - low) / 2 + 1), low);
    }
    if known.states(Lit::Bits(word, u32::MAX, low)) {
        return Ok(low);
    }
    or_number(Cut::bits(word, u32::MAX, low), low)
}

// The number of 64 bits in two words that are stated, the low one first, or where one of them is cut.
fn told_wide(known: &Chain<'_>, word: u8) -> Result<u64, Cut>
    requires { word < 15 }
    ensures low { IfOk result (λ n. Contains (literals known.now.entries.now known.now.number) (Bits word all_bits (n % 2 ^ 32))) }
    ensures high { IfOk result (λ n. Contains (literals known.now.entries.now known.now.number) (Bits (word + 1) all_bits (n / 2 ^ 32))) }
{
    let low = told_word(known, word)?;
    let high = told_word(known, word + 1)?;
    Ok(u64::from(low) + (1 << 32) * u64::from(high))
}

// The record of which each word is stated, or where one is cut.
fn told_record(known: &Chain<'_>) -> Result<Record, Cut>
    ensures { IfOk result (λ call. AreStated (literals known.now.entries.now known.now.number) (words call)) }
{
    Ok(Record {
        nr: told_word(known, 0)?,
        arch: told_word(known, 1)?,
        ip: told_wide(known, 2)?,
        args: [
            told_wide(known, 4)?,
            told_wide(known, 6)?,
            told_wide(known, 8)?,
            told_wide(known, 10)?,
            told_wide(known, 12)?,
            told_wide(known, 14)?,
        ],
    })
}

// Where a word is cut that may be one number alone, which is not stated. What is known of its bits may exclude that one too.
fn cut_of_point(known: &Chain<'_>) -> Option<Cut> {
    for word in 0..16_u8 {
        if let Some((low, high)) = range(known, word)
            && low == high
            && !known.states(Lit::Bits(word, u32::MAX, low))
        {
            return Cut::bits(word, u32::MAX, low);
        }
    }
    None
}

/// Where what is known is cut in two. The first choice is where a machine, a rule or a condition is not settled. Then comes a bit of a
/// mask, then a word that may be one number alone, and else anywhere. There is no such place only if each word of the record is stated.
/// Then the record is returned.
pub(crate) fn told_or_cut(profile: &Profile, known: &Chain<'_>) -> Result<Record, Cut>
    ensures stated { IfOk result (λ call. AreStated (literals known.now.entries.now known.now.number) (words call)) }
    // A profile without conditions is cut between calls.
    ensures plain { (word : ℕ) (nodes : ℕ) → IsUnsettled profile.now (literals known.now.entries.now known.now.number) word nodes
        → IfErr result (λ cut. PartsAtReturn profile.now (literals known.now.entries.now known.now.number) word nodes cut.one cut.other) }
    ensures never { (word : ℕ) (nodes : ℕ) → IsUnsettled profile.now (literals known.now.entries.now known.now.number) word nodes
        → IfOk result (λ _. ⊥) }
{
    if let Some(cut) = cut_of_profile(profile, known) {
        return Err(cut);
    }
    if let Some(cut) = cut_of_mask(known) {
        return Err(cut);
    }
    if let Some(cut) = cut_of_point(known) {
        return Err(cut);
    }
    told_record(known)
}
