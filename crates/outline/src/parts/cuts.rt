//! Where what is known is cut in two.

use cert_state::Lit;

/// Two literals of a word, of which one holds of each record.
pub type Cut = (Lit, Lit);

/// A word is below a number, or at least this. No word is below 0.
pub fn cut_below(word: u8, number: u32) -> Option<Cut> {
    let last = number.checked_sub(1)?;
    Some((Lit::In(word, 0, last), Lit::In(word, number, u32::MAX)))
}

/// A word has these bits under a mask, or has them not.
pub fn cut_of_bits(word: u8, mask: u32, datum: u32) -> Cut {
    (
        Lit::Bits(word, mask, datum),
        Lit::NotBits(word, mask, datum),
    )
}
