//! What the literals of one word say of it, each of them but those that exclude one number.
ghost use Rattle.std.specs.Prelude.{◌≡◌, ◌≢◌, ◌↔◌, bit_and};
ghost use Rattle.cert_state.specs.Points.{datum_of, mask_of};
ghost use Rattle.cert_state.specs.Entailment.{IsTornAt};
ghost use Rattle.cert_state.specs.inner.Summary.{added, summary_of, unknown};

use crate::literal::Lit;
use crate::state::State;

/// What the literals of a word say of it.
#[derive(Clone, Copy)]
pub struct Summary {
    /// The bounds that are stated.
    pub low: u32,
    pub high: u32,
    /// The union of the masks of its `Bits`.
    pub mask: u32,
    /// The union of their data.
    pub datum: u32,
    /// The bits that one of them says are set.
    pub ones: u32,
    /// The bits that one of them says are not set.
    pub zeros: u32,
}

// A summary with one literal more.
fn add(summary: Summary, word: u8, literal: Lit) -> Summary
    ensures { result ≡ added word literal summary }
{
    match literal {
        Lit::In(w, low, high) if w == word => Summary {
            low: summary.low.max(low),
            high: summary.high.min(high),
            ..summary
        },
        Lit::Bits(w, m, d) if w == word => {
            let (low, high) = if m == u32::MAX {
                (summary.low.max(d), summary.high.min(d))
            } else {
                (summary.low, summary.high)
            };
            Summary {
                low,
                high,
                mask: summary.mask | m,
                datum: summary.datum | d,
                ones: summary.ones | m & d,
                zeros: summary.zeros | m & (m ^ d),
            }
        }
        _ => summary,
    }
}

/// What a state says of a word.
pub fn summarize<S: State>(state: &S, word: u8) -> Summary
    ensures whole { result ≡ summary_of (S.known state.now) word unknown }
    ensures mask { result.mask ≡ mask_of (S.known state.now) word }
    ensures datum { result.datum ≡ datum_of (S.known state.now) word }
    ensures torn { (bit_and result.ones result.zeros ≢ 0) ↔ IsTornAt (S.known state.now) word }
{
    let mut summary = Summary {
        low: 0,
        high: u32::MAX,
        mask: 0,
        datum: 0,
        ones: 0,
        zeros: 0,
    };
    let mut at = state.start();
    while let Some((literal, next)) = state.next(at) {
        summary = add(summary, word, literal);
        at = next;
    }
    summary
}
