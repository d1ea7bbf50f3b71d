//! What the entries of a chain state, one after another.
ghost use Rattle.std.specs.Prelude.{◌≡◌, ◌≢◌, ◌↔◌, ◌<◌, ◌≤◌, ◌∷◌, [], ℕ, Contains, IfSome, MatchOption};
ghost use Rattle.cert_form.specs.Nodes.{literals_in, mets_in, numbers_on, outs_in, on_chain};
ghost use Rattle.cert_form.specs.Reading.{entries_of, version_of};
ghost use Rattle.cert_form.specs.Views.{AreLast};
ghost use Rattle.cert_form.specs.inner.Places.{IsHeadThere};

use crate::node::Claim;
use crate::part::{read_claim, read_long};
use crate::sought::Sought;
use cert_state::Lit;

/// What the entry of a number states, with the number of the next one. There is no entry 0, and none above all.
pub(crate) fn next_claim(bytes: &[u8], at: usize) -> Option<(Claim, usize)>
    requires head { IsHeadThere bytes.now }
    requires form { version_of bytes.now ≢ 1 }
    ensures more { let es = entries_of bytes.now in MatchOption result (on_chain es at ≡ []) (λ p. on_chain es at ≡ p.0 ∷ on_chain es p.1) }
    ensures numbers { let es = entries_of bytes.now in MatchOption result (numbers_on es at ≡ [])
        (λ p. numbers_on es at ≡ at ∷ numbers_on es p.1) }
    ensures earlier { IfSome result (λ p. p.1 < at) }
    ensures bound { IfSome result (λ p. p.1 ≤ 0xffffffff) }
{
    if at == 0 {
        return None;
    }
    if at > read_long(bytes, 12) as usize {
        return None;
    }
    let entry = 16 + 14 * (at - 1);
    let claim = read_claim(bytes, entry + 4);
    Some((claim, read_long(bytes, entry) as usize))
}

// The first thing of a kind that a chain states from an entry on, with the number of the entry after it.
fn next_sought<T: Sought>(bytes: &[u8], at: usize) -> Option<(T, usize)>
    requires head { IsHeadThere bytes.now }
    requires form { version_of bytes.now ≢ 1 }
    ensures more { let es = entries_of bytes.now in MatchOption result (T.among (on_chain es at) ≡ [])
        (λ p. T.among (on_chain es at) ≡ p.0 ∷ T.among (on_chain es p.1)) }
    ensures bound { IfSome result (λ p. p.1 ≤ 0xffffffff) }
{
    let mut entry = at;
    while let Some((claim, next)) = next_claim(bytes, entry) {
        if let Some(sought) = T::of(claim) {
            return Some((sought, next));
        }
        entry = next;
    }
    None
}

/// The first literal of a chain from an entry on, with the number of the entry after it.
pub(crate) fn next_literal(bytes: &[u8], at: usize) -> Option<(Lit, usize)>
    requires head { IsHeadThere bytes.now }
    requires form { version_of bytes.now ≢ 1 }
    ensures more { let es = entries_of bytes.now in MatchOption result (literals_in (on_chain es at) ≡ [])
        (λ p. literals_in (on_chain es at) ≡ p.0 ∷ literals_in (on_chain es p.1)) }
    ensures bound { IfSome result (λ p. p.1 ≤ 0xffffffff) }
{
    next_sought(bytes, at)
}

/// The first rule that a chain says to be out from an entry on, with the number of the entry after it.
pub(crate) fn next_out(bytes: &[u8], at: usize) -> Option<(u32, usize)>
    requires head { IsHeadThere bytes.now }
    requires form { version_of bytes.now ≢ 1 }
    ensures { let es = entries_of bytes.now in MatchOption result (outs_in (on_chain es at) ≡ [])
        (λ p. outs_in (on_chain es at) ≡ p.0 ∷ outs_in (on_chain es p.1)) }
{
    next_sought(bytes, at)
}

/// The first condition that a chain says to be met from an entry on, with the number of the entry after it.
pub(crate) fn next_met(bytes: &[u8], at: usize) -> Option<((u32, u32), usize)>
    requires head { IsHeadThere bytes.now }
    requires form { version_of bytes.now ≢ 1 }
    ensures { let es = entries_of bytes.now in MatchOption result (mets_in (on_chain es at) ≡ [])
        (λ p. mets_in (on_chain es at) ≡ p.0 ∷ mets_in (on_chain es p.1)) }
{
    next_sought(bytes, at)
}

// The number of the entry after one, or 0.
fn after(bytes: &[u8], at: usize) -> usize
    requires head { IsHeadThere bytes.now }
    requires form { version_of bytes.now ≢ 1 }
    requires some { 0 < at }
    ensures last { let es = entries_of bytes.now in AreLast (on_chain es result) (on_chain es at) }
    ensures others { let es = entries_of bytes.now in (n : ℕ) → Contains (numbers_on es result) n
        ↔ (Contains (numbers_on es at) n × (n ≢ at)) }
    ensures earlier { result < at }
{
    match next_claim(bytes, at) {
        Some((_, next)) => next,
        None => 0,
    }
}

/// Where two chains meet: the number of the first entry that both have, or 0.
pub(crate) fn meeting(bytes: &[u8], first: usize, second: usize) -> usize
    requires head { IsHeadThere bytes.now }
    requires form { version_of bytes.now ≢ 1 }
    ensures first { let es = entries_of bytes.now in AreLast (on_chain es result) (on_chain es first) }
    ensures second { let es = entries_of bytes.now in AreLast (on_chain es result) (on_chain es second) }
    ensures shared { let es = entries_of bytes.now in (n : ℕ) → Contains (numbers_on es result) n
        ↔ (Contains (numbers_on es first) n × Contains (numbers_on es second) n) }
{
    let mut one = first;
    let mut other = second;
    while one != other {
        if one > other {
            one = after(bytes, one);
        } else {
            other = after(bytes, other);
        }
    }
    one
}
