//! What the literals of a word say of it, gathered; and what follows of the word.
ghost use Rattle.std.specs.Prelude.{◌≡◌, ◌≢◌, ◌↔◌, ◌<◌, ◌≤◌, ◌++◌, ◌∷◌, [], ℕ, IsTrue, All, Contains, bit_and, true};
ghost use Rattle.cert_state.specs.declared.literal.Lit.TheVariants.{In, Bits, NotBits};
ghost use Rattle.cert_state.specs.declared.gathered.WordFacts.{WordFacts as TheFacts};
ghost use Rattle.cert_state.specs.Literals.{all_bits, index_of};
ghost use Rattle.cert_state.specs.Points.{HasNoPoint, IsRange, IsWithin, NoneBetween};
ghost use Rattle.cert_state.specs.Entailment.{Differ, Entails, IsDeadAt};
ghost use Rattle.cert_state.specs.inner.Summary.{summary_of, unknown};
ghost use Rattle.cert_state.specs.inner.Gathered.{AreFactsOf, Follows, Holds, IsExact, IsOther};

use crate::entailment::{is_dead_at, is_excluded, none_between};
use crate::literal::{Lit, NO_REGS};
use crate::points::range_by;
use crate::searched::Searched;
use crate::state::{Listed, State};
use crate::summary::{Summary, summarize};

/// What the literals of one word say of it.
#[derive(Clone, Copy)]
pub(crate) struct WordFacts {
    /// Its least and its greatest point. Where it has none, the first is above the second.
    pub(crate) low: u32,
    pub(crate) high: u32,
    /// The union of the masks of its `Bits`, and of their data.
    mask: u32,
    datum: u32,
    /// Whether each of its `Bits` follows from these two.
    whole: bool,
    /// Whether none of its literals is a `NotBits`.
    free: bool,
    /// Whether the datum of each of its `NotBits` has no bit outside the mask.
    exact: bool,
}

// What is known of a word of which no literal speaks.
pub(crate) const NOTHING: WordFacts = WordFacts {
    low: 0,
    high: u32::MAX,
    mask: 0,
    datum: 0,
    whole: true,
    free: true,
    exact: true,
};

// What is asked of each literal of a state, for a word.
#[derive(Clone, Copy)]
enum Asked {
    /// If it is a `Bits` of the word, that it follows from a mask and a datum.
    Whole(u32, u32),
    /// That it is no `NotBits` of the word.
    Free,
    /// If it is a `NotBits` of the word, that its datum has no bit outside the mask.
    Exact,
}

// Whether a literal, if it is a `Bits` of the word, follows from the union of masks and that of data.
fn follows(literal: Lit, word: u8, mask: u32, datum: u32) -> bool
    ensures { IsTrue result ↔ Follows word mask datum literal }
{
    match literal {
        Lit::Bits(w, m, d) => {
            if w != word {
                return true;
            }
            m & mask == m && datum & m == d
        }
        Lit::In(_, _, _) => true,
        Lit::NotBits(_, _, _) => true,
    }
}

// Whether a literal is no `NotBits` of the word.
fn is_other(literal: Lit, word: u8) -> bool
    ensures { IsTrue result ↔ IsOther word literal }
{
    match literal {
        Lit::NotBits(w, _, _) => w != word,
        Lit::In(_, _, _) => true,
        Lit::Bits(_, _, _) => true,
    }
}

// Whether the datum of a literal, if it is a `NotBits` of the word, has no bit outside the mask.
fn is_exact(literal: Lit, word: u8) -> bool
    ensures { IsTrue result ↔ IsExact word literal }
{
    match literal {
        Lit::NotBits(w, m, d) => {
            if w != word {
                return true;
            }
            d & m == d
        }
        Lit::In(_, _, _) => true,
        Lit::Bits(_, _, _) => true,
    }
}

// Whether what is asked holds of a literal.
fn holds(asked: Asked, word: u8, literal: Lit) -> bool
    ensures { IsTrue result ↔ Holds asked word literal }
{
    match asked {
        Asked::Whole(mask, datum) => follows(literal, word, mask, datum),
        Asked::Free => is_other(literal, word),
        Asked::Exact => is_exact(literal, word),
    }
}

// Whether what is asked holds of each literal.
fn all_hold<S: State>(state: &S, word: u8, asked: Asked) -> bool
    ensures { IsTrue result ↔ All (Holds asked word) (S.known state.now) }
{
    let mut at = state.start();
    while let Some((literal, next)) = state.next(at) {
        if !holds(asked, word, literal) {
            return false;
        }
        at = next;
    }
    true
}

// The least and the greatest point of a word, or two numbers of which the first is above the second.
fn ends_of<S: State>(state: &S, word: u8, summary: &Summary, free: bool) -> (u32, u32)
    requires summary { summary.now ≡ summary_of (S.known state.now) word unknown }
    requires free { free ≡ true → (m d : ℕ) → Contains (S.known state.now) (NotBits word m d) → ⊥ }
    ensures some { result.0 ≤ result.1 → IsRange (S.known state.now) word result.0 result.1 }
    ensures none { result.1 < result.0 → HasNoPoint (S.known state.now) word }
{
    if free {
        return (summary.low, summary.high);
    }
    match range_by(state, word, summary) {
        Some(ends) => ends,
        None => (1, 0),
    }
}

// Whether the datum of each `NotBits` of a word has no bit outside its mask.
fn are_exact<S: State>(state: &S, word: u8, free: bool) -> bool
    requires { free ≡ true → (m d : ℕ) → Contains (S.known state.now) (NotBits word m d) → ⊥ }
    ensures { result ≡ true → (m d : ℕ) → Contains (S.known state.now) (NotBits word m d) → bit_and d m ≡ d }
{
    if free {
        return true;
    }
    all_hold(state, word, Asked::Exact)
}

/// What a state says of a word that is asked about once: whether more follows than is gathered is left open.
pub(crate) fn briefly_of<S: State>(state: &S, word: u8) -> WordFacts
    ensures { AreFactsOf (S.known state.now) word result }
{
    let summary = summarize(state, word);
    let (low, high) = ends_of(state, word, &summary, false);
    WordFacts {
        low,
        high,
        mask: summary.mask,
        datum: summary.datum,
        whole: false,
        free: false,
        exact: false,
    }
}

/// What a state says of a word.
pub(crate) fn facts_of<S: State>(state: &S, word: u8) -> WordFacts
    ensures { AreFactsOf (S.known state.now) word result }
{
    if state.next(state.start()).is_none() {
        return NOTHING;
    }
    let summary = summarize(state, word);
    let free = all_hold(state, word, Asked::Free);
    let (low, high) = ends_of(state, word, &summary, free);
    WordFacts {
        low,
        high,
        mask: summary.mask,
        datum: summary.datum,
        whole: all_hold(state, word, Asked::Whole(summary.mask, summary.datum)),
        free,
        exact: are_exact(state, word, free),
    }
}

// Whether a literal leaves both ends of a range: it excludes neither.
fn leaves_ends(facts: &WordFacts, mask: u32, datum: u32) -> bool
    ensures { IsTrue result → mask ≡ all_bits → (facts.now.low ≢ datum) × (facts.now.high ≢ datum) }
{
    if mask != u32::MAX {
        return true;
    }
    facts.low != datum && facts.high != datum
}

// Whether no datum of a `NotBits` has a bit outside its mask, with one more of them.
fn stays_exact(facts: &WordFacts, mask: u32, datum: u32) -> bool
    ensures { IsTrue result ↔ (facts.now.exact ≡ true) × (bit_and datum mask ≡ datum) }
{
    facts.exact && datum & mask == datum
}

/// What literals of a word say of it with one more of them, by what they said.
pub(crate) fn with_one(lits: &[Lit], facts: &WordFacts, literal: Lit) -> WordFacts
    requires { AreFactsOf lits.now (index_of literal) facts.now }
    ensures { AreFactsOf (lits.now ++ literal ∷ []) (index_of literal) result }
{
    if let Lit::NotBits(_, mask, datum) = literal {
        if leaves_ends(facts, mask, datum) {
            return WordFacts {
                free: false,
                exact: stays_exact(facts, mask, datum),
                ..*facts
            };
        }
    }
    let state = Listed {
        regs: NO_REGS,
        lits,
        more: Some(literal),
    };
    facts_of(&state, literal.word())
}

// Whether the points of a word lie from `low` to `high`.
fn lies(facts: &WordFacts, low: u32, high: u32) -> bool
    ensures { IsTrue result ↔ (facts.now.low ≤ facts.now.high) × (low ≤ facts.now.low) × (facts.now.high ≤ high) }
{
    facts.low <= facts.high && low <= facts.low && facts.high <= high
}

// Whether a literal `In` of a word follows.
fn bounds<K: Searched>(known: &K, facts: &WordFacts, word: u8, low: u32, high: u32) -> bool
    requires { AreFactsOf (K.lits known.now) word facts.now }
    ensures { IsTrue result ↔ Entails (K.lits known.now) (In word low high) }
{
    if lies(facts, low, high) {
        return true;
    }
    known.states(&Lit::In(word, low, high))
}

// Whether a literal is among others, which is not asked where it is known not to be.
fn is_among<K: Searched>(known: &K, literal: Lit, never: bool) -> bool
    requires { never ≡ true → Contains (K.lits known.now) literal → ⊥ }
    ensures { IsTrue result ↔ Contains (K.lits known.now) literal }
{
    if never {
        return false;
    }
    known.states(&literal)
}

// Whether the `Bits` of a word say the datum under the mask.
fn says(facts: &WordFacts, mask: u32, datum: u32) -> bool
    ensures { IsTrue result ↔ IsWithin mask facts.now.mask × (bit_and facts.now.datum mask ≡ datum) }
{
    mask & facts.mask == mask && facts.datum & mask == datum
}

// Whether a word has just one point, with the datum under the mask.
fn is_one(facts: &WordFacts, mask: u32, datum: u32) -> bool
    ensures { IsTrue result ↔ (facts.now.low ≡ facts.now.high) × (bit_and facts.now.low mask ≡ datum) }
{
    facts.low == facts.high && facts.low & mask == datum
}

// Whether a literal `Bits` of a word follows.
fn fixes<K: Searched>(known: &K, facts: &WordFacts, word: u8, mask: u32, datum: u32) -> bool
    requires { AreFactsOf (K.lits known.now) word facts.now }
    ensures { IsTrue result ↔ Entails (K.lits known.now) (Bits word mask datum) }
{
    if says(facts, mask, datum) {
        return true;
    }
    if is_one(facts, mask, datum) {
        return true;
    }
    is_among(known, Lit::Bits(word, mask, datum), facts.whole)
}

// Whether the `Bits` of a word say another datum on a bit of the mask.
fn differs(facts: &WordFacts, mask: u32, datum: u32) -> bool
    ensures { IsTrue result ↔ Differ facts.now.mask facts.now.datum mask datum }
{
    facts.mask & mask & (facts.datum ^ datum) != 0
}

// Whether no number from `low` to `high` has the datum under the mask. For a mask of all bits this is a comparison.
fn none_in(low: u32, high: u32, mask: u32, datum: u32) -> bool
    ensures { IsTrue result ↔ NoneBetween low high mask datum }
{
    if mask == u32::MAX {
        return datum < low || high < datum;
    }
    none_between(low, high, mask, datum)
}

// Whether a word has points, and no number among them has the datum under the mask.
fn misses(facts: &WordFacts, mask: u32, datum: u32) -> bool
    ensures { IsTrue result ↔ (facts.now.low ≤ facts.now.high) × NoneBetween facts.now.low facts.now.high mask datum }
{
    if facts.low > facts.high {
        return false;
    }
    none_in(facts.low, facts.high, mask, datum)
}

// Whether a datum has no bit outside a mask.
fn is_inside(datum: u32, mask: u32) -> bool
    ensures { IsTrue result ↔ (bit_and datum mask ≡ datum) }
{
    datum & mask == datum
}

// Whether a literal `NotBits` of a word follows.
fn excludes<K: Searched>(known: &K, facts: &WordFacts, word: u8, mask: u32, datum: u32) -> bool
    requires { AreFactsOf (K.lits known.now) word facts.now }
    ensures { IsTrue result ↔ Entails (K.lits known.now) (NotBits word mask datum) }
{
    if differs(facts, mask, datum) {
        return true;
    }
    if misses(facts, mask, datum) {
        return true;
    }
    if facts.free {
        return false;
    }
    if known.excludes(word, mask, datum) {
        return true;
    }
    // If it were stated, and its datum had no bit outside the mask, it would exclude that itself.
    if is_inside(datum, mask) {
        return false;
    }
    is_among(known, Lit::NotBits(word, mask, datum), facts.exact)
}

/// Whether a literal follows, by what was gathered of its word. Most answers cost less than a call.
#[inline(always)]
pub(crate) fn gives<K: Searched>(known: &K, facts: &WordFacts, literal: &Lit) -> bool
    requires { AreFactsOf (K.lits known.now) (index_of literal.now) facts.now }
    ensures { IsTrue result ↔ Entails (K.lits known.now) literal.now }
{
    match *literal {
        Lit::In(w, low, high) => bounds(known, facts, w, low, high),
        Lit::Bits(w, m, d) => fixes(known, facts, w, m, d),
        Lit::NotBits(w, m, d) => excludes(known, facts, w, m, d),
    }
}

/// Whether the literals of a word can not all be true, by what was gathered of it.
pub(crate) fn dies<S: State>(state: &S, facts: &WordFacts, word: u8) -> bool
    requires { AreFactsOf (S.known state.now) word facts.now }
    ensures { IsTrue result ↔ IsDeadAt (S.known state.now) word }
{
    if facts.low > facts.high {
        return true;
    }
    if !facts.whole {
        return is_dead_at(state, word);
    }
    if none_in(facts.low, facts.high, facts.mask, facts.datum) {
        return true;
    }
    if facts.free {
        return false;
    }
    is_excluded(state, word, facts.mask, facts.datum)
}
