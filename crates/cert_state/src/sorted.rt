//! The literals of a state by their words, for a state that is asked often.
ghost use Rattle.std.specs.Prelude.{◌≡◌, ◌<◌, ◌≤◌, [], ℕ, IfSome, drop, length, slice_range, take, true};
ghost use Rattle.std.specs.Int.{bit_at};
ghost use Rattle.cert_state.specs.inner.Gathered.{AreFactsOf};
ghost use Rattle.cert_state.specs.inner.Sorted.{IsPartOf, IsSorted, IsSorted-prop, of_word};

use crate::columns::{NO_LITERAL, ROOM, Table};
use crate::entailment::entails;
use crate::gathered::{NOTHING, WordFacts, facts_of, gives};
use crate::knowledge::Knowledge;
use crate::literal::{Lit, Regs};
use crate::points::range;
use crate::state::State;

/// The literals of one word of a state.
#[derive(Clone, Copy)]
struct OfWord<'a, S: State> {
    state: &'a S,
    lits: &'a [Lit],
}

impl<S: State> State for OfWord<'_, S> {
    ghost regs = { λ s. S.regs s.state.now };

    ghost known = { λ s. s.lits.now };

    ghost rest = { λ s at. drop at s.lits.now };

    ghost last = { λ s. length s.lits.now };

    fn regs(&self) -> Regs {
        self.state.regs()
    }

    fn start(&self) -> usize {
        0
    }

    fn next(&self, at: usize) -> Option<(Lit, usize)> {
        if at < self.lits.len() {
            return Some((self.lits[at], at + 1));
        }
        None
    }
}

/// Where the literals of a word stand among those that are sorted, and what they say.
#[derive(Clone, Copy)]
struct Part {
    from: usize,
    to: usize,
    facts: WordFacts,
}

const NO_PART: Part = Part {
    from: 0,
    to: 0,
    facts: NOTHING,
};

/// Room for the literals of a state, those of a word in a row. It serves one state after the other.
#[derive(Drop)]
pub struct Room {
    /// The literals as they come.
    copy: [Lit; ROOM],
    /// The literals by their words.
    table: Table,
    parts: [Part; 16],
}

impl Room {
    /// Room for any state of a node.
    pub fn new() -> Room {
        Room {
            copy: [NO_LITERAL; ROOM],
            table: Table::new(),
            parts: [NO_PART; 16],
        }
    }
}

// A bit for each word of which a literal speaks.
fn spoken<S: State>(state: &S) -> u64
    ensures { (w : ℕ) → w < 16 → bit_at result w ≡ 0 → of_word w (S.known state.now) ≡ [] }
{
    let mut seen = 0u64;
    let mut at = state.start();
    while let Some((literal, next)) = state.next(at) {
        seen |= 1u64 << (literal.word() % 64);
        at = next;
    }
    seen
}

// Puts the literals of a word at this place and after it, if there is room for them, and returns where they end. If the
// bit of the word is not set, there are none.
fn put_word<S: State>(
    state: &S,
    seen: u64,
    word: u8,
    table: &mut Table,
    from: usize,
) -> Option<usize>
    requires room { from ≤ length table.old.lits }
    requires word { word < 16 }
    requires seen { bit_at seen word ≡ 0 → of_word word (S.known state.now) ≡ [] }
    ensures size { length table.new.lits ≡ length table.old.lits }
    ensures before { take from table.new.lits ≡ take from table.old.lits }
    ensures put { IfSome result (λ to. (from ≤ to) × (to ≤ length table.old.lits)
        × (slice_range table.new.lits from to ≡ of_word word (S.known state.now))) }
{
    if seen >> word & 1 == 0 {
        return Some(from);
    }
    let mut to = from;
    let mut at = state.start();
    while let Some((literal, next)) = state.next(at) {
        if literal.word() == word {
            if to == table.len() {
                return None;
            }
            table.put(to, literal);
            to += 1;
        }
        at = next;
    }
    Some(to)
}

// The part of a word whose literals stand there.
fn part_of<S: State>(state: &S, word: u8, table: &Table, from: usize, to: usize) -> Part
    requires { (from ≤ to) × (to ≤ length table.now.lits)
        × (slice_range table.now.lits from to ≡ of_word word (S.known state.now)) }
    ensures part { IsPartOf (S.known state.now) table.now.lits word result }
    ensures end { result.to ≡ to }
{
    let own = OfWord {
        state,
        lits: &table.lits[from..to],
    };
    Part {
        from,
        to,
        facts: facts_of(&own, word),
    }
}

// Copies the literals of a state, and tells how many there are, if there is room for them.
fn copy_all<S: State>(state: &S, lits: &mut [Lit]) -> Option<usize>
    ensures { IfSome result (λ count. (count ≤ length lits.old) × (slice_range lits.new 0 count ≡ S.known state.now)) }
{
    let mut count = 0;
    let mut at = state.start();
    while let Some((literal, next)) = state.next(at) {
        if count == lits.len() {
            return None;
        }
        lits[count] = literal;
        count += 1;
        at = next;
    }
    Some(count)
}

// Puts the literals of a state by their words, with where those of each word stand. False says that there is no room for them.
fn by_words<S: State>(state: &S, table: &mut Table, parts: &mut [Part; 16]) -> bool
    ensures { result ≡ true → IsSorted (S.known state.now) table.new.lits parts.new }
{
    let seen = spoken(state);
    let mut from = 0;
    for i in 0..16_usize {
        let Some(to) = put_word(state, seen, i as u8, table, from) else {
            return false;
        };
        parts[i] = part_of(state, i as u8, table, from, to);
        from = to;
    }
    true
}

// The literals of a state by their words. The state is read once: its literals may stand far apart.
fn sort<S: State>(state: &S, room: &mut Room) -> bool
    ensures { result ≡ true → IsSorted (S.known state.now) room.new.table.lits room.new.parts }
{
    let Room { copy, table, parts } = room;
    let Some(count) = copy_all(state, copy) else {
        return false;
    };
    let own = OfWord {
        state,
        lits: &copy[0..count],
    };
    by_words(&own, table, parts)
}

/// A state with what it says of each word, gathered once, for many questions. A question costs a few comparisons, or at
/// most a look at each literal of the word in turn.
#[derive(Drop)]
pub struct Facts<'a, S: State> {
    pub state: &'a S,
    room: &'a Room,
    /// Whether there was room for all.
    all: bool,
    ghost so: { all ≡ true → IsSorted (S.known state.now) room.now.table.lits room.now.parts } by { IsSorted-prop (S.known state.now) room.now.table.lits room.now.parts all },
}

impl<'a, S: State> Facts<'a, S> {
    ghost use Rattle.std.specs.Prelude.{◌≡◌, ◌<◌};
    ghost use Rattle.cert_state.specs.inner.Sorted.{IsPartOf};

    /// What a state says of each word, in this room.
    pub fn of(state: &'a S, room: &'a mut Room) -> Facts<'a, S>
        ensures { result.state.now ≡ state.now }
    {
        let all = sort(state, room);
        Facts { state, room, all }
    }

    // The part of a word.
    fn part(&self, word: u8) -> &Part
        requires word { word < 16 }
        requires all { self.now.all ≡ true }
        ensures { IsPartOf (S.known self.now.state.now) self.now.room.now.table.lits word result.now }
    {
        &self.room.parts[word as usize]
    }
}

impl<S: State> Knowledge for Facts<'_, S> {
    ghost known = { λ f. S.known f.state.now };

    #[inline(always)]
    fn entails(&self, literal: &Lit) -> bool {
        let word = literal.word();
        if !self.all || word > 15 {
            return entails(self.state, literal);
        }
        let part = self.part(word);
        let own = self.room.table.rows(word, part.from, part.to);
        gives(&own, &part.facts, literal)
    }

    fn range(&self, word: u8) -> Option<(u32, u32)> {
        if !self.all {
            return range(self.state, word);
        }
        let facts = &self.part(word).facts;
        if facts.low > facts.high {
            return None;
        }
        Some((facts.low, facts.high))
    }
}
