//! Literals in a table, each beside its numbers in columns: a processor compares several of a column in one step.
ghost use Rattle.std.specs.Prelude.{◌≡◌, ◌≤◌, ◌<◌, ◌↔◌, All, IsTrue, length, slice_index_or, slice_range, slice_set};
ghost use Rattle.cert_state.specs.declared.literal.Lit.{Lit as TheLit};
ghost use Rattle.cert_state.specs.Entailment.{IsExcluded};
ghost use Rattle.cert_state.specs.Literals.{index_of};
ghost use Rattle.cert_state.specs.inner.Columns as spec;
ghost use Rattle.cert_state.specs.inner.Columns.{AreRows, AreRows-prop, ExcludesBy, HasNumbers};

use crate::literal::Lit;
use crate::searched::Searched;

/// How many literals a node has at most, and one more.
pub(crate) const ROOM: usize = 513;

/// The literal of a row that was not put.
pub(crate) const NO_LITERAL: Lit = Lit::In(0, 0, 0);

// The numbers of a literal: its kind and its word in one, and the two that it has.
fn numbers_of(literal: Lit) -> (u32, u32, u32)
    ensures { result ≡ (spec.tag_of literal, spec.first_of literal, spec.second_of literal) }
{
    match literal {
        Lit::In(word, low, high) => (4 * u32::from(word), low, high),
        Lit::Bits(word, mask, datum) => (4 * u32::from(word) + 1, mask, datum),
        Lit::NotBits(word, mask, datum) => (4 * u32::from(word) + 2, mask, datum),
    }
}

// What a literal excludes: a datum under a mask. For one that is no `NotBits` it is 1 under no bits, which nothing is.
fn exclusion_of(literal: Lit) -> (u32, u32)
    ensures { result ≡ (spec.mask_out literal, spec.datum_out literal) }
{
    match literal {
        Lit::NotBits(_, mask, datum) => (mask, datum),
        Lit::In(_, _, _) => (0, 1),
        Lit::Bits(_, _, _) => (0, 1),
    }
}

/// A table of literals.
#[derive(Drop)]
pub(crate) struct Table {
    pub(crate) lits: [Lit; ROOM],
    tags: [u32; ROOM],
    firsts: [u32; ROOM],
    seconds: [u32; ROOM],
    /// What each excludes: a mask, and what is under it.
    masks: [u32; ROOM],
    excluded: [u32; ROOM],
    ghost rows: { AreRows lits tags firsts seconds masks excluded } by { AreRows-prop lits tags firsts seconds masks excluded },
}

impl Table {
    /// A table of any literals.
    pub(crate) fn new() -> Table {
        Table {
            lits: [NO_LITERAL; ROOM],
            tags: [0; ROOM],
            firsts: [0; ROOM],
            seconds: [0; ROOM],
            masks: [0; ROOM],
            excluded: [1; ROOM],
        }
    }

    /// How many literals it has.
    pub(crate) fn len(&self) -> usize
        ensures { result ≡ length (self.now.lits) }
    {
        self.lits.len()
    }

    /// Puts a literal in a row.
    pub(crate) fn put(&mut self, row: usize, literal: Lit)
        requires { row < length (self.old.lits) }
        ensures { self.new.lits ≡ slice_set (self.old.lits) row literal }
    {
        let (tag, first, second) = numbers_of(literal);
        self.lits[row] = literal;
        self.tags[row] = tag;
        self.firsts[row] = first;
        self.seconds[row] = second;
        let (mask, datum) = exclusion_of(literal);
        self.masks[row] = mask;
        self.excluded[row] = datum;
    }

    // Whether the literal of a row has these numbers.
    fn has_at(&self, row: usize, tag: u32, first: u32, second: u32) -> bool
        requires { row < length self.now.lits }
        ensures { (l : TheLit) → IsTrue result ↔ HasNumbers (slice_index_or self.now.lits row l) tag first second }
    {
        (self.tags[row] == tag) & (self.firsts[row] == first) & (self.seconds[row] == second)
    }

    // Whether the literal of a row excludes a datum under a mask.
    fn excludes_at(&self, row: usize, mask: u32, datum: u32) -> bool
        requires { row < length self.now.lits }
        ensures { (l : TheLit) → IsTrue result ↔ ExcludesBy (slice_index_or self.now.lits row l) mask datum }
    {
        let own = self.masks[row];
        (own & mask == own) & (datum & own == self.excluded[row])
    }

    /// The rows from one to another, whose literals are of this word.
    pub(crate) fn rows(&self, word: u8, from: usize, to: usize) -> Rows<'_>
        requires within { (from ≤ to) × (to ≤ length self.now.lits) }
        requires own { All (λ l. index_of l ≡ word) (slice_range self.now.lits from to) }
        ensures { slice_range result.table.now.lits result.from result.to ≡ slice_range self.now.lits from to }
    {
        Rows {
            table: self,
            word,
            from,
            to,
        }
    }
}

/// Rows of a table one after the other, with the literals of a word.
#[derive(Clone, Copy)]
pub(crate) struct Rows<'a> {
    table: &'a Table,
    word: u8,
    from: usize,
    to: usize,
    ghost within: { (from ≤ to) × (to ≤ length table.now.lits) },
    ghost own: { All (λ l. index_of l ≡ word) (slice_range table.now.lits from to) },
}

impl Rows<'_> {
    // Whether one of the literals excludes a datum under a mask. It is compiled anew for a mask that is known.
    #[inline(always)]
    fn some_excludes(&self, mask: u32, datum: u32) -> bool
        ensures { IsTrue result ↔ IsExcluded (slice_range self.now.table.now.lits self.now.from self.now.to) self.now.word mask datum }
    {
        let mut found = false;
        for row in self.from..self.to {
            found |= self.table.excludes_at(row, mask, datum);
        }
        found
    }
}

impl Searched for Rows<'_> {
    ghost lits = { λ r. slice_range r.table.now.lits r.from r.to };

    fn states(&self, literal: &Lit) -> bool {
        let (tag, first, second) = numbers_of(*literal);
        let mut found = false;
        for row in self.from..self.to {
            found |= self.table.has_at(row, tag, first, second);
        }
        found
    }

    #[inline(always)]
    fn excludes(&self, word: u8, mask: u32, datum: u32) -> bool {
        if word != self.word {
            return false;
        }
        // Where the mask is known to have all bits, a row takes one comparison.
        if mask == u32::MAX {
            return self.some_excludes(u32::MAX, datum);
        }
        self.some_excludes(mask, datum)
    }
}
