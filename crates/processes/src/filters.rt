//! Lists of filters, of which each task has one of its own.
ghost use Rattle.std.specs.Prelude.{◌≡◌, ◌+◌, ◌≤◌, ◌∷◌, [], ◌++◌, IfOk, length, map, nat_eq};
ghost use Rattle.std.specs.Cmp.Lexicographic.{pointwise};
ghost use Rattle.kernel_check.specs.Lent.{accepted_insns};

use crate::store::Store;
use bpf_interp::verdict;
use call_record::{Record, Word, stricter};
use kernel_check::{Accepted, AcceptedBuf};
use machines::Arch;
use std::alloc::{AllocError, Global};
use std::marker::Model;

/// A filter, with its load number in the container.
#[derive(Drop)]
pub(crate) struct Loaded {
    pub(crate) load: u32,
    pub(crate) program: AcceptedBuf,
}

impl Loaded {
    ghost use Rattle.processes.specs.Stores.{notifies};
    ghost use Rattle.processes.specs.inner.Loads.{filter_of};

    // A copy of the program, with its load number.
    fn of(alloc: Global, load: u32, program: &Accepted<'_>) -> Result<Loaded, AllocError>
        ensures { IfOk result (λ filter. filter
            ≡ record { load = load; program = accepted_insns program.now }) }
    {
        let program = AcceptedBuf::copy_of(alloc, program)?;
        Ok(Loaded { load, program })
    }

    fn copied(&self, alloc: Global) -> Result<Loaded, AllocError>
        ensures { IfOk result (λ copy. copy ≡ self.now) }
    {
        Loaded::of(alloc, self.load, &self.program.as_accepted())
    }

    // The verdict that the filter gives.
    fn verdict(&self, rec: &Record) -> Word
        ensures { result ≡ (filter_of self.now).judge.verdict rec.now }
    {
        verdict(&self.program.as_accepted(), rec)
    }

    // Whether its verdict notifies a listener.
    fn notifies(&self, rec: &Record) -> bool
        ensures { result ≡ notifies rec.now (filter_of self.now) }
    {
        self.verdict(rec).action() == Word::USER_NOTIF
    }

    // For how many instructions the filter counts beside a further one.
    fn size(&self) -> u32
        ensures size { result ≡ length self.now.program + 4 }
        ensures small { result ≤ 4100 }
    {
        self.program.as_accepted().program().len() as u32 + 4
    }
}

/// The filters of a task, the newest first.
#[derive(Drop)]
pub struct Filters {
    list: Vec<Loaded>,
}

impl Model for Filters {
    ghost use Rattle.std.specs.Prelude.{◌≤◌, List};
    ghost use Rattle.processes.specs.declared.filters.Loaded.{Loaded as Kept};
    ghost use Rattle.processes.specs.inner.Loads.{total_size};

    ghost Value = { List Kept };

    ghost view = { λ filters. filters.list.items };

    ghost invariant = { λ filters. total_size filters.list.items ≤ 32772 };
}

impl Filters {
    ghost use Rattle.processes.specs.Kernel.{is_oldest_part};
    ghost use Rattle.call_record.specs.Verdict.{strictest_of};
    ghost use Rattle.processes.specs.Stores.{notifier};
    ghost use Rattle.processes.specs.inner.Loads.{filter_of, filters_of, loads_of, total_size};

    // A filter in front of copies of others.
    fn in_front_of(
        alloc: Global,
        load: u32,
        program: &Accepted<'_>,
        others: &[Loaded],
    ) -> Result<Filters, AllocError>
        requires { length (accepted_insns program.now) + total_size others.now ≤ 32768 }
        ensures { IfOk result (λ filters. filters
            ≡ record { load = load; program = accepted_insns program.now } ∷ others.now) }
    {
        let mut list = Vec::with_capacity(alloc, others.len() + 1)?;
        list.push(Loaded::of(alloc, load, program)?)?;
        let list = copied_onto(list, alloc, others)?;
        Ok(Filters { list })
    }

    /// The first filter alone.
    pub(crate) fn first(alloc: Global, program: &Accepted<'_>) -> Result<Filters, AllocError>
        ensures { IfOk result (λ filters. filters
            ≡ record { load = 0; program = accepted_insns program.now } ∷ []) }
    {
        Filters::in_front_of(alloc, 0, program, &[])
    }

    /// A copy.
    pub(crate) fn copied(&self, alloc: Global) -> Result<Filters, AllocError>
        ensures { IfOk result (λ copy. copy ≡ self.now) }
    {
        let list = copied_onto(
            Vec::with_capacity(alloc, self.list.len())?,
            alloc,
            &self.list,
        )?;
        Ok(Filters { list })
    }

    /// A copy with a further filter in front.
    pub(crate) fn with_newer(
        &self,
        alloc: Global,
        load: u32,
        program: &Accepted<'_>,
    ) -> Result<Filters, AllocError>
        requires { length (accepted_insns program.now) + total_size self.now ≤ 32768 }
        ensures { IfOk result (λ filters. filters
            ≡ record { load = load; program = accepted_insns program.now } ∷ self.now) }
    {
        Filters::in_front_of(alloc, load, program, &self.list)
    }

    /// How many filters there are.
    pub(crate) fn len(&self) -> u32
        ensures { result ≡ length self.now }
    {
        self.list.len() as u32
    }

    /// For how many instructions the filters count beside a further one.
    pub(crate) fn size(&self) -> u32
        ensures size { result ≡ total_size self.now }
        ensures small { result ≤ 32772 }
    {
        total_size(&self.list)
    }

    /// The strictest verdict that the filters give.
    pub(crate) fn verdict(&self, rec: &Record) -> Word
        ensures { result ≡ strictest_of (map (λ f. f.judge.verdict rec.now) (filters_of self.now)) }
    {
        self.list.iter().rev().fold(Word::ALLOW, |older, filter| {
            stricter(filter.verdict(rec), older)
        })
    }

    /// The newest filter whose verdict notifies a listener, by its load number.
    pub(crate) fn notifier(&self, rec: &Record) -> Option<u32>
        ensures { result ≡ notifier rec.now (filters_of self.now) }
    {
        first_notifier(&self.list, rec)
    }

    /// Whether these are what is left of others after their newest are dropped.
    pub(crate) fn is_oldest_part_of(&self, newer: &Filters) -> bool
        ensures { result ≡ is_oldest_part (loads_of self.now) (loads_of newer.now) }
    {
        let spare = newer.list.len().saturating_sub(self.list.len());
        same_loads(&self.list, &newer.list[spare..])
    }
}

/// A store in which what a task holds is its list of filters.
#[derive(Drop)]
pub struct OwnLists {
    loads: u32,
}

impl Store for OwnLists {
    ghost use Rattle.processes.specs.inner.Loads.{filters_of};

    type Handle = Filters;

    ghost filters_of = { λ store handle. filters_of handle };

    ghost loads_of = { λ store. store.loads };

    fn first(
        alloc: Global,
        _native: Arch,
        program: &Accepted<'_>,
    ) -> Result<(OwnLists, Filters), AllocError> {
        let filters = Filters::first(alloc, program)?;
        Ok((OwnLists { loads: 0 }, filters))
    }

    fn copied(&self, alloc: Global, handle: &Filters) -> Result<Filters, AllocError> {
        handle.copied(alloc)
    }

    fn with_newer(
        &mut self,
        alloc: Global,
        handle: &Filters,
        program: &Accepted<'_>,
        count: usize,
    ) -> Result<Vec<Filters>, AllocError> {
        let load = self.loads + 1;
        let filters = handle.with_newer(alloc, load, program)?;
        let copies = copies_of(alloc, &filters, count)?;
        self.loads = load;
        Ok(copies)
    }

    fn loads(&self) -> u32 {
        self.loads
    }

    fn len(&self, handle: &Filters) -> u32 {
        handle.len()
    }

    fn size(&self, handle: &Filters) -> u32 {
        handle.size()
    }

    fn verdict(&self, handle: &Filters, rec: &Record) -> Word {
        handle.verdict(rec)
    }

    fn notifier(&self, handle: &Filters, rec: &Record) -> Option<u32> {
        handle.notifier(rec)
    }

    fn is_oldest_part(&self, older: &Filters, newer: &Filters) -> bool {
        older.is_oldest_part_of(newer)
    }
}

ghost use Rattle.std.specs.Prelude.{All, vec_len};
ghost use Rattle.processes.specs.Stores.{notifier as notifying};
ghost use Rattle.processes.specs.inner.Loads.{filters_of as seen, loads_of as loads, total_size as total};

// So many copies.
fn copies_of(alloc: Global, filters: &Filters, count: usize) -> Result<Vec<Filters>, AllocError>
    ensures same { IfOk result (λ copies. All (λ copy. copy ≡ filters.now) copies.items) }
    ensures count { IfOk result (λ copies. vec_len copies ≡ count) }
{
    let mut copies = Vec::new(alloc);
    for _ in 0..count {
        copies.push(filters.copied(alloc)?)?;
    }
    Ok(copies)
}

// A list with copies of these behind it.
fn copied_onto(
    mut list: Vec<Loaded>,
    alloc: Global,
    filters: &[Loaded],
) -> Result<Vec<Loaded>, AllocError>
    ensures { IfOk result (λ all. all.items ≡ list.items ++ filters.now) }
{
    for filter in filters {
        list.push(filter.copied(alloc)?)?;
    }
    Ok(list)
}

// The first of these whose verdict notifies a listener, by its load number.
fn first_notifier(list: &[Loaded], rec: &Record) -> Option<u32>
    ensures { result ≡ notifying rec.now (seen list.now) }
{
    for filter in list {
        if filter.notifies(rec) {
            return Some(filter.load);
        }
    }
    None
}

// For how many instructions filters count.
fn total_size(list: &[Loaded]) -> u32
    requires { total list.now ≤ 32772 }
    ensures { result ≡ total list.now }
{
    list.iter().map(|filter| filter.size()).sum()
}

// Whether two lists have the same load numbers.
fn same_loads(mut left: &[Loaded], mut right: &[Loaded]) -> bool
    ensures { result ≡ pointwise nat_eq (loads left.entry.now) (loads right.entry.now) }
{
    while let [filter, rest @ ..] = left {
        let [other, more @ ..] = right else {
            return false;
        };
        if filter.load != other.load {
            return false;
        }
        left = rest;
        right = more;
    }
    right.is_empty()
}
