//! What is kept of the containers, by id and in order of creation.
ghost use Rattle.std.specs.Prelude.{◌≡◌, ℕ, List, [], ◌∷◌, ◌++◌, None, Some, OnErr, OnOk, is_some, true};
ghost use Rattle.std.specs.List.{filter};
ghost use Rattle.std.specs.Map.{lookup};
ghost use Rattle.indexmap.specs.IndexMap.{Updates};
ghost use Rattle.processes.specs.Views.{same_text};
ghost use Rattle.lifecycle.specs.declared.register.Numbered.{Numbered as TheNumbered};
ghost use Rattle.lifecycle.specs.Places.{IsRising, IsRising-prop, at_phase, is_placed, is_there};

use crate::entry::{Entry, Phase};
use indexmap::IndexMap;
use processes::Id;
use std::alloc::{AllocError, Global};

/// What is kept of a container, and the number under which it was created.
#[derive(Clone, Copy)]
struct Numbered<'a> {
    entry: Entry<'a>,
    number: u64,
}

/// A place in the order of creation: an id, and the number under which its container was created.
#[derive(Drop)]
struct Place {
    name: Id,
    number: u64,
}

/// What is kept of the containers, by id and in order of creation.
///
/// A container that goes leaves its place, of which no entry has the number then. Where more than half of the places are
/// left so they are taken out: so to remove a container takes a constant time, on average.
#[derive(Drop)]
pub(crate) struct Register<'a> {
    kept: IndexMap<Id, Numbered<'a>>,
    order: Vec<Place>,
    /// The number of the next container.
    next: u64,
    ghost placed: { (q : List ℕ) (n : TheNumbered) → lookup (same_text q) kept.entries ≡ Some n → is_placed q n.number order.items ≡ true },
    ghost rising: { IsRising 0 next order.items } by { Prim.hlevel IsRising-prop },
}

// Whether the container of a place is there still.
fn is_there(kept: &IndexMap<Id, Numbered<'_>>, place: &Place) -> bool
    ensures { result ≡ is_there (λ q. lookup (same_text q) kept.now.entries) place.now }
{
    match kept.get(&place.name) {
        None => false,
        Some(found) => found.number == place.number,
    }
}

// Keeps what was created under a number, at a place after the others. Where memory is refused nothing changes.
fn append<'a>(
    kept: &mut IndexMap<Id, Numbered<'a>>,
    order: &mut Vec<Place>,
    name: Id,
    numbered: Numbered<'a>,
) -> Result<(), AllocError>
    ensures kept { OnOk result (Updates same_text kept.old kept.new name (Some numbered.entry)) }
    ensures order { OnOk result (order.new.items ≡ order.old.items ++ record { name = name; number = numbered.entry.number } ∷ []) }
    ensures kept_err { OnErr result (kept.new.entries ≡ kept.old.entries) }
    ensures order_err { OnErr result (order.new.items ≡ order.old.items) }
{
    let number = numbered.number;
    order.reserve(1)?;
    kept.insert(name.again(), numbered)?;
    order.push_reserved(Place { name, number });
    Ok(())
}

// What is kept of a container, if it is there, has come to this phase.
fn set_phase(kept: &mut IndexMap<Id, Numbered<'_>>, id: &Id, phase: Phase)
    ensures there { (n : TheNumbered) → lookup (same_text id.now) kept.old.entries ≡ Some n
        → Updates same_text kept.old kept.new id.now (Some (at_phase phase n)) }
    ensures absent { lookup (same_text id.now) kept.old.entries ≡ None → kept.new.entries ≡ kept.old.entries }
{
    if let Some(found) = kept.get_mut(id) {
        found.entry.phase = phase;
    }
}

// Takes out the places whose containers are there no more.
fn close_up(order: &mut Vec<Place>, kept: &IndexMap<Id, Numbered<'_>>)
    ensures { order.new.items ≡ filter (is_there (λ q. lookup (same_text q) kept.now.entries)) order.old.items }
{
    order.retain(|place| is_there(kept, place));
}

impl<'a> Register<'a> {
    ghost use Rattle.std.specs.Prelude.{option_copied, slice_get};
    ghost use Rattle.std.specs.List.{IsDistinct};
    ghost use Rattle.std.specs.Map.{keys_of, remove_entry, set_value};
    ghost use Rattle.std.specs.Option.{option_map};
    ghost use Rattle.indexmap.specs.IndexMap.{insert_entry};
    ghost use Rattle.lifecycle.specs.declared.entry.Entry.{Entry as TheEntry};
    ghost use Rattle.lifecycle.specs.Entries.{FindsAt};
    ghost use Rattle.lifecycle.specs.Listed.{listed};

    /// With no containers.
    pub(crate) fn new(alloc: Global) -> Self
        ensures { listed result ≡ [] }
    {
        Register {
            kept: IndexMap::new(alloc),
            order: Vec::new(alloc),
            next: 0,
        }
    }

    /// Whether there is a container with this id.
    pub(crate) fn contains(&self, id: &Id) -> bool
        ensures { result ≡ is_some (lookup (same_text id.now) (listed self.now)) }
    {
        self.kept.contains_key(id)
    }

    /// What is kept of the container with this id.
    pub(crate) fn get(&self, id: &Id) -> Option<Entry<'a>>
        ensures value { result ≡ lookup (same_text id.now) (listed self.now) }
        ensures distinct { IsDistinct same_text (keys_of (listed self.now)) }
    {
        match self.kept.get(id) {
            None => None,
            Some(found) => Some(found.entry),
        }
    }

    /// Adds a container after the others.
    pub(crate) fn insert(&mut self, name: Id, entry: Entry<'a>) -> Result<(), AllocError>
        requires { lookup (same_text name) (listed self.old) ≡ None }
        ensures entries { OnOk result (listed self.new ≡ insert_entry same_text (listed self.old) name entry.entry) }
        ensures finds { OnOk result (FindsAt (listed self.old) (listed self.new) name (Some entry.entry)) }
        ensures err { OnErr result (listed self.new ≡ listed self.old) }
    {
        let number = self.next;
        // No run comes to the last number.
        let Some(next) = number.checked_add(1) else {
            return Err(AllocError);
        };
        append(
            &mut self.kept,
            &mut self.order,
            name,
            Numbered { entry, number },
        )?;
        self.next = next;
        Ok(())
    }

    /// The container with this id, if it is there, has come to this phase.
    pub(crate) fn come_to(&mut self, id: &Id, phase: Phase)
        ensures entries { (e : TheEntry) → lookup (same_text id.now) (listed self.old) ≡ Some e
            → listed self.new ≡ set_value (same_text id.now) (listed self.old) (record e { phase = phase }) }
        ensures finds { (e : TheEntry) → lookup (same_text id.now) (listed self.old) ≡ Some e
            → FindsAt (listed self.old) (listed self.new) id.now (Some (record e { phase = phase })) }
    {
        set_phase(&mut self.kept, id, phase);
    }

    /// The container with this id is there no more; the others stay in their order.
    pub(crate) fn remove(&mut self, id: &Id)
        ensures entries { listed self.new ≡ remove_entry (same_text id.now) (listed self.old) }
        ensures finds { FindsAt (listed self.old) (listed self.new) id.now None }
    {
        self.kept.swap_remove(id);
        if self.order.len() / 2 > self.kept.len() {
            close_up(&mut self.order, &self.kept);
        }
    }

    /// The id of a container by its place among those that are there, in the order of creation. It takes a time in the
    /// number of containers.
    pub(crate) fn name_at(&self, i: usize) -> Option<&Id>
        ensures { option_copied result ≡ option_map (λ e. e.0) (slice_get (listed self.now) i) }
    {
        let mut left = i;
        for place in self.order.as_slice() {
            if is_there(&self.kept, place) {
                if left == 0 {
                    return Some(&place.name);
                }
                left -= 1;
            }
        }
        None
    }
}
