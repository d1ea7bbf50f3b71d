//! Tables in which each item stands once, so that its place stands for it.

use std::alloc::{AllocError, Global};

// Into how many lists the places are sorted at first, by the keys of their items.
const LISTS: usize = 16;

// Stands for no place.
const NOBODY: usize = usize::MAX;

/// What stands in a table.
pub trait Item {
    /// A number that items have in common that are equal.
    fn key(&self) -> u32;
}

/// Items, each once.
#[derive(Drop)]
pub struct Table<T> {
    items: Vec<T>,
    // The keys of the items.
    keys: Vec<u32>,
    // For each place the last one before it in its list, and for each list the last place. There are twice as many lists each
    // time when there are as many items as lists.
    before: Vec<usize>,
    latest: Vec<usize>,
}

/// A number that is mixed of one and of another.
pub fn mixed(number: u32, other: u32) -> u32 {
    let mixed = (number ^ other).wrapping_mul(0x9e37_79b1);
    mixed ^ mixed >> 15
}

/// The last 32 bits of a number.
pub fn bits(number: usize) -> u32 {
    (number % 0x1_0000_0000) as u32
}

// In which of so many lists an item stands, by its key: their number is a power of two.
fn list_of(key: u32, lists: usize) -> usize {
    key as usize & lists.saturating_sub(1)
}

fn at(places: &[usize], place: usize) -> usize {
    match places.get(place) {
        Some(place) => *place,
        None => NOBODY,
    }
}

impl<T: Item + PartialEq + Drop> Table<T> {
    /// No items.
    pub fn new(alloc: Global) -> Table<T> {
        Table {
            items: Vec::new(alloc),
            keys: Vec::new(alloc),
            before: Vec::new(alloc),
            latest: Vec::new(alloc),
        }
    }

    /// The items, by their places.
    pub fn items(&self) -> &[T] {
        &self.items
    }

    /// The item at a place.
    pub fn get(&self, place: usize) -> Option<&T> {
        self.items.get(place)
    }

    /// The place of an item, if it is there.
    pub fn find(&self, item: &T) -> Option<usize> {
        self.find_by(item.key(), item)
    }

    fn find_by(&self, key: u32, item: &T) -> Option<usize> {
        let mut place = at(&self.latest, list_of(key, self.latest.len()));
        for _ in 0..self.items.len() {
            if *self.keys.get(place)? == key && self.items.get(place)? == item {
                return Some(place);
            }
            place = at(&self.before, place);
        }
        None
    }

    /// The place of an item, which is added where it is new.
    pub fn place(&mut self, item: T) -> Result<usize, AllocError> {
        let key = item.key();
        if let Some(place) = self.find_by(key, &item) {
            return Ok(place);
        }
        if self.items.len() >= self.latest.len() {
            self.widen()?;
        }
        let place = self.items.len();
        self.list(key)?;
        self.keys.push(key)?;
        self.items.push(item)?;
        Ok(place)
    }

    // Twice as many lists, with all places sorted anew.
    fn widen(&mut self) -> Result<(), AllocError> {
        let lists = self.latest.len().saturating_mul(2).max(LISTS);
        for list in &mut self.latest {
            *list = NOBODY;
        }
        for _ in self.latest.len()..lists {
            self.latest.push(NOBODY)?;
        }
        self.before.clear();
        for place in 0..self.items.len() {
            let key = self.key_at(place);
            self.list(key)?;
        }
        Ok(())
    }

    fn key_at(&self, place: usize) -> u32 {
        match self.keys.get(place) {
            Some(key) => *key,
            None => 0,
        }
    }

    // Adds the next place to the list of its item's key.
    fn list(&mut self, key: u32) -> Result<(), AllocError> {
        let list = list_of(key, self.latest.len());
        let place = self.before.len();
        self.before.push(at(&self.latest, list))?;
        if let Some(latest) = self.latest.get_mut(list) {
            *latest = place;
        }
        Ok(())
    }
}
