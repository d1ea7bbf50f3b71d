//! Blocks by a key of what they stand for, so that few are looked at where one is looked for.

use crate::asked::Open;
use crate::outline::Block;
use crate::ranges::Leaf;
use std::alloc::{AllocError, Global};

// How many shelves there are at first.
const SHELVES: usize = 64;

// A block, by its place.
#[derive(Clone, Copy)]
struct Shelved {
    key: u32,
    /// The block that was the shelf's last before this one.
    before: Option<usize>,
}

/// On which shelf each block is. Blocks with one key are on one shelf.
#[derive(Drop)]
pub(crate) struct Index {
    /// The last block of each shelf. There are as many shelves as blocks at least.
    shelves: Vec<Option<usize>>,
    blocks: Vec<Shelved>,
}

// Puts a block on the shelf of a key as the last one, and answers which was the last one before.
fn put_last(shelves: &mut [Option<usize>], key: u32, block: Option<usize>) -> Option<usize> {
    let shelf = (key as usize).checked_rem(shelves.len())?;
    let last = shelves.get_mut(shelf)?;
    let before = *last;
    *last = block;
    before
}

impl Index {
    /// No blocks.
    pub(crate) fn new(alloc: Global) -> Index {
        Index {
            shelves: Vec::new(alloc),
            blocks: Vec::new(alloc),
        }
    }

    /// The next block has this key.
    pub(crate) fn push(&mut self, alloc: Global, key: u32) -> Result<(), AllocError> {
        let block = self.blocks.len();
        self.blocks.push(Shelved { key, before: None })?;
        if block < self.shelves.len() {
            self.put(block);
            return Ok(());
        }
        self.grow(alloc)
    }

    /// The next blocks are these.
    pub(crate) fn push_all(&mut self, alloc: Global, blocks: &[Block]) -> Result<(), AllocError> {
        for block in blocks {
            self.push(alloc, key_of(&block.rules, &block.other))?;
        }
        Ok(())
    }

    // Twice as many shelves, on which all blocks are put anew.
    fn grow(&mut self, alloc: Global) -> Result<(), AllocError> {
        let count = self.shelves.len().saturating_mul(2).max(SHELVES);
        self.shelves = vec![in alloc; None; count]?;
        for block in 0..self.blocks.len() {
            self.put(block);
        }
        Ok(())
    }

    // Puts a block on its shelf, as the last one.
    fn put(&mut self, block: usize) {
        if let Some(shelved) = self.blocks.get_mut(block) {
            shelved.before = put_last(&mut self.shelves, shelved.key, Some(block));
        }
    }

    /// So many blocks are taken out, the last one first.
    pub(crate) fn forget(&mut self, count: usize) {
        for _ in 0..count {
            self.pop();
        }
    }

    // The last block is taken out.
    fn pop(&mut self) {
        if let Some(block) = self.blocks.pop() {
            put_last(&mut self.shelves, block.key, block.before);
        }
    }

    /// The last block on the shelf of a key.
    pub(crate) fn last(&self, key: u32) -> Option<usize> {
        let shelf = (key as usize).checked_rem(self.shelves.len())?;
        match self.shelves.get(shelf) {
            Some(last) => *last,
            None => None,
        }
    }

    /// The block on the shelf of a block that came before it.
    pub(crate) fn before(&self, block: usize) -> Option<usize> {
        self.blocks.get(block)?.before
    }

    /// Whether the block has this key.
    pub(crate) fn has_key(&self, block: usize, key: u32) -> bool {
        match self.blocks.get(block) {
            Some(shelved) => shelved.key == key,
            None => false,
        }
    }
}

/// A key of questions and of where to go on without them. Those that are alike have one key.
pub(crate) fn key_of(rules: &[Open], other: &Leaf) -> u32 {
    let mut key = match other {
        Leaf::Verdict(word) => word.0,
        Leaf::Block(block) => mixed(1, (*block % 0x1_0000_0000) as u32),
    };
    for open in rules {
        key = mixed(key, open.key());
    }
    key
}

/// A key of a key and a number behind it.
pub(crate) fn mixed(key: u32, number: u32) -> u32 {
    let key = (key ^ number).wrapping_mul(0x9e37_79b1);
    key ^ (key >> 15)
}
