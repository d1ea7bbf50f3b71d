//! The filters of a container, each kept once.
ghost use Rattle.std.specs.Prelude.{◌≡◌, All, IfOk, vec_len};
ghost use Rattle.shared_table.specs.Tree.{IsTree};

use crate::node::Node;
use crate::numbers::Numbers;
use call_record::{Record, Word, stricter};
use kernel_check::{Accepted, AcceptedBuf};
use machines::Arch;
use processes::Store;
use std::alloc::{AllocError, Global};

/// The filters of a container, each kept once: it names the one below it, which stands before it.
#[derive(Drop)]
pub struct Tree {
    nodes: Vec<Node>,
    /// The token of the container's machine.
    arch: u32,
    ghost tree: { IsTree arch nodes.items },
}

/// The place of a task's newest filter, which is its load number.
#[derive(Drop)]
pub struct Place {
    at: u32,
}

impl Tree {
    ghost use Rattle.std.specs.Prelude.{ℕ, ◌+◌, ◌<◌, ◌≤◌, ◌&&◌, IfSome, MatchOption, Some, length, map, nat_lt, slice_get};
    ghost use Rattle.call_record.specs.Verdict.{strictest_of};
    ghost use Rattle.machines.specs.Arch.{token_of};
    ghost use Rattle.kernel_check.specs.Lent.{accepted_insns};
    ghost use Rattle.processes.specs.Stores.{size_beside};
    ghost use Rattle.shared_table.specs.Store.{filters_of, way_of};
    ghost use Rattle.shared_table.specs.Tree.{IsFurther, IsLeft, all_allow, filters_on, way_from};
    ghost use Rattle.shared_table.specs.inner.On.{GoesOn, IsOn};

    /// Whether each filter on the way down from a place allows the calls of this number on the
    /// container's machine, whatever else the record holds. It is known of numbers below 512.
    pub fn allows_at_once(&self, place: &Place, nr: u32) -> bool
        ensures { result ≡ (nat_lt nr 512 && all_allow self.now.arch (way_of self.now place.now) nr) }
    {
        if nr >= 512 {
            return false;
        }
        match self.node_at(place.at) {
            None => true,
            Some(node) => node.allowed.has(nr),
        }
    }

    // The filter at a place, if there is one.
    fn node_at(&self, place: u32) -> Option<&Node>
        ensures { MatchOption result (length self.now.nodes.items ≤ place)
            (λ node. slice_get self.now.nodes.items place ≡ Some node.now) }
    {
        self.nodes.get(place as usize)
    }

    // How many filters are on the way down from a place.
    fn depth_at(&self, place: u32) -> u32
        ensures { result ≡ length (way_from self.now.nodes.items place) }
    {
        match self.node_at(place) {
            None => 0,
            Some(node) => node.depth,
        }
    }

    // How far the filter at a place jumps, and where to.
    fn jump_at(&self, place: u32) -> Option<(u32, u32)>
        ensures { IfSome result (λ jump. IsFurther self.now.nodes.items place jump.1) }
    {
        let node = self.node_at(place)?;
        let to = node.jump?;
        Some((node.depth - self.depth_at(to), to))
    }

    // Where a filter in front of a place jumps to. It jumps as far as the next two jumps together if they are of one
    // length, and else to the place. So a filter on the way down is come to in some logarithm of its depth of steps.
    fn jump_from(&self, place: u32) -> u32
        requires { place < length self.now.nodes.items }
        ensures within { result < length self.now.nodes.items }
        ensures left { IsLeft (way_from self.now.nodes.items result) (way_from self.now.nodes.items place) }
    {
        let Some((length, to)) = self.jump_at(place) else {
            return place;
        };
        let Some((next, far)) = self.jump_at(to) else {
            return place;
        };
        if length == next {
            return far;
        }
        place
    }

    // Where a walk goes on from a filter to those of a depth: it jumps, unless that leads too deep.
    fn down_to(&self, node: &Node, depth: u32) -> Option<u32>
        requires { depth < node.now.depth }
        ensures { (i : ℕ) → slice_get self.now.nodes.items i ≡ Some node.now → GoesOn self.now.nodes.items i depth result }
    {
        if let Some(to) = node.jump {
            if self.depth_at(to) >= depth {
                return Some(to);
            }
        }
        node.below
    }

    // The strictest verdict of the filters on the way down from a place.
    fn walked(&self, place: u32, rec: &Record) -> Word
        ensures { result ≡ strictest_of (map (λ f. f.judge.verdict rec.now)
            (filters_on (way_from self.now.nodes.items place))) }
    {
        let Some(first) = self.node_at(place) else {
            return Word::ALLOW;
        };
        let mut word = first.verdict(rec);
        let mut next = first.below;
        'down: while let Some(at) = next {
            let Some(node) = self.node_at(at) else {
                break;
            };
            word = stricter(word, node.verdict(rec));
            next = node.below;
        }
        stricter(word, Word::ALLOW)
    }

    // A filter in front of those of a place.
    fn node_on(
        &self,
        alloc: Global,
        place: &Place,
        program: &Accepted<'_>,
    ) -> Result<Node, AllocError>
        requires { length (accepted_insns program.now)
            + size_beside (filters_of self.now place.now) ≤ 32768 }
        ensures { IfOk result (λ node. IsOn self.now.arch self.now.nodes.items place.now.at (accepted_insns program.now) node) }
    {
        let own = program.program().len() as u32 + 4;
        let copy = AcceptedBuf::copy_of(alloc, program)?;
        match self.node_at(place.at) {
            None => Ok(Node {
                program: copy,
                below: None,
                jump: None,
                depth: 1,
                size: own,
                allowed: Numbers::allowed(program, self.arch, None),
            }),
            Some(node) => Ok(Node {
                program: copy,
                below: Some(place.at),
                jump: Some(self.jump_from(place.at)),
                depth: node.depth + 1,
                size: node.size + own,
                allowed: Numbers::allowed(program, self.arch, Some(node.allowed)),
            }),
        }
    }
}

impl Store for Tree {
    ghost use Rattle.shared_table.specs.Store.{filters_of, loads_of};

    type Handle = Place;

    ghost filters_of = { filters_of };

    ghost loads_of = { loads_of };

    fn first(
        alloc: Global,
        native: Arch,
        program: &Accepted<'_>,
    ) -> Result<(Tree, Place), AllocError> {
        let own = program.program().len() as u32 + 4;
        let arch = native.token();
        let mut nodes = Vec::with_capacity(alloc, 1)?;
        nodes.push(Node {
            program: AcceptedBuf::copy_of(alloc, program)?,
            below: None,
            jump: None,
            depth: 1,
            size: own,
            allowed: Numbers::allowed(program, arch, None),
        })?;
        Ok((Tree { nodes, arch }, Place { at: 0 }))
    }

    fn copied(&self, _alloc: Global, handle: &Place) -> Result<Place, AllocError> {
        Ok(Place { at: handle.at })
    }

    fn with_newer(
        &mut self,
        alloc: Global,
        handle: &Place,
        program: &Accepted<'_>,
        count: usize,
    ) -> Result<Vec<Place>, AllocError> {
        let at = self.nodes.len() as u32;
        let places = places_at(alloc, at, count)?;
        let node = self.node_on(alloc, handle, program)?;
        self.nodes.push(node)?;
        Ok(places)
    }

    fn loads(&self) -> u32 {
        (self.nodes.len() - 1) as u32
    }

    fn len(&self, handle: &Place) -> u32 {
        self.depth_at(handle.at)
    }

    fn size(&self, handle: &Place) -> u32 {
        match self.node_at(handle.at) {
            None => 0,
            Some(node) => node.size,
        }
    }

    fn verdict(&self, handle: &Place, rec: &Record) -> Word {
        if rec.arch == self.arch && self.allows_at_once(handle, rec.nr) {
            return Word::ALLOW;
        }
        self.walked(handle.at, rec)
    }

    fn notifier(&self, handle: &Place, rec: &Record) -> Option<u32> {
        let mut next = Some(handle.at);
        'down: while let Some(at) = next {
            let Some(node) = self.node_at(at) else {
                return None;
            };
            if node.notifies(rec) {
                return Some(at);
            }
            next = node.below;
        }
        None
    }

    fn is_oldest_part(&self, older: &Place, newer: &Place) -> bool {
        let depth = self.len(older);
        let mut next = Some(newer.at);
        'down: while let Some(at) = next {
            let Some(node) = self.node_at(at) else {
                return depth == 0;
            };
            if node.depth <= depth {
                return at == older.at;
            }
            next = self.down_to(node, depth);
        }
        depth == 0
    }
}

// Handles of one place, so many.
fn places_at(alloc: Global, at: u32, count: usize) -> Result<Vec<Place>, AllocError>
    ensures same { IfOk result (λ places. All (λ place. place.at ≡ at) places.items) }
    ensures count { IfOk result (λ places. vec_len places ≡ count) }
{
    let mut places = Vec::with_capacity(alloc, count)?;
    for _ in 0..count {
        places.push(Place { at })?;
    }
    Ok(places)
}
