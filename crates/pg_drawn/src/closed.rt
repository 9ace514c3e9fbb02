//! Nodes that have closed: below them no game ends on the diagram but the first that was met, of which each node is
//! known. They are told by key alone: two nodes with one key are taken for the same, and what that can cost is a game
//! that is not met.

use std::alloc::{AllocError, Global};

// How many slots there are, a power of two: 16 MB.
const SLOTS: usize = 1_048_576;

// A key stands in one of this number of slots, from its place on.
const BUCKET_SLOTS: usize = 4;

// A slot: a key, 0 for none, and how many plies are left at the node.
#[derive(Clone, Copy)]
struct Slot {
    key: u64,
    left: u8,
}

const FREE_SLOT: Slot = Slot { key: 0, left: 0 };

// Closed nodes. Where there is no more room an entry takes the place of one with the fewest plies left.
#[derive(Drop)]
pub(crate) struct Closed {
    slots: Vec<Slot>,
}

// The slot of a key; else a free one where it may stand; else the one whose entry may go.
fn place_of(slots: &Vec<Slot>, key: u64) -> usize {
    let mask = slots.len().saturating_sub(1);
    let first = key as usize & mask;
    let mut least = u8::MAX;
    let mut place = first;
    for i in 0..BUCKET_SLOTS {
        let at = first.wrapping_add(i) & mask;
        if let Some(slot) = slots.get(at) {
            if slot.key == key || slot.key == 0 {
                return at;
            }
            if slot.left < least {
                least = slot.left;
                place = at;
            }
        }
    }
    place
}

impl Closed {
    // No nodes. All memory that it takes is taken here.
    pub(crate) fn new(alloc: Global) -> Result<Closed, AllocError> {
        Ok(Closed {
            slots: vec![in alloc; FREE_SLOT; SLOTS]?,
        })
    }

    // Whether the node with this key, which is not 0, is among them.
    pub(crate) fn has(&self, key: u64) -> bool {
        match self.slots.get(place_of(&self.slots, key)) {
            Some(slot) => slot.key == key,
            None => false,
        }
    }

    // Enters a node with `left` plies left by its key, which is not 0.
    pub(crate) fn put(&mut self, key: u64, left: u8) {
        let at = place_of(&self.slots, key);
        if let Some(slot) = self.slots.get_mut(at) {
            *slot = Slot { key, left };
        }
    }
}
