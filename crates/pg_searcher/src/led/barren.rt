//! Nodes below which a led search met no game, by key alone: two nodes with one key are taken for the same,
//! and what a false hit can cost is a game that is not found.

use std::alloc::{AllocError, Global};

// How many slots the first entry makes, and how many there are at most: 64 MB.
const FIRST_SLOTS: usize = 16_384;

const MOST_SLOTS: usize = 4_194_304;

// A key stands in one of this number of slots, from its place on.
const BUCKET_SLOTS: usize = 4;

// Stands for any number of foreign moves.
pub(crate) const ANY: u8 = 255;

// A slot: a key, 0 for none; with how many foreign moves the node was barren; and its plies left.
#[derive(Clone, Copy)]
struct Slot {
    key: u64,
    foreign: u8,
    left: u8,
}

const FREE_SLOT: Slot = Slot {
    key: 0,
    foreign: 0,
    left: 0,
};

// Barren nodes with the greatest number of foreign moves with which each was, in slots whose number is a
// power of two. Where there is no more room an entry takes the place of one with the fewest plies left.
#[derive(Drop)]
pub(crate) struct Barren {
    slots: Vec<Slot>,
    used: usize,
}

// The slot of a key; else a free one where it may stand; else the one whose entry may go. 0 where there are
// no slots.
fn place_of(slots: &Vec<Slot>, key: u64) -> usize {
    let mask = slots.len().saturating_sub(1);
    let first = key as usize & mask;
    let mut least = u8::MAX;
    let mut place = first;
    for i in 0..BUCKET_SLOTS {
        let at = first.wrapping_add(i) & mask;
        if let Some(slot) = slots.get(at) {
            if slot.key == key || slot.key == 0 {
                return at;
            }
            if slot.left < least {
                least = slot.left;
                place = at;
            }
        }
    }
    place
}

impl Barren {
    // No nodes. What the table grows by is taken from `alloc`.
    pub(crate) fn new(alloc: Global) -> Barren {
        Barren {
            slots: Vec::new(alloc),
            used: 0,
        }
    }

    // With how many foreign moves the node with this key, which is not 0, was barren.
    pub(crate) fn get(&self, key: u64) -> Option<u8> {
        match self.slots.get(place_of(&self.slots, key)) {
            Some(slot) if slot.key == key => Some(slot.foreign),
            _ => None,
        }
    }

    // Enters a node with `left` plies left by its key, which is not 0.
    pub(crate) fn put(&mut self, key: u64, left: u8, foreign: u8) -> Result<(), AllocError> {
        if self.used >= self.slots.len() / 2 && self.slots.len() < MOST_SLOTS {
            self.grow()?;
        }
        self.write(Slot { key, foreign, left });
        Ok(())
    }

    // Writes an entry, over one of the same key with fewer foreign moves.
    fn write(&mut self, entry: Slot) {
        let at = place_of(&self.slots, entry.key);
        if let Some(slot) = self.slots.get_mut(at) {
            if slot.key == entry.key {
                slot.foreign = slot.foreign.max(entry.foreign);
            } else {
                self.used = self.used.saturating_add(usize::from(slot.key == 0));
                *slot = entry;
            }
        }
    }

    // Doubles the slots.
    fn grow(&mut self) -> Result<(), AllocError> {
        let count = self.slots.len().saturating_mul(2).max(FIRST_SLOTS);
        let slots = vec![in *self.slots.allocator(); FREE_SLOT; count]?;
        let mut grown = Barren { slots, used: 0 };
        for slot in self.slots.iter() {
            if slot.key != 0 {
                grown.write(*slot);
            }
        }
        *self = grown;
        Ok(())
    }
}
