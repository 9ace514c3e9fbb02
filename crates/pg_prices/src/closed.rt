//! The numbers of closed nodes below which no game ends on the diagram.

use std::alloc::{AllocError, Global};

// How many slots the first entry makes.
const FIRST_SLOTS: usize = 16_384;

// A slot: the halves of a key, both 0 for none, and the number: 12 bytes.
#[derive(Clone, Copy)]
struct Slot {
    high: u32,
    low: u32,
    number: u32,
}

const FREE_SLOT: Slot = Slot {
    high: 0,
    low: 0,
    number: 0,
};

/// Numbers of nodes by key, in open addressing: the slots are a power of two, at most three of four
/// are taken, and a key stands behind its place with no free slot between.
#[derive(Drop)]
pub struct Closed {
    slots: Vec<Slot>,
    used: usize,
}

// The slot of a key with its number.
fn slot_of(key: u64, number: u32) -> Slot {
    Slot {
        high: (key >> 32) as u32,
        low: (key & 0xffff_ffff) as u32,
        number,
    }
}

// Whether a slot has no key.
fn is_free(slot: &Slot) -> bool {
    slot.high == 0 && slot.low == 0
}

// Whether two slots have one key.
fn is_same(a: &Slot, b: &Slot) -> bool {
    a.high == b.high && a.low == b.low
}

// Where a key's search begins: by other bits than those that tell colours' memories apart.
fn begin_of(slot: &Slot) -> usize {
    let mixed = u64::from(slot.high ^ slot.low.rotate_left(13));
    (mixed.wrapping_mul(0x9e37_79b9_7f4a_7c15) >> 24) as usize
}

// The slot that has this key, or the first free one behind its place; the slots' number where there
// is none.
fn place_of(slots: &Vec<Slot>, sought: &Slot) -> usize {
    let mask = slots.len().saturating_sub(1);
    let mut at = begin_of(sought) & mask;
    for _ in 0..slots.len() {
        match slots.get(at) {
            Some(slot) => {
                if is_same(slot, sought) || is_free(slot) {
                    return at;
                }
            }
            None => return slots.len(),
        }
        at = at.wrapping_add(1) & mask;
    }
    slots.len()
}

// Writes a slot.
fn write(slots: &mut Vec<Slot>, at: usize, slot: Slot) {
    if let Some(old) = slots.get_mut(at) {
        *old = slot;
    }
}

impl Closed {
    /// No nodes. What the table grows by is taken from `alloc`.
    pub fn new(alloc: Global) -> Closed {
        Closed {
            slots: Vec::new(alloc),
            used: 0,
        }
    }

    /// How many nodes there are.
    pub fn len(&self) -> usize {
        self.used
    }

    /// Whether there are no nodes.
    pub fn is_empty(&self) -> bool {
        self.used == 0
    }

    /// The number of the node with this key, which is not 0.
    pub fn find(&self, key: u64) -> Option<u32> {
        let sought = slot_of(key, 0);
        match self.slots.get(place_of(&self.slots, &sought)) {
            Some(slot) => {
                if is_free(slot) {
                    None
                } else {
                    Some(slot.number)
                }
            }
            None => None,
        }
    }

    /// Enters a node by its key, which is not 0 and not entered.
    ///
    /// # Errors
    /// Where memory is refused.
    pub fn insert(&mut self, key: u64, number: u32) -> Result<(), AllocError> {
        if self.used >= self.slots.len() / 4 * 3 {
            self.grow()?;
        }
        let slot = slot_of(key, number);
        let at = place_of(&self.slots, &slot);
        write(&mut self.slots, at, slot);
        self.used = self.used.saturating_add(1);
        Ok(())
    }

    // Doubles the slots.
    fn grow(&mut self) -> Result<(), AllocError> {
        let count = self.slots.len().saturating_mul(2).max(FIRST_SLOTS);
        let mut slots = vec![in *self.slots.allocator(); FREE_SLOT; count]?;
        for slot in self.slots.iter() {
            if !is_free(slot) {
                let at = place_of(&slots, slot);
                write(&mut slots, at, *slot);
            }
        }
        self.slots = slots;
        Ok(())
    }
}
