//! What is remembered of the men and rights of one colour.

use crate::needs::Needs;
use std::alloc::{AllocError, Global};

// How many slots the first entry makes.
const FIRST_SLOTS: usize = 4_096;

// A slot: a key, 0 for none, and what is remembered: 16 bytes.
#[derive(Clone, Copy)]
struct Slot {
    key: u64,
    needs: Needs,
}

const FREE_SLOT: Slot = Slot {
    key: 0,
    needs: Needs {
        need: 0,
        shift: 0,
        travel: 0,
        pawns: 0,
        lists: 0,
    },
};

/// The needs by key of men and rights, in open addressing: the slots are a power of two, at most half
/// of them are taken, and a key stands behind its place with no free slot between. Beside them stand
/// the bytes of price lists; `lists` of the needs is the place behind the first of their bytes, or 0.
/// Above a number of entries all are forgotten.
#[derive(Drop)]
pub struct Memory {
    slots: Vec<Slot>,
    used: usize,
    most: usize,
    lists: Vec<u8>,
}

// The slot of a key, or a free one to put it.
#[derive(Clone, Copy)]
enum Place {
    At(usize),
    Free(usize),
}

// The slot of a key, or the first free one behind its place.
fn place_of(slots: &Vec<Slot>, key: u64) -> Place {
    let mask = slots.len().saturating_sub(1);
    let mut at = key as usize & mask;
    for _ in 0..slots.len() {
        match slots.get(at) {
            Some(slot) => {
                if slot.key == key {
                    return Place::At(at);
                }
                if slot.key == 0 {
                    return Place::Free(at);
                }
            }
            None => return Place::Free(at),
        }
        at = at.wrapping_add(1) & mask;
    }
    Place::Free(at)
}

// Writes a slot.
fn write(slots: &mut Vec<Slot>, at: usize, slot: Slot) {
    if let Some(old) = slots.get_mut(at) {
        *old = slot;
    }
}

impl Memory {
    /// A memory of nothing, for `most` entries at most. What it grows by is taken from `alloc`.
    pub fn new(alloc: Global, most: usize) -> Memory {
        Memory {
            slots: Vec::new(alloc),
            used: 0,
            most,
            lists: Vec::new(alloc),
        }
    }

    /// How many entries there are.
    pub fn len(&self) -> usize {
        self.used
    }

    /// Whether nothing is remembered.
    pub fn is_empty(&self) -> bool {
        self.used == 0
    }

    /// What is remembered under a key, which is not 0.
    pub fn get(&self, key: u64) -> Option<Needs> {
        match place_of(&self.slots, key) {
            Place::At(at) => match self.slots.get(at) {
                Some(slot) => Some(slot.needs),
                None => None,
            },
            Place::Free(_) => None,
        }
    }

    /// Remembers needs under a key, which is not 0, in the place of what was remembered under it.
    ///
    /// # Errors
    /// Where memory is refused.
    pub fn set(&mut self, key: u64, needs: Needs) -> Result<(), AllocError> {
        if let Place::At(at) = place_of(&self.slots, key) {
            write(&mut self.slots, at, Slot { key, needs });
            return Ok(());
        }
        if self.used >= self.slots.len() / 2 {
            self.make_room()?;
        }
        if let Place::Free(at) = place_of(&self.slots, key) {
            write(&mut self.slots, at, Slot { key, needs });
            self.used = self.used.saturating_add(1);
        }
        Ok(())
    }

    /// The bytes of the price lists that were kept with these needs, and of others behind them. None
    /// where none were kept.
    pub fn lists(&self, needs: &Needs) -> Option<&[u8]> {
        if needs.lists == 0 {
            return None;
        }
        self.lists.get(needs.lists as usize - 1..)
    }

    /// Remembers needs under a key, which is not 0, with the bytes of their price lists. All is forgotten
    /// first where there are 32 bytes of lists for each entry that there may be.
    ///
    /// # Errors
    /// Where memory is refused.
    pub fn keep(&mut self, key: u64, needs: Needs, lists: &[u8]) -> Result<(), AllocError> {
        if self.lists.len() / 32 >= self.most {
            self.forget();
        }
        let mut needs = needs;
        needs.lists = 0;
        self.set(key, needs)?;
        let place = self.lists.len().min(u32::MAX as usize - 1);
        self.lists.extend_from_slice(lists)?;
        needs.lists = place as u32 + 1;
        self.set(key, needs)
    }

    // Forgets all.
    fn forget(&mut self) {
        for slot in self.slots.iter_mut() {
            *slot = FREE_SLOT;
        }
        self.used = 0;
        self.lists.clear();
    }

    // Doubles the slots, or forgets all where there are as many entries as there may be.
    fn make_room(&mut self) -> Result<(), AllocError> {
        if self.used >= self.most {
            self.forget();
            return Ok(());
        }
        let count = self.slots.len().saturating_mul(2).max(FIRST_SLOTS);
        let mut slots = vec![in *self.slots.allocator(); FREE_SLOT; count]?;
        for slot in self.slots.iter() {
            if slot.key != 0 {
                if let Place::Free(at) = place_of(&slots, slot.key) {
                    write(&mut slots, at, *slot);
                }
            }
        }
        self.slots = slots;
        Ok(())
    }
}
