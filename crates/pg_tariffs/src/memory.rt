//! What the men of one colour were charged by each tariff, remembered by their key.

use crate::blocks::{Block, UNKNOWN};
use std::alloc::{AllocError, Global};

// How many slots the first entry makes.
const FIRST_SLOTS: usize = 4_096;

// The most rows, and the most bytes that their blocks take.
const MOST_ROWS: usize = 262_144;

const MOST_BYTES: usize = 25_165_824;

// A slot: a key, 0 for none, and the number of its row.
#[derive(Clone, Copy)]
struct Slot {
    key: u64,
    row: usize,
}

const FREE_SLOT: Slot = Slot { key: 0, row: 0 };

// The slot of a key, or a free one to put it.
#[derive(Clone, Copy)]
enum Place {
    At(usize),
    Free(usize),
}

/// A row of numbers for each key, one a tariff, `UNKNOWN` at first. The slots are in open addressing: a power of two,
/// at most half of them are taken, and a key stands behind its place with no free slot between. Above 32 MB all is
/// forgotten.
#[derive(Drop)]
pub(crate) struct Memory {
    slots: Vec<Slot>,
    blocks: Vec<Block>,
    rows: usize,
    width: usize,
}

// The slot of a key, or the first free one behind its place.
fn place_of(slots: &Vec<Slot>, key: u64) -> Place {
    let mask = slots.len().saturating_sub(1);
    let mut at = key as usize & mask;
    for _ in 0..slots.len() {
        match slots.get(at) {
            Some(slot) => {
                if slot.key == key {
                    return Place::At(slot.row);
                }
                if slot.key == 0 {
                    return Place::Free(at);
                }
            }
            None => return Place::Free(at),
        }
        at = at.wrapping_add(1) & mask;
    }
    Place::Free(at)
}

// Writes a slot.
fn write(slots: &mut Vec<Slot>, at: usize, slot: Slot) {
    if let Some(old) = slots.get_mut(at) {
        *old = slot;
    }
}

impl Memory {
    /// A memory of nothing, for sixteen tariffs. What it grows by is taken from `alloc`.
    pub(crate) fn new(alloc: Global) -> Memory {
        Memory {
            slots: Vec::new(alloc),
            blocks: Vec::new(alloc),
            rows: 0,
            width: 1,
        }
    }

    // Forgets all.
    fn forget(&mut self) {
        for slot in self.slots.iter_mut() {
            *slot = FREE_SLOT;
        }
        self.blocks.clear();
        self.rows = 0;
    }

    // Adds a row of which nothing is known.
    fn add_row(&mut self) -> Result<(), AllocError> {
        for _ in 0..self.width {
            self.blocks.push([UNKNOWN; 16])?;
        }
        self.rows = self.rows.saturating_add(1);
        Ok(())
    }

    /// Makes room for one more tariff, whose number this is. All is forgotten where rows have to be wider.
    pub(crate) fn make_room(&mut self, number: usize) {
        if number / 16 >= self.width {
            self.width = self.width.saturating_mul(2);
            self.forget();
        }
    }

    /// The row of a key, which is not 0.
    ///
    /// # Errors
    /// Where memory is refused.
    pub(crate) fn row_of(&mut self, key: u64) -> Result<usize, AllocError> {
        if let Place::At(row) = place_of(&self.slots, key) {
            return Ok(row);
        }
        if self.is_full() {
            self.forget();
        }
        if self.rows >= self.slots.len() / 2 {
            self.double()?;
        }
        let row = self.rows;
        self.add_row()?;
        if let Place::Free(at) = place_of(&self.slots, key) {
            write(&mut self.slots, at, Slot { key, row });
        }
        Ok(row)
    }

    // Whether there is no room for one more row.
    fn is_full(&self) -> bool {
        self.rows >= MOST_ROWS || self.blocks.len() / (MOST_BYTES / 32) > 0
    }

    // Doubles the slots.
    fn double(&mut self) -> Result<(), AllocError> {
        let count = self.slots.len().saturating_mul(2).max(FIRST_SLOTS);
        let mut slots = vec![in *self.slots.allocator(); FREE_SLOT; count]?;
        for slot in self.slots.iter() {
            if slot.key != 0 {
                if let Place::Free(at) = place_of(&slots, slot.key) {
                    write(&mut slots, at, *slot);
                }
            }
        }
        self.slots = slots;
        Ok(())
    }

    /// The numbers of a row.
    pub(crate) fn row(&self, row: usize) -> &[Block] {
        let from = row.saturating_mul(self.width);
        match self.blocks.get(from..from.saturating_add(self.width)) {
            Some(blocks) => blocks,
            None => &[],
        }
    }

    // The block of a row with the number of a tariff.
    fn block_of(&self, row: usize, number: usize) -> usize {
        row.saturating_mul(self.width).saturating_add(number / 16)
    }

    /// The number of a tariff in a row.
    pub(crate) fn get(&self, row: usize, number: usize) -> i16 {
        match self.blocks.get(self.block_of(row, number)) {
            Some(block) => block[number % 16],
            None => UNKNOWN,
        }
    }

    /// Writes the number of a tariff in a row.
    pub(crate) fn set(&mut self, row: usize, number: usize, value: i16) {
        let at = self.block_of(row, number);
        if let Some(block) = self.blocks.get_mut(at) {
            block[number % 16] = value;
        }
    }
}
