//! What the plies left pay for by each tariff.

use crate::blocks::{Block, NO_LIMIT, kept_limit};
use crate::entries::MOST;
use pg_board::Color;
use pg_captures::plies_left;
use pg_tolls::Tariff;
use std::alloc::{AllocError, Global};

// Blocks for a side and a number of plies.
const WIDTH: usize = MOST / 16;

// How many numbers of plies there are.
const PLIES: usize = 256;

/// For the side to move and each number of plies a limit for each tariff: 256 KB.
#[derive(Drop)]
pub(crate) struct Limits {
    blocks: Vec<Block>,
}

// The first block of a side with `left` plies left.
fn place_of(side: Color, left: u8) -> usize {
    let side = match side {
        Color::White => 0,
        Color::Black => PLIES,
    };
    usize::from(left).saturating_add(side).saturating_mul(WIDTH)
}

/// What a number of plies pays for by a tariff.
pub(crate) fn paid(tariff: &Tariff, side: Color, left: u8) -> u32 {
    let white = plies_left(side, Color::White, left);
    let black = plies_left(side, Color::Black, left);
    u32::from(tariff.weight(Color::White)) * u32::from(white)
        + u32::from(tariff.weight(Color::Black)) * u32::from(black)
}

impl Limits {
    /// No limits yet.
    ///
    /// # Errors
    /// Where memory is refused.
    pub(crate) fn new(alloc: Global) -> Result<Limits, AllocError> {
        let blocks = Vec::from_elem(alloc, [NO_LIMIT; 16], 2 * PLIES * WIDTH)?;
        Ok(Limits { blocks })
    }

    // Writes a limit.
    fn set(&mut self, side: Color, left: u8, number: usize, limit: i16) {
        let at = place_of(side, left).saturating_add(number / 16);
        if let Some(block) = self.blocks.get_mut(at) {
            block[number % 16] = limit;
        }
    }

    // Writes the limits of a tariff for a side.
    fn set_all(&mut self, side: Color, number: usize, tariff: &Tariff) {
        for left in 0..=255u8 {
            self.set(side, left, number, kept_limit(paid(tariff, side, left)));
        }
    }

    /// Writes the limits of the tariff of a number.
    pub(crate) fn add(&mut self, number: usize, tariff: &Tariff) {
        self.set_all(Color::White, number, tariff);
        self.set_all(Color::Black, number, tariff);
    }

    /// The limits of all tariffs for a side with `left` plies left.
    pub(crate) fn row(&self, side: Color, left: u8) -> &[Block] {
        let place = place_of(side, left);
        match self.blocks.get(place..place.saturating_add(WIDTH)) {
            Some(blocks) => blocks,
            None => &[],
        }
    }

    /// The limit of a tariff.
    pub(crate) fn get(&self, side: Color, left: u8, number: usize) -> i16 {
        match self
            .blocks
            .get(place_of(side, left).saturating_add(number / 16))
        {
            Some(block) => block[number % 16],
            None => NO_LIMIT,
        }
    }
}
