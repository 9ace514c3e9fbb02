//! A tariff with its tables.

use pg_board::Color;
use pg_captures::all_men;
use pg_fen::Diagram;
use pg_position::Position;
use pg_tolls::{Fares, Tariff, ground_of_walls};
use std::alloc::{AllocError, Global};

/// How many tariffs there is room for in rows of blocks.
pub(crate) const MOST: usize = 256;

/// A tariff, the tables of both colours, and at how many nodes it was the one that was found to exclude.
#[derive(Drop)]
pub(crate) struct Entry {
    pub(crate) tariff: Tariff,
    pub(crate) times: u64,
    white: Fares,
    black: Fares,
}

// The tables of a colour, for each number of captures that it may owe.
fn fares_of(
    alloc: Global,
    diagram: &Diagram,
    tariff: &Tariff,
    color: Color,
) -> Result<Fares, AllocError> {
    let ground = ground_of_walls(diagram, color);
    let owed = 16u8.saturating_sub(all_men(&diagram.board(), color.other()));
    Fares::new(alloc, diagram, tariff, &ground, owed)
}

impl Entry {
    /// A tariff for the way to a diagram.
    ///
    /// # Errors
    /// Where memory is refused.
    pub(crate) fn new(
        alloc: Global,
        diagram: &Diagram,
        tariff: &Tariff,
    ) -> Result<Entry, AllocError> {
        let white = fares_of(alloc, diagram, tariff, Color::White)?;
        let black = fares_of(alloc, diagram, tariff, Color::Black)?;
        Ok(Entry {
            tariff: *tariff,
            times: 0,
            white,
            black,
        })
    }

    /// What a colour's cheapest plan is charged, none where there is no plan.
    pub(crate) fn least(&self, color: Color, position: &Position) -> Option<i64> {
        match color {
            Color::White => self.white.least(position),
            Color::Black => self.black.least(position),
        }
    }
}
