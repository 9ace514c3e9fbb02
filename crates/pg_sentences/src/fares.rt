//! What the men of both colours are charged by tariffs, of many positions and one diagram.

use pg_board::Color;
use pg_captures::all_men;
use pg_fen::Diagram;
use pg_tolls::{Fares, Tariff, Tolls, ground_of_walls};
use std::alloc::{AllocError, Global};

// The tariff of a number, with its tables for both colours.
#[derive(Drop)]
pub(crate) struct Tables {
    number: usize,
    pub(crate) tariff: Tariff,
    pub(crate) white: Fares,
    pub(crate) black: Fares,
}

/// The tariffs that stand before a certificate, for the words of many nodes on the way to one diagram. The tables of
/// one, some 12 KB for each colour and each number of captures that it may owe, are made when a cut by it is first
/// met, and kept.
#[derive(Drop)]
pub struct GrowingFares<'a> {
    alloc: Global,
    diagram: Diagram,
    tariffs: &'a [Tariff],
    tables: Vec<Tables>,
}

// The number, from 0, of the tariff that a code names; none where there are not so many.
pub(crate) fn number_of(code: u8, tariffs: usize) -> Option<usize> {
    match code.checked_sub(Tolls::FIRST_CODE) {
        Some(number) if usize::from(number) < tariffs => Some(usize::from(number)),
        _ => None,
    }
}

// The tables of a colour, for each number of captures that it may owe.
fn fares_of(
    alloc: Global,
    diagram: &Diagram,
    tariff: &Tariff,
    color: Color,
) -> Result<Fares, AllocError> {
    let ground = ground_of_walls(diagram, color);
    let owed = 16u8.saturating_sub(all_men(&diagram.board(), color.other()));
    Fares::new(alloc, diagram, tariff, &ground, owed)
}

// The tables of a tariff, whose number is told.
fn tables_of(
    alloc: Global,
    diagram: &Diagram,
    tariff: &Tariff,
    number: usize,
) -> Result<Tables, AllocError> {
    let white = fares_of(alloc, diagram, tariff, Color::White)?;
    let black = fares_of(alloc, diagram, tariff, Color::Black)?;
    Ok(Tables {
        number,
        tariff: *tariff,
        white,
        black,
    })
}

impl<'a> GrowingFares<'a> {
    /// Tariffs for the way to a diagram, by their numbers from 0, with no tables yet. What they grow by is taken from
    /// `alloc`; where that is refused, a cut has no words.
    pub fn new(alloc: Global, diagram: &Diagram, tariffs: &'a [Tariff]) -> GrowingFares<'a> {
        GrowingFares {
            alloc,
            diagram: *diagram,
            tariffs,
            tables: Vec::new(alloc),
        }
    }

    /// How many tariffs there are.
    pub fn count(&self) -> usize {
        self.tariffs.len()
    }

    // Whether they are for the way to this diagram.
    pub(crate) fn are_for(&self, diagram: &Diagram) -> bool {
        *diagram == self.diagram
    }

    // The tables of a tariff are made, where they are not yet and memory is not refused.
    pub(crate) fn meet(&mut self, number: usize) {
        if self.known(number).is_some() {
            return;
        }
        let Some(tariff) = self.tariffs.get(number) else {
            return;
        };
        match tables_of(self.alloc, &self.diagram, tariff, number) {
            Ok(tables) => {
                let _ = self.tables.push(tables);
            }
            Err(AllocError) => {}
        }
    }

    // The tables of a tariff that was met.
    pub(crate) fn known(&self, number: usize) -> Option<&Tables> {
        for tables in self.tables.as_slice() {
            if tables.number == number {
                return Some(tables);
            }
        }
        None
    }
}
