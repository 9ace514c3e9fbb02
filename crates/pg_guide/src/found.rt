//! What a check meets along a line of moves, as it is told.

use arrayvec::ArrayVec;
use pg_fen::Diagram;
use pg_position::Move;
use pg_sentences::{Ending, Tally};
use pg_tolls::Tariff;
use std::alloc::Global;

// A named node that a reference may cite: its number, and the line that leads there.
#[derive(Drop)]
pub(crate) struct Cited {
    pub(crate) number: u32,
    pub(crate) line: ArrayVec<Move, 128>,
}

// What stands along a line: the problem's diagram and plies, the moves from the initial array, the expanded nodes
// that the line leads through with the last one first, what ends the line, if something does, and the node that is
// cited there; the tariffs that stand before the certificate, and what their tables are taken from.
#[derive(Clone, Copy)]
pub(crate) struct Found<'a> {
    pub(crate) diagram: &'a Diagram,
    pub(crate) plies: u8,
    pub(crate) line: &'a [Move],
    pub(crate) tallies: &'a [Tally],
    pub(crate) ending: &'a Option<Ending>,
    pub(crate) cited: Option<&'a Cited>,
    pub(crate) tariffs: &'a [Tariff],
    pub(crate) alloc: Global,
}
