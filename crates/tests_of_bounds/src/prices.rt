//! What a searcher reckons with: what its tests share.

mod assignments;
mod distances;
mod memories;

use pg_board::{Color, Square, SquareSet};
use pg_fen::Diagram;
use pg_position::Position;
use pg_prices::*;
use std::process::Abort;

// A number that follows another one, the same at each run.
fn next(state: u64) -> u64 {
    let state = state ^ (state << 13);
    let state = state ^ (state >> 7);
    state ^ (state << 17)
}
