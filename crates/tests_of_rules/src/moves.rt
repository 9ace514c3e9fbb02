//! Legal moves: what the tests share.

mod counts;
mod lists;

use crate::texts::{
    cells, check_all, check_moves, check_row, check_shown, check_text, halves, move_of, position,
};
use pg_position::{Move, Position};
use std::process::Abort;

const MANY: &str = "r3k2r/p1ppqpb1/bn2pnp1/3PN3/1p2P3/2N2Q1p/PPPBBPPP/R3K2R w KQkq - 0 1";

const FEW: &str = "8/2p5/3p4/KP5r/1R3p1k/8/4P1P1/8 w - - 0 1";

const MATED: &str = "rnb1kbnr/pppp1ppp/8/4p3/6Pq/5P2/PPPPP2P/RNBQKBNR w KQkq - 1 3";
