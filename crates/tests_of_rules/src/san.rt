//! Texts of moves and of games.

mod lists;
mod long_lists;
mod reads;
mod writes;

use crate::texts::{
    cells, check_case, check_moves, check_row, check_shown, check_text, halves, move_of, position,
};
use pg_position::{Move, Position};
use std::process::Abort;
