//! Squares, men and boards: the lowest layer of the proof game checker.
#![tactic(auto)]

mod board;
mod man;
mod packed;
mod sets;
mod square;
mod square_set;

pub use board::Board;
pub use man::{Color, Kind, Man};
pub use packed::PackedBoard;
pub use sets::Sets;
pub use square::Square;
pub use square_set::{SquareSet, Squares};
