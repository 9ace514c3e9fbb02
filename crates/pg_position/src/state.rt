//! The four parts of a position, as contracts see them.

use crate::rights::Rights;
use pg_board::{Board, Color, Square};

/// The parts of a position, which may break its clauses.
#[derive(Clone, Copy, Debug)]
pub struct State {
    pub board: Board,
    pub side: Color,
    pub rights: Rights,
    pub passed: Option<Square>,
}
