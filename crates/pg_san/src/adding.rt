//! Why a game is not taken into a list.

use thiserror::Error;

/// Why a game is not added to a list of games.
#[derive(Debug, Clone, Copy, PartialEq, Eq, Error)]
pub enum AddFault {
    /// The move of this ply, counted from 1, is not legal after those before it.
    #[error("illegal move at ply {0}")]
    IllegalMove(usize),
    /// The list holds 4,096 games.
    #[error("more than 4096 games")]
    TooMany,
    /// The list holds this game.
    #[error("repeated game")]
    Repeated,
    /// Memory was refused.
    #[error("out of memory")]
    Memory,
}
