//! Why parts are no position, and why a move is not legal.

use thiserror::Error;

/// The first clause that parts of a position break.
#[derive(Debug, Clone, Copy, PartialEq, Eq, Error)]
pub enum BadPosition {
    /// A colour has no king or more than one.
    #[error("each side must have one king")]
    Kings,
    /// A pawn stands where none can.
    #[error("a pawn stands on rank 1 or 8")]
    PawnRank,
    /// A right is held, and its king or its rook is not at home.
    #[error("a castling right without its king and rook at home")]
    Rights,
    /// No two-square advance can have passed the square.
    #[error("an en passant square that fits no two-square advance")]
    EnPassant,
    /// The king of the side that just moved is attacked.
    #[error("the side that is not to move is in check")]
    Check,
}

/// Why a move is refused, the first of these that holds.
#[derive(Debug, Clone, Copy, PartialEq, Eq, Error)]
pub enum Illegal {
    /// No man stands on the square that the move leaves.
    #[error("no man on the square that the move leaves")]
    EmptyFrom,
    /// The man on that square is not of the side to move.
    #[error("the man on that square is not of the side to move")]
    OtherSide,
    /// The man does not move so, a wrong promotion and forbidden castling included.
    #[error("the man does not move so")]
    NotAMove,
    /// The mover's king would be attacked.
    #[error("the king would be left in check")]
    LeavesCheck,
}
