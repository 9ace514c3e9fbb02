//! Moves and their order, and the cases of a step.
ghost use Rattle.std.specs.Prelude.{◌≡◌};
ghost use Rattle.pg_position.specs.Order.{move_cmp};

use crate::rights::Wing;
use pg_board::{Kind, Square};
use std::cmp::Ordering;

/// A move: where a man goes from, where it goes to, and what a pawn becomes there. Castling is the
/// king's move of two squares. Moves are ordered by `from`, then `to`, then promotion: none before
/// pawn, knight, bishop, rook, queen and king (FIDE article 3).
#[derive(Clone, Copy, Debug, PartialEq, Eq, PartialOrd, Ord, Hash)]
pub struct Move {
    /// The square that the man leaves.
    pub from: Square,
    /// The square that it comes to.
    pub to: Square,
    /// The kind that a pawn becomes on the furthest rank, and none in every other move.
    pub promotion: Option<Kind>,
}

/// How two moves are ordered: by the square `from`, then the square `to`, then the promotion, none
/// before knight, bishop, rook and queen. `cmp` orders them so.
pub fn move_order(a: &Move, b: &Move) -> Ordering
    ensures { result ≡ move_cmp a.now b.now }
{
    a.cmp(b)
}

/// The move from a1 to a1, which no rule gives: what fills a list of fixed capacity before its moves
/// are written.
impl Default for Move {
    ghost use Rattle.std.specs.Prelude.{◌≡◌, None};

    ghost is_default = { λ m. (m.from ≡ 0) × (m.to ≡ 0) × (m.promotion ≡ None) };

    fn default() -> Move {
        Move {
            from: Square::at(0),
            to: Square::at(0),
            promotion: None,
        }
    }
}

/// The six cases of a step.
#[derive(Clone, Copy, Debug, PartialEq, Eq)]
pub enum StepKind {
    Plain,
    Capture,
    DoubleAdvance,
    EnPassant,
    Promotion(Kind),
    Castling(Wing),
}
