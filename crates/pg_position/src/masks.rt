//! The tables by their meaning: sets of squares.
ghost use Rattle.std.specs.Prelude.{◌≡◌, ℕ, ◌<◌};
ghost use Rattle.pg_position.specs.Geometry.{InPattern};
ghost use Rattle.pg_position.specs.inner.Rays.{OnRay, OnFileOrRank, OnDiagonal};
ghost use Rattle.pg_board.specs.SquareSets.{IsSetOf};

use crate::direction::Direction;
use crate::ray_tables::{DIAGONAL, RAYS, STRAIGHT};
use crate::tables::{KING, KNIGHT, PAWN};
use pg_board::{Color, Kind, Square, SquareSet};

// The squares that a knight attacks (FIDE article 3.6).
pub(crate) fn knight_mask(square: Square) -> SquareSet
    ensures { (c : Color) → IsSetOf result (InPattern c Kind.Knight square) }
{
    SquareSet::of_bits(KNIGHT[square.index() as usize])
}

// The squares that a king attacks (FIDE article 3.8).
pub(crate) fn king_mask(square: Square) -> SquareSet
    ensures { (c : Color) → IsSetOf result (InPattern c Kind.King square) }
{
    SquareSet::of_bits(KING[square.index() as usize])
}

// The squares that a pawn of the colour attacks (FIDE article 3.7).
pub(crate) fn pawn_mask(color: Color, square: Square) -> SquareSet
    ensures { IsSetOf result (InPattern color Kind.Pawn square) }
{
    match color {
        Color::White => SquareSet::of_bits(PAWN[0][square.index() as usize]),
        Color::Black => SquareSet::of_bits(PAWN[1][square.index() as usize]),
    }
}

// The squares in a direction, up to the edge of the board.
pub(crate) fn ray(direction: Direction, square: Square) -> SquareSet
    ensures { IsSetOf result (OnRay direction square) }
{
    SquareSet::of_bits(RAYS[direction.place()][square.index() as usize])
}

// The other squares of the file and the rank.
pub(crate) fn straight_lines(square: Square) -> SquareSet
    ensures { IsSetOf result (OnFileOrRank square) }
{
    SquareSet::of_bits(STRAIGHT[square.index() as usize])
}

// The other squares of the two diagonals.
pub(crate) fn diagonal_lines(square: Square) -> SquareSet
    ensures { IsSetOf result (OnDiagonal square) }
{
    SquareSet::of_bits(DIAGONAL[square.index() as usize])
}
