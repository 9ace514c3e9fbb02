//! Where a man may capture, and whether a line is clear.
ghost use Rattle.std.specs.Prelude.{◌≡◌, ℕ, ◌<◌, ◌⊎◌, ◌↔◌, IsTrue};
ghost use Rattle.pg_board.specs.SquareSets.{IsSetOf};
ghost use Rattle.pg_position.specs.Attack.{IsClear, Reaches};
ghost use Rattle.pg_position.specs.inner.Lines.{ReachesAlong, ReachesStraight, ReachesDiagonal};

use crate::direction::Direction;
use crate::masks::{king_mask, knight_mask, pawn_mask, ray};
use pg_board::{Board, Color, Kind, Man, Square, SquareSet};

// The squares of a ray up to its first man, and that man's: with no branch on whether there is one.
#[inline(always)]
fn reach_along(board: &Board, direction: Direction, from: Square) -> SquareSet
    ensures { IsSetOf result (ReachesAlong board.now direction from) }
{
    let line = ray(direction, from);
    let men = line & board.occupied();
    if direction.ascends() {
        line & men.up_to_first()
    } else {
        line & men.from_last()
    }
}

fn reach_straight(board: &Board, from: Square) -> SquareSet
    ensures { IsSetOf result (ReachesStraight board.now from) }
{
    reach_along(board, Direction::North, from)
        | reach_along(board, Direction::East, from)
        | reach_along(board, Direction::South, from)
        | reach_along(board, Direction::West, from)
}

fn reach_diagonal(board: &Board, from: Square) -> SquareSet
    ensures { IsSetOf result (ReachesDiagonal board.now from) }
{
    reach_along(board, Direction::NorthEast, from)
        | reach_along(board, Direction::SouthEast, from)
        | reach_along(board, Direction::SouthWest, from)
        | reach_along(board, Direction::NorthWest, from)
}

/// The squares that the man attacks from `from` with nothing in between, also those with a man of
/// its own colour (FIDE articles 3.2 to 3.8). What stands on `from` does not matter.
pub fn attacks_from(board: &Board, man: Man, from: Square) -> SquareSet
    ensures { IsSetOf result (Reaches board.now man.color man.kind from) }
{
    match man.kind {
        Kind::Pawn => pawn_mask(man.color, from),
        Kind::Knight => knight_mask(from),
        Kind::Bishop => reach_diagonal(board, from),
        Kind::Rook => reach_straight(board, from),
        Kind::Queen => reach_straight(board, from) | reach_diagonal(board, from),
        Kind::King => king_mask(from),
    }
}

/// Whether the man attacks `to` from `from`, with nothing in between (FIDE articles 3.2 to 3.8).
pub fn reaches(board: &Board, man: Man, from: Square, to: Square) -> bool
    ensures { IsTrue result ↔ Reaches board.now man.color man.kind from to }
{
    attacks_from(board, man, from).contains(to)
}

/// Whether each square strictly between the two is empty. Squares that share no file, rank or
/// diagonal have none between them (FIDE article 3.5).
pub fn is_clear(board: &Board, from: Square, to: Square) -> bool
    ensures { IsTrue result ↔ IsClear board.now from to }
{
    let queen = Man::new(Color::White, Kind::Queen);
    // A queen gets there, or would not get there on an empty board either.
    reaches(board, queen, from, to) || !reaches(&Board::empty(), queen, from, to)
}
