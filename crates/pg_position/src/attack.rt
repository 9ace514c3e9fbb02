//! Which squares a colour attacks.
ghost use Rattle.std.specs.Prelude.{◌≡◌, ℕ, ◌<◌, ◌↔◌, IsTrue, ◌⊎◌, MatchOption, Some, None};
ghost use Rattle.pg_board.specs.Men.{man};
ghost use Rattle.pg_board.specs.Placement.{get};
ghost use Rattle.pg_position.specs.inner.Rays.{OnRay};
ghost use Rattle.pg_position.specs.Attack.{Attacks};
ghost use Rattle.pg_board.specs.SquareSets.{IsSetOf};
ghost use Rattle.pg_position.specs.inner.Lines.{AttackedBy, AttackedAlong, IsBlocked, ByStep, Straight, Diagonal};

use crate::direction::Direction;
use crate::masks::{diagonal_lines, king_mask, knight_mask, pawn_mask, ray, straight_lines};
use pg_board::{Board, Color, Kind, Man, Square, SquareSet};

// The first square in a direction with a man; none where the ray is empty up to the edge.
#[inline(always)]
pub(crate) fn blocker(board: &Board, direction: Direction, square: Square) -> Option<Square>
    ensures { MatchOption result ((t : ℕ) → t < 64 → OnRay direction square t → get board.now t ≡ None)
        (λ x. IsBlocked board.now direction square x) }
{
    let blockers = ray(direction, square) & board.occupied();
    if direction.ascends() {
        blockers.first()
    } else {
        blockers.last()
    }
}

#[inline(always)]
fn knight_attacks(board: &Board, square: Square, by: Color) -> bool
    ensures { IsTrue result ↔ AttackedBy board.now (man by Kind.Knight) square }
{
    knight_mask(square).meets(board.squares_of(Man::new(by, Kind::Knight)))
}

#[inline(always)]
fn king_attacks(board: &Board, square: Square, by: Color) -> bool
    ensures { IsTrue result ↔ AttackedBy board.now (man by Kind.King) square }
{
    king_mask(square).meets(board.squares_of(Man::new(by, Kind::King)))
}

// Whether a pawn of the colour attacks the square: it does from where a pawn of the other colour on
// the square would attack.
#[inline(always)]
pub(crate) fn pawn_attacks(board: &Board, square: Square, by: Color) -> bool
    ensures { IsTrue result ↔ AttackedBy board.now (man by Kind.Pawn) square }
{
    pawn_mask(by.other(), square).meets(board.squares_of(Man::new(by, Kind::Pawn)))
}

// Whether a man that stands in this direction attacks the square along it.
#[inline(always)]
fn attacked_along(board: &Board, direction: Direction, square: Square, by: Color) -> bool
    ensures { IsTrue result ↔ AttackedAlong board.now by direction square }
{
    match blocker(board, direction, square) {
        Some(first) => {
            board
                .squares_of(Man::new(by, direction.slider()))
                .contains(first)
                || board.squares_of(Man::new(by, Kind::Queen)).contains(first)
        }
        None => false,
    }
}

// Whether a man of one step attacks the square.
#[inline(always)]
fn attacked_by_step(board: &Board, square: Square, by: Color) -> bool
    ensures { IsTrue result ↔ ByStep board.now by square }
{
    pawn_attacks(board, square, by)
        || knight_attacks(board, square, by)
        || king_attacks(board, square, by)
}

// The men of the colour that are of the kind or queens.
#[inline(always)]
fn sliders(board: &Board, by: Color, kind: Kind) -> SquareSet
    ensures { IsSetOf result (λ q. (get board.now q ≡ Some (man by kind))
        ⊎ (get board.now q ≡ Some (man by Kind.Queen))) }
{
    board.squares_of(Man::new(by, kind)) | board.squares_of(Man::new(by, Kind::Queen))
}

// Whether a rook or a queen attacks the square along a file or a rank.
#[inline(always)]
fn attacked_straight(board: &Board, square: Square, by: Color) -> bool
    ensures { IsTrue result ↔ Straight board.now by square }
{
    if !straight_lines(square).meets(sliders(board, by, Kind::Rook)) {
        return false;
    }
    attacked_along(board, Direction::North, square, by)
        || attacked_along(board, Direction::East, square, by)
        || attacked_along(board, Direction::South, square, by)
        || attacked_along(board, Direction::West, square, by)
}

// Whether a bishop or a queen attacks the square along a diagonal.
#[inline(always)]
fn attacked_diagonal(board: &Board, square: Square, by: Color) -> bool
    ensures { IsTrue result ↔ Diagonal board.now by square }
{
    if !diagonal_lines(square).meets(sliders(board, by, Kind::Bishop)) {
        return false;
    }
    attacked_along(board, Direction::NorthEast, square, by)
        || attacked_along(board, Direction::SouthEast, square, by)
        || attacked_along(board, Direction::SouthWest, square, by)
        || attacked_along(board, Direction::NorthWest, square, by)
}

#[inline(always)]
fn attacked_by_any(board: &Board, square: Square, by: Color) -> bool
    ensures { IsTrue result ↔ (ByStep board.now by square ⊎ Straight board.now by square
        ⊎ Diagonal board.now by square) }
{
    attacked_by_step(board, square, by)
        || attacked_straight(board, square, by)
        || attacked_diagonal(board, square, by)
}

/// Whether a man of the colour `by` attacks the square: it could capture there by its pattern. One
/// that may not move there, because its own king would then be attacked, attacks it too
/// (FIDE articles 3.1.2 and 3.1.3).
#[inline(always)]
pub fn attacked(board: &Board, square: Square, by: Color) -> bool
    ensures { IsTrue result ↔ Attacks board.now by square }
{
    attacked_by_any(board, square, by)
}
