//! The five clauses of a position, as tests.
ghost use Rattle.std.specs.Prelude.{◌≡◌, ℕ, ◌<◌, ◌⊎◌, ◌↔◌, IsTrue, true};
ghost use Rattle.pg_board.specs.SquareSets.{IsSetOf};
ghost use Rattle.pg_board.specs.Squares.{rank};
ghost use Rattle.pg_position.specs.Position.{Stands, HasOneKing, holds, KingsClause, PawnsClause, IsHome, RightsClause};
ghost use Rattle.pg_position.specs.Position.{IsPassed, PassedClause};

use crate::boards::{is_vacant, stands};
use crate::rights::{Rights, Wing};
use crate::squares::{ahead, king_home, passed_rank, rook_home};
use crate::state::State;
use pg_board::{Board, Color, Kind, Man, Square, SquareSet};

// Whether each king of the colour is on this square.
pub(crate) fn has_no_king_but(board: &Board, color: Color, king: Square) -> bool
    ensures { IsTrue result ↔ ((t : ℕ) → t < 64 → Stands board.now color Kind.King t → t ≡ king) }
{
    let kings = board.squares_of(Man::new(color, Kind::King));
    (kings - SquareSet::single(king)).is_empty()
}

#[tactic(auto, unfolding(crate::specs::Position::HasOneKing, crate::specs::Position::IsOnlyKing))]
pub(crate) fn has_one_king(board: &Board, color: Color) -> bool
    ensures { IsTrue result ↔ HasOneKing board.now color }
{
    match board.king(color) {
        Some(king) => has_no_king_but(board, color, king),
        None => false,
    }
}

pub(crate) fn has_good_kings(board: &Board) -> bool
    ensures { IsTrue result ↔ KingsClause board.now }
{
    has_one_king(board, Color::White) && has_one_king(board, Color::Black)
}

// The squares of the ranks 1 and 8.
fn ends() -> SquareSet
    ensures { IsSetOf result (λ q. (rank q ≡ 1) ⊎ (rank q ≡ 8)) }
{
    SquareSet::of_rank(1) | SquareSet::of_rank(8)
}

#[tactic(auto, unfolding(crate::specs::Position::PawnsClause))]
pub(crate) fn has_good_pawns(board: &Board) -> bool
    ensures { IsTrue result ↔ PawnsClause board.now }
{
    let white = board.squares_of(Man::new(Color::White, Kind::Pawn));
    let black = board.squares_of(Man::new(Color::Black, Kind::Pawn));
    !(white | black).meets(ends())
}

#[tactic(auto, unfolding(crate::specs::Position::IsHome))]
pub(crate) fn is_home(board: &Board, color: Color, wing: Wing) -> bool
    ensures { IsTrue result ↔ IsHome board.now color wing }
{
    stands(board, color, Kind::King, king_home(color))
        && stands(board, color, Kind::Rook, rook_home(color, wing))
}

pub(crate) fn is_right_good(board: &Board, rights: &Rights, color: Color, wing: Wing) -> bool
    ensures { IsTrue result ↔ (holds rights.now color wing ≡ true → IsHome board.now color wing) }
{
    !rights.holds(color, wing) || is_home(board, color, wing)
}

#[tactic(auto, unfolding(crate::specs::Position::RightsClause))]
pub(crate) fn has_good_rights(board: &Board, rights: &Rights) -> bool
    ensures { IsTrue result ↔ RightsClause board.now rights.now }
{
    is_right_good(board, rights, Color::White, Wing::KingSide)
        && is_right_good(board, rights, Color::White, Wing::QueenSide)
        && is_right_good(board, rights, Color::Black, Wing::KingSide)
        && is_right_good(board, rights, Color::Black, Wing::QueenSide)
}

#[tactic(auto, unfolding(crate::specs::Position::IsPassed))]
pub(crate) fn is_passed(board: &Board, side: Color, square: Square) -> bool
    ensures { IsTrue result ↔ IsPassed board.now side square }
{
    square.rank() == passed_rank(side)
        && is_vacant(board, square)
        && stands(
            board,
            side.other(),
            Kind::Pawn,
            ahead(side.other(), 1, square),
        )
        && is_vacant(board, ahead(side, 1, square))
}

pub(crate) fn has_good_passed(state: &State) -> bool
    ensures { IsTrue result ↔ PassedClause state.now }
{
    match state.passed {
        Some(square) => is_passed(&state.board, state.side, square),
        None => true,
    }
}
