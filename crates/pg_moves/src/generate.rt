//! The legal moves of a position as a list, and the next one after a move.
ghost use Rattle.std.specs.Prelude.{◌≡◌, MatchOption, IfOk, IfErr};
ghost use Rattle.pg_moves.specs.Moves.{IsMoveList, IsNext, IsLast};
ghost use Rattle.pg_position.specs.declared.moves.Move.{Move};
ghost use Rattle.pg_position.specs.Step.{IsLegal};

use crate::cursor::LegalMoves;
use crate::pins::{Pins, maybe_pinned};
use crate::places::Target;
use crate::search::first_move;
use pg_board::Square;
use pg_position::{Move, Position};
use std::alloc::{AllocError, Global};

/// The first legal move after the one handed in, be that legal or not, or the first of all. None
/// where no legal move comes after it. Moves are ordered by `from`, then `to`, then promotion. Takes
/// no memory.
pub fn next_legal(position: &Position, after: Option<Move>) -> Option<Move>
    ensures { MatchOption result (IsLast position.now after) (λ m. IsNext position.now after m) }
{
    let pins = Pins::new(position, maybe_pinned(position));
    match after {
        None => first_move(&pins, Square::at(0), Target::first()),
        Some(m) => {
            // A fact for the proof: the square is on the board.
            m.from.index();
            first_move(&pins, m.from, Target::past(&m))
        }
    }
}

/// The legal moves of a position, each once, ordered by `from`, then `to`, then promotion: none
/// before knight, bishop, rook and queen.
///
/// # Errors
/// `AllocError` where memory is refused: not where there is no legal move.
pub fn legal_moves(alloc: Global, position: &Position) -> Result<Vec<Move>, AllocError>
    ensures ok { IfOk result (λ v. IsMoveList position.now v.items) }
    ensures err { IfErr result (λ _. (m : Move) × IsLegal position.now m) }
{
    let mut moves = Vec::new(alloc);
    let mut left = LegalMoves::new(position);
    while let Some(m) = left.next() {
        moves.push(m)?;
    }
    Ok(moves)
}
