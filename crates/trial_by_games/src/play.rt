//! Games whose moves are drawn.
use crate::dice::Dice;
use pg_board::{Color, Square, SquareSet};
use pg_captures::victims_of;
use pg_moves::legal_moves;
use pg_position::{Move, Position};
use std::alloc::{AllocError, Global};

// A game: the positions before each move, the squares where White and where Black captured, and the last position.
#[derive(Drop)]
pub(crate) struct Game {
    pub(crate) positions: Vec<Position>,
    pub(crate) captures: [SquareSet; 2],
    pub(crate) end: Position,
}

// Whether a move is of a kind that is drawn more often: a capture, a promotion or a castling.
fn is_rare(position: &Position, m: &Move) -> bool {
    let board = position.board();
    let is_castling = board.king(position.side()) == Some(m.from)
        && m.from.file().abs_diff(m.to.file()) == 2;
    is_castling || board.get(m.to).is_some() || m.promotion.is_some()
}

// One of the moves: the first rare one of three that are drawn, or the last of these.
fn drawn<'a>(dice: &mut Dice, position: &Position, moves: &'a [Move]) -> Option<&'a Move> {
    let mut chosen = moves.get(dice.below(moves.len()));
    for _ in 0..2u8 {
        if let Some(m) = chosen {
            if is_rare(position, m) {
                return Some(m);
            }
        }
        chosen = moves.get(dice.below(moves.len()));
    }
    chosen
}

// The square that a move went to, where the colour captured by it; else none.
fn captured_on(color: Color, before: &Position, after: &Position, to: Square) -> SquareSet {
    if victims_of(&after.board(), color) < victims_of(&before.board(), color) {
        SquareSet::single(to)
    } else {
        SquareSet::empty()
    }
}

// Plays `plies` plies, or fewer where no move is legal.
pub(crate) fn play_game(alloc: Global, dice: &mut Dice, plies: usize) -> Result<Game, AllocError> {
    let mut positions = Vec::new(alloc);
    let mut white = SquareSet::empty();
    let mut black = SquareSet::empty();
    let mut end = Position::array();
    for _ in 0..plies {
        let moves = legal_moves(alloc, &end)?;
        let Some(m) = drawn(dice, &end, moves.as_slice()) else {
            break;
        };
        let Ok(next) = end.play(*m) else {
            break;
        };
        white = white | captured_on(Color::White, &end, &next, m.to);
        black = black | captured_on(Color::Black, &end, &next, m.to);
        positions.push(end)?;
        end = next;
    }
    Ok(Game {
        positions,
        captures: [white, black],
        end,
    })
}
