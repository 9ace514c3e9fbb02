//! The last two plies of games.

use arrayvec::ArrayVec;
use pg_fen::Diagram;
use pg_moves::LegalMoves;
use pg_position::{Move, Position};
use pg_searcher::may_lead;

// Two moves, one of each colour, that lead to the diagram.
#[derive(Clone, Copy, Default)]
pub(crate) struct Ending {
    pub(crate) before: Move,
    pub(crate) last: Move,
}

// As many endings as are wanted of a node: with two of them the problem is not sound.
pub(crate) type Endings = ArrayVec<Ending, 2>;

// Whether a move is legal and leads to the diagram.
fn leads(diagram: &Diagram, position: &Position, m: &Move) -> bool {
    match position.play(*m) {
        Ok(next) => diagram.matches(&next),
        Err(_) => false,
    }
}

// The move that leads to the diagram; none where none does. It changes the squares that it leaves and reaches, in a
// capture en passant a third one, in castling four.
pub(crate) fn last_move(diagram: &Diagram, position: &Position) -> Option<Move> {
    let changed = position.board().differing(&diagram.board()).len();
    if changed < 2 || changed > 4 {
        return None;
    }
    let mut moves = LegalMoves::new(position);
    for _ in 0..u16::MAX {
        let Some(m) = moves.next() else {
            return None;
        };
        if leads(diagram, position, &m) {
            return Some(m);
        }
    }
    None
}

// The move that leads to the diagram behind a legal one.
fn ending_after(diagram: &Diagram, position: &Position, before: &Move) -> Option<Ending> {
    let Ok(next) = position.play(*before) else {
        return None;
    };
    match last_move(diagram, &next) {
        Some(last) => Some(Ending {
            before: *before,
            last,
        }),
        None => None,
    }
}

// The first endings of a node with two plies left.
pub(crate) fn endings(diagram: &Diagram, position: &Position) -> Endings {
    let mut endings = Endings::new();
    if !may_lead(diagram, position) {
        return endings;
    }
    let mut moves = LegalMoves::new(position);
    for _ in 0..u16::MAX {
        let Some(m) = moves.next() else {
            return endings;
        };
        if let Some(ending) = ending_after(diagram, position, &m) {
            if endings.try_push(ending).is_err() {
                return endings;
            }
        }
    }
    endings
}
