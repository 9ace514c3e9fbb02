//! Whether two moves may lead to the diagram, told by the men that stand where they do not belong.

use crate::ends::{is_near, leaf};
use crate::sides::is_special;
use pg_board::{Board, Kind, Man, Square, SquareSet};
use pg_fen::Diagram;
use pg_position::{Move, Position, ahead, attacks_from, has_ahead, home_rank, last_rank};

// The most squares on which a position two moves away differs: by castling each changes four.
pub(crate) const MOST_CHANGED: u8 = 8;

// Whether a move may lead to a position one move away from the diagram.
pub(crate) fn may_be_near(diagram: &Diagram, position: &Position, m: &Move) -> bool {
    let board = position.board();
    let goal = diagram.board();
    let squares = board.differing(&goal);
    let Some(man) = board.get(m.from) else {
        return false;
    };
    if is_special(man, board.get(m.to), m) {
        return true;
    }
    let from = SquareSet::single(m.from);
    let to = SquareSet::single(m.to);
    let none = SquareSet::empty();
    let left = if goal.get(m.from).is_some() {
        from
    } else {
        none
    };
    let reached = if goal.get(m.to) == Some(man) {
        none
    } else {
        to
    };
    is_near(squares - from - to | left | reached)
}

// Where a pawn may go forward, if nothing is in its way.
fn in_front(pawn: Man, from: Square) -> SquareSet {
    let color = pawn.color;
    let mut squares = SquareSet::empty();
    if has_ahead(color, 1, from) {
        squares = SquareSet::single(ahead(color, 1, from));
    }
    if from.rank() == home_rank(color) {
        squares = squares | SquareSet::single(ahead(color, 2, from));
    }
    squares
}

// Where a man may go, if not to fewer squares: a pawn goes forward whatever is in its way.
pub(crate) fn pseudo_moves(position: &Position, man: Man, from: Square) -> SquareSet {
    let board = position.board();
    let reached = attacks_from(&board, man, from) - board.squares_of_color(man.color);
    match man.kind {
        Kind::Pawn => reached | in_front(man, from),
        Kind::King => reached | position.castling_targets(),
        _ => reached,
    }
}

// Where a man may go by a move after which another one may lead to a board, and maybe more. What he moves to stands
// there in the end, or a man that takes him: only a pawn that is taken en passant leaves his square empty.
pub(crate) fn goes(goal: &Board, position: &Position, man: Man, from: Square) -> SquareSet {
    let squares = pseudo_moves(position, man, from);
    match man.kind {
        Kind::Pawn => squares,
        _ => squares & goal.occupied(),
    }
}

// Whether a move of a man may be followed by one that leads to the diagram. Of a promotion that is not asked.
fn move_may_lead(diagram: &Diagram, position: &Position, man: Man, m: &Move) -> bool {
    if man.kind == Kind::Pawn && m.to.rank() == last_rank(man.color) {
        return true;
    }
    if !may_be_near(diagram, position, m) {
        return false;
    }
    match position.play(*m) {
        Ok(next) => leaf(diagram, &next).is_some(),
        Err(_) => false,
    }
}

// Whether the man on a square may move so that another move leads to the diagram.
fn man_may_lead(diagram: &Diagram, position: &Position, from: Square) -> bool {
    let Some(man) = position.board().get(from) else {
        return false;
    };
    let mut targets = goes(&diagram.board(), position, man, from);
    for _ in 0..64u8 {
        let Some(to) = targets.pop_first() else {
            return false;
        };
        let m = Move {
            from,
            to,
            promotion: None,
        };
        if move_may_lead(diagram, position, man, &m) {
            return true;
        }
    }
    true
}

/// Whether a legal move may be followed by one that leads to the diagram: no; or yes, or that it was not asked of a
/// promotion. The man that moves first leaves a square on which the placements differ, since no man of his colour comes
/// there afterwards. So few men are asked, where most positions have some thirty moves and none that leads there.
pub fn may_lead(diagram: &Diagram, position: &Position) -> bool {
    let board = position.board();
    let squares = board.differing(&diagram.board());
    if squares.len() > MOST_CHANGED {
        return false;
    }
    let mut sources = squares & board.squares_of_color(position.side());
    for _ in 0..64u8 {
        let Some(from) = sources.pop_first() else {
            return false;
        };
        if man_may_lead(diagram, position, from) {
            return true;
        }
    }
    true
}
