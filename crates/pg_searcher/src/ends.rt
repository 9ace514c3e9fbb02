//! The ends of games: the leaves that are on the diagram.

use crate::fault::SearchFault;
use crate::machine::{Findings, Frame, Output, Question};
use arrayvec::ArrayVec;
use pg_board::{Board, Kind, Man, Square, SquareSet};
use pg_certificate::Sink;
use pg_fen::Diagram;
use pg_position::{Move, Position};
use pg_san::AddFault;

// Adds a move to a game, where there is one. A game has room for the 128 plies that it may have.
pub(crate) fn put_move(game: &mut ArrayVec<Move, 128>, m: &Option<Move>) {
    if let Some(m) = m {
        let _ = game.try_push(*m);
    }
}

// The game that leads along the open nodes, by the move that was played last at each, and then by
// these moves.
fn game_along(frames: &[Frame], before: &Option<Move>, last: &Option<Move>) -> ArrayVec<Move, 128> {
    let mut game = ArrayVec::new();
    for frame in frames {
        put_move(&mut game, &frame.moves.last());
    }
    put_move(&mut game, before);
    put_move(&mut game, last);
    game
}

// A game of the tree's length ends on the diagram. The length must be the stated one, and the game is
// added.
pub(crate) fn end(
    question: &Question,
    frames: &[Frame],
    findings: &mut Findings,
    before: &Option<Move>,
    last: &Option<Move>,
) -> Result<(), SearchFault> {
    findings.fertile = true;
    if question.tree < question.plies {
        return Err(SearchFault::Shorter(question.tree));
    }
    let game = game_along(frames, before, last);
    match findings.games.add(game.as_slice()) {
        Ok(()) => Ok(()),
        Err(AddFault::Memory) => Err(SearchFault::Memory),
        Err(AddFault::TooMany) => Err(SearchFault::TooManyGames),
        Err(AddFault::Repeated) => Ok(()),
        Err(AddFault::IllegalMove(_)) => Ok(()),
    }
}

// What a pawn becomes that goes to a square of a board, if it is the last of its file: what stands
// there.
fn promotion(position: &Position, goal: &Board, from: Square, to: Square) -> Option<Kind> {
    let pawn = Man::new(position.side(), Kind::Pawn);
    let is_last = to.index() < 8 || to.index() >= 56;
    if !is_last || position.board().get(from) != Some(pawn) {
        return None;
    }
    match goal.get(to) {
        Some(man) => Some(man.kind),
        None => None,
    }
}

// Whether a move is legal and leads to the diagram.
fn leads(diagram: &Diagram, position: &Position, m: &Move) -> bool {
    match position.play(*m) {
        Ok(next) => diagram.matches(&next),
        Err(_) => false,
    }
}

// The move of a man from a square to one of a set that leads to the diagram.
fn leaf_from(
    diagram: &Diagram,
    position: &Position,
    from: Square,
    targets: SquareSet,
) -> Option<Move> {
    let goal = diagram.board();
    let mut targets = targets;
    for _ in 0..64u8 {
        let Some(to) = targets.pop_first() else {
            return None;
        };
        let promotion = promotion(position, &goal, from, to);
        let m = Move {
            from,
            to,
            promotion,
        };
        if leads(diagram, position, &m) {
            return Some(m);
        }
    }
    None
}

// Whether a move may change all squares of a set and no others: those that it leaves and reaches, in a
// capture en passant a third one, in castling four.
pub(crate) fn is_near(squares: SquareSet) -> bool {
    let count = squares.len();
    2 <= count && count <= 4
}

// The men of the side to move of whom one may make a move that changes `squares` squares: two are the one that he
// leaves and the one that he reaches, a third is emptied by a capture en passant, and castling changes four.
fn movers(position: &Position, squares: u8) -> SquareSet {
    let board = position.board();
    let side = position.side();
    match squares {
        2 => board.squares_of_color(side),
        3 => board.squares_of(Man::new(side, Kind::Pawn)),
        4 => board.squares_of(Man::new(side, Kind::King)),
        _ => SquareSet::empty(),
    }
}

// The move that leads from a position to the diagram. There is one at most, since the squares that it
// changes tell it: it leaves a square that differs, and goes to one where the diagram has a man of its colour.
pub(crate) fn leaf(diagram: &Diagram, position: &Position) -> Option<Move> {
    let goal = diagram.board();
    let board = position.board();
    let squares = board.differing(&goal);
    let mut sources = squares & movers(position, squares.len());
    if sources.is_empty() {
        return None;
    }
    let targets = squares & goal.squares_of_color(position.side());
    for _ in 0..64u8 {
        let Some(from) = sources.pop_first() else {
            return None;
        };
        if let Some(m) = leaf_from(diagram, position, from, targets) {
            return Some(m);
        }
    }
    None
}

// The leaf on the diagram below a node with one ply left, to which this move led.
pub(crate) fn leaves(
    question: &Question,
    frames: &[Frame],
    findings: &mut Findings,
    before: &Option<Move>,
    position: &Position,
) -> Result<(), SearchFault> {
    match leaf(question.diagram, position) {
        Some(m) => end(question, frames, findings, before, &Some(m)),
        None => Ok(()),
    }
}

// Visits a node with one ply left and writes its record.
pub(crate) fn last_node<W: Sink>(output: &mut Output, sink: &mut W) -> Result<(), SearchFault> {
    if output.budget.visit() {
        output.expand(false, sink)
    } else {
        Err(SearchFault::Budget)
    }
}
