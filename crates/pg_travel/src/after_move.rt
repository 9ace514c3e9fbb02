//! What a move leaves of its own side's travel, told from the position before it, by rows. Nearly every
//! move that travel excludes is of no use to its own side, so no position need be made for it.
ghost use Rattle.std.specs.Prelude.{◌≡◌, ◌≢◌, ℕ, ◌<◌, ◌≤◌, ◌↔◌, IsTrue, true, false, None, Some};
ghost use Rattle.pg_board.specs.Bits.{has};
ghost use Rattle.pg_board.specs.declared.man.Color.{Color as AColor};
ghost use Rattle.pg_board.specs.declared.man.Kind.{Kind as AKind};
ghost use Rattle.pg_board.specs.Placement.{Placement, get};
ghost use Rattle.pg_captures.specs.Counting.{men, any_man};
ghost use Rattle.pg_position.specs.declared.state.State.{State};
ghost use Rattle.pg_position.specs.Position.{Stands, IsPosition};
ghost use Rattle.pg_position.specs.Step.{Legal};
ghost use Rattle.pg_travel.specs.Needs.{TravelTest};
ghost use Rattle.pg_travel.specs.inner.AfterMove.{MayCastle, IsTold, AreMoved, KeepsRights, IsMoved, AreToCome};
ghost use Rattle.pg_travel.specs.inner.AfterMove.{NonePays};
ghost use Rattle.pg_travel.specs.inner.LeastRows.{IsBelow};
ghost use Rattle.pg_travel.specs.inner.Within.{CastledIs};

use crate::least_rows::{castled, cost_by, lowered_by_all, too_many};
use crate::misplaced::castled_squares;
use crate::rows::Rows;
use pg_board::{Board, Color, Kind, SquareSet};
use pg_captures::plies_left;
use pg_fen::Diagram;
use pg_position::{Move, Position, Wing, king_home, king_target};

// Whether a move of the colour may be castling, as far as its squares tell.
fn may_castle(color: Color, m: &Move) -> bool
    ensures { IsTrue result ↔ MayCastle color m.now }
{
    m.from == king_home(color)
        && (m.to == king_target(color, Wing::KingSide)
            || m.to == king_target(color, Wing::QueenSide))
}

// Whether another man than the one that moves is to stand where it goes, if any is.
#[inline(always)]
fn differs_there(board: &Board, goal: &Board, m: &Move) -> bool
    ensures { IsTrue result → get board.now m.now.from ≢ get goal.now m.now.to }
{
    match board.get(m.from) {
        None => false,
        Some(man) => !goal.squares_of(man).contains(m.to),
    }
}

// Squares to which men of the colour are to come after a move that is no castling: where none of them
// stands, the one that the move leaves, and the one that it comes to if another man is to stand there.
#[inline(always)]
fn to_come_after(goal: &Board, board: &Board, color: Color, m: &Move) -> SquareSet
    ensures { (a : Placement) → AreMoved board.now a color m.now.from m.now.to → AreToCome a goal.now color result }
{
    let own = goal.squares_of_color(color);
    let moved = board.differing(goal) | SquareSet::single(m.from);
    let there = SquareSet::single(m.to);
    let elsewhere = (own & moved) - there;
    if own.contains(m.to) && differs_there(board, goal, m) {
        elsewhere | there
    } else {
        elsewhere
    }
}

// Whether `plies` plies do not pay for castling by a right, by the men that are to come: a ply for each but those whom
// castling may bring. And whether the right is not held.
#[inline(always)]
fn too_many_castled(
    position: &Position,
    come: SquareSet,
    color: Color,
    right: Wing,
    plies: u16,
) -> bool
    ensures { IsTrue result → (q : State) (d : Placement) → KeepsRights position.now q color
        → AreToCome q.board d color come → CastledIs q d color right plies false }
{
    if position.rights().holds(color, right) {
        let sure = come - castled_squares(color, right);
        too_many(sure, Some(right), plies)
    } else {
        true
    }
}

// Whether `plies` plies pay for no way after the move, by the men that are to come: no row is read. Castling
// brings two men at most that are to come, and costs a ply, so it need not be told where they are more than the plies
// by two or above.
#[inline(always)]
fn too_many_to_come(goal: &Board, position: &Position, color: Color, m: &Move, plies: u16) -> bool
    ensures { IsTrue result → (q : State) → IsMoved position.now q color m.now → NonePays q goal.now color plies }
{
    let come = to_come_after(goal, &position.board(), color, m);
    let count = u16::from(come.len());
    if count <= plies {
        return false;
    }
    if count - plies > 1 {
        return true;
    }
    if !too_many_castled(position, come, color, Wing::KingSide, plies) {
        return false;
    }
    too_many_castled(position, come, color, Wing::QueenSide, plies)
}

// Distances that none of the colour's men is nearer than after the move, which brings a man of this kind
// to its square: the row of that man, lowered by those of all others.
#[inline(always)]
fn row_after(rows: &Rows, board: &Board, color: Color, kind: Kind, m: &Move) -> [u8; 16]
    ensures { Stands board.now color kind m.now.from → (a : Placement)
        → AreMoved board.now a color m.now.from m.now.to → IsBelow rows.now a color result }
{
    // A fact for the proof: the square is on the board.
    m.to.index();
    let off = SquareSet::single(m.from);
    let arrived = rows.of(color, kind, m.to);
    lowered_by_all(rows, board, color, off, arrived)
}

// Whether castling by a right is not paid for, by such distances, or the right is not held.
#[inline(always)]
fn castled_above(
    rows: &Rows,
    position: &Position,
    color: Color,
    right: Wing,
    row: [u8; 16],
    plies: u16,
) -> bool
    requires { men color any_man rows.now ≤ 16 }
    ensures { IsTrue result → (q : State) → IsPosition q → KeepsRights position.now q color
        → IsBelow rows.now q.board color row → CastledIs q rows.now color right plies false }
{
    if position.rights().holds(color, right) {
        cost_by(Some(right), castled(rows, color, right, row)) > plies
    } else {
        true
    }
}

// Whether `plies` plies pay for no way after the move, by rows.
#[inline(always)]
fn rows_above(rows: &Rows, position: &Position, color: Color, m: &Move, plies: u16) -> bool
    requires { men color any_man rows.now ≤ 16 }
    ensures { IsTrue result → (q : State) → IsMoved position.now q color m.now → NonePays q rows.now color plies }
{
    let board = position.board();
    let Some(man) = board.get(m.from) else {
        return false;
    };
    let row = row_after(rows, &board, color, man.kind, m);
    if cost_by(None, row) <= plies {
        return false;
    }
    if !castled_above(rows, position, color, Wing::KingSide, row, plies) {
        return false;
    }
    castled_above(rows, position, color, Wing::QueenSide, row, plies)
}

// Whether the move is told from the position before it: no promotion, and no castling as far as its squares
// tell.
#[inline(always)]
fn is_told(color: Color, m: &Move) -> bool
    ensures { IsTrue result → IsTold color m.now }
{
    if m.promotion.is_some() {
        return false;
    }
    !may_castle(color, m)
}

// Whether the side that makes a legal move is sure to exclude after it, by its men that are to come. A no says
// nothing.
#[inline(always)]
pub(crate) fn far_off_after(diagram: &Diagram, position: &Position, m: &Move, left: u8) -> bool
    ensures { IsTrue result → (q : State) → Legal position.now m.now q
        → TravelTest diagram.now q left position.now.side }
{
    let color = position.side();
    if !is_told(color, m) {
        return false;
    }
    let plies = u16::from(plies_left(color.other(), color, left));
    too_many_to_come(&diagram.board(), position, color, m, plies)
}

// Whether `above_after` may be asked of the side that makes the move: it is told from the position before it, and
// the rows have each of its men.
#[inline(always)]
pub(crate) fn is_told_by(rows: &Rows, position: &Position, m: &Move) -> bool
    ensures told { IsTrue result → IsTold position.now.side m.now }
    ensures few { IsTrue result → men position.now.side any_man rows.now ≤ 16 }
{
    let color = position.side();
    if !is_told(color, m) {
        return false;
    }
    rows.men(color) <= 16
}

// Whether that side is sure to exclude after a legal move, by rows. A no proves nothing, but comes only where a way
// seems to be paid for: that of no castling, or one by a right held before the move, at the least that it can cost.
pub(crate) fn above_after(rows: &Rows, position: &Position, m: &Move, left: u8) -> bool
    requires told { IsTold position.now.side m.now }
    requires few { men position.now.side any_man rows.now ≤ 16 }
    ensures { IsTrue result → (q : State) → Legal position.now m.now q
        → TravelTest rows.now q left position.now.side }
{
    let color = position.side();
    let plies = u16::from(plies_left(color.other(), color, left));
    rows_above(rows, position, color, m, plies)
}
