//! The need of a way by rows: the least distances to all men of a diagram at once.
ghost use Rattle.std.specs.Prelude.{◌≡◌, ℕ, ◌<◌, ◌≤◌, ◌↔◌, IsTrue, get_or, Some, None, false};
ghost use Rattle.pg_board.specs.Placement.{Placement, get};
ghost use Rattle.pg_board.specs.declared.man.Color.{Color as AColor};
ghost use Rattle.pg_board.specs.SquareSets.{IsSetOf};
ghost use Rattle.pg_board.specs.Tally.{total};
ghost use Rattle.pg_captures.specs.Counting.{men, any_man};
ghost use Rattle.pg_position.specs.declared.rights.Wing.TheVariants.{KingSide, QueenSide};
ghost use Rattle.pg_position.specs.declared.state.State.{State};
ghost use Rattle.pg_travel.specs.Needs.{TravelTest};
ghost use Rattle.pg_travel.specs.inner.LeastRows.{AreLesser, IsLowered, IsHomeOf, IsOff, StandsOff, IsLeastFrom};
ghost use Rattle.pg_travel.specs.inner.LeastRows.{IsFree, IsAway, IsLeastRow, IsCastled, row_cost};
ghost use Rattle.pg_travel.specs.inner.Within.{CostsEach, PaysIs, CastledIs};

use crate::castling::{charge, counted};
use crate::needs::same_side;
use crate::rows::{Rows, unreached};
use pg_board::{Board, Color, Kind, Man, Square, SquareSet};
use pg_captures::plies_left;
use pg_position::{Position, Wing, king_crossed, king_home, king_target, rook_home};

// The lesser of each two numbers.
#[inline(always)]
pub(crate) fn lesser(least: [u8; 16], row: [u8; 16]) -> [u8; 16]
    ensures { AreLesser least row result }
{
    let mut lowered = least;
    for i in 0..16usize {
        lowered[i] = lowered[i].min(row[i]);
    }
    lowered
}

// The sum of a row.
#[inline(always)]
fn sum(row: [u8; 16]) -> u16
    ensures value { result ≡ total (λ i. get_or row i 0) 16 }
    ensures low { result ≤ 4080 }
{
    let mut sum = 0u16;
    for i in 0..16usize {
        sum += u16::from(row[i]);
    }
    sum
}

// Where the colour's king and rooks stand before they castle.
fn homes(color: Color) -> SquareSet
    ensures { IsSetOf result (IsHomeOf color) }
{
    SquareSet::single(king_home(color))
        | (SquareSet::single(rook_home(color, Wing::KingSide))
            | SquareSet::single(rook_home(color, Wing::QueenSide)))
}

// Lowered by the rows of each such man that stands off these squares.
#[inline(always)]
fn lowered_by(rows: &Rows, board: &Board, man: Man, off: SquareSet, least: [u8; 16]) -> [u8; 16]
    ensures { IsLowered rows.now board.now man.color None (StandsOff board.now man off) least result }
{
    let mut own = board.squares_of(man) - off;
    let mut lowest = least;
    while let Some(o) = own.pop_first() {
        let next = lesser(lowest, rows.of(man.color, man.kind, o));
        lowest = next;
    }
    lowest
}

// Lowered by the rows of each man of the colour that stands off these squares.
#[inline(always)]
pub(crate) fn lowered_by_all(
    rows: &Rows,
    board: &Board,
    color: Color,
    off: SquareSet,
    start: [u8; 16],
) -> [u8; 16]
    ensures { IsLowered rows.now board.now color None (IsOff off) start result }
{
    let pawns = lowered_by(rows, board, Man::new(color, Kind::Pawn), off, start);
    let knights = lowered_by(rows, board, Man::new(color, Kind::Knight), off, pawns);
    let bishops = lowered_by(rows, board, Man::new(color, Kind::Bishop), off, knights);
    let rooks = lowered_by(rows, board, Man::new(color, Kind::Rook), off, bishops);
    let queens = lowered_by(rows, board, Man::new(color, Kind::Queen), off, rooks);
    lowered_by(rows, board, Man::new(color, Kind::King), off, queens)
}

// The least distances from the men off these squares, counted where they stand.
#[inline(always)]
fn least_off(rows: &Rows, board: &Board, color: Color, off: SquareSet) -> [u8; 16]
    ensures { IsLeastFrom rows.now board.now color (IsOff off) result }
{
    lowered_by_all(rows, board, color, off, unreached(rows.men(color)))
}

// The least distances from all men where they stand: those by the way without castling.
#[inline(always)]
fn free_row(rows: &Rows, board: &Board, color: Color) -> [u8; 16]
    ensures { IsFree rows.now board.now color result }
{
    least_off(rows, board, color, SquareSet::empty())
}

// The least distances from the men off the homes, which all ways count where they stand.
fn away(rows: &Rows, board: &Board, color: Color) -> [u8; 16]
    ensures { IsAway rows.now board.now color result }
{
    least_off(rows, board, color, homes(color))
}

// Lowered by the row of what stands on a square, if it is a man of the colour.
#[inline(always)]
fn lowered_at(
    rows: &Rows,
    board: &Board,
    color: Color,
    way: Option<Wing>,
    o: Square,
    least: [u8; 16],
) -> [u8; 16]
    ensures { IsLowered rows.now board.now color way (λ q. q ≡ o) least result }
{
    // A fact for the proof: the square is on the board.
    o.index();
    match board.get(o) {
        None => least,
        Some(m) => {
            if same_side(m.color, color) {
                lesser(least, rows.of(color, m.kind, counted(color, way, o)))
            } else {
                least
            }
        }
    }
}

// The least distances by a way, where those from off the homes are known.
fn least(rows: &Rows, board: &Board, color: Color, way: Option<Wing>, away: [u8; 16]) -> [u8; 16]
    requires { IsAway rows.now board.now color away }
    ensures { IsLeastRow rows.now board.now color way result }
{
    let king = lowered_at(rows, board, color, way, king_home(color), away);
    let short = lowered_at(
        rows,
        board,
        color,
        way,
        rook_home(color, Wing::KingSide),
        king,
    );
    lowered_at(
        rows,
        board,
        color,
        way,
        rook_home(color, Wing::QueenSide),
        short,
    )
}

// What a way costs by a row of least distances.
#[inline(always)]
pub(crate) fn cost_by(way: Option<Wing>, row: [u8; 16]) -> u16
    ensures { result ≡ row_cost way row }
{
    charge(way) + sum(row)
}

// Whether `plies` plies pay for a way.
fn pays(
    rows: &Rows,
    board: &Board,
    color: Color,
    way: Option<Wing>,
    away: [u8; 16],
    plies: u16,
) -> bool
    requires few { men color any_man rows.now ≤ 16 }
    requires limit { plies < 255 }
    requires away { IsAway rows.now board.now color away }
    ensures { (p : State) → p.board ≡ board.now → PaysIs p rows.now color way plies result }
{
    cost_by(way, least(rows, board, color, way, away)) <= plies
}

// Whether `plies` plies do not pay for a way, where the men on these squares cost one each.
#[inline(always)]
pub(crate) fn too_many(sure: SquareSet, way: Option<Wing>, plies: u16) -> bool
    ensures { IsTrue result → (p : State) (d : Placement) (c : AColor) → CostsEach p.board d c way sure
        → PaysIs p d c way plies false }
{
    charge(way) + u16::from(sure.len()) > plies
}

// Whether they do not pay for castling by a right, by the men that are sure to cost one each, and whether that is
// not held.
#[inline(always)]
fn too_many_castled(rows: &Rows, position: &Position, color: Color, right: Wing, plies: u16) -> bool
    ensures { IsTrue result → CastledIs position.now rows.now color right plies false }
{
    if position.rights().holds(color, right) {
        let sure = rows.sure_to_cost(&position.board(), color, Some(right));
        too_many(sure, Some(right), plies)
    } else {
        true
    }
}

// Lowered by the rows of king and rook where castling brings them. It moves no other man, so by that
// way none is nearer than this row has it.
#[inline(always)]
pub(crate) fn castled(rows: &Rows, color: Color, wing: Wing, free: [u8; 16]) -> [u8; 16]
    ensures { IsCastled rows.now color wing free result }
{
    let king = lesser(free, rows.of(color, Kind::King, king_target(color, wing)));
    lesser(king, rows.of(color, Kind::Rook, king_crossed(color, wing)))
}

// Whether `plies` plies pay for castling.
#[inline(never)]
fn pays_exactly(rows: &Rows, position: &Position, color: Color, wing: Wing, plies: u16) -> bool
    requires few { men color any_man rows.now ≤ 16 }
    requires limit { plies < 255 }
    ensures { PaysIs position.now rows.now color (Some wing) plies result }
{
    let board = position.board();
    let away = away(rows, &board, color);
    pays(rows, &board, color, Some(wing), away, plies)
}

// Whether a right is held to castle so, and `plies` plies pay for it. Mostly they are too few even where
// king and rook count on both their squares.
#[inline(always)]
fn pays_castled(
    rows: &Rows,
    position: &Position,
    color: Color,
    right: Wing,
    free: [u8; 16],
    plies: u16,
) -> bool
    requires few { men color any_man rows.now ≤ 16 }
    requires limit { plies < 255 }
    requires free { IsFree rows.now position.now.board color free }
    ensures { CastledIs position.now rows.now color right plies result }
{
    // A fact for the proof: what is handed in is a position, so the right has king and rook at home.
    position.side();
    if position.rights().holds(color, right) {
        if cost_by(Some(right), castled(rows, color, right, free)) > plies {
            return false;
        }
        pays_exactly(rows, position, color, right, plies)
    } else {
        false
    }
}

// Whether `plies` plies pay for no way, by the men that are sure to cost one each: no row is read.
fn far_off(rows: &Rows, position: &Position, color: Color, plies: u16) -> bool
    ensures free { IsTrue result → PaysIs position.now rows.now color None plies false }
    ensures short { IsTrue result → CastledIs position.now rows.now color KingSide plies false }
    ensures long { IsTrue result → CastledIs position.now rows.now color QueenSide plies false }
{
    let sure = rows.sure_to_cost(&position.board(), color, None);
    too_many(sure, None, plies)
        && too_many_castled(rows, position, color, Wing::KingSide, plies)
        && too_many_castled(rows, position, color, Wing::QueenSide, plies)
}

// Whether the colour's need does not exist or is above its plies left: no way is paid for.
pub(crate) fn excludes_by(rows: &Rows, color: Color, position: &Position, left: u8) -> bool
    requires { men color any_man rows.now ≤ 16 }
    ensures { IsTrue result ↔ TravelTest rows.now position.now left color }
{
    let plies = u16::from(plies_left(position.side(), color, left));
    if far_off(rows, position, color, plies) {
        return true;
    }
    let board = position.board();
    let free = free_row(rows, &board, color);
    if cost_by(None, free) <= plies {
        return false;
    }
    let short = pays_castled(rows, position, color, Wing::KingSide, free, plies);
    if short {
        return false;
    }
    let long = pays_castled(rows, position, color, Wing::QueenSide, free, plies);
    !long
}
