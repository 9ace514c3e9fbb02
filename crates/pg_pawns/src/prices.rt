//! The test of a price list of pawn files.
ghost use Rattle.std.specs.Prelude.{◌≡◌, ℕ, ◌+◌, ◌↔◌, IsTrue, ◌<◌, ◌≤◌};
ghost use Rattle.pg_position.specs.Game.{Barren};
ghost use Rattle.pg_captures.specs.Counting.{any_pawn};
ghost use Rattle.pg_captures.specs.PriceLists.{IsPriced, list_of};
ghost use Rattle.pg_pawns.specs.PawnPrices.{PawnPricesExclude};
ghost use Rattle.pg_pawns.specs.inner.PriceTests.{IsAhead, PairFits, SourceFits, AllFit};

use pg_board::{Board, Color, Kind, Man, Square};
use pg_captures::{pawns, price_sum, victims_of};
use pg_fen::Diagram;
use pg_position::Position;

// Whether the second rank is at least `ranks` ranks before the first, as the colour's pawns go.
fn is_ahead(color: Color, from: u8, to: u8, ranks: u8) -> bool
    requires { (from < 9) × (to < 9) × (ranks < 9) }
    ensures { IsTrue result ↔ IsAhead color from to ranks }
{
    match color {
        Color::White => from + ranks <= to,
        Color::Black => to + ranks <= from,
    }
}

// Whether a target pays at most what a source does and `files` more.
fn pays_at_most(v: u8, u: u8, files: u8) -> bool
    ensures { IsTrue result ↔ (v ≤ u + files) }
{
    u16::from(v) <= u16::from(u) + u16::from(files)
}

// Whether a pawn on `t` that pays `v` fits one on `s` that pays `u`.
fn pair_fits(color: Color, s: Square, u: u8, t: Square, v: u8) -> bool
    ensures { IsTrue result ↔ PairFits color s u t v }
{
    if v <= u {
        return true;
    }
    // Facts for the proof: both squares are on the board.
    s.index();
    t.index();
    let shift = s.file().abs_diff(t.file());
    if is_ahead(color, s.rank(), t.rank(), shift) {
        pays_at_most(v, u, shift)
    } else {
        true
    }
}

// Whether every pawn of the diagram fits one on `s` that pays `u`.
fn source_fits(goal: &Board, color: Color, s: Square, u: u8, v: &[u8]) -> bool
    requires { IsPriced v.now color any_pawn goal.now }
    ensures { IsTrue result ↔ SourceFits goal.now color s u v.now }
{
    let own = goal.squares_of(Man::new(color, Kind::Pawn));
    let mut place = 0usize;
    let mut from = 0u8;
    while let Some(t) = own.first_from(from) {
        if !pair_fits(color, s, u, t, v[place]) {
            return false;
        }
        place += 1;
        from = t.index() + 1;
    }
    true
}

// Whether every pawn of the diagram fits every pawn of the board.
fn all_fit(board: &Board, goal: &Board, color: Color, u: &[u8], v: &[u8]) -> bool
    requires { IsPriced u.now color any_pawn board.now × IsPriced v.now color any_pawn goal.now }
    ensures { IsTrue result ↔ AllFit board.now goal.now color u.now v.now }
{
    let own = board.squares_of(Man::new(color, Kind::Pawn));
    let mut place = 0usize;
    let mut from = 0u8;
    while let Some(s) = own.first_from(from) {
        if !source_fits(goal, color, s, u[place], v) {
            return false;
        }
        place += 1;
        from = s.index() + 1;
    }
    true
}

fn excluded(diagram: &Diagram, position: &Position, color: Color, u: &[u8], v: &[u8]) -> bool
    ensures { IsTrue result ↔ PawnPricesExclude diagram.now position.now color (list_of u.now v.now) }
{
    let board = position.board();
    let goal = diagram.board();
    if u.len() != pawns(&board, color) as usize {
        return false;
    }
    if v.len() != pawns(&goal, color) as usize {
        return false;
    }
    let here = u16::from(victims_of(&board, color));
    let there = u16::from(victims_of(&goal, color));
    if price_sum(v) + there <= here + price_sum(u) {
        return false;
    }
    all_fit(&board, &goal, color, u, v)
}

/// Whether a price list excludes every game, of any number of plies, from the position to the
/// diagram. `u` has a number for each pawn of the colour in the position, its sources, and `v` for
/// each in the diagram, its targets, in order of their squares. Every target pays no more than any
/// source and the files between them, where it lies as many ranks ahead of the source; and what the
/// targets pay less what the sources pay is above the captures that the colour owes, the men of the
/// other colour in the position less those in the diagram. False for any other list.
pub fn prices_exclude(
    diagram: &Diagram,
    position: &Position,
    color: Color,
    u: &[u8],
    v: &[u8],
) -> bool
    ensures exact { IsTrue result ↔ PawnPricesExclude diagram.now position.now color (list_of u.now v.now) }
    ensures barren { IsTrue result → (k : ℕ) → Barren diagram.now position.now k }
{
    // A fact for the proof: what is handed in is a position.
    position.side();
    excluded(diagram, position, color, u, v)
}
