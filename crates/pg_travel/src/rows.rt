//! The distances of each man on each square to the men of a diagram, sixteen in a row.
ghost use Rattle.std.specs.Prelude.{◌≡◌, ◌≢◌, ℕ, ◌+◌, ◌-◌, ◌*◌, ◌/◌, ◌<◌, ◌≤◌, ◌↔◌, IsTrue};
ghost use Rattle.pg_board.specs.Men.{number_of_kind};
ghost use Rattle.pg_captures.specs.Counting.{men, any_man};
ghost use Rattle.pg_travel.specs.inner.DistanceRows.{stored, IsRow, IsRowFrom, IsWithKind, IsWritten, row_place};
ghost use Rattle.pg_travel.specs.inner.DistanceRows.{IsRowAt, AreRows, AreFirstRows, IsReached, IsPieceRow, IsMask};
ghost use Rattle.pg_travel.specs.inner.DistanceRows.{IsUnmasked, page_start, IsFurtherIn, IsFurtherAt, AreFurther};
ghost use Rattle.pg_travel.specs.inner.DistanceRows.{RowFits};
ghost use Rattle.pg_travel.specs.inner.Formulas.{distance_of};
ghost use Rattle.pg_board.specs.declared.man.Color.TheVariants.{White, Black};
ghost use Rattle.pg_board.specs.declared.man.Kind.TheVariants.{Pawn};
ghost use Rattle.pg_travel.specs.inner.LeastRows.{IsUnreached};
ghost use Rattle.pg_travel.specs.inner.Within.{CostsEach};

use crate::distances::all_steps;
use crate::misplaced::sure_to_cost;
use crate::numbers::number_before;
use pg_board::{Board, Color, Kind, Man, Square, SquareSet};
use pg_captures::all_men;
use pg_fen::Diagram;
use pg_position::Wing;
use std::marker::Model;

/// The distances of each man on each square to the men of its colour in a diagram, for tests that are
/// asked often, made once: 768 rows of 16 bytes. Contracts see them as the placement of the diagram.
/// They hold the first sixteen men of a colour, which are all of them in any diagram that a game ends on.
/// Men past those have 402 rows more, for price lists; the bound by travel goes without rows there.
#[derive(Drop)]
pub struct Rows {
    goal: Board,
    table: [[u8; 16]; 768],
    further: [[u8; 16]; 402],
}

impl Model for Rows {
    ghost use Rattle.pg_board.specs.Placement.{Placement};
    ghost use Rattle.pg_board.specs.lemmas.Codes.{placement_code};
    ghost use Rattle.pg_travel.specs.inner.DistanceRows.{AreRows, AreFurther};

    ghost Value = { Placement };

    ghost coded = { placement_code };

    ghost view = { λ r. r.goal };

    ghost invariant = { λ r. AreRows r.goal r.table × AreFurther r.goal r.further };
}

// A distance as a row has it: 255 for none.
fn stored(steps: u8) -> u8
    ensures { result ≡ stored steps }
{
    if steps == 64 { 255 } else { steps }
}

// No distance, where there are `count` men and this is the number of one of them.
fn no_distance(number: u8, count: u8) -> u8
    ensures among { number < count → result ≡ 255 }
    ensures past { count ≤ number → result ≡ 0 }
{
    if number < count { 255 } else { 0 }
}

// A row without a distance to any of `count` men.
#[inline(always)]
pub(crate) fn unreached(count: u8) -> [u8; 16]
    ensures { IsUnreached count result }
{
    let mut row = [0; 16];
    for i in 0..16u8 {
        row[i as usize] = no_distance(i, count);
    }
    row
}

// With the steps to the man with a number, where he is one of sixteen from the first on.
#[inline(always)]
fn written(row: [u8; 16], first: u8, number: u8, steps: u8) -> [u8; 16]
    ensures { IsWritten first number steps row result }
{
    let mut all = row;
    if first <= number && number - first < 16 {
        all[(number - first) as usize] = steps;
    }
    all
}

// With the distances from a man on a square to the targets of a kind.
#[inline(always)]
fn with_kind(goal: &Board, man: Man, from: Square, kind: Kind, first: u8, row: [u8; 16]) -> [u8; 16]
    ensures { IsWithKind goal.now man.color kind first
        (λ t. stored (distance_of man.color kind man.kind from t)) row result }
{
    let own = goal.squares_of_color(man.color);
    let mut left = goal.squares_of(Man::new(man.color, kind));
    let mut all = row;
    while let Some(t) = left.pop_first() {
        let steps = stored(all_steps(man, from, kind, t));
        let next = written(all, first, number_before(own, t), steps);
        all = next;
    }
    all
}

// The row of a pawn, which comes to be of each kind but a king, where nothing is reached at first.
#[inline(always)]
fn row_of_pawn(goal: &Board, color: Color, from: Square, first: u8, none: [u8; 16]) -> [u8; 16]
    requires { IsUnreached (men color any_man goal.now - first) none }
    ensures { IsRowFrom goal.now color Pawn from first result }
{
    let pawn = Man::new(color, Kind::Pawn);
    let pawns = with_kind(goal, pawn, from, Kind::Pawn, first, none);
    let knights = with_kind(goal, pawn, from, Kind::Knight, first, pawns);
    let bishops = with_kind(goal, pawn, from, Kind::Bishop, first, knights);
    let rooks = with_kind(goal, pawn, from, Kind::Rook, first, bishops);
    with_kind(goal, pawn, from, Kind::Queen, first, rooks)
}

// The row of a man on a square, for sixteen targets from the first on. Any but a pawn stays of his kind.
#[inline(always)]
fn row(goal: &Board, man: Man, from: Square, first: u8) -> [u8; 16]
    ensures { IsRowFrom goal.now man.color man.kind from first result }
{
    let none = unreached(all_men(goal, man.color).saturating_sub(first));
    match man.kind {
        Kind::Pawn => row_of_pawn(goal, man.color, from, first, none),
        _ => with_kind(goal, man, from, man.kind, first, none),
    }
}

// The kind with a number.
fn kind_with(number: u16) -> Kind
    requires { number < 6 }
    ensures { number_of_kind result ≡ number }
{
    if number == 0 {
        Kind::Pawn
    } else if number == 1 {
        Kind::Knight
    } else if number == 2 {
        Kind::Bishop
    } else if number == 3 {
        Kind::Rook
    } else if number == 4 {
        Kind::Queen
    } else {
        Kind::King
    }
}

// The row that stands at a place: first those of White's men, then those of Black's.
fn row_at(goal: &Board, place: u16) -> [u8; 16]
    requires { place < 768 }
    ensures { IsRowAt goal.now place result }
{
    if place < 384 {
        let man = Man::new(Color::White, kind_with(place / 64));
        row(goal, man, Square::at((place % 64) as u8), 0)
    } else {
        let rest = place - 384;
        let man = Man::new(Color::Black, kind_with(rest / 64));
        row(goal, man, Square::at((rest % 64) as u8), 0)
    }
}

// Writes all rows.
fn fill_table(goal: &Board, rows: &mut [[u8; 16]; 768])
    ensures { AreRows goal.now rows.new }
{
    for place in 0..768u16 {
        rows[place as usize] = row_at(goal, place);
    }
}

// The row of a man from a square to targets of his own kind, for any man but a pawn, and sixteen targets
// from the first on.
fn row_of_pieces(goal: &Board, color: Color, from: Square, first: u8) -> [u8; 16]
    ensures { IsPieceRow goal.now color from first result }
{
    let none = unreached(all_men(goal, color).saturating_sub(first));
    let knight = Man::new(color, Kind::Knight);
    let knights = with_kind(goal, knight, from, Kind::Knight, first, none);
    let bishop = Man::new(color, Kind::Bishop);
    let bishops = with_kind(goal, bishop, from, Kind::Bishop, first, knights);
    let rook = Man::new(color, Kind::Rook);
    let rooks = with_kind(goal, rook, from, Kind::Rook, first, bishops);
    let queen = Man::new(color, Kind::Queen);
    let queens = with_kind(goal, queen, from, Kind::Queen, first, rooks);
    let king = Man::new(color, Kind::King);
    with_kind(goal, king, from, Kind::King, first, queens)
}

// Zeros for such men among sixteen targets from the first on, and 255 for others.
fn mask(goal: &Board, man: Man, first: u8) -> [u8; 16]
    ensures { IsMask goal.now man.color man.kind first result }
{
    let own = goal.squares_of_color(man.color);
    let mut left = goal.squares_of(man);
    let none = unreached(all_men(goal, man.color).saturating_sub(first));
    let mut all = none;
    while let Some(t) = left.pop_first() {
        let next = written(all, first, number_before(own, t), 0);
        all = next;
    }
    all
}

// How many pages of sixteen the colour's men fill; one at least.
fn pages_of(goal: &Board, color: Color) -> u8
    ensures { result ≡ 1 + (men color any_man goal.now - 1) / 16 }
{
    1 + all_men(goal, color).saturating_sub(1) / 16
}

// The row at a place of a page past the first: 64 rows of pawns, 64 of other men, six masks.
fn further_in(goal: &Board, color: Color, first: u8, place: u16) -> [u8; 16]
    requires { place < 134 }
    ensures { IsFurtherIn goal.now color first place result }
{
    if place < 64 {
        row(
            goal,
            Man::new(color, Kind::Pawn),
            Square::at(place as u8),
            first,
        )
    } else if place < 128 {
        row_of_pieces(goal, color, Square::at((place - 64) as u8), first)
    } else {
        mask(goal, Man::new(color, kind_with(place - 128)), first)
    }
}

// The row at a place of the pages past the first, of which there are three. White's stand from the front,
// as many as its men fill, and Black's from the back.
fn further_at(goal: &Board, white: u8, black: u8, place: u16) -> [u8; 16]
    requires white { white ≡ 1 + (men White any_man goal.now - 1) / 16 }
    requires black { black ≡ 1 + (men Black any_man goal.now - 1) / 16 }
    requires place { place < 402 }
    ensures { IsFurtherAt goal.now place result }
{
    let page = (place / 134) as u8;
    if page + 1 < white {
        return further_in(goal, Color::White, 16 * (page + 1), place % 134);
    }
    if 3 - page < black {
        return further_in(goal, Color::Black, 16 * (3 - page), place % 134);
    }
    [0; 16]
}

// Writes all rows of the pages past the first, if a colour has men there.
fn fill_further(goal: &Board, rows: &mut [[u8; 16]; 402])
    ensures { AreFurther goal.now rows.new }
{
    let white = pages_of(goal, Color::White);
    let black = pages_of(goal, Color::Black);
    if white == 1 && black == 1 {
        return;
    }
    for place in 0..402u16 {
        rows[place as usize] = further_at(goal, white, black, place);
    }
}

// Where a page past the first begins.
#[inline(always)]
fn page_start(color: Color, page: usize) -> usize
    requires { (0 < page) × (page < 4) }
    ensures { result ≡ page_start color page }
{
    match color {
        Color::White => 134 * (page - 1),
        Color::Black => 134 * (3 - page),
    }
}

// A number of a row, where the mask has zero.
fn shown(mask: u8, steps: u8) -> u8
    ensures seen { mask ≡ 0 → result ≡ steps }
    ensures hidden { mask ≢ 0 → result ≡ 255 }
{
    if mask == 0 { steps } else { 255 }
}

// A row where the mask has zeros, and no distance elsewhere.
#[inline(always)]
fn unmasked(row: [u8; 16], mask: [u8; 16]) -> [u8; 16]
    ensures { IsUnmasked mask row result }
{
    let mut all = [0; 16];
    for i in 0..16usize {
        all[i] = shown(mask[i], row[i]);
    }
    all
}

// Where the row of a man on a square stands.
fn row_place(color: Color, kind: Kind, from: Square) -> usize
    ensures value { result ≡ row_place color kind from }
    ensures bound { (result < 768) × (from < 64) }
{
    let first = match color {
        Color::White => 0usize,
        Color::Black => 384usize,
    };
    first + 64 * kind.number() as usize + from.index() as usize
}

impl Rows {
    /// The rows of a diagram.
    pub fn new(diagram: &Diagram) -> Rows
        ensures { result ≡ diagram.now }
    {
        let goal = diagram.board();
        let mut table = [[0; 16]; 768];
        fill_table(&goal, &mut table);
        let mut further = [[0; 16]; 402];
        fill_further(&goal, &mut further);
        Rows {
            goal,
            table,
            further,
        }
    }

    // Whether they are those of the diagram.
    pub(crate) fn is_of(&self, diagram: &Diagram) -> bool
        ensures { IsTrue result ↔ (self.now ≡ diagram.now) }
    {
        self.goal == diagram.board()
    }

    // How many men of the colour the diagram has.
    pub(crate) fn men(&self, color: Color) -> u8
        ensures { result ≡ men color any_man self.now }
    {
        all_men(&self.goal, color)
    }

    // Squares of the diagram each of whose men of the colour costs something, by a way.
    #[inline(always)]
    pub(crate) fn sure_to_cost(&self, board: &Board, color: Color, way: Option<Wing>) -> SquareSet
        ensures { CostsEach board.now self.now color way result }
    {
        sure_to_cost(board, &self.goal, color, way)
    }

    // The row of a man on a square, for the first sixteen.
    #[inline(always)]
    pub(crate) fn of(&self, color: Color, kind: Kind, from: Square) -> [u8; 16]
        ensures { IsRow self.now color kind from result }
    {
        self.table[row_place(color, kind, from)]
    }

    // The same for the sixteen men of a page past the first.
    fn further(&self, color: Color, kind: Kind, from: Square, page: usize) -> [u8; 16]
        requires { (0 < page) × (page < 4) }
        ensures { IsReached self.now color page → IsRowFrom self.now color kind from (16 * page) result }
    {
        let start = page_start(color, page);
        let square = from.index() as usize;
        match kind {
            Kind::Pawn => self.further[start + square],
            _ => {
                let mask = self.further[start + (128 + kind.number() as usize)];
                unmasked(self.further[start + (64 + square)], mask)
            }
        }
    }

    // The same for the sixteen men of a page.
    #[inline(always)]
    pub(crate) fn on_page(&self, color: Color, kind: Kind, from: Square, page: usize) -> [u8; 16]
        requires { page < 4 }
        ensures { IsReached self.now color page → IsRowFrom self.now color kind from (16 * page) result }
    {
        if page == 0 {
            self.of(color, kind, from)
        } else {
            self.further(color, kind, from, page)
        }
    }
}

// Whether no target pays more than a source and the steps of its row.
pub(crate) fn fits(prices: [u8; 16], u: u8, row: [u8; 16]) -> bool
    ensures { IsTrue result ↔ RowFits prices u row }
{
    let mut above = 0u8;
    for i in 0..16usize {
        above |= prices[i].saturating_sub(u).saturating_sub(row[i]);
    }
    above == 0
}
