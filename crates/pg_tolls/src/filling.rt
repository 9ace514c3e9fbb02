//! Fills tables of what walks are charged. No closed table has higher numbers than one that is filled here. Whether it
//! is closed is tested before it is used.
ghost use Rattle.std.specs.Prelude.{◌≡◌, ◌≢◌, ℕ, suc, ◌≤◌, IfOk, OnOk};
ghost use Rattle.pg_board.specs.Men.{kind_eq, other};
ghost use Rattle.pg_board.specs.declared.man.Kind.TheVariants.{Pawn};
ghost use Rattle.pg_journeys.specs.Known.{known};
ghost use Rattle.pg_journeys.specs.declared.men.Men.{Men as AnyMen};
ghost use Rattle.pg_journeys.specs.inner.Grounds.{IsGround};
ghost use Rattle.pg_tolls.specs.Stated.{stated};
ghost use Rattle.pg_tolls.specs.inner.Closing.{HasLowTolls};
ghost use Rattle.pg_tolls.specs.inner.Highest.{AreBelow, IsOffer, AreLeftOver, AreBlank, KeepsSteps, KeepsTakes};
ghost use Rattle.pg_tolls.specs.inner.Highest.{KeepsPawns, KeepsPromoted, KeepsFalls, KeepsEnds, KeepsOver};
ghost use Rattle.pg_tolls.specs.inner.Highest.{AreHigh, IsHigh, IsBlank, AreHighest, AreLong, with_layer};

use crate::rows::{NO_ROWS, Row, Rows, grown, least_of, lesser, raised, taken};
use crate::tariff::Tariff;
use pg_board::{Color, Kind, Square, SquareSet};
use pg_journeys::{Ground, Men};
use pg_position::last_rank;
use std::alloc::{AllocError, Global};
use std::simd::u16x16;

// The rows of each kind for one number of marks left.
#[derive(Drop)]
struct Layer {
    pawns: Rows,
    knights: Rows,
    bishops: Rows,
    rooks: Rows,
    queens: Rows,
    kings: Rows,
}

// What a mark that is left over counts.
const MARK: u16 = 128;

// Whether two rows differ.
#[inline(always)]
fn differ(first: &Row, second: &Row) -> bool {
    u16x16::from_array(*first)
        .simd_ne(u16x16::from_array(*second))
        .to_bitmask()
        != 0
}

// What a step of a man of the ground's colour is charged.
fn weight(tariff: &Tariff, ground: &Ground) -> u16
    ensures value { result ≡ (stated tariff.now).weight ground.now.color }
    ensures low { result ≤ 255 }
{
    u16::from(tariff.weight(ground.color))
}

// The square, if its rows differ.
#[inline(always)]
fn changed_on(square: Square, old: &Row, new: &Row) -> SquareSet {
    if differ(old, new) {
        SquareSet::single(square)
    } else {
        SquareSet::empty()
    }
}

// Lowers the rows of squares to an offer, and says which changed.
#[inline(always)]
fn offer(rows: &mut Rows, squares: SquareSet, offered: &Row) -> SquareSet
    ensures { (b : ℕ → ℕ → ℕ) → IsOffer b squares offered.now → AreBelow b rows.old → AreBelow b rows.new }
{
    let mut changed = SquareSet::empty();
    let mut left = squares;
    while let Some(square) = left.pop_first() {
        let at = usize::from(square.index());
        let lower = lesser(&rows[at], offered);
        changed = changed | changed_on(square, &rows[at], &lower);
        rows[at] = lower;
    }
    changed
}

// Offers steps without a mark to squares whose rows changed, and says which changed by that. A piece steps back as it
// steps.
fn spread_once(
    rows: &mut Rows,
    ground: &Ground,
    kind: Kind,
    weight: u16,
    changed: SquareSet,
) -> SquareSet
    requires sound { IsGround ground.now }
    requires weight { weight ≤ 255 }
    requires piece { kind ≢ Pawn }
    ensures { KeepsSteps (known ground.now.facts) ground.now.color kind weight rows.old rows.new }
{
    let mut next = SquareSet::empty();
    let mut left = changed;
    while let Some(square) = left.pop_first() {
        let offered = grown(&rows[usize::from(square.index())], weight);
        next = next | offer(rows, ground.steps(kind, square), &offered);
    }
    next
}

// Offers such steps until nothing changes.
fn spread(rows: &mut Rows, ground: &Ground, kind: Kind, weight: u16, changed: SquareSet)
    requires sound { IsGround ground.now }
    requires weight { weight ≤ 255 }
    requires piece { kind ≢ Pawn }
    ensures { KeepsSteps (known ground.now.facts) ground.now.color kind weight rows.old rows.new }
{
    let mut wave = changed;
    for _ in 0..64usize {
        if wave.is_empty() {
            return;
        }
        let next = spread_once(rows, ground, kind, weight, wave);
        wave = next;
    }
}

// The squares where a mark is cheaper than one that is left over.
fn cheap_squares(tariff: &Tariff, ground: &Ground) -> SquareSet {
    let mut cheap = SquareSet::empty();
    for at in 0..64u8 {
        let square = Square::at(at);
        if raised(tariff, ground.color, square) < MARK {
            cheap = cheap | SquareSet::single(square);
        }
    }
    cheap & ground.free
}

// Offers marked steps to such squares, by the rows with a mark less, and says what changed.
fn offer_marked(
    rows: &mut Rows,
    tariff: &Tariff,
    ground: &Ground,
    kind: Kind,
    before: &Rows,
    cheap: SquareSet,
) -> SquareSet
    requires sound { IsGround ground.now }
    requires piece { kind ≢ Pawn }
    ensures { KeepsTakes (stated tariff.now) (known ground.now.facts) ground.now.color kind
        before.now rows.old rows.new }
{
    let mut changed = SquareSet::empty();
    let mut left = cheap;
    while let Some(square) = left.pop_first() {
        let charge = weight(tariff, ground) + raised(tariff, ground.color, square);
        let offered = grown(&before[usize::from(square.index())], charge);
        changed = changed | offer(rows, ground.steps(kind, square), &offered);
    }
    changed
}

// The rows where a mark more is left over.
fn left_over(rows: &Rows) -> Rows
    ensures { AreLeftOver rows.now result 64 }
{
    let mut over = NO_ROWS;
    for at in 0..64usize {
        over[at] = grown(&rows[at], MARK);
    }
    over
}

// The squares from where there is some walk.
fn reaching(rows: &Rows) -> SquareSet {
    let mut some = SquareSet::empty();
    for at in 0..64u8 {
        if differ(&rows[usize::from(at)], &[u16::MAX; 16]) {
            some = some | SquareSet::single(Square::at(at));
        }
    }
    some
}

// Writes what being captured by no step is charged.
fn add_falls(rows: &mut Rows, tariff: &Tariff, ground: &Ground)
    ensures { KeepsFalls (stated tariff.now) (known ground.now.facts) ground.now.color rows.old rows.new }
{
    let by = ground.color.other();
    let mut left = ground.facts.lands(by);
    while let Some(square) = left.pop_first() {
        let at = usize::from(square.index());
        let mut row = rows[at];
        row[15] = 255 - raised(tariff, by, square);
        rows[at] = row;
    }
}

// Whether both are the same kind.
fn same_kind(one: Kind, other: Kind) -> bool
    ensures { result ≡ kind_eq one other }
{
    one.number() == other.number()
}

// Writes what walks of no step are charged.
fn add_ends(rows: &mut Rows, tariff: &Tariff, ground: &Ground, goals: &Men, kind: Kind)
    ensures { KeepsEnds (stated tariff.now) (known ground.now.facts) ground.now.color goals.now kind rows.old rows.new }
{
    for e in 0..goals.count.min(16) {
        if same_kind(goals.kinds[e], kind) {
            let at = usize::from(goals.squares[e].index());
            let mut row = rows[at];
            row[e] = 0;
            rows[at] = row;
        }
    }
    if goals.count < 16 && !same_kind(kind, Kind::King) {
        add_falls(rows, tariff, ground);
    }
}

// Fills the rows of a piece with no mark left.
fn first_piece(rows: &mut Rows, tariff: &Tariff, ground: &Ground, goals: &Men, kind: Kind)
    requires sound { IsGround ground.now }
    requires piece { kind ≢ Pawn }
    requires blank { AreBlank rows.old }
    ensures { AreHigh (stated tariff.now) (known ground.now.facts) ground.now.color goals.now 0 kind rows.new }
{
    add_ends(rows, tariff, ground, goals, kind);
    let changed = reaching(rows);
    spread(rows, ground, kind, weight(tariff, ground), changed);
}

// Makes of the rows of a piece those with one more mark left.
fn next_piece(rows: &mut Rows, tariff: &Tariff, ground: &Ground, kind: Kind, cheap: SquareSet)
    requires sound { IsGround ground.now }
    requires piece { kind ≢ Pawn }
    ensures { (goals : AnyMen) (j : ℕ) → j ≤ 16 → HasLowTolls (stated tariff.now) (other ground.now.color) 64 →
        AreHigh (stated tariff.now) (known ground.now.facts) ground.now.color goals j kind rows.old →
        AreHigh (stated tariff.now) (known ground.now.facts) ground.now.color goals (suc j) kind rows.new }
{
    let before = *rows;
    *rows = left_over(&before);
    let changed = offer_marked(rows, tariff, ground, kind, &before, cheap);
    spread(rows, ground, kind, weight(tariff, ground), changed);
}

// Lowers a pawn's rows on the last rank to those of a piece that he is there.
fn promote(pawns: &mut Rows, color: Color, piece: &Rows)
    ensures { KeepsPromoted color piece.now pawns.old pawns.new }
{
    let mut left = SquareSet::of_rank(last_rank(color));
    while let Some(square) = left.pop_first() {
        let at = usize::from(square.index());
        pawns[at] = lesser(&pawns[at], &piece[at]);
    }
}

// The squares in the order in which their pawns are looked at: from the last rank back.
fn from_last_rank(color: Color, at: u8) -> Square
    requires { at ≤ 63 }
{
    match color {
        Color::White => Square::at(63 - at),
        Color::Black => Square::at(at),
    }
}

// Lowers a pawn's rows by his steps: straight ahead, and marked ones.
fn advance(pawns: &mut Rows, ground: &Ground, weight: u16, taken: &Rows)
    requires sound { IsGround ground.now }
    requires weight { weight ≤ 255 }
    ensures { KeepsPawns (known ground.now.facts) ground.now.color weight taken.now pawns.old pawns.new }
{
    for at in 0..64u8 {
        let square = from_last_rank(ground.color, at);
        let from = SquareSet::single(square);
        let pushed = least_of(pawns, ground.pushes_of(from));
        let captured = least_of(taken, ground.captures_of(from));
        let offered = grown(&lesser(&pushed, &captured), weight);
        let place = usize::from(square.index());
        pawns[place] = lesser(&pawns[place], &offered);
    }
}

// Lowers the rows of pawns by those of the pieces, and by rows before the mark of a step.
fn fill_pawns(layer: &mut Layer, tariff: &Tariff, ground: &Ground, taken: &Rows)
    requires { IsGround ground.now }
    ensures { KeepsOver (stated tariff.now) (known ground.now.facts) ground.now.color taken.now layer.old layer.new }
{
    promote(&mut layer.pawns, ground.color, &layer.knights);
    promote(&mut layer.pawns, ground.color, &layer.bishops);
    promote(&mut layer.pawns, ground.color, &layer.rooks);
    promote(&mut layer.pawns, ground.color, &layer.queens);
    advance(&mut layer.pawns, ground, weight(tariff, ground), taken);
}

// Fills a layer with no mark left.
fn fill_first(layer: &mut Layer, tariff: &Tariff, ground: &Ground, goals: &Men)
    requires sound { IsGround ground.now }
    requires blank { IsBlank layer.old }
    ensures { IsHigh (stated tariff.now) (known ground.now.facts) ground.now.color goals.now 0 layer.new }
{
    first_piece(&mut layer.knights, tariff, ground, goals, Kind::Knight);
    first_piece(&mut layer.bishops, tariff, ground, goals, Kind::Bishop);
    first_piece(&mut layer.rooks, tariff, ground, goals, Kind::Rook);
    first_piece(&mut layer.queens, tariff, ground, goals, Kind::Queen);
    first_piece(&mut layer.kings, tariff, ground, goals, Kind::King);
    add_ends(&mut layer.pawns, tariff, ground, goals, Kind::Pawn);
    fill_pawns(layer, tariff, ground, &NO_ROWS);
}

// Makes of a layer the one with one more mark left.
fn fill_next(layer: &mut Layer, tariff: &Tariff, ground: &Ground, cheap: SquareSet)
    requires { IsGround ground.now }
    ensures { (goals : AnyMen) (j : ℕ) → j ≤ 16 → HasLowTolls (stated tariff.now) (other ground.now.color) 64 →
        IsHigh (stated tariff.now) (known ground.now.facts) ground.now.color goals j layer.old →
        IsHigh (stated tariff.now) (known ground.now.facts) ground.now.color goals (suc j) layer.new }
{
    next_piece(&mut layer.knights, tariff, ground, Kind::Knight, cheap);
    next_piece(&mut layer.bishops, tariff, ground, Kind::Bishop, cheap);
    next_piece(&mut layer.rooks, tariff, ground, Kind::Rook, cheap);
    next_piece(&mut layer.queens, tariff, ground, Kind::Queen, cheap);
    next_piece(&mut layer.kings, tariff, ground, Kind::King, cheap);
    let marked = taken(tariff, ground.color, &layer.pawns);
    layer.pawns = left_over(&layer.pawns);
    fill_pawns(layer, tariff, ground, &marked);
}

// Puts the rows of a layer behind those of a table.
fn add_layer(table: &mut Vec<Row>, layer: &Layer) -> Result<(), AllocError>
    ensures added { OnOk result (table.new.items ≡ with_layer table.old.items layer.now) }
    ensures long { AreLong layer.now }
{
    table.extend_from_slice(&layer.pawns)?;
    table.extend_from_slice(&layer.knights)?;
    table.extend_from_slice(&layer.bishops)?;
    table.extend_from_slice(&layer.rooks)?;
    table.extend_from_slice(&layer.queens)?;
    table.extend_from_slice(&layer.kings)
}

/// A table for up to `most` marks.
pub(crate) fn fill(
    alloc: Global,
    tariff: &Tariff,
    ground: &Ground,
    goals: &Men,
    most: usize,
) -> Result<Vec<Row>, AllocError>
    requires sound { IsGround ground.now }
    requires most { most ≤ 16 }
    requires tolls { HasLowTolls (stated tariff.now) (other ground.now.color) 64 }
    ensures { IfOk result (λ table.
        AreHighest (stated tariff.now) (known ground.now.facts) ground.now.color goals.now (suc most) table.items) }
{
    let mut layer = Layer {
        pawns: NO_ROWS,
        knights: NO_ROWS,
        bishops: NO_ROWS,
        rooks: NO_ROWS,
        queens: NO_ROWS,
        kings: NO_ROWS,
    };
    let cheap = cheap_squares(tariff, ground);
    let mut table = Vec::with_capacity(alloc, (most + 1) * 384)?;
    fill_first(&mut layer, tariff, ground, goals);
    add_layer(&mut table, &layer)?;
    for _marks in 0..most {
        fill_next(&mut layer, tariff, ground, cheap);
        add_layer(&mut table, &layer)?;
    }
    Ok(table)
}
