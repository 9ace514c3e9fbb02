//! The test of a table: whether it is closed under the steps of a colour, so that its numbers are at most what walks
//! are charged.
ghost use Rattle.std.specs.Prelude.{◌≡◌, ◌≢◌, ℕ, suc, ◌+◌, ◌*◌, ◌<◌, ◌≤◌, length, get_or, IsTrue};
ghost use Rattle.pg_board.specs.declared.man.Kind.TheVariants.{Pawn, King};
ghost use Rattle.pg_journeys.specs.Known.{known};
ghost use Rattle.pg_journeys.specs.inner.Grounds.{IsGround};
ghost use Rattle.pg_tolls.specs.Stated.{stated};
ghost use Rattle.pg_tolls.specs.inner.Closing.{AreAtMost, AreMarked, AreComing, AreLowOn, ArePieceSteps, ArePawnSteps};
ghost use Rattle.pg_tolls.specs.inner.Closing.{IsPromotedTo, ArePromoted, IsPieceClosed, IsPawnClosed, AreStepsClosed};
ghost use Rattle.pg_tolls.specs.inner.Closing.{AreFalls, AreAllFalls, AreGoals, IsLayer, AreLayers};

use crate::rows::{NO_ROWS, Row, Rows, grown, least_of, lesser, raised, rows_of, taken};
use crate::tariff::Tariff;
use pg_board::{Color, Kind, Square, SquareSet};
use pg_journeys::{Ground, Men};
use pg_position::last_rank;

// Whether each number of a row is at most that of another.
#[inline(always)]
fn is_low(row: &Row, bound: &Row) -> bool
    ensures { IsTrue result → AreAtMost row.now bound.now 16 }
{
    let mut low = true;
    for e in 0..16usize {
        low &= row[e] <= bound[e];
    }
    low
}

// The rows of a kind before the mark of a step to each square, by those with a mark less; none with no mark left.
fn marked_rows(tariff: &Tariff, color: Color, table: &[Row], marks: usize, kind: Kind) -> Rows
    requires marks { marks < 17 }
    requires room { (marks + 1) * 384 ≤ length table.now }
    ensures { AreMarked (stated tariff.now) color table.now marks kind result }
{
    if marks == 0 {
        return NO_ROWS;
    }
    taken(tariff, color, &rows_of(table, marks - 1, kind))
}

// The rows of coming to each square, by a step that is marked or not.
fn coming_rows(plain: &Rows, marked: &Rows) -> Rows
    ensures { AreComing plain.now marked.now result 64 }
{
    let mut coming = NO_ROWS;
    for at in 0..64usize {
        coming[at] = lesser(&plain[at], &marked[at]);
    }
    coming
}

// Whether a piece's rows are at most those of coming by his steps and the weight of a step.
fn piece_fits(ground: &Ground, weight: u16, kind: Kind, rows: &Rows, coming: &Rows) -> bool
    requires sound { IsGround ground.now }
    requires weight { weight ≤ 255 }
    requires piece { kind ≢ Pawn }
    ensures { IsTrue result →
        ArePieceSteps (known ground.now.facts) ground.now.color kind weight rows.now coming.now 64 }
{
    for at in 0..64usize {
        let behind = least_of(coming, ground.steps(kind, Square::at(at as u8)));
        if !is_low(&rows[at], &grown(&behind, weight)) {
            return false;
        }
    }
    true
}

// Whether a pawn's rows are at most those of his steps: plain ones straight ahead, and marked captures.
fn pawn_fits(ground: &Ground, weight: u16, rows: &Rows, marked: &Rows) -> bool
    requires sound { IsGround ground.now }
    requires weight { weight ≤ 255 }
    ensures { IsTrue result →
        ArePawnSteps (known ground.now.facts) ground.now.color weight rows.now marked.now 64 }
{
    for at in 0..64usize {
        let from = SquareSet::single(Square::at(at as u8));
        let pushed = least_of(rows, ground.pushes_of(from));
        let captured = least_of(marked, ground.captures_of(from));
        let behind = lesser(&pushed, &captured);
        if !is_low(&rows[at], &grown(&behind, weight)) {
            return false;
        }
    }
    true
}

// Whether on a rank a kind's rows are at most another's.
fn are_low_on(rank: u8, rows: &Rows, bounds: &Rows) -> bool
    ensures { IsTrue result → AreLowOn rank rows.now bounds.now }
{
    let mut left = SquareSet::of_rank(rank);
    while let Some(square) = left.pop_first() {
        let at = usize::from(square.index());
        if !is_low(&rows[at], &bounds[at]) {
            return false;
        }
    }
    true
}

// Whether a pawn's rows on the last rank are at most those of a kind.
fn is_promoted_to(color: Color, table: &[Row], marks: usize, pawns: &Rows, kind: Kind) -> bool
    requires marks { marks < 17 }
    requires room { (marks + 1) * 384 ≤ length table.now }
    ensures { IsTrue result → IsPromotedTo color table.now marks pawns.now kind }
{
    are_low_on(last_rank(color), pawns, &rows_of(table, marks, kind))
}

// Whether they are at most those of each kind that he may be there.
fn is_promoted(color: Color, table: &[Row], marks: usize, pawns: &Rows) -> bool
    requires marks { marks < 17 }
    requires room { (marks + 1) * 384 ≤ length table.now }
    ensures { IsTrue result → ArePromoted color table.now marks pawns.now }
{
    is_promoted_to(color, table, marks, pawns, Kind::Knight)
        && is_promoted_to(color, table, marks, pawns, Kind::Bishop)
        && is_promoted_to(color, table, marks, pawns, Kind::Rook)
        && is_promoted_to(color, table, marks, pawns, Kind::Queen)
}

// Whether the table is closed under the steps of a kind, no pawn, with `marks` marks left.
fn is_piece_closed(
    tariff: &Tariff,
    ground: &Ground,
    table: &[Row],
    marks: usize,
    kind: Kind,
) -> bool
    requires sound { IsGround ground.now }
    requires marks { marks < 17 }
    requires room { (marks + 1) * 384 ≤ length table.now }
    requires piece { kind ≢ Pawn }
    ensures { IsTrue result →
        IsPieceClosed (stated tariff.now) (known ground.now.facts) ground.now.color table.now marks kind }
{
    let rows = rows_of(table, marks, kind);
    let marked = marked_rows(tariff, ground.color, table, marks, kind);
    let coming = coming_rows(&rows, &marked);
    let weight = u16::from(tariff.weight(ground.color));
    piece_fits(ground, weight, kind, &rows, &coming)
}

// Whether it is closed under the steps of pawns.
fn is_pawn_closed(tariff: &Tariff, ground: &Ground, table: &[Row], marks: usize) -> bool
    requires sound { IsGround ground.now }
    requires marks { marks < 17 }
    requires room { (marks + 1) * 384 ≤ length table.now }
    ensures { IsTrue result →
        IsPawnClosed (stated tariff.now) (known ground.now.facts) ground.now.color table.now marks }
{
    let rows = rows_of(table, marks, Kind::Pawn);
    let marked = marked_rows(tariff, ground.color, table, marks, Kind::Pawn);
    let weight = u16::from(tariff.weight(ground.color));
    pawn_fits(ground, weight, &rows, &marked) && is_promoted(ground.color, table, marks, &rows)
}

// Whether the numbers of being captured fit, for a kind.
fn falls_fit(tariff: &Tariff, ground: &Ground, table: &[Row], marks: usize, kind: Kind) -> bool
    requires marks { marks < 17 }
    requires room { (marks + 1) * 384 ≤ length table.now }
    ensures { IsTrue result →
        AreFalls (stated tariff.now) (known ground.now.facts) ground.now.color table.now marks kind }
{
    let by = ground.color.other();
    let rows = rows_of(table, marks, kind);
    let most = 128 * marks as u16 + 255;
    let mut left = ground.facts.lands(by);
    while let Some(square) = left.pop_first() {
        let fall = rows[usize::from(square.index())][15];
        if fall > most - raised(tariff, by, square) {
            return false;
        }
    }
    true
}

// Whether each man of the diagram is become by no step.
fn goals_fit(goals: &Men, table: &[Row], marks: usize) -> bool
    requires goals { goals.now.count ≤ 16 }
    requires marks { marks < 17 }
    requires room { (marks + 1) * 384 ≤ length table.now }
    ensures { IsTrue result → AreGoals goals.now table.now marks goals.now.count }
{
    for e in 0..goals.count {
        let kind = usize::from(goals.kinds[e].number());
        let at = usize::from(goals.squares[e].index());
        if usize::from(table[(marks * 6 + kind) * 64 + at][e]) > 128 * marks {
            return false;
        }
    }
    true
}

// Whether it is closed under the steps of all kinds.
fn are_steps_closed(tariff: &Tariff, ground: &Ground, table: &[Row], marks: usize) -> bool
    requires sound { IsGround ground.now }
    requires marks { marks < 17 }
    requires room { (marks + 1) * 384 ≤ length table.now }
    ensures { IsTrue result →
        AreStepsClosed (stated tariff.now) (known ground.now.facts) ground.now.color table.now marks }
{
    is_pawn_closed(tariff, ground, table, marks)
        && is_piece_closed(tariff, ground, table, marks, Kind::Knight)
        && is_piece_closed(tariff, ground, table, marks, Kind::Bishop)
        && is_piece_closed(tariff, ground, table, marks, Kind::Rook)
        && is_piece_closed(tariff, ground, table, marks, Kind::Queen)
        && is_piece_closed(tariff, ground, table, marks, Kind::King)
}

// Whether the numbers of being captured fit, for each kind but the king.
fn all_falls_fit(tariff: &Tariff, ground: &Ground, table: &[Row], marks: usize) -> bool
    requires marks { marks < 17 }
    requires room { (marks + 1) * 384 ≤ length table.now }
    ensures { IsTrue result →
        AreAllFalls (stated tariff.now) (known ground.now.facts) ground.now.color table.now marks }
{
    falls_fit(tariff, ground, table, marks, Kind::Pawn)
        && falls_fit(tariff, ground, table, marks, Kind::Knight)
        && falls_fit(tariff, ground, table, marks, Kind::Bishop)
        && falls_fit(tariff, ground, table, marks, Kind::Rook)
        && falls_fit(tariff, ground, table, marks, Kind::Queen)
}

// Whether the rows with `marks` marks left are closed.
fn is_layer_closed(
    tariff: &Tariff,
    ground: &Ground,
    goals: &Men,
    table: &[Row],
    marks: usize,
) -> bool
    requires sound { IsGround ground.now }
    requires goals { goals.now.count ≤ 16 }
    requires marks { marks < 17 }
    requires room { (marks + 1) * 384 ≤ length table.now }
    ensures { IsTrue result →
        IsLayer (stated tariff.now) (known ground.now.facts) ground.now.color goals.now table.now marks }
{
    if !goals_fit(goals, table, marks) {
        return false;
    }
    if goals.count < 16 && !all_falls_fit(tariff, ground, table, marks) {
        return false;
    }
    are_steps_closed(tariff, ground, table, marks)
}

/// Whether a table for up to `most` marks is closed.
pub(crate) fn is_closed(
    tariff: &Tariff,
    ground: &Ground,
    goals: &Men,
    most: usize,
    table: &[Row],
) -> bool
    requires sound { IsGround ground.now }
    requires goals { goals.now.count ≤ 16 }
    requires most { most ≤ 16 }
    ensures { IsTrue result →
        AreLayers (stated tariff.now) (known ground.now.facts) ground.now.color goals.now most table.now }
{
    if table.len() != (most + 1) * 384 {
        return false;
    }
    for marks in 0..most + 1 {
        if !is_layer_closed(tariff, ground, goals, table, marks) {
            return false;
        }
    }
    true
}
