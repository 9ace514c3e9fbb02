//! Rows of what walks are charged, by the men of the diagram whom a man may become, and the last place for being
//! captured; 65535 where there is no walk.
ghost use Rattle.std.specs.Prelude.{◌≡◌, ℕ, suc, ◌*◌, ◌+◌, ◌-◌, ◌<◌, ◌≤◌, cond, ltb, length};
ghost use Rattle.pg_tolls.specs.Stated.{stated};
ghost use Rattle.pg_tolls.specs.inner.Tables.{raised};
ghost use Rattle.pg_tolls.specs.inner.Closing.{nth, AreLesser, AreGreater, AreCharged, AreGrown};
ghost use Rattle.pg_tolls.specs.inner.Closing.{AreRowsOf, AreTaken, IsLeast, IsNoLess};

use crate::tariff::Tariff;
use pg_board::{Color, Kind, Square, SquareSet};
use std::simd::u16x16;

/// A number for each man of the diagram, and the last for being captured.
pub(crate) type Row = [u16; 16];

/// A row for each square.
pub(crate) type Rows = [Row; 64];

/// No walk, from no square.
pub(crate) const NO_ROWS: Rows = [[u16::MAX; 16]; 64];

/// The lesser of each two numbers.
#[inline(always)]
pub(crate) fn lesser(first: &Row, second: &Row) -> Row
    ensures { AreLesser first.now second.now result 16 }
{
    u16x16::from_array(*first)
        .simd_min(u16x16::from_array(*second))
        .to_array()
}

/// The greater of each two numbers.
#[inline(always)]
pub(crate) fn greater(first: &Row, second: &Row) -> Row
    ensures { AreGreater first.now second.now result 16 }
{
    u16x16::from_array(*first)
        .simd_max(u16x16::from_array(*second))
        .to_array()
}

/// By how much each number is above one.
#[inline(always)]
pub(crate) fn above(row: &Row, least: u16) -> Row
    ensures { (e : ℕ) → e < 16 → nth result e ≡ nth row.now e - least }
{
    let high = greater(row, &[least; 16]);
    (u16x16::from_array(high) - u16x16::splat(least)).to_array()
}

/// Numbers, and 255 where a row has none.
#[inline(always)]
pub(crate) fn with_none(costs: &Row, row: &Row) -> Row
    ensures { (e : ℕ) → e < 16 → nth result e ≡ cond (ltb (nth row.now e) 65535) (nth costs.now e) 255 }
{
    u16x16::from_array(*row)
        .simd_lt(u16x16::splat(u16::MAX))
        .select(u16x16::from_array(*costs), u16x16::splat(255))
        .to_array()
}

/// Numbers below 256, as bytes.
#[inline(always)]
pub(crate) fn narrowed(row: &Row) -> [u8; 16]
    requires { (e : ℕ) → e < 16 → nth row.now e < 256 }
    ensures { (e : ℕ) → e < 16 → nth result e ≡ nth row.now e }
{
    u16x16::from_array(*row).cast::<u8>().to_array()
}

// Each number and a charge, 65534 at most.
#[inline(always)]
fn charged(row: &Row, charge: u16) -> Row
    requires { charge ≤ 65534 }
    ensures { AreCharged row.now charge result 16 }
{
    let low = lesser(row, &[65534 - charge; 16]);
    (u16x16::from_array(low) + u16x16::splat(charge)).to_array()
}

/// The row before a step of this charge: no number where none stands behind it, and else one below 65535.
#[inline(always)]
pub(crate) fn grown(row: &Row, charge: u16) -> Row
    requires { charge ≤ 65534 }
    ensures { AreGrown row.now charge result 16 }
{
    greater(&charged(row, charge), row)
}

/// The least numbers of the rows of a set of squares.
pub(crate) fn least_of(rows: &Rows, squares: SquareSet) -> Row
    ensures low { IsLeast rows.now squares result }
    ensures high { IsNoLess rows.now squares result }
{
    let mut least = [u16::MAX; 16];
    let mut left = squares;
    while let Some(square) = left.pop_first() {
        let next = lesser(&least, &rows[usize::from(square.index())]);
        least = next;
    }
    least
}

/// A toll, counted from 128.
#[inline(always)]
pub(crate) fn raised(tariff: &Tariff, color: Color, square: Square) -> u16
    ensures value { result ≡ raised (stated tariff.now) color square }
    ensures low { result ≤ 255 }
{
    (i16::from(tariff.toll(color, square)) + 128) as u16
}

/// The rows before the mark of a step to each square.
pub(crate) fn taken(tariff: &Tariff, color: Color, rows: &Rows) -> Rows
    ensures { AreTaken (stated tariff.now) color rows.now result 64 }
{
    let mut taken = NO_ROWS;
    for at in 0..64usize {
        let charge = raised(tariff, color, Square::at(at as u8));
        taken[at] = grown(&rows[at], charge);
    }
    taken
}

/// The rows of a kind in a table, with `marks` marks left.
pub(crate) fn rows_of(table: &[Row], marks: usize, kind: Kind) -> Rows
    requires marks { marks < 17 }
    requires room { (marks + 1) * 384 ≤ length table.now }
    ensures { AreRowsOf table.now marks kind result 64 }
{
    let first = (marks * 6 + usize::from(kind.number())) * 64;
    let mut rows = NO_ROWS;
    for at in 0..64usize {
        rows[at] = table[first + at];
    }
    rows
}
