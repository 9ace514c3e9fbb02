//! A proposal of a least assignment, with prices that show it: the Hungarian method. Nothing is proved of it
//! but that it is safe and ends.
use crate::costs::{Costs, NONE};
use std::simd::{u8x16, u16x16};

/// A row of numbers.
pub(crate) type Row = [u16; 16];

/// Rows with their columns, and prices of both: `to` of a row and `holder` of a column, or 255 (`FREE`) for none. Each
/// pair of partners is at the difference of its prices.
#[derive(Clone, Copy)]
pub(crate) struct Proposal {
    pub(crate) rows: Row,
    pub(crate) columns: Row,
    pub(crate) to: [u8; 16],
    pub(crate) holder: [u8; 16],
}

// What a pair without a cost costs: more than all others together.
const MISSING: u16 = 4080;

// Where a row or a column has no partner.
const FREE: u8 = 255;

/// What the price of a column begins with where its least cost counts as 0.
pub(crate) const START: u16 = 255;

// Shortest paths from the row in hand to each column, by keys: sixteen times the length, and the row before the column.
// The columns that are closed, which have their last length, as bits; and the one at the end, which no row holds.
#[derive(Clone, Copy)]
struct Paths {
    keys: Row,
    closed: u64,
    end: u8,
}

// An index is below 16: the remainder changes nothing, and spares the prover an invariant.
fn at(row: &Row, i: u8) -> u16 {
    row[usize::from(i) % 16]
}

fn put(row: &mut Row, i: u8, x: u16) {
    row[usize::from(i) % 16] = x;
}

fn name(names: &[u8; 16], i: u8) -> u8 {
    names[usize::from(i) % 16]
}

fn rename(names: &mut [u8; 16], i: u8, x: u8) {
    names[usize::from(i) % 16] = x;
}

// What a pair costs, with a number for those without a cost.
#[inline(always)]
fn charged(cost: u8) -> u16 {
    if cost == NONE {
        MISSING
    } else {
        u16::from(cost)
    }
}

// The columns' numbers.
const NUMBERS: Row = [0, 1, 2, 3, 4, 5, 6, 7, 8, 9, 10, 11, 12, 13, 14, 15];

// The columns that have this number, as bits.
#[inline(always)]
fn with_number(row: Row, number: u16) -> u64 {
    u16x16::from_array(row)
        .simd_eq(u16x16::splat(number))
        .to_bitmask()
}

// 65535 at the columns from `size` on.
#[inline(always)]
fn marks_from(size: u16) -> Row {
    let are_past = u16x16::from_array(NUMBERS).simd_ge(u16x16::splat(size));
    are_past
        .select(u16x16::splat(u16::MAX), u16x16::splat(0))
        .to_array()
}

// The first prices of columns, of which a column of lower costs has a higher one.
#[inline(always)]
fn first_prices(least: [u8; 16]) -> Row {
    let mut prices = [0u16; 16];
    for i in 0..16usize {
        prices[i] = u16::from(255 - least[i]);
    }
    prices
}

// What a row pays at the columns, with their prices.
#[inline(always)]
fn paid(costs: [u8; 16], columns: Row) -> Row {
    let mut paid = columns;
    for i in 0..16usize {
        paid[i] = columns[i].saturating_add(charged(costs[i]));
    }
    paid
}

// The keys of paths that go on from a row of this price, of lengths up to 4094, to the columns that are open.
#[inline(always)]
fn keys_on(paid: Row, price: u16, so_far: u16, row: u16, closed: Row) -> Row {
    let lengths = u16x16::from_array(paid).saturating_add(u16x16::splat(so_far));
    let lengths = lengths.saturating_sub(u16x16::splat(price));
    let lengths = lengths.simd_min(u16x16::splat(4094));
    let keys = lengths * u16x16::splat(16) + u16x16::splat(row);
    (keys | u16x16::from_array(closed)).to_array()
}

// The lesser of each two numbers.
#[inline(always)]
fn lesser(first: Row, second: Row) -> Row {
    u16x16::from_array(first)
        .simd_min(u16x16::from_array(second))
        .to_array()
}

// The bits of either.
#[inline(always)]
fn joined(first: Row, second: Row) -> Row {
    (u16x16::from_array(first) | u16x16::from_array(second)).to_array()
}

// 65535 at this column alone.
#[inline(always)]
fn mark(column: u8) -> Row {
    let is_it = u16x16::from_array(NUMBERS).simd_eq(u16x16::splat(u16::from(column)));
    is_it
        .select(u16x16::splat(u16::MAX), u16x16::splat(0))
        .to_array()
}

// The least number.
#[inline(always)]
fn least_number(row: Row) -> u16 {
    u16x16::from_array(row).reduce_min()
}

// Finds a shortest path from a row to a column that no row holds. A key stays as it is once its column is closed.
#[inline(always)]
fn search(costs: &Costs, partners: &Proposal, start: u8) -> Paths {
    let mut keys = [u16::MAX; 16];
    let mut marks = marks_from(costs.size.min(16) as u16);
    let mut closed = 0u64;
    let mut row = start;
    let mut so_far = 0u16;
    let mut end = 0u8;
    for _ in 0..16usize {
        let price = at(&partners.rows, row);
        let here = paid(costs.rows[usize::from(row) % 16], partners.columns);
        let on = keys_on(here, price, so_far, u16::from(row) % 16, marks);
        let nearer = lesser(keys, on);
        keys = nearer;
        let left = joined(keys, marks);
        let best = least_number(left);
        end = with_number(left, best).trailing_zeros() as u8;
        so_far = best / 16;
        row = name(&partners.holder, end);
        if row == FREE {
            break;
        }
        closed |= 1 << (end % 16);
        let more = joined(marks, mark(end));
        marks = more;
    }
    Paths { keys, closed, end }
}

// Raises the prices of the closed columns, and those of their rows, by what their paths are shorter than the one to the
// end.
#[inline(always)]
fn raise(partners: &mut Proposal, paths: &Paths, start: u8, length: u16) {
    let mut closed = paths.closed;
    for _ in 0..16usize {
        if closed == 0 {
            break;
        }
        let column = closed.trailing_zeros() as u8;
        closed &= closed.wrapping_sub(1);
        let more = length.saturating_sub(at(&paths.keys, column) / 16);
        let price = at(&partners.columns, column).saturating_add(more);
        put(&mut partners.columns, column, price);
        let row = name(&partners.holder, column);
        let price = at(&partners.rows, row).saturating_add(more);
        put(&mut partners.rows, row, price);
    }
    let price = at(&partners.rows, start).saturating_add(length);
    put(&mut partners.rows, start, price);
}

// Each row of the path takes the column behind it.
#[inline(always)]
fn shift(partners: &mut Proposal, paths: &Paths, start: u8) {
    let mut column = paths.end;
    for _ in 0..16usize {
        let row = (at(&paths.keys, column) % 16) as u8;
        let left = name(&partners.to, row);
        rename(&mut partners.to, row, column);
        rename(&mut partners.holder, column, row);
        if row == start {
            return;
        }
        column = left;
    }
}

// Settles a row that has no column.
#[inline(always)]
fn settle(costs: &Costs, partners: &mut Proposal, start: u8) {
    let paths = search(costs, partners, start);
    let length = at(&paths.keys, paths.end) / 16;
    raise(partners, &paths, start, length);
    shift(partners, &paths, start);
}

// By how much a row's costs are above the least ones of their columns, or 255 where there is no cost.
#[inline(always)]
fn above(costs: [u8; 16], least: [u8; 16]) -> [u8; 16] {
    let costs = u8x16::from_array(costs);
    let none = costs.simd_eq(u8x16::splat(NONE));
    let above = costs.saturating_sub(u8x16::from_array(least));
    none.select(u8x16::splat(NONE), above).to_array()
}

// The least cost.
#[inline(always)]
fn least_cost(row: [u8; 16]) -> u8 {
    u8x16::from_array(row).reduce_min()
}

// The columns that have this cost, as bits.
#[inline(always)]
fn with_cost(row: [u8; 16], cost: u8) -> u64 {
    u8x16::from_array(row)
        .simd_eq(u8x16::splat(cost))
        .to_bitmask()
}

// Prices each of the first `rows` rows by the least that it pays, and gives it a column of that price that no row
// holds, if there is one. The rows that are left are answered, as bits.
#[inline(always)]
fn begin(costs: &Costs, rows: usize, least: [u8; 16], partners: &mut Proposal) -> u64 {
    let size = costs.size.min(16);
    let mut free = (1u64 << size) - 1;
    let mut left = 0u64;
    for t in 0..rows.min(16) {
        let above = above(costs.rows[t], least);
        let cost = least_cost(above);
        let fitting = with_cost(above, cost) & free;
        if cost != NONE && fitting != 0 {
            let column = fitting.trailing_zeros() as u8;
            free &= fitting.wrapping_sub(1) | !fitting;
            partners.to[t] = column;
            rename(&mut partners.holder, column, t as u8);
        } else {
            left |= 1 << t;
        }
        partners.rows[t] = if cost == NONE {
            MISSING
        } else {
            u16::from(cost) + START
        };
    }
    left
}

/// A proposal for the first `rows` rows of these costs, by numbers that no cost of a column is below: the least costs
/// of the columns, which leave fewer rows to be settled, or zeros, with which all columns have the same first price.
#[inline(never)]
pub(crate) fn propose(costs: &Costs, rows: usize, least: [u8; 16]) -> Proposal {
    let mut partners = Proposal {
        rows: [0; 16],
        columns: first_prices(least),
        holder: [FREE; 16],
        to: [FREE; 16],
    };
    let mut left = begin(costs, rows, least, &mut partners);
    for _ in 0..16usize {
        if left == 0 {
            break;
        }
        let row = left.trailing_zeros() as u8;
        left &= left.wrapping_sub(1);
        settle(costs, &mut partners, row);
    }
    partners
}
