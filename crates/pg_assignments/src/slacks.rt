//! By how much the prices of rows are below those of columns and the costs, and whether they are.
ghost use Rattle.std.specs.Prelude.{◌≤◌, ◌<◌, IsTrue};
ghost use Rattle.pg_assignments.specs.Handing.{AreWithin, IsNone, IsSlackOf, IsSlackRow, IsOver, IsOverRow, AreNone};
ghost use Rattle.pg_assignments.specs.Handing.{IsFitted, IsFittedBy};

use crate::costs::Costs;
use crate::propose::{Proposal, Row};

// Whether all are below 32768.
#[inline(always)]
fn low(row: &Row) -> bool
    ensures { IsTrue result → AreWithin row.now 16 32768 }
{
    let mut low = true;
    for q in 0..16usize {
        low &= row[q] < 32768;
    }
    low
}

// 65535 for 255, which stands for no cost, and else nothing. Here and in what calls it are sums and differences alone:
// these vectorize.
#[inline(always)]
fn none(cost: u8) -> u16
    ensures { IsNone cost result }
{
    u16::from(cost.saturating_sub(254)) * u16::MAX
}

// By how much a row's price is below a column's and the cost of the pair: its slack, or 65535 where there is no cost.
#[inline(always)]
fn slack_of(cost: u8, price: u16, column: u16) -> u16
    requires { column < 32768 }
    ensures { IsSlackOf cost price column result }
{
    column
        .saturating_add(u16::from(cost))
        .saturating_sub(price)
        .saturating_add(none(cost))
}

// The slacks of a row.
#[inline(always)]
fn slack_row(costs: [u8; 16], price: u16, columns: Row) -> Row
    requires { AreWithin columns 16 32768 }
    ensures { IsSlackRow costs price columns result 16 }
{
    let mut slack = [u16::MAX; 16];
    for q in 0..16usize {
        slack[q] = slack_of(costs[q], price, columns[q]);
    }
    slack
}

// By how much a row's price is above a column's and the cost of the pair, where there is one, and what came before.
#[inline(always)]
fn over_of(before: u16, cost: u8, price: u16, column: u16) -> u16
    ensures { IsOver before cost price column result }
{
    let most = column
        .saturating_add(u16::from(cost))
        .saturating_add(none(cost));
    before.saturating_add(price.saturating_sub(most))
}

// The same at each column.
#[inline(always)]
fn over_row(before: Row, costs: [u8; 16], price: u16, columns: Row) -> Row
    ensures { IsOverRow before costs price columns result 16 }
{
    let mut over = before;
    for q in 0..16usize {
        over[q] = over_of(before[q], costs[q], price, columns[q]);
    }
    over
}

// Whether all are nothing.
#[inline(always)]
fn are_none(row: &Row) -> bool
    ensures { IsTrue result → AreNone row.now 16 }
{
    let mut none = true;
    for q in 0..16usize {
        none &= row[q] == 0;
    }
    none
}

// Finds the slacks of all rows, and says whether no row's price is above. All is read before a row is written, since
// what stands behind a reference is read anew after each write.
#[inline(never)]
fn find_slacks(costs: &Costs, rows: &Row, columns: &Row, slacks: &mut [Row; 16]) -> bool
    requires size { costs.now.size ≤ 16 }
    requires low { AreWithin columns.now 16 32768 }
    ensures { IsTrue result → IsFitted costs.now rows.now columns.now slacks.new }
{
    let charged = *columns;
    let mut over = [0u16; 16];
    for i in 0..costs.size {
        let row = costs.rows[i];
        let price = rows[i];
        let more = over_row(over, row, price, charged);
        over = more;
        slacks[i] = slack_row(row, price, charged);
    }
    are_none(&over)
}

/// Finds the slacks of a proposal, and says whether its prices fit.
#[inline(always)]
pub(crate) fn fitted(costs: &Costs, proposal: &Proposal, slacks: &mut [Row; 16]) -> bool
    requires { costs.now.size ≤ 16 }
    ensures { IsTrue result → IsFittedBy costs.now proposal.now slacks.new }
{
    if !low(&proposal.columns) {
        return false;
    }
    find_slacks(costs, &proposal.rows, &proposal.columns, slacks)
}
