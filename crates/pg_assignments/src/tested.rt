//! The test of a proposal: where it passes, by duality no total is less.
ghost use Rattle.std.specs.Prelude.{◌≡◌, ◌≤◌, IsTrue, IfSome};
ghost use Rattle.pg_board.specs.Tally.{total};
ghost use Rattle.pg_assignments.specs.Assignments.{cost, IsLeastTotal, nth};
ghost use Rattle.pg_assignments.specs.Dual.{Fits, RowFits, IsValue};
ghost use Rattle.pg_assignments.specs.Handing.{IsOwned};

use crate::columns::least_of_columns;
use crate::costs::{Costs, NONE};
use crate::exact::search_all;
use crate::propose::{Proposal, Row, propose};

// Whether a row's price is at most each column's and the cost of the pair.
#[inline(always)]
fn row_fits(costs: &[u8; 16], price: u16, columns: &Row) -> bool
    ensures { IsTrue result → RowFits costs.now price columns.now 16 }
{
    let mut fits = true;
    for j in 0..16usize {
        let cost = costs[j];
        fits &= (cost == NONE) | (price <= columns[j].saturating_add(u16::from(cost)));
    }
    fits
}

// Whether each row's price is.
pub(crate) fn fits(costs: &Costs, rows: &Row, columns: &Row) -> bool
    requires { costs.now.size ≤ 16 }
    ensures { IsTrue result → Fits (cost costs.now) (nth rows.now) (nth columns.now) costs.now.size 16 }
{
    for i in 0..costs.size {
        if !row_fits(&costs.rows[i], rows[i], columns) {
            return false;
        }
    }
    true
}

// The sum of the first `count` numbers.
pub(crate) fn sum(row: &Row, count: usize) -> u32
    requires { count ≤ 16 }
    ensures value { result ≡ total (nth row.now) count }
    ensures low { result ≤ 1048560 }
{
    let mut sum = 0u32;
    for i in 0..count {
        sum += u32::from(row[i]);
    }
    sum
}

// What the proposed assignment costs, if it is one: each row owns the column that it goes to.
pub(crate) fn value(costs: &Costs, to: &[u8; 16], owner: &[u8; 16]) -> Option<u16>
    requires { costs.now.size ≤ 16 }
    ensures value { IfSome result (λ x. IsValue costs.now to.now x) }
    ensures owned { IfSome result (λ x. IsOwned to.now owner.now costs.now.size costs.now.size) }
{
    let mut sum = 0u16;
    for i in 0..costs.size {
        let column = usize::from(to[i]);
        if column >= costs.size || usize::from(owner[column]) != i {
            return None;
        }
        let cost = costs.at(i, column);
        if cost == NONE {
            return None;
        }
        sum += u16::from(cost);
    }
    Some(sum)
}

// The least total, by the proposal where it passes.
pub(crate) fn judged(costs: &Costs, proposal: &Proposal) -> Option<u16>
    requires { costs.now.size ≤ 16 }
    ensures { IsLeastTotal costs.now result }
{
    if !fits(costs, &proposal.rows, &proposal.columns) {
        return search_all(costs);
    }
    let paid = sum(&proposal.rows, costs.size);
    let charged = sum(&proposal.columns, 16);
    if charged + 4064 < paid {
        return None;
    }
    match value(costs, &proposal.to, &proposal.holder) {
        None => search_all(costs),
        Some(x) => {
            if u32::from(x) + charged <= paid {
                Some(x)
            } else {
                search_all(costs)
            }
        }
    }
}

/// The least total of an assignment, which gives each row a column of its own that it may go to: the sum of its costs,
/// at most 4064, or none where there is no assignment.
///
/// A proposal by the Hungarian method is tested by its prices. Where it passes, no other assignment costs less; else
/// all are tried, and that takes far longer with each further row.
pub fn least_total(costs: &Costs) -> Option<u16>
    requires { costs.now.size ≤ 16 }
    ensures { IsLeastTotal costs.now result }
{
    judged(costs, &propose(costs, costs.size, least_of_columns(costs)))
}
