//! Prices of least assignments, for callers that test them themselves, and such assignments. Nothing is proved of them
//! but that they come.
ghost use Rattle.std.specs.Prelude.{◌≤◌};

use crate::columns::least_of_columns;
use crate::costs::Costs;
use crate::propose::{Row, START, propose};
use crate::tested::value;
use std::simd::u8x16;

/// Prices of rows and of sixteen columns. Those of rows behind the ones that were asked for are 0.
#[derive(Clone, Copy, Debug, PartialEq, Eq)]
pub struct LeastPrices {
    pub rows: [u8; 16],
    pub columns: [u8; 16],
}

// The lesser of each cost and a number.
#[inline(always)]
fn lowered(costs: [u8; 16], most: u8) -> [u8; 16] {
    u8x16::from_array(costs)
        .simd_min(u8x16::splat(most))
        .to_array()
}

// By how much prices are above the first ones.
#[inline(always)]
fn above_start(prices: Row) -> [u8; 16] {
    let mut above = [0u8; 16];
    for i in 0..16usize {
        above[i] = prices[i].saturating_sub(START).min(255) as u8;
    }
    above
}

/// Prices that are meant to show the least total of assignments that give each of the first `rows` rows a column of
/// its own, where a cost above `most`, a number up to 254, counts as `most`: a row's price is at most a column's and
/// the cost of the pair, no row's price is above `most`, and the rows' prices less the columns' are the total.
///
/// They are found by the Hungarian method. The columns' prices begin with 0 and are the least ones that show the
/// total, so it makes no difference to them which of two ways of the same length is taken.
#[inline(always)]
pub fn least_prices(costs: &[[u8; 16]; 16], rows: usize, most: u8) -> LeastPrices {
    let mut costs = Costs {
        size: 16,
        rows: *costs,
    };
    for i in 0..16usize {
        costs.rows[i] = lowered(costs.rows[i], most);
    }
    let proposal = propose(&costs, rows, [0; 16]);
    LeastPrices {
        rows: above_start(proposal.rows),
        columns: above_start(proposal.columns),
    }
}

/// A column for each row, which no other row has: an assignment that is meant to be a least one, where each row goes to
/// a column that it may go to. None where none is found. What stands behind the rows means nothing.
pub fn least_columns(costs: &Costs) -> Option<[u8; 16]>
    requires { costs.now.size ≤ 16 }
{
    let proposal = propose(costs, costs.size, least_of_columns(costs));
    match value(costs, &proposal.to, &proposal.holder) {
        None => None,
        Some(_) => Some(proposal.to),
    }
}
