//! Least assignments of sources to targets, with prices.

use pg_assignments::least_prices;

/// How many targets and how many sources there are at most.
pub const MOST_MEN: usize = 16;

// The costs of a target, by sources.
type Row = [u8; MOST_MEN];

/// The costs, by targets and then by sources. A cost of at least a dummy's is as none.
pub type Costs = [Row; MOST_MEN];

/// The value of a least assignment, and prices of the sources and targets that show that none is less:
/// a target's price less a source's is at most the cost of the pair, a target's price is at most the
/// cost of a dummy, and all targets' prices less all sources' are the value.
#[derive(Clone, Copy, Debug, PartialEq, Eq)]
pub struct Assignment {
    pub value: u16,
    pub sources: [u8; MOST_MEN],
    pub targets: [u8; MOST_MEN],
}

// The least cost in a row, a dummy's included.
fn least(row: &Row, dummy: u8) -> u8 {
    let mut least = dummy;
    for i in 0..MOST_MEN {
        least = least.min(row[i]);
    }
    least
}

// The prices of a row, added up.
fn sum(prices: &Row) -> u16 {
    let mut sum = 0u16;
    for i in 0..MOST_MEN {
        sum = sum.saturating_add(u16::from(prices[i]));
    }
    sum
}

/// What the value of no assignment is below: the least costs of the first `targets` targets, added up, a dummy's
/// included.
pub fn least_costs(costs: &Costs, targets: usize, dummy: u8) -> u16 {
    let mut sum = 0u16;
    for t in 0..MOST_MEN {
        if t < targets {
            sum = sum.saturating_add(u16::from(least(&costs[t], dummy)));
        }
    }
    sum
}

/// A least assignment of the first `targets` targets, at most 16: each gets a source of its own or a
/// dummy of the stated cost, at most 85, and the value is the sum of the costs.
///
/// Prices and value are those of the Hungarian method by shortest augmenting paths (J. Munkres, "Algorithms for the
/// assignment and transportation problems", 1957; R. Jonker and A. Volgenant, "A shortest augmenting path algorithm
/// for dense and sparse linear assignment problems", 1987). Dummies do not stand apart: there are sixteen columns, so
/// a target without a source takes one that costs what a dummy does, and has no price.
pub fn assign(costs: &Costs, targets: usize, dummy: u8) -> Assignment {
    let prices = least_prices(costs, targets, dummy);
    Assignment {
        value: sum(&prices.rows).saturating_sub(sum(&prices.columns)),
        sources: prices.columns,
        targets: prices.rows,
    }
}
