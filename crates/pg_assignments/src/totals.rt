//! All least totals, where the least of them is within a budget.
ghost use Rattle.std.specs.Prelude.{◌≡◌, ◌≤◌, false, IsTrue, IfSome, IfNone};
ghost use Rattle.pg_assignments.specs.Totals.{IsBeyond, AreTotals};

use crate::columns::{is_beyond, least_of_columns};
use crate::costs::Costs;
use crate::propose::{Proposal, propose};
use crate::slacks::fitted;
use crate::tested::judged;
use crate::with_all::{all_by, plain_all, proved, sums_of};

/// The least total of all assignments, at most 4064, and for each row i and column j below the costs' `size` the least
/// total of an assignment that has row i at column j: `pairs[i][j]`, as [`crate::least_with_all`] answers it, with
/// 65535 where there is none.
#[derive(Clone, Copy, Debug, PartialEq, Eq)]
pub struct LeastTotals {
    pub least: u16,
    pub pairs: [[u16; 16]; 16],
}

// Finds them by searches, each for itself, but for what the prices show.
#[inline(never)]
fn by_searches(costs: &Costs, proposal: &Proposal, most: u16, totals: &mut LeastTotals) -> bool
    requires { costs.now.size ≤ 16 }
    ensures none { result ≡ false → IsBeyond costs.now most }
    ensures some { IsTrue result → AreTotals costs.now most totals.new }
{
    match judged(costs, proposal) {
        None => false,
        Some(total) => {
            if total > most {
                return false;
            }
            let pairs = plain_all(costs);
            *totals = LeastTotals {
                least: total,
                pairs,
            };
            true
        }
    }
}

// Finds them by a proposal, for which the least costs of the columns are handed in, and says whether the least is
// within `most`.
#[inline(always)]
fn found(costs: &Costs, least: [u8; 16], most: u16, totals: &mut LeastTotals) -> bool
    requires { costs.now.size ≤ 16 }
    ensures none { result ≡ false → IsBeyond costs.now most }
    ensures some { IsTrue result → AreTotals costs.now most totals.new }
{
    let proposal = propose(costs, costs.size, least);
    let mut slacks = [[u16::MAX; 16]; 16];
    if !fitted(costs, &proposal, &mut slacks) {
        return by_searches(costs, &proposal, most, totals);
    }
    let sums = sums_of(costs, &proposal);
    if sums.charged + u32::from(most) < sums.paid {
        return false;
    }
    match proved(costs, &proposal, &sums) {
        None => by_searches(costs, &proposal, most, totals),
        Some(least) => {
            totals.least = least;
            all_by(costs, &proposal, &slacks, least, &mut totals.pairs);
            true
        }
    }
}

// The same, made here: what is large stands behind the test of the columns.
#[inline(never)]
fn by_prices(costs: &Costs, least: [u8; 16], most: u16) -> Option<LeastTotals>
    requires { costs.now.size ≤ 16 }
    ensures none { IfNone result (IsBeyond costs.now most) }
    ensures some { IfSome result (λ totals. AreTotals costs.now most totals) }
{
    let mut totals = LeastTotals {
        least: 0,
        pairs: [[u16::MAX; 16]; 16],
    };
    if found(costs, least, most, &mut totals) {
        Some(totals)
    } else {
        None
    }
}

/// The least totals, or none where there is no assignment whose sum is at most `most`.
///
/// Where there are none, mostly the least costs of the columns tell it, and no pair is reckoned. Else all numbers come
/// of one proposal, which is tested once.
pub fn least_totals(costs: &Costs, most: u16) -> Option<LeastTotals>
    requires { costs.now.size ≤ 16 }
    ensures none { IfNone result (IsBeyond costs.now most) }
    ensures some { IfSome result (λ totals. AreTotals costs.now most totals) }
{
    let least = least_of_columns(costs);
    if is_beyond(costs, least, most) {
        return None;
    }
    by_prices(costs, least, most)
}
