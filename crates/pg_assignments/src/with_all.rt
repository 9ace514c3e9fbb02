//! The least totals of all pairs at once, by lengths of ways of handing columns on.
ghost use Rattle.std.specs.Prelude.{◌<◌, ◌≤◌, IsTrue, IfSome, None};
ghost use Rattle.pg_assignments.specs.Assignments.{cost, IsLeastTotal, IsLeastWith, nth, told, RowLeast, AreLeastWith};
ghost use Rattle.pg_assignments.specs.Dual.{Fits};
ghost use Rattle.pg_assignments.specs.Handing.{AreWithin, IsSlackBy, AreTold, AreSums, IsProvedOf};

use crate::columns::least_of_columns;
use crate::costs::Costs;
use crate::propose::{Proposal, Row, propose};
use crate::slacks::fitted;
use crate::tested::{fits, sum, value};
use crate::ways::{find_ways, lengths_to};
use crate::with::least_with;

/// What the rows of a proposal pay, and what its columns charge.
#[derive(Clone, Copy)]
pub(crate) struct Sums {
    pub(crate) paid: u32,
    pub(crate) charged: u32,
}

/// The sums of a proposal's prices.
#[inline(always)]
pub(crate) fn sums_of(costs: &Costs, proposal: &Proposal) -> Sums
    requires { costs.now.size ≤ 16 }
    ensures { AreSums costs.now proposal.now result }
{
    Sums {
        paid: sum(&proposal.rows, costs.size),
        charged: sum(&proposal.columns, costs.size),
    }
}

/// The value of a proposal whose prices fit, where it passes.
#[inline(never)]
pub(crate) fn proved(costs: &Costs, proposal: &Proposal, sums: &Sums) -> Option<u16>
    requires size { costs.now.size ≤ 16 }
    requires fits { Fits (cost costs.now) (nth proposal.now.rows) (nth proposal.now.columns) costs.now.size 16 }
    requires low { AreWithin proposal.now.columns 16 32768 }
    requires sums { AreSums costs.now proposal.now sums.now }
    ensures { IfSome result (λ x. IsProvedOf costs.now proposal.now x) }
{
    match value(costs, &proposal.to, &proposal.holder) {
        None => None,
        Some(x) => {
            if u32::from(x) + sums.charged <= sums.paid {
                Some(x)
            } else {
                None
            }
        }
    }
}

// The totals of a row's pairs.
#[inline(always)]
fn told_row(x: u16, slack: &Row, lengths: &Row) -> Row
    ensures { AreTold x slack.now lengths.now result 16 }
{
    let mut out = [u16::MAX; 16];
    for q in 0..16usize {
        let sum = x.saturating_add(slack[q]).saturating_add(lengths[q]);
        out[q] = if sum > 4064 { u16::MAX } else { sum };
    }
    out
}

/// Finds the least totals by a proposal of this value, whose slacks these are. They are written where they stay.
#[inline(never)]
pub(crate) fn all_by(
    costs: &Costs,
    proposal: &Proposal,
    slacks: &[Row; 16],
    x: u16,
    out: &mut [Row; 16],
)
    requires size { costs.now.size ≤ 16 }
    requires proved { IsProvedOf costs.now proposal.now x }
    requires slack { IsSlackBy costs.now proposal.now slacks.now }
    ensures { AreLeastWith costs.now out.new costs.now.size }
{
    let mut keys = [[u16::MAX; 16]; 16];
    find_ways(costs.size, slacks, &proposal.holder, &mut keys);
    for i in 0..costs.size {
        let lengths = lengths_to(&keys, usize::from(proposal.to[i]));
        out[i] = told_row(x, &slacks[i], &lengths);
    }
}

// The least total of a pair as a number.
fn number(costs: &Costs, row: usize, column: usize) -> u16
    requires size { costs.now.size ≤ 16 }
    requires row { row < costs.now.size }
    requires column { column < costs.now.size }
    ensures { IsLeastWith costs.now row column (told result) }
{
    match least_with(costs, row, column) {
        None => u16::MAX,
        Some(x) => x,
    }
}

// The least totals of a row's pairs, each by itself.
fn plain_row(costs: &Costs, row: usize) -> Row
    requires size { costs.now.size ≤ 16 }
    requires row { row < costs.now.size }
    ensures { RowLeast costs.now row result costs.now.size }
{
    let mut out = [u16::MAX; 16];
    for j in 0..costs.size {
        out[j] = number(costs, row, j);
    }
    out
}

// The least totals of all pairs, each by itself.
pub(crate) fn plain_all(costs: &Costs) -> [Row; 16]
    requires { costs.now.size ≤ 16 }
    ensures { AreLeastWith costs.now result costs.now.size }
{
    let mut out = [[u16::MAX; 16]; 16];
    for i in 0..costs.size {
        out[i] = plain_row(costs, i);
    }
    out
}

// Whether the prices show that there is no assignment.
#[inline(never)]
fn shows_none(costs: &Costs, proposal: &Proposal) -> bool
    requires { costs.now.size ≤ 16 }
    ensures { IsTrue result → IsLeastTotal costs.now None }
{
    let paid = sum(&proposal.rows, costs.size);
    let charged = sum(&proposal.columns, 16);
    charged + 4064 < paid && fits(costs, &proposal.rows, &proposal.columns)
}

// What is answered where there is no assignment.
fn none_all(costs: &Costs) -> [Row; 16]
    requires size { costs.now.size ≤ 16 }
    requires none { IsLeastTotal costs.now None }
    ensures { AreLeastWith costs.now result costs.now.size }
{
    [[u16::MAX; 16]; 16]
}

// The least totals of all pairs by a proposal, where its test passes.
fn tried(costs: &Costs, proposal: &Proposal) -> Option<[Row; 16]>
    requires { costs.now.size ≤ 16 }
    ensures { IfSome result (λ out. AreLeastWith costs.now out costs.now.size) }
{
    let mut slacks = [[u16::MAX; 16]; 16];
    if !fitted(costs, proposal, &mut slacks) {
        return None;
    }
    match proved(costs, proposal, &sums_of(costs, proposal)) {
        None => None,
        Some(x) => {
            let mut out = [[u16::MAX; 16]; 16];
            all_by(costs, proposal, &slacks, x, &mut out);
            Some(out)
        }
    }
}

// The least totals of all pairs, by the proposal where it passes.
pub(crate) fn all_pairs(costs: &Costs, proposal: &Proposal) -> [Row; 16]
    requires { costs.now.size ≤ 16 }
    ensures { AreLeastWith costs.now result costs.now.size }
{
    match tried(costs, proposal) {
        None => plain_all(costs),
        Some(out) => out,
    }
}

/// For each row i and column j below `size` the least total of an assignment that has row i at column j, a sum of costs
/// of at most 4064; 65535 where there is none. The answer is by rows and then by columns; what stands beyond `size`
/// means nothing.
///
/// All come of one proposal by the Hungarian method, which is tested, and of the shortest ways of handing columns on
/// from row to row. Where the test fails each pair is reckoned by itself, which takes longer.
pub fn least_with_all(costs: &Costs) -> [[u16; 16]; 16]
    requires { costs.now.size ≤ 16 }
    ensures { AreLeastWith costs.now result costs.now.size }
{
    let proposal = propose(costs, costs.size, least_of_columns(costs));
    if shows_none(costs, &proposal) {
        none_all(costs)
    } else {
        all_pairs(costs, &proposal)
    }
}
