//! The least costs of the columns: each assignment costs at least their sum.
ghost use Rattle.std.specs.Prelude.{◌≡◌, ◌≤◌, IsTrue};
ghost use Rattle.pg_board.specs.Tally.{total};
ghost use Rattle.pg_assignments.specs.Assignments.{cost, nth};
ghost use Rattle.pg_assignments.specs.Dual.{AreBelow, AreAtMost};
ghost use Rattle.pg_assignments.specs.Totals.{IsBeyond};

use crate::costs::{Costs, NONE};

// The lesser of each two costs.
#[inline(always)]
fn lesser(first: [u8; 16], second: [u8; 16]) -> [u8; 16]
    ensures { AreAtMost result first second 16 }
{
    let mut lesser = first;
    for j in 0..16usize {
        lesser[j] = first[j].min(second[j]);
    }
    lesser
}

/// The least cost of each column, or 255.
#[inline(never)]
pub(crate) fn least_of_columns(costs: &Costs) -> [u8; 16]
    requires { costs.now.size ≤ 16 }
    ensures { AreBelow (cost costs.now) result costs.now.size }
{
    let mut least = [NONE; 16];
    for i in 0..costs.size {
        let next = lesser(least, costs.rows[i]);
        least = next;
    }
    least
}

// The sum of sixteen numbers.
#[inline(always)]
fn sum_of(row: [u8; 16]) -> u32
    ensures { result ≡ total (nth row) 16 }
{
    let mut sum = 0u32;
    for j in 0..16usize {
        sum += u32::from(row[j]);
    }
    sum
}

/// Whether the least costs of the columns are in sum above `most`.
#[inline(always)]
pub(crate) fn is_beyond(costs: &Costs, least: [u8; 16], most: u16) -> bool
    requires size { costs.now.size ≤ 16 }
    requires below { AreBelow (cost costs.now) least costs.now.size }
    ensures { IsTrue result → IsBeyond costs.now most }
{
    let spare = 255 * (16 - costs.size as u32);
    sum_of(least) > u32::from(most) + spare
}
