//! The least totals of assignments that have a row at a column.
ghost use Rattle.std.specs.Prelude.{◌≡◌, ◌<◌, ◌≤◌};
ghost use Rattle.pg_assignments.specs.Assignments.{cost, IsLeastWith};
ghost use Rattle.pg_assignments.specs.Pinned.{IsPinned};

use crate::costs::{Costs, NONE};
use crate::tested::least_total;

// The same costs, but a row has no other column than this one.
fn pinned(costs: &Costs, row: usize, column: usize) -> Costs
    requires row { row < 16 }
    requires column { column < 16 }
    ensures size { result.size ≡ costs.now.size }
    ensures pinned { IsPinned (cost costs.now) (cost result) row column }
{
    let mut only = [NONE; 16];
    only[column] = costs.at(row, column);
    let mut rows = costs.rows;
    rows[row] = only;
    Costs {
        size: costs.size,
        rows,
    }
}

// The least total of an assignment that has the row at the column, or none where there is no such assignment.
pub(crate) fn least_with(costs: &Costs, row: usize, column: usize) -> Option<u16>
    requires size { costs.now.size ≤ 16 }
    requires row { row < costs.now.size }
    requires column { column < costs.now.size }
    ensures { IsLeastWith costs.now row column result }
{
    least_total(&pinned(costs, row, column))
}
