//! The plain search: rows one after the other, each free column, the least of the rest.
ghost use Rattle.std.specs.Prelude.{◌≡◌, ℕ, ◌<◌, ◌≤◌, ◌↔◌, length};
ghost use Rattle.pg_assignments.specs.Assignments.{cost, IsLeast, IsTotal, IsLeastTotal};
ghost use Rattle.pg_assignments.specs.Search.{IsFree, IsVia, lesser_of};

use crate::costs::{Costs, NONE};

// The lesser of two least numbers, where there are any.
#[tactic(auto, unfolding(crate::specs::Search::lesser_of))]
fn lesser(a: Option<u16>, b: Option<u16>) -> Option<u16>
    ensures { result ≡ lesser_of a b }
{
    match a {
        None => b,
        Some(x) => match b {
            None => a,
            Some(y) => Some(x.min(y)),
        },
    }
}

// The least total of the rows up to this one, which goes to this column, where the others go to free columns.
#[cycle(exact)]
fn via(costs: &Costs, free: [bool; 16], row: usize, column: usize) -> Option<u16>
    requires row { row < 16 }
    requires column { column < 16 }
    ensures { IsLeast (IsVia (cost costs.now) (IsFree free) row column) result }
{
    let cost = costs.at(row, column);
    if cost == NONE || !free[column] {
        return None;
    }
    let mut left = free;
    left[column] = false;
    match search(costs, left, row) {
        None => None,
        Some(rest) => Some(rest + u16::from(cost)),
    }
}

// The least total of the first `rows` rows at free columns.
#[cycle(exact)]
fn search(costs: &Costs, free: [bool; 16], rows: usize) -> Option<u16>
    requires { rows ≤ 16 }
    ensures { IsLeast (IsTotal (cost costs.now) (IsFree free) rows) result }
{
    if rows == 0 {
        return Some(0);
    }
    let row = rows - 1;
    let mut least = None;
    for column in 0..16usize {
        least = lesser(least, via(costs, free, row, column));
    }
    least
}

// The first `columns` columns are free.
fn first(columns: usize) -> [bool; 16]
    requires { columns ≤ 16 }
    ensures is { (j : ℕ) → IsFree result j ↔ (j < columns) }
    ensures long { length result ≡ 16 }
{
    let mut free = [false; 16];
    for j in 0..columns {
        free[j] = true;
    }
    free
}

// The least total of all rows, by the plain search.
pub(crate) fn search_all(costs: &Costs) -> Option<u16>
    requires { costs.now.size ≤ 16 }
    ensures { IsLeastTotal costs.now result }
{
    search(costs, first(costs.size), costs.size)
}
