//! How much a path of a man to a fate may count in a plan.
ghost use Rattle.std.specs.Prelude.{◌<◌, ◌≤◌, IfSome, IfNone};
ghost use Rattle.pg_assignments.specs.Assignments.{AreLeastWith};
ghost use Rattle.pg_journeys.specs.inner.Costing.{IsRoom, IsWider, EndsAt, IsRoomRow, AreRoomRows};
ghost use Rattle.pg_journeys.specs.inner.Deeds.{HasNoPlan};
ghost use Rattle.pg_journeys.specs.inner.Showing.{HasRooms};

use crate::measured::Measured;
use crate::plans::{charge, costs_in};
use pg_assignments::{Costs, least_totals};
use pg_position::Wing;

// For each man and each end the most that a path of his to it may count in a plan: 255 where no plan has that. The ends
// are the men of the diagram, and last to be captured.
pub(crate) type Rooms = [[u8; 17]; 16];

// The room of a man at a column; 255 for none. All paths together may count `paid` at most.
fn room(costs: &Costs, least: &[[u16; 16]; 16], paid: u16, i: usize, j: usize) -> u8
    requires size { costs.now.size ≤ 16 }
    requires least { AreLeastWith costs.now least.now costs.now.size }
    requires paid { paid < 200 }
    requires man { i < costs.now.size }
    requires column { j < costs.now.size }
    ensures { IsRoom costs.now least.now paid i j result }
{
    let total = least[i][j];
    if total > paid {
        255
    } else {
        (paid - total + u16::from(costs.rows[i][j])) as u8
    }
}

// The greater room; 255 is none.
fn wider(a: u8, b: u8) -> u8
    ensures { IsWider a b result }
{
    if a == 255 {
        b
    } else if b == 255 {
        a
    } else {
        a.max(b)
    }
}

// The end of a column: the first `goals` are those of the men of the diagram.
fn end_of(goals: usize, j: usize) -> usize
    requires { j < 16 }
    ensures end { EndsAt goals j result }
    ensures low { result < 17 }
{
    if j < goals { j } else { 16 }
}

// The rooms of a man.
fn row(costs: &Costs, goals: usize, least: &[[u16; 16]; 16], paid: u16, i: usize) -> [u8; 17]
    requires size { costs.now.size ≤ 16 }
    requires least { AreLeastWith costs.now least.now costs.now.size }
    requires paid { paid < 200 }
    requires man { i < costs.now.size }
    ensures { IsRoomRow costs.now least.now paid goals i result costs.now.size }
{
    let mut rooms = [255u8; 17];
    for j in 0..costs.size {
        let total = least[i][j];
        if total <= paid {
            let end = end_of(goals, j);
            rooms[end] = wider(rooms[end], room(costs, least, paid, i, j));
        }
    }
    rooms
}

// The rooms of all men by their costs.
fn rows(costs: &Costs, goals: usize, least: &[[u16; 16]; 16], paid: u16) -> Rooms
    requires size { costs.now.size ≤ 16 }
    requires least { AreLeastWith costs.now least.now costs.now.size }
    requires paid { paid < 200 }
    ensures { AreRoomRows costs.now least.now paid goals result costs.now.size }
{
    let mut rooms = [[255u8; 17]; 16];
    for i in 0..costs.size {
        rooms[i] = row(costs, goals, least, paid, i);
    }
    rooms
}

// The rooms of all men by a way, where what is measured pays for all paths and the way; none where it pays for no plan.
// One assignment tells both.
pub(crate) fn rooms_of(measured: &Measured<'_>, way: Option<Wing>) -> Option<Rooms>
    ensures none { IfNone result (HasNoPlan measured.now.side.now measured.now.is_quiet way measured.now.most) }
    ensures some { IfSome result (λ rooms.
        HasRooms measured.now.side.now measured.now.is_quiet way measured.now.most rooms) }
{
    let charge = charge(way);
    if charge > measured.most {
        return None;
    }
    let paid = u16::from(measured.most - charge);
    let costs = costs_in(measured, way);
    match least_totals(&costs, paid) {
        None => None,
        Some(totals) => Some(rows(&costs, measured.side.goals.count, &totals.pairs, paid)),
    }
}
