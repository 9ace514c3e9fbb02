//! Least assignments, and what both colours need.

use crate::chance::{moved, next};
use pg_board::Color;
use pg_fen::Diagram;
use pg_position::Position;
use pg_prices::{Costs, MOST_MEN, Rows, assign, first_needs, pawn_lists, travel_lists};
use std::alloc::{AllocError, Global};

// Fills the costs: 2 of 5 are none, the others 0 to 5, and most men stand where one is to stand.
fn fill(costs: &mut Costs, state: u64) -> u64 {
    let mut state = state;
    for t in 0..MOST_MEN {
        state = next(state);
        let mut bits = state >> 4;
        for s in 0..MOST_MEN {
            let code = bits & 15;
            bits >>= 4;
            costs[t][s] = if code < 6 { 200 } else { (code / 2 - 2) as u8 };
        }
        state = next(state);
        if state >> 20 & 3 != 0 {
            costs[t][t] = 0;
        }
    }
    state
}

// The sum of the least assignments of `count` random matrices of 16 targets and 16 sources, with costs as men have them
// or none; where nothing is assigned, what making them costs.
pub(crate) fn assignments(count: u64, is_assigned: bool) -> u64 {
    let mut costs = [[200u8; MOST_MEN]; MOST_MEN];
    let mut state = 0x9e37_79b9_7f4a_7c15;
    let mut sum = 0u64;
    for _ in 0..count {
        state = fill(&mut costs, state);
        if is_assigned {
            sum = sum.saturating_add(u64::from(assign(&costs, MOST_MEN, 65).value));
        } else {
            sum = sum.saturating_add(u64::from(costs[3][5]));
        }
    }
    sum
}

// How much of the needs is found.
#[derive(Clone, Copy, PartialEq, Eq)]
pub(crate) enum Part {
    Nothing,
    First,
    All,
}

fn sum_of(rows: &Rows, diagram: &Diagram, position: &Position, part: Part) -> u64 {
    if part == Part::Nothing {
        return 1;
    }
    let first = u64::from(first_needs(rows, diagram, position).need);
    if part != Part::All {
        return first;
    }
    let (travel, _) = travel_lists(rows, position);
    let (pawns, _) = pawn_lists(rows, position);
    first
        .saturating_add(u64::from(travel))
        .saturating_add(u64::from(pawns))
}

// The sum of what both colours need, for a diagram of 24 random plies, from `count` positions of random games of 16
// plies each.
pub(crate) fn needs(alloc: Global, count: u64, part: Part) -> Result<u64, AllocError> {
    let mut state = 0x9e37_79b9_7f4a_7c15;
    let mut goal = Position::array();
    for _ in 0..24u8 {
        state = next(state);
        goal = moved(alloc, &goal, state)?.unwrap_or(goal);
    }
    let diagram = Diagram::of(&goal);
    let white = Rows::new(alloc, Color::White, &diagram)?;
    let black = Rows::new(alloc, Color::Black, &diagram)?;
    let mut position = Position::array();
    let mut sum = 0u64;
    for round in 0..count {
        state = next(state);
        position = if round % 16 == 0 {
            Position::array()
        } else {
            moved(alloc, &position, state)?.unwrap_or(position)
        };
        sum = sum.saturating_add(sum_of(&white, &diagram, &position, part));
        sum = sum.saturating_add(sum_of(&black, &diagram, &position, part));
    }
    Ok(sum)
}
