//! What a cut by tolls says, in numbers.

use crate::fares::{GrowingFares, Tables};
use crate::journeys::lost_pawn;
use crate::numbers::{Excess, Node, captures_of};
use pg_board::{Color, Square, SquareSet};
use pg_captures::plies_left;
use pg_fen::Diagram;
use pg_journeys::has_few;
use pg_position::Position;
use pg_tolls::{Fares, Plan, Tariff, ground_of_walls};

// What a tariff excludes a node by.
#[derive(Clone, Copy)]
pub(crate) enum Barrier {
    // This pawn of the diagram, on its home rank, does not stand there any more.
    Wall(Square),
    // The colour has captured too many men, less than none as a number of men to capture.
    TooMany(Color, i16),
    // The colour has no plan.
    NoPlan(Color),
    // The cheapest plans of both colours are charged more than the plies that are left pay for.
    Plies(Shortage),
}

// How many plies pay for what is charged, none where 255 do not; how many are left; and the squares, three at most, on
// which the cheapest plans differ most: the one colour's captures are not as many there as the other's men who are
// captured.
#[derive(Clone, Copy)]
pub(crate) struct Shortage {
    pub(crate) needed: Option<u8>,
    pub(crate) left: u8,
    pub(crate) squares: [Option<Square>; 3],
}

// What a number of plies pays for, where a side is to move first.
fn paid(tariff: &Tariff, side: Color, plies: u8) -> i64 {
    let white = i64::from(plies_left(side, Color::White, plies));
    let black = i64::from(plies_left(side, Color::Black, plies));
    let ours = i64::from(tariff.weight(Color::White)).saturating_mul(white);
    ours.saturating_add(i64::from(tariff.weight(Color::Black)).saturating_mul(black))
}

// The least number of plies, no fewer than those that are left, that pays for a charge; none where 255 do not.
fn least_plies(tariff: &Tariff, side: Color, left: u8, charged: i64) -> Option<u8> {
    for plies in left..=255u8 {
        if paid(tariff, side, plies) >= charged {
            return Some(plies);
        }
    }
    None
}

// How often something is on a square.
fn times_on(times: &[u8; 64], square: Square) -> u8 {
    match times.get(usize::from(square.index())) {
        Some(times) => *times,
        None => 0,
    }
}

// By how much the plans of both colours differ on a square: the captures of each from the men of the other who are
// captured there.
fn difference_on(white: &Plan, black: &Plan, square: Square) -> u8 {
    let ours = times_on(&white.marks, square).abs_diff(times_on(&black.deaths, square));
    let theirs = times_on(&black.marks, square).abs_diff(times_on(&white.deaths, square));
    ours.saturating_add(theirs)
}

// The square of these on which plans differ most, the first of several; none where they differ on none.
fn most_different(white: &Plan, black: &Plan, squares: SquareSet) -> Option<Square> {
    let mut found = None;
    let mut most = 0u8;
    let mut left = squares;
    for _ in 0..64u8 {
        let Some(square) = left.pop_first() else {
            return found;
        };
        let difference = difference_on(white, black, square);
        if difference > most {
            most = difference;
            found = Some(square);
        }
    }
    found
}

// The squares on which plans differ most, three at most, which stand first.
fn squares_of(white: &Plan, black: &Plan) -> [Option<Square>; 3] {
    let mut squares = [None; 3];
    let mut left = SquareSet::full();
    for i in 0..3usize {
        if let Some(square) = most_different(white, black, left) {
            left = left - SquareSet::single(square);
            squares[i] = Some(square);
        }
    }
    squares
}

// A colour's cheapest plan.
fn plan_of(fares: &Fares, diagram: &Diagram, color: Color, position: &Position) -> Option<Plan> {
    let ground = ground_of_walls(diagram, color);
    fares.plan(&ground, position)
}

// The squares on which the cheapest plans of both colours differ most; none where there are no such plans.
fn squares_at(tables: &Tables, node: &Node) -> [Option<Square>; 3] {
    let Some(white) = plan_of(&tables.white, node.diagram, Color::White, node.position) else {
        return [None; 3];
    };
    match plan_of(&tables.black, node.diagram, Color::Black, node.position) {
        Some(black) => squares_of(&white, &black),
        None => [None; 3],
    }
}

// What excludes a node by what both colours are charged; none where nothing does.
fn barrier_by(tables: &Tables, node: &Node) -> Option<Barrier> {
    let Some(white) = tables.white.least(node.position) else {
        return Some(Barrier::NoPlan(Color::White));
    };
    let Some(black) = tables.black.least(node.position) else {
        return Some(Barrier::NoPlan(Color::Black));
    };
    let charged = white.saturating_add(black);
    let side = node.position.side();
    if charged <= paid(&tables.tariff, side, node.left) {
        return None;
    }
    Some(Barrier::Plies(Shortage {
        needed: least_plies(&tables.tariff, side, node.left, charged),
        left: node.left,
        squares: squares_at(tables, node),
    }))
}

// What excludes a node by any tariff, whatever plans there are; none where nothing does.
fn barrier_without_plans(node: &Node) -> Option<Barrier> {
    if let Some(square) = lost_pawn(node) {
        return Some(Barrier::Wall(square));
    }
    for color in [Color::White, Color::Black] {
        if let Some(Excess::TooMany(owed)) = captures_of(node, color) {
            return Some(Barrier::TooMany(color, owed));
        }
    }
    None
}

// What the tariff of a number excludes a node by; none where it is not seen to, and where memory for its tables is
// refused. Seldom called: most cuts are by other bounds.
#[inline(never)]
pub(crate) fn barrier_of(
    fares: &mut GrowingFares<'_>,
    node: &Node,
    number: usize,
) -> Option<Barrier> {
    if !fares.are_for(node.diagram) {
        return None;
    }
    if let Some(barrier) = barrier_without_plans(node) {
        return Some(barrier);
    }
    if !has_few(node.position) {
        return None;
    }
    fares.meet(number);
    let tables = fares.known(number)?;
    barrier_by(tables, node)
}
