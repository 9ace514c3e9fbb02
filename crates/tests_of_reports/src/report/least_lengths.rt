//! Least lengths that neither a bound nor prices exclude.

use super::*;
use crate::shared::{add, boxed};
use pg_moves::legal_moves;
use pg_position::Position;
use pg_trial::Never;

// The least number of plies that these bounds leave.
fn least_by<R: Abort + AllocGlobal>(
    rt: &R,
    diagram: &Diagram,
    bounds: &[Box<dyn Bound>],
) -> Option<u8> {
    match shortest(rt.alloc(), diagram, bounds).expect(rt, "memory") {
        Some(length) => Some(length.plies()),
        None => None,
    }
}

// The least number of plies that no bound of the program excludes.
fn least<R: Abort + AllocGlobal>(rt: &R, diagram: &Diagram) -> Option<u8> {
    least_by(rt, diagram, &four_bounds(rt))
}

// The array, one move of each side, and two diagrams that no game reaches: a second bishop on light
// squares beside eight pawns, and two pawns on a file with nothing captured.
const LEAST: &str = "array | 0
after-e4-e5 | 2
rnbqkbnr/pppppppp/8/8/8/3B4/PPPPPPPP/RN1QKBNR | none
rnbqkbnr/pppppppp/8/8/8/3P4/PPPP1PPP/RNBQKBNR | none";

#[test]
fn least_lengths(rt: HostRuntime) {
    for row in LEAST.lines() {
        let diagram = field(row, 0);
        let plies = field(row, 1);
        let found = least(&rt, &diagram_of(&rt, diagram));
        assert_eq!(rt; found, plies.parse().ok(), "{row}");
    }
}

// Adds the positions one ply after this one.
fn add_next<R: Abort + AllocGlobal>(rt: &R, position: &Position, all: &mut Vec<Position>) {
    let moves = legal_moves(rt.alloc(), position).expect(rt, "memory");
    for m in &moves {
        let next = position.play(*m).expect(rt, "a legal move");
        all.push(next).expect(rt, "memory");
    }
}

// The positions one ply after these.
fn one_ply_on<R: Abort + AllocGlobal>(rt: &R, positions: &[Position]) -> Vec<Position> {
    let mut all = Vec::new(rt.alloc());
    for position in positions {
        add_next(rt, position, &mut all);
    }
    all
}

// The positions `plies` plies after the array.
fn after<R: Abort + AllocGlobal>(rt: &R, plies: u8) -> Vec<Position> {
    let mut positions = one_ply_on(rt, &[Position::array()]);
    for _ in 1..plies {
        positions = one_ply_on(rt, positions.as_slice());
    }
    positions
}

// The least length of each position after `plies` plies is just that.
fn check_all<R: Abort + AllocGlobal>(rt: &R, plies: u8) {
    for position in &after(rt, plies) {
        let found = least(rt, &Diagram::of(position)).expect(rt, "a length");
        assert_eq!(rt; found, plies);
    }
}

// After one move of each side there is no shorter game, and each bound lets the game pass.
#[test]
fn least_lengths_after_two_plies(rt: HostRuntime) {
    check_all(&rt, 1);
    check_all(&rt, 2);
}

// The placements after `plies` plies.
fn placements<R: Abort + AllocGlobal>(rt: &R, plies: u8) -> Vec<[u8; 32]> {
    let mut all = Vec::new(rt.alloc());
    for position in &after(rt, plies) {
        let packed = Diagram::of(position).packed();
        all.push(packed).expect(rt, "memory");
    }
    all
}

// Whether the least length is that of the shortest game, of two plies for the earlier placements and
// of three for others. It is never above that.
fn is_exact<R: Abort + AllocGlobal>(rt: &R, diagram: &Diagram, earlier: &[[u8; 32]]) -> bool {
    let is_earlier = earlier.contains(&diagram.packed());
    let plies = if is_earlier { 2 } else { 3 };
    let found = least(rt, diagram).expect(rt, "a length");
    assert!(rt; found <= plies);
    found == plies
}

// After three plies the shortest game has three, or two where one move of White's does what his two did. The
// least length is never above that, and is just that for most.
#[test]
fn least_lengths_after_three_plies(rt: HostRuntime) {
    let earlier = placements(&rt, 2);
    let mut all = 0u32;
    let mut exact = 0u32;
    for position in &after(&rt, 3) {
        let is_exact = is_exact(&rt, &Diagram::of(position), earlier.as_slice());
        all = all.saturating_add(1);
        exact = exact.saturating_add(u32::from(is_exact));
    }
    assert_eq!(rt; all, 8902);
    assert_eq!(rt; exact, 8822);
}

// The least number of plies by prices alone, and with the four bounds; and that of a game.
const BY_PRICES: &str = "schweig | 2 | 3 | 8
rnbqkb1r/ppp2ppp/8/8/8/8/PPPPPPPP/RNBQKB1R | 0 | 5 | 8
r1bqnNnr/pppkpp1p/7R/3p4/8/8/PPPPPPP1/RNBQKBN1 | 11 | 11 | 11
1nbqkbnr/p1ppppp1/1N6/8/8/6n1/1PPPPP1P/RNBQKBN1 | 12 | 12 | 12";

// By prices alone, and with the four bounds.
fn check_prices<R: Abort + AllocGlobal>(rt: &R, row: &str) {
    let diagram = field(row, 0);
    let alone = field(row, 1);
    let all = field(row, 2);
    let plies = field(row, 3);
    let diagram = diagram_of(rt, diagram);
    let found = least(rt, &diagram);
    assert_eq!(rt; least_by(rt, &diagram, &[]), alone.parse().ok(), "{row}");
    assert_eq!(rt; found, all.parse().ok(), "{row}");
    assert!(rt; found <= plies.parse().ok(), "{row}");
}

// Prices alone, and with the four bounds: they say more where several men would come from one square, as
// the nearest man of each, and less where captures are owed. Each diagram has a game, of the number of plies that ends
// its row.
#[test]
fn least_lengths_by_prices(rt: HostRuntime) {
    for row in BY_PRICES.lines() {
        check_prices(&rt, row);
    }
}

// A bound that excludes nothing changes nothing.
#[test]
fn no_bound_excludes(rt: HostRuntime) {
    let diagram = diagram_of(&rt, "schweig");
    let mut bounds: Vec<Box<dyn Bound>> = Vec::new(rt.alloc());
    let alone = least_by(&rt, &diagram, &bounds);
    add(&rt, &mut bounds, boxed(&rt, Never::new(9)));
    assert_eq!(rt; least_by(&rt, &diagram, &bounds), alone);
}
