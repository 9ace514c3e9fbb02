//! What a move changes of either colour, held against both made anew.

use crate::shared::{halves, words};
use pg_fen::read_position;
use pg_moves::legal_moves;
use pg_position::{Move, Position};
use pg_searcher::{Change, Side, Sides, changes_of, sides_of};
use std::process::Abort;

// The position of a text.
fn position_of(rt: &impl Abort, text: &str) -> Position {
    read_position(text).expect(rt, text).position
}

fn are_same(a: &Side, b: &Side) -> bool {
    a.key == b.key && a.men == b.men && a.pawns == b.pawns && a.ways == b.ways
}

// A colour that a move changes, or not.
fn changed(change: &Option<Change>, side: &Side) -> Side {
    match change {
        Some(change) => change.applied(side, side.needs),
        None => *side,
    }
}

// Both colours after a move, by what it changes; none where that is not told.
fn after(position: &Position, sides: &Sides, m: &Move) -> Option<(Side, Side)> {
    let Some(changes) = changes_of(position, m) else {
        return None;
    };
    let color = position.side();
    let own = sides.of(color);
    let own = changes.own.applied(own, own.needs);
    Some((own, changed(&changes.other, sides.of(color.other()))))
}

// Whether a legal move is told. What it changes leads to what the next position has.
fn is_told(rt: &impl Abort, position: &Position, m: &Move) -> bool {
    let Some((own, other)) = after(position, &sides_of(position), m) else {
        return false;
    };
    let wanted = sides_of(&position.play(*m).expect(rt, "a legal move"));
    let color = position.side();
    assert!(rt; are_same(&own, wanted.of(color)));
    assert!(rt; are_same(&other, wanted.of(color.other())));
    true
}

// How many legal moves are not told; the others lead to what the next position has.
fn special_moves<R: Abort + AllocGlobal>(rt: &R, position: &Position) -> u32 {
    let mut special = 0u32;
    for m in &legal_moves(rt.alloc(), position).expect(rt, "memory") {
        if !is_told(rt, position, m) {
            special = special.saturating_add(1);
        }
    }
    special
}

// Positions with each kind of move, and how many of their moves are castling, captures en passant and
// promotions, which are judged from the next position.
const POSITIONS: &str = "rnbqkbnr/pppppppp/8/8/8/8/PPPPPPPP/RNBQKBNR w KQkq - 0 1 => 0
r3k2r/p1ppqpb1/bn2pnp1/3PN3/1p2P3/2N2Q1p/PPPBBPPP/R3K2R w KQkq - 0 1 => 2
r3k2r/p1ppqpb1/bn2pnp1/3PN3/1p2P3/2N2Q1p/PPPBBPPP/R3K2R b KQkq - 0 1 => 2
r3k2r/8/8/8/8/8/6N1/R3K2R w KQkq - 0 1 => 2
r3k2r/8/8/8/8/8/8/R3K2R b Kq - 0 1 => 1
rnbqkbnr/ppppp1pp/8/5pP1/8/8/PPPPPP1P/RNBQKBNR w KQkq f6 0 3 => 1
4k2r/6P1/8/8/8/8/8/4K3 w k - 0 1 => 8";

#[test]
fn moves_change_what_they_say(rt: HostRuntime) {
    for row in POSITIONS.lines() {
        let (text, wanted) = halves(&rt, row, " => ");
        let special = special_moves(&rt, &position_of(&rt, text));
        assert_eq!(rt; words(&special).as_str(), wanted, "{row}");
    }
}

// A rook that is taken at home takes a right with it.
#[test]
fn a_lost_rook_is_a_lost_way(rt: HostRuntime) {
    let position = position_of(&rt, "r3k2r/8/8/8/8/8/8/R3K2R w KQkq - 0 1");
    let sides = sides_of(&position);
    assert!(rt; sides.white.ways == 3 && sides.black.ways == 3);
    let mut count = 0u32;
    for m in &legal_moves(rt.alloc(), &position).expect(&rt, "memory") {
        if m.from.index() == 0 && m.to.index() == 56 {
            let (white, black) = after(&position, &sides, m).expect(&rt, "told");
            assert!(rt; white.ways == 2 && black.ways == 2 && black.men == 2);
            count = count.saturating_add(1);
        }
    }
    assert_eq!(rt; count, 1);
}
