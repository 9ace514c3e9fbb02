//! Where the cursor stands after `skip_to_solution`, held against a loop that tries one move after the other, as the
//! first form did.

use pg_checker::skip_to_solution;
use pg_fen::{Diagram, read_position};
use pg_moves::LegalMoves;
use pg_position::{Move, Position};
use std::process::Abort;

// No position has more moves.
const MANY: u64 = 512;

// A number below a bound by chance.
fn drawn(state: &mut u64, bound: u64) -> u64 {
    *state = state
        .wrapping_mul(6_364_136_223_846_793_005)
        .wrapping_add(1_442_695_040_888_963_407);
    (*state >> 33).checked_rem(bound).unwrap_or(0)
}

// How many moves a cursor still hands out.
fn count_of(position: &Position) -> u64 {
    let mut moves = LegalMoves::new(position);
    for count in 0..MANY {
        if moves.next().is_none() {
            return count;
        }
    }
    MANY
}

// Whether a legal move leads to the diagram.
fn leads(diagram: &Diagram, position: &Position, m: &Move) -> bool {
    match position.play(*m) {
        Ok(next) => diagram.matches(&next),
        Err(_) => false,
    }
}

// Whether any legal move leads to the diagram.
fn any_leads(diagram: &Diagram, position: &Position) -> bool {
    let mut moves = LegalMoves::new(position);
    for _ in 0..MANY {
        let Some(m) = moves.next() else {
            return false;
        };
        if leads(diagram, position, &m) {
            return true;
        }
    }
    false
}

// Where some move leads to the diagram, the moves are passed over up to the next one that does, or to the end.
fn pass_one_by_one(diagram: &Diagram, moves: &mut LegalMoves) -> bool {
    let position = moves.position();
    if !any_leads(diagram, &position) {
        return false;
    }
    for _ in 0..MANY {
        let Some(peeked) = moves.peek() else {
            return false;
        };
        if leads(diagram, &position, &peeked.m) {
            return true;
        }
        let _ = moves.next();
    }
    false
}

// The moves of a position of which `handed_out` were handed out.
fn moves_past(position: &Position, handed_out: u64) -> LegalMoves {
    let mut moves = LegalMoves::new(position);
    for _ in 0..handed_out {
        let _ = moves.next();
    }
    moves
}

// Both forms answer alike and leave the cursor at the same move; whether the answer is yes.
fn check_from(rt: &impl Abort, diagram: &Diagram, position: &Position, handed_out: u64) -> bool {
    let mut moves = moves_past(position, handed_out);
    let mut others = moves_past(position, handed_out);
    let found = skip_to_solution(diagram, &mut moves);
    let wanted = pass_one_by_one(diagram, &mut others);
    assert!(rt; found == wanted, "{handed_out}");
    assert!(rt; moves.last() == others.last(), "{handed_out}");
    found
}

// The position after a move by chance; the same where there is none.
fn moved(state: &mut u64, position: &Position) -> Position {
    let mut moves = moves_past(position, drawn(state, count_of(position)));
    match moves.next() {
        Some(m) => position.play(m).unwrap_or(*position),
        None => *position,
    }
}

// From each place of the cursor, for a diagram: how often the answer is yes.
fn count_found(rt: &impl Abort, diagram: &Diagram, position: &Position) -> u64 {
    let mut found = 0u64;
    for handed_out in 0..count_of(position).saturating_add(1) {
        let yes = check_from(rt, diagram, position, handed_out);
        found = found.saturating_add(u64::from(yes));
    }
    found
}

// The array; castling on both wings; promotions and captures en passant.
const STARTS: &str = "rnbqkbnr/pppppppp/8/8/8/8/PPPPPPPP/RNBQKBNR w KQkq - 0 1
r3k2r/8/8/8/8/8/8/R3K2R w KQkq - 0 1
4k3/P1P4p/1p4P1/8/8/8/p5pP/4K2R w K - 0 1";

#[test]
fn the_cursor_stands_where_one_move_after_the_other_leaves_it(rt: HostRuntime) {
    let mut state = 7u64;
    let mut found = 0u64;
    for row in STARTS.lines() {
        let mut position = read_position(row).expect(&rt, row).position;
        for _ in 0..12u8 {
            let near = moved(&mut state, &position);
            let next = moved(&mut state, &position);
            let farther = moved(&mut state, &next);
            let far = moved(&mut state, &farther);
            found = found.saturating_add(count_found(&rt, &Diagram::of(&near), &position));
            found = found.saturating_add(count_found(&rt, &Diagram::of(&far), &position));
            position = next;
        }
    }
    assert!(rt; found > 100, "{found}");
}
