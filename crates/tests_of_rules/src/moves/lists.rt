//! The legal moves of a position, one after the other.

use super::*;
use pg_moves::{legal_moves, next_legal};
use std::alloc::Global;

// Walks all legal moves by the next one, and compares them with the list.
fn walk(rt: &impl Abort, alloc: Global, position: &Position, expected: usize) {
    let moves = legal_moves(alloc, position).expect(rt, "memory");
    assert!(rt; moves.len() == expected);
    check_walk(rt, position, moves.as_slice());
}

// That these are the moves of a position, by the next one after each.
fn check_walk(rt: &impl Abort, position: &Position, moves: &[Move]) {
    let mut last = None;
    for m in moves {
        let next = next_legal(position, last);
        assert!(rt; next == Some(*m));
        last = next;
    }
    assert!(rt; next_legal(position, last).is_none());
}

#[test]
fn walks(rt: HostRuntime) {
    walk(&rt, rt.alloc(), &Position::array(), 20);
    walk(&rt, rt.alloc(), &position(&rt, MANY), 48);
    walk(&rt, rt.alloc(), &position(&rt, FEW), 14);
    walk(&rt, rt.alloc(), &position(&rt, MATED), 0);
    let castling = "4k3/8/8/3pP3/8/8/8/R3K2R w KQ d6 0 1";
    walk(&rt, rt.alloc(), &position(&rt, castling), 28);
}

// That in each row's position this move, or none, is the next one after a move that need not be legal.
fn check_next(rt: &impl Abort, table: &str) {
    for row in table.lines() {
        let (start, text, wanted) = cells(rt, row);
        let found = next_legal(&position(rt, start), Some(move_of(rt, text)));
        check_row(rt, row, found == next_of(rt, wanted));
    }
}

// The move that is wanted of a row, or none.
fn next_of(rt: &impl Abort, wanted: &str) -> Option<Move> {
    match wanted {
        "none" => None,
        text => Some(move_of(rt, text)),
    }
}

const ILLEGAL: &str = "rnbqkbnr/pppppppp/8/8/8/8/PPPPPPPP/RNBQKBNR w KQkq - 0 1 | a1a1 => b1a3
rnbqkbnr/pppppppp/8/8/8/8/PPPPPPPP/RNBQKBNR w KQkq - 0 1 | b1a3k => b1c3
rnbqkbnr/pppppppp/8/8/8/8/PPPPPPPP/RNBQKBNR w KQkq - 0 1 | b1b3 => b1c3
rnbqkbnr/pppppppp/8/8/8/8/PPPPPPPP/RNBQKBNR w KQkq - 0 1 | c1h8 => g1f3
rnbqkbnr/pppppppp/8/8/8/8/PPPPPPPP/RNBQKBNR w KQkq - 0 1 | a2a3 => a2a4
rnbqkbnr/pppppppp/8/8/8/8/PPPPPPPP/RNBQKBNR w KQkq - 0 1 | a2a3q => a2a4
rnbqkbnr/pppppppp/8/8/8/8/PPPPPPPP/RNBQKBNR w KQkq - 0 1 | h2h3 => h2h4
rnbqkbnr/pppppppp/8/8/8/8/PPPPPPPP/RNBQKBNR w KQkq - 0 1 | h2h4 => none
rnbqkbnr/pppppppp/8/8/8/8/PPPPPPPP/RNBQKBNR w KQkq - 0 1 | h2h4p => none
rnbqkbnr/pppppppp/8/8/8/8/PPPPPPPP/RNBQKBNR w KQkq - 0 1 | h8h8k => none
rnbqkbnr/pppppppp/8/8/8/8/PPPPPPPP/RNBQKBNR w KQkq - 0 1 | a7a5 => none";

#[test]
fn after_illegal_moves(rt: HostRuntime) {
    check_next(&rt, ILLEGAL);
}

const PROMOTIONS: &str = "3r3k/4P3/8/8/8/8/8/K7 w - - 0 1 | e7d8 => e7d8n
3r3k/4P3/8/8/8/8/8/K7 w - - 0 1 | e7d8p => e7d8n
3r3k/4P3/8/8/8/8/8/K7 w - - 0 1 | e7d8n => e7d8b
3r3k/4P3/8/8/8/8/8/K7 w - - 0 1 | e7d8q => e7e8n
3r3k/4P3/8/8/8/8/8/K7 w - - 0 1 | e7d8k => e7e8n
3r3k/4P3/8/8/8/8/8/K7 w - - 0 1 | e7e8p => e7e8n
3r3k/4P3/8/8/8/8/8/K7 w - - 0 1 | e7e8q => none
3r3k/4P3/8/8/8/8/8/K7 w - - 0 1 | e7e8k => none";

#[test]
fn after_promotions(rt: HostRuntime) {
    check_next(&rt, PROMOTIONS);
}

const CASTLING_AND_EN_PASSANT: &str = "4k3/8/8/3pP3/8/8/8/R3K2R w KQ d6 0 1 | e1d1 => e1f1
4k3/8/8/3pP3/8/8/8/R3K2R w KQ d6 0 1 | e1a1 => e1c1
4k3/8/8/3pP3/8/8/8/R3K2R w KQ d6 0 1 | e1f1 => e1g1
4k3/8/8/3pP3/8/8/8/R3K2R w KQ d6 0 1 | e5a1 => e5d6
4k3/8/8/3pP3/8/8/8/R3K2R w KQ d6 0 1 | e5d6 => e5e6";

#[test]
fn castling_and_en_passant(rt: HostRuntime) {
    check_next(&rt, CASTLING_AND_EN_PASSANT);
}

#[test]
fn promotions_in_order(rt: HostRuntime) {
    let start = position(&rt, "3r3k/4P3/8/8/8/8/8/K7 w - - 0 1");
    let expected = "a1b1 a1a2 a1b2 e7d8n e7d8b e7d8r e7d8q e7e8n e7e8b e7e8r e7e8q";
    let moves = legal_moves(rt.alloc(), &start).expect(&rt, "memory");
    check_moves(&rt, moves.as_slice(), expected);
}
