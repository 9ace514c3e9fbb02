//! What is said of expanded nodes, leaves and references.

use super::*;
use pg_moves::legal_moves;
use pg_position::{Move, Position};
use pg_report::search;

// Expanded nodes, and then the leaf of no ply.
const EXPANDED: &str = "after-e4-e5 | 1 | - | # after-e4-e5 1.0 | 01*22 => () => \
    at the start: 1 of 20 moves leads on; cut 19 by travel; 1 game below$the certificate is right$
after-e4-e5 | 1 | d4 | # after-e4-e5 1.0 | 01*22 => () => \
    at the start: 1 of 20 moves leads on; cut 19 by travel; 1 game below$\
    after 1. d4: none of 20 moves ends on the diagram: no man of white's can come to be the pawn on d2 (travel)$\
    the certificate is right$
after-e4-e5 | 1 | 1.e4 | # after-e4-e5 1.0 | 01*22 => () => \
    at the start: 1 of 20 moves leads on; cut 19 by travel; 1 game below$\
    after 1. e4: 1 of 20 moves ends on the diagram$the certificate is right$
after-e4-e5 | 1 | e4 e5 | # after-e4-e5 1.0 | 01*22 => () => \
    at the start: 1 of 20 moves leads on; cut 19 by travel; 1 game below$\
    after 1. e4: 1 of 20 moves ends on the diagram$after 1. e4 e5: a solution$the certificate is right$
after-e4-e5 | 1 | e4 d5 | # after-e4-e5 1.0 | 01*22 => () => \
    at the start: 1 of 20 moves leads on; cut 19 by travel; 1 game below$\
    after 1. e4: 1 of 20 moves ends on the diagram$after 1. e4 d5: does not end on the diagram$the certificate is right$
after-e4-e5 | 1 | e2e4 e7e5 Ng1-f3 | # after-e4-e5 1.0 | 01*22 => () => \
    at the start: 1 of 20 moves leads on; cut 19 by travel; 1 game below$\
    after 1. e4: 1 of 20 moves ends on the diagram$after 1. e4 e5: a solution; the line goes on$\
    the certificate is right$
array | 0 | - | # array 0 |  => () => at the start: a solution$the certificate is right$
array | 0 | e4 | # array 0 |  => () => at the start: a solution; the line goes on$the certificate is right$";

// A row in a version, whose digit stands in place of the number sign.
fn check_version<R: Abort + AllocGlobal>(rt: &R, row: &str, version: &str) {
    let row = row.replace(rt.alloc(), '#', version).expect(rt, row);
    check_row(rt, row.as_str());
}

#[test]
fn expanded_nodes_and_leaves(rt: HostRuntime) {
    for row in EXPANDED.lines() {
        check_version(&rt, row, "1");
        check_version(&rt, row, "2");
    }
}

const REFERENCES: &str =
    "shut-in | 2.5 | h3 a6 a3 => at the start: 2 of 20 moves lead on; cut 18 by travel; no game below$\
    after 1. h3: 2 of 20 moves lead on; cut 18 by travel; no game below$\
    after 1. h3 a6: none of 19 moves leads on; cut 18 by travel, 1 by reference; no game below$\
    after 1. h3 a6 2. a3: as after 1. a3 a6 2. h3, below which no game ends on the diagram$the certificate is right$
shut-in | 2.5 | h3 a6 a3 h6 => at the start: 2 of 20 moves lead on; cut 18 by travel; no game below$\
    after 1. h3: 2 of 20 moves lead on; cut 18 by travel; no game below$\
    after 1. h3 a6: none of 19 moves leads on; cut 18 by travel, 1 by reference; no game below$\
    after 1. h3 a6 2. a3: as after 1. a3 a6 2. h3, below which no game ends on the diagram; the line goes on$\
    the certificate is right$
shut-in | 2.5 | a3 a6 h3 h6 Rh2 => at the start: 2 of 20 moves lead on; cut 18 by travel; no game below$\
    after 1. a3: 2 of 20 moves lead on; cut 18 by travel; no game below$\
    after 1. a3 a6: 1 of 19 moves leads on; cut 18 by travel; no game below$\
    after 1. a3 a6 2. h3: none of 19 moves leads on; cut 18 by travel; 1 played out; no game below$\
    after 1. a3 a6 2. h3 h6: none of 18 moves ends on the diagram$\
    after 1. a3 a6 2. h3 h6 3. Rh2: does not end on the diagram$the certificate is right$
shut-in | 2.5 | e4 e5 => at the start: 2 of 20 moves lead on; cut 18 by travel; no game below$\
    after 1. e4: excluded: no man of white's can come to be the pawn on e2 (travel); the line goes on$\
    the certificate is right$";

// The certificate that a search writes, which finds no game.
fn searched<R: Abort + AllocGlobal>(rt: &R, diagram: &str, length: &str) -> Vec<u8> {
    let goal = diagram_of(rt, diagram);
    let plies = length_of(rt, length);
    let mut sink = ToWrite::new(Vec::new(rt.alloc()));
    let answer = search(rt.alloc(), &goal, plies, MANY, &mut sink);
    assert_eq!(rt; answer.expect(rt, "games").len(), 0);
    sink.into_inner()
}

// The certificate says so of a line of moves.
fn check_line_of<R: Abort + AllocGlobal>(rt: &R, row: &str, bytes: &[u8]) {
    let row = lines_of(rt, row);
    let (asked, lines) = halves(rt, row.as_str(), " => ");
    check(rt, asked, bytes, "()", lines);
}

// A search writes version 2; its bounds and references hold in version 1 too.
#[test]
fn references_in_both_versions(rt: HostRuntime) {
    let mut bytes = searched(&rt, "shut-in", "2.5");
    for digit in [b'2', b'1'] {
        if let Some(version) = bytes.get_mut(3) {
            *version = digit;
        }
        for row in REFERENCES.lines() {
            check_line_of(&rt, row, bytes.as_slice());
        }
    }
}

// A move by its two squares, as in `e2e4`.
fn squares_of(m: &Move) -> Said {
    let (from, to) = (m.from, m.to);
    words(&format_args!(
        "{}{}{}{}",
        char::from(b'`'.saturating_add(from.file())),
        from.rank(),
        char::from(b'`'.saturating_add(to.file())),
        to.rank()
    ))
}

// The line of two plies is explained by four lines.
fn check_line<R: Abort + AllocGlobal>(rt: &R, bytes: &[u8], first: &Move, reply: &Move) {
    let (first, reply) = (squares_of(first), squares_of(reply));
    let asked = words(&format_args!("after-e4-e5 | 1.0 | {first} {reply}"));
    let text = told_of(rt, asked.as_str(), bytes, "()");
    let lines = text_of(rt, text.as_slice()).lines().count();
    assert_eq!(rt; lines, 4, "{asked}");
}

// The legal moves of a position.
fn moves_of<R: Abort + AllocGlobal>(rt: &R, position: &Position) -> Vec<Move> {
    legal_moves(rt.alloc(), position).expect(rt, "memory")
}

// The lines of two plies that begin with a move are explained; how many they are.
fn check_replies<R: Abort + AllocGlobal>(rt: &R, bytes: &[u8], first: &Move) -> usize {
    let next = Position::array().play(*first).expect(rt, "a legal move");
    let replies = moves_of(rt, &next);
    for reply in &replies {
        check_line(rt, bytes, first, reply);
    }
    replies.len()
}

// Each line of a small certificate is explained without a fault.
#[test]
fn each_line_of_a_certificate(rt: HostRuntime) {
    let bytes = certificate(&rt, "1 after-e4-e5 1.0", "01*22");
    let mut count = 0usize;
    for first in &moves_of(&rt, &Position::array()) {
        count = count.saturating_add(check_replies(&rt, bytes.as_slice(), first));
    }
    assert_eq!(rt; count, 400);
}
