//! The bounds by captures and by promotions: worked examples.

use crate::texts::{
    check_after, check_all, check_bound, check_line, color, diagram, position, row_of,
};
use pg_board::Color;
use pg_captures::*;
use pg_position::Position;
use pg_trial::Never;
use std::process::Abort;

// A diagram, a position and a colour, and the captures that the colour owes. In the last two it is after 1. e4 d5 2.
// exd5.
const OWED: &str =
    "rnb1kbnr/ppp1pppp/8/3q4/8/8/PPPP1PPP/RNBQKBNR | rnbqkbnr/pppppppp/8/8/8/8/PPPPPPPP/RNBQKBNR w KQkq - 0 1 | Black => 1
rnb1kbnr/ppp1pppp/8/3q4/8/8/PPPP1PPP/RNBQKBNR | rnbqkbnr/pppppppp/8/8/8/8/PPPPPPPP/RNBQKBNR w KQkq - 0 1 | White => 1
rnb1kbnr/ppp1pppp/8/3q4/8/8/PPPP1PPP/RNBQKBNR | rnbqkbnr/ppp1pppp/8/3P4/8/8/PPPP1PPP/RNBQKBNR b KQkq - 0 2 | White => 0
rnbqkbnr/pppppppp/8/8/8/8/PPPPPPPP/RNBQKBNR | rnbqkbnr/ppp1pppp/8/3P4/8/8/PPPP1PPP/RNBQKBNR b KQkq - 0 2 | White => -1";

#[test]
fn captures_owed(rt: HostRuntime) {
    for line in OWED.lines() {
        let row = row_of(&rt, line);
        let by = color(&rt, row.asked);
        let found = owed(by, &diagram(&rt, row.diagram), &position(&rt, row.position));
        check_line(&rt, line, row.wanted.parse::<i16>() == Ok(found));
    }
}

const CAPTURES: &str =
    "rnb1kbnr/ppp1pppp/8/3q4/8/8/PPPP1PPP/RNBQKBNR | rnbqkbnr/pppppppp/8/8/8/8/PPPPPPPP/RNBQKBNR w KQkq - 0 1 | 1 => yes
rnb1kbnr/ppp1pppp/8/3q4/8/8/PPPP1PPP/RNBQKBNR | rnbqkbnr/pppppppp/8/8/8/8/PPPPPPPP/RNBQKBNR w KQkq - 0 1 | 2 => no
rnb1kbnr/ppp1pppp/8/3q4/8/8/PPPP1PPP/RNBQKBNR | rnbqkbnr/ppp1pppp/8/3P4/8/8/PPPP1PPP/RNBQKBNR b KQkq - 0 2 | 1 => no
rnbqkbnr/pppppppp/8/8/8/8/PPPPPPPP/RNBQKBNR | rnbqkbnr/ppp1pppp/8/3P4/8/8/PPPP1PPP/RNBQKBNR b KQkq - 0 2 | 100 => yes
rnbqkbnr/pppppppp/8/8/8/3B4/PPPPPPPP/RN1QKBNR | rnbqkbnr/pppppppp/8/8/8/8/PPPPPPPP/RNBQKBNR w KQkq - 0 1 | 4 => no
rnbqkbnr/pppppppp/8/8/8/3P4/PPPP1PPP/RNBQKBNR | rnbqkbnr/pppppppp/8/8/8/8/PPPPPPPP/RNBQKBNR w KQkq - 0 1 | 4 => no";

#[test]
fn captures(rt: HostRuntime) {
    check_bound(&rt, &Captures, CAPTURES);
    assert!(rt; Captures.code() == 1);
}

const PROMOTIONS: &str =
    "rnbqkbnr/pppppppp/8/8/8/3B4/PPPPPPPP/RN1QKBNR | rnbqkbnr/pppppppp/8/8/8/8/PPPPPPPP/RNBQKBNR w KQkq - 0 1 | 4 => yes
rnbqkbnr/pppppppp/8/8/8/4B3/PPPPPPPP/RN1QKBNR | rnbqkbnr/pppppppp/8/8/8/8/PPPPPPPP/RNBQKBNR w KQkq - 0 1 | 4 => no
rnbqkbnr/pppppppp/8/8/8/3B4/PPPPPPP1/RN1QKBNR | rnbqkbnr/pppppppp/8/8/8/8/PPPPPPPP/RNBQKBNR w KQkq - 0 1 | 4 => no
rnbqkbnr/pppppppp/8/8/8/3P4/PPPP1PPP/RNBQKBNR | rnbqkbnr/pppppppp/8/8/8/8/PPPPPPPP/RNBQKBNR w KQkq - 0 1 | 4 => no";

#[test]
fn promotions(rt: HostRuntime) {
    check_bound(&rt, &Promotions, PROMOTIONS);
    assert!(rt; Promotions.code() == 2);
}

// A diagram with 16 black men or with 15, the position before 1. exd6 en passant, 1. e6 or 1. exd5, and the plies
// left after the move. In the last rows a pawn promotes.
const AFTER: &str =
    "rnbqkbnr/ppp1pppp/8/3pP3/8/8/PPPP1PPP/RNBQKBNR | rnbqkbnr/ppp1pppp/8/3pP3/8/8/PPPP1PPP/RNBQKBNR w KQkq d6 0 3 | e5d6 9 => yes
rnbqkbnr/ppp1pppp/8/3pP3/8/8/PPPP1PPP/RNBQKBNR | rnbqkbnr/ppp1pppp/8/3pP3/8/8/PPPP1PPP/RNBQKBNR w KQkq d6 0 3 | e5e6 9 => no
rnbqkbnr/ppp1pppp/3P4/8/8/8/PPPP1PPP/RNBQKBNR | rnbqkbnr/ppp1pppp/8/3pP3/8/8/PPPP1PPP/RNBQKBNR w KQkq d6 0 3 | e5d6 0 => no
rnbqkbnr/ppp1pppp/3P4/8/8/8/PPPP1PPP/RNBQKBNR | rnbqkbnr/ppp1pppp/8/3pP3/8/8/PPPP1PPP/RNBQKBNR w KQkq d6 0 3 | e5e6 1 => yes
rnbqkbnr/ppp1pppp/3P4/8/8/8/PPPP1PPP/RNBQKBNR | rnbqkbnr/ppp1pppp/8/3pP3/8/8/PPPP1PPP/RNBQKBNR w KQkq d6 0 3 | e5e6 2 => no
rnbqkbnr/ppp1pppp/8/3P4/8/8/PPPP1PPP/RNBQKBNR | rnbqkbnr/ppp1pppp/8/3p4/4P3/8/PPPP1PPP/RNBQKBNR w KQkq - 0 2 | e4d5 0 => no
rnbqkbnr/ppp1pppp/8/3P4/8/8/PPPP1PPP/RNBQKBNR | rnbqkbnr/ppp1pppp/8/3p4/4P3/8/PPPP1PPP/RNBQKBNR w KQkq - 0 2 | e4e5 1 => yes
1Q5k/8/8/8/8/8/8/K7 | 1n5k/P7/8/8/8/8/8/K7 w - - 0 1 | a7b8q 0 => no
1Q5k/8/8/8/8/8/8/K7 | 1n5k/P7/8/8/8/8/8/K7 w - - 0 1 | a7a8q 1 => yes";

// Two queens lack a pawn; one is the pawn that has promoted.
const PROMOTED: &str = "1Q5k/8/8/8/8/8/8/K7 | 1n5k/P7/8/8/8/8/8/K7 w - - 0 1 | a7b8q 0 => no
QQ5k/8/8/8/8/8/8/K7 | 1n5k/P7/8/8/8/8/8/K7 w - - 0 1 | a7b8q 9 => yes";

#[test]
fn after_a_move(rt: HostRuntime) {
    check_after(&rt, &Captures, AFTER);
    check_after(&rt, &Promotions, PROMOTED);
}

#[test]
fn plies_of_a_color(rt: HostRuntime) {
    check_all(
        &rt,
        &[
            plies_left(Color::White, Color::White, 5) == 3,
            plies_left(Color::White, Color::Black, 5) == 2,
            plies_left(Color::Black, Color::White, 4) == 2,
        ],
    );
}

fn boxed<R: Abort + AllocGlobal, B>(rt: &R, bound: B) -> Box<B> {
    Box::new(rt.alloc(), bound).expect(rt, "memory")
}

fn add(rt: &impl Abort, bounds: &mut Vec<Box<dyn Bound>>, bound: Box<dyn Bound>) {
    bounds.push(bound).expect(rt, "memory");
}

// Captures alone exclude this diagram from the array: the queen has recaptured.
#[test]
fn the_first_bound_of_a_code(rt: HostRuntime) {
    let mut bounds: Vec<Box<dyn Bound>> = Vec::new(rt.alloc());
    add(&rt, &mut bounds, boxed(&rt, Captures));
    add(&rt, &mut bounds, boxed(&rt, Never::new(1)));
    add(&rt, &mut bounds, boxed(&rt, Never::new(7)));
    add(&rt, &mut bounds, boxed(&rt, Captures));
    let recaptured = diagram(&rt, "rnb1kbnr/ppp1pppp/8/3q4/8/8/PPPP1PPP/RNBQKBNR");
    let array = Position::array();
    check_all(
        &rt,
        &[
            first_excludes(&bounds, 1, &recaptured, &array, 1) == Some(true),
            first_excludes(&bounds, 7, &recaptured, &array, 1) == Some(false),
            first_excludes(&bounds, 2, &recaptured, &array, 1).is_none(),
        ],
    );
}
