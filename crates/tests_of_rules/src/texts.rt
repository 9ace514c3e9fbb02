//! Positions, squares and moves as their texts give them, the cells of a table's row, and what a value shows.

use arrayvec::ArrayString;
use pg_board::{Kind, Square};
use pg_fen::{man_of, read_position};
use pg_position::{Move, Position};
use std::fmt::{Display, Write};
use std::process::Abort;

// The cells of a row: what stands before ` | `, what stands behind it, and what is wanted of them behind ` => `.
pub(crate) fn cells<'a>(rt: &impl Abort, row: &'a str) -> (&'a str, &'a str, &'a str) {
    let (case, wanted) = halves(rt, row);
    let (start, text) = case.split_once(" | ").expect(rt, row);
    (start, text, wanted)
}

// The cells of a row that has one case: that, and what is wanted of it behind ` => `.
pub(crate) fn halves<'a>(rt: &impl Abort, row: &'a str) -> (&'a str, &'a str) {
    row.split_once(" => ").expect(rt, row)
}

// Whether a row wants `yes`, and not `no`.
pub(crate) fn is_yes(rt: &impl Abort, wanted: &str) -> bool {
    assert!(rt; wanted == "yes" || wanted == "no", "{wanted}");
    wanted == "yes"
}

// The position of a FEN.
pub(crate) fn position(rt: &impl Abort, text: &str) -> Position {
    read_position(text).expect(rt, text).position
}

fn square_of(rt: &impl Abort, name: &[u8]) -> Square {
    assert!(rt; name.len() == 2);
    Square::new(name[0].wrapping_sub(b'`'), name[1].wrapping_sub(b'0')).expect(rt, "a square")
}

// The square of a name such as `e4`.
pub(crate) fn square(rt: &impl Abort, name: &str) -> Square {
    square_of(rt, name.as_bytes())
}

// The move of a text such as `e2e4` or `e7e8q`.
pub(crate) fn move_of(rt: &impl Abort, text: &str) -> Move {
    let bytes = text.as_bytes();
    assert!(rt; bytes.len() >= 4, "{text}");
    Move {
        from: square_of(rt, &bytes[..2]),
        to: square_of(rt, &bytes[2..4]),
        promotion: promotion_of(bytes),
    }
}

// The kind that the fifth letter of a move's text names.
fn promotion_of(bytes: &[u8]) -> Option<Kind> {
    let Some(letter) = bytes.get(4) else {
        return None;
    };
    match man_of(*letter) {
        Some(man) => Some(man.kind),
        None => None,
    }
}

// That moves are those of a text, with blanks between them, in its order.
pub(crate) fn check_moves(rt: &impl Abort, moves: &[Move], wanted: &str) {
    let mut count = 0usize;
    for text in wanted.split(' ') {
        if !text.is_empty() {
            check_row(rt, wanted, moves.get(count) == Some(&move_of(rt, text)));
            count = count.saturating_add(1);
        }
    }
    check_row(rt, wanted, moves.len() == count);
}

// That a value is shown by a text, and else the case of a table that gave it.
pub(crate) fn check_case<T: Display>(rt: &impl Abort, case: &str, value: &T, wanted: &str) {
    let mut text = ArrayString::<128>::new();
    assert!(rt; write!(text, "{value}").is_ok());
    check_text(rt, case, text.as_str(), wanted);
}

// That a text is the one that is wanted, and else the case of a table that gave it.
pub(crate) fn check_text(rt: &impl Abort, case: &str, found: &str, wanted: &str) {
    assert!(rt; found == wanted, "{found}, and not {wanted}: {case}");
}

// That a value is shown by a text.
pub(crate) fn check_shown<T: Display>(rt: &impl Abort, value: &T, wanted: &str) {
    check_case(rt, wanted, value, wanted);
}

// That what is wanted of a row holds.
pub(crate) fn check_row(rt: &impl Abort, row: &str, holds: bool) {
    assert!(rt; holds, "{row}");
}

// That each of some facts holds.
pub(crate) fn check_all(rt: &impl Abort, facts: &[bool]) {
    let mut number = 1u8;
    for holds in facts {
        assert!(rt; *holds, "fact {number}");
        number = number.saturating_add(1);
    }
}
