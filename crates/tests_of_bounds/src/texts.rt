//! Diagrams, positions, colours and numbers as their texts give them, and tables of them.

use pg_board::{Color, Kind, Square};
use pg_captures::Bound;
use pg_fen::{Diagram, read_position};
use pg_position::{Move, Position};
use std::process::Abort;

pub(crate) fn diagram(rt: &impl Abort, text: &str) -> Diagram {
    Diagram::read(text).expect(rt, text)
}

pub(crate) fn position(rt: &impl Abort, text: &str) -> Position {
    read_position(text).expect(rt, text).position
}

pub(crate) fn color(rt: &impl Abort, text: &str) -> Color {
    assert!(rt; text == "White" || text == "Black", "{text}");
    if text == "White" {
        Color::White
    } else {
        Color::Black
    }
}

// Whether a row wants `yes`, and not `no`.
pub(crate) fn is_yes(rt: &impl Abort, wanted: &str) -> bool {
    assert!(rt; wanted == "yes" || wanted == "no", "{wanted}");
    wanted == "yes"
}

// That what is wanted of a line holds.
pub(crate) fn check_line(rt: &impl Abort, line: &str, holds: bool) {
    assert!(rt; holds, "{line}");
}

// That each of some facts holds.
pub(crate) fn check_all(rt: &impl Abort, facts: &[bool]) {
    let mut number = 1u8;
    for holds in facts {
        assert!(rt; *holds, "fact {number}");
        number = number.saturating_add(1);
    }
}

// A row of a table: a diagram and a position, what is asked of them, and what is wanted.
#[derive(Clone, Copy)]
pub(crate) struct Row<'a> {
    pub diagram: &'a str,
    pub position: &'a str,
    pub asked: &'a str,
    pub wanted: &'a str,
}

// The row of a line such as `diagram | position | asked => wanted`.
pub(crate) fn row_of<'a>(rt: &impl Abort, line: &'a str) -> Row<'a> {
    let (case, wanted) = line.split_once(" => ").expect(rt, line);
    let (diagram, rest) = case.split_once(" | ").expect(rt, line);
    let (position, asked) = rest.split_once(" | ").expect(rt, line);
    Row {
        diagram,
        position,
        asked,
        wanted,
    }
}

// That in each row the bound excludes the diagram from the position in the row's number of plies, or does not.
pub(crate) fn check_bound<B: Bound>(rt: &impl Abort, bound: &B, table: &str) {
    for line in table.lines() {
        let row = row_of(rt, line);
        let plies = row.asked.parse::<u8>().expect(rt, line);
        let found = bound.excludes(
            &diagram(rt, row.diagram),
            &position(rt, row.position),
            plies,
        );
        check_line(rt, line, found == is_yes(rt, row.wanted));
    }
}

pub(crate) fn square_of(rt: &impl Abort, name: &[u8]) -> Square {
    assert!(rt; name.len() == 2);
    Square::new(name[0].wrapping_sub(b'`'), name[1].wrapping_sub(b'0')).expect(rt, "a square")
}

// The move of a text such as `e2e4` or `e7e8q`.
pub(crate) fn move_of(rt: &impl Abort, text: &str) -> Move {
    let bytes = text.as_bytes();
    assert!(rt; bytes.len() >= 4, "{text}");
    let promotion = if bytes.len() > 4 {
        Some(Kind::Queen)
    } else {
        None
    };
    Move {
        from: square_of(rt, &bytes[..2]),
        to: square_of(rt, &bytes[2..4]),
        promotion,
    }
}

// What the bound says of the position after a move; none where the move is not legal.
fn says_after<B: Bound>(
    bound: &B,
    diagram: &Diagram,
    position: &Position,
    m: &Move,
    plies: u8,
) -> Option<bool> {
    if position.is_legal(m) {
        Some(bound.excludes_after(diagram, position, m, plies))
    } else {
        None
    }
}

// That in each row the bound excludes the diagram from the position after a legal move in the row's number of plies, or
// does not.
pub(crate) fn check_after<B: Bound>(rt: &impl Abort, bound: &B, table: &str) {
    for line in table.lines() {
        let row = row_of(rt, line);
        let (text, plies) = row.asked.split_once(' ').expect(rt, line);
        let plies = plies.parse::<u8>().expect(rt, line);
        let start = position(rt, row.position);
        let m = move_of(rt, text);
        let found = says_after(bound, &diagram(rt, row.diagram), &start, &m, plies);
        check_line(rt, line, found == Some(is_yes(rt, row.wanted)));
    }
}

// At most 65 numbers.
#[derive(Drop)]
pub(crate) struct NumberList {
    items: [u8; 65],
    count: usize,
}

impl NumberList {
    pub fn as_slice(&self) -> &[u8] {
        self.items.get(..self.count).unwrap_or(&[])
    }
}

// The numbers of a text such as `1 0 2`; `255*8` is eight times 255.
pub(crate) fn numbers(rt: &impl Abort, text: &str) -> NumberList {
    let mut items = [0; 65];
    let mut count = 0usize;
    for word in text.split(' ') {
        let (number, times) = word.split_once('*').unwrap_or((word, "1"));
        let number = number.parse::<u8>().expect(rt, text);
        for _ in 0..times.parse::<u8>().expect(rt, text) {
            assert!(rt; count < 65, "{text}");
            items[count] = number;
            count += 1;
        }
    }
    NumberList { items, count }
}
