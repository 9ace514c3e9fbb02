//! What the tests of searches share: a diagram and a length, fields of a row, what is answered in words, the bound by
//! journeys, where a game ends, and moves by chance.

use arrayvec::ArrayString;
use pg_fen::{Diagram, Length};
use pg_journeys::JourneysByMemory;
use pg_moves::legal_moves;
use pg_position::{Move, Position};
use pg_san::{Games, read_games};
use std::alloc::Global;
use std::fmt::{Display, Write};
use std::process::Abort;

// What is answered, in words.
pub(crate) type Said = ArrayString<128>;

// A diagram and a length, whose games are searched.
#[derive(Clone, Copy)]
pub(crate) struct Goal {
    pub(crate) diagram: Diagram,
    pub(crate) length: Length,
}

// Diagrams by their names.
const NAMES: &str = "array rnbqkbnr/pppppppp/8/8/8/8/PPPPPPPP/RNBQKBNR
after-e4 rnbqkbnr/pppppppp/8/8/4P3/8/PPPP1PPP/RNBQKBNR
after-e4-e5 rnbqkbnr/pppp1ppp/8/4p3/4P3/8/PPPP1PPP/RNBQKBNR
four-knights-gone rnbqkb1r/ppp2ppp/8/8/8/8/PPPPPPPP/RNBQKB1R
fools-mate rnb1kbnr/pppp1ppp/8/4p3/6Pq/5P2/PPPPP2P/RNBQKBNR";

// The diagram that has this name; what has none stands for itself.
fn named<'a>(text: &'a str) -> &'a str {
    for line in NAMES.lines() {
        if let Some((name, fen)) = line.split_once(' ') {
            if name == text {
                return fen;
            }
        }
    }
    text
}

// The goal that a diagram and a length are.
pub(crate) fn goal_of(rt: &impl Abort, diagram: &str, length: &str) -> Goal {
    Goal {
        diagram: Diagram::read(named(diagram)).expect(rt, diagram),
        length: Length::read(length).expect(rt, length),
    }
}

// What stands before a mark, and what behind it.
pub(crate) fn halves<'a>(rt: &impl Abort, text: &'a str, mark: &str) -> (&'a str, &'a str) {
    text.split_once(mark).expect(rt, text)
}

// The field of a row with this number from 0, between bars; empty where the row has fewer.
pub(crate) fn field<'a>(row: &'a str, number: usize) -> &'a str {
    row.split(" | ").nth(number).unwrap_or("")
}

// The number that a text is.
pub(crate) fn number(rt: &impl Abort, text: &str) -> u64 {
    text.parse().expect(rt, text)
}

// What a value says, or the arguments of a format.
pub(crate) fn words(text: &impl Display) -> Said {
    let mut said = Said::new();
    let _ = write!(said, "{text}");
    said
}

// The bound by journeys to a diagram.
pub(crate) fn journeys_to<R: Abort + AllocGlobal>(
    rt: &R,
    diagram: &Diagram,
) -> Box<JourneysByMemory> {
    let journeys = JourneysByMemory::new(rt.alloc(), diagram).expect(rt, "memory");
    Box::new(rt.alloc(), journeys).expect(rt, "memory")
}

// The games that a text gives, of which a slash parts the lines.
pub(crate) fn games_of<R: Abort + AllocGlobal>(rt: &R, text: &str) -> Games {
    let text = text.replace(rt.alloc(), '/', "\n").expect(rt, text);
    read_games(rt.alloc(), text.as_str()).expect(rt, text.as_str())
}

// Where a game ends, if it is one.
pub(crate) fn end_of(game: &[Move]) -> Option<Position> {
    let mut position = Position::array();
    for m in game {
        match position.play(*m) {
            Ok(next) => position = next,
            Err(_) => return None,
        }
    }
    Some(position)
}

// The legal move with this number, counted round; none where there is no move.
pub(crate) fn chosen(
    rt: &impl Abort,
    alloc: Global,
    position: &Position,
    number: u64,
) -> Option<Move> {
    let moves = legal_moves(alloc, position).expect(rt, "memory");
    let pick = number.checked_rem(moves.len() as u64).unwrap_or(0);
    moves.get(pick as usize).copied()
}

// The next state of a chance.
pub(crate) fn next(state: u64) -> u64 {
    state
        .wrapping_mul(6_364_136_223_846_793_005)
        .wrapping_add(1_442_695_040_888_963_407)
}
