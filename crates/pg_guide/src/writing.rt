//! The lines that are written.
ghost use Rattle.pg_certificate.specs.Pushing.{Grows, MayPush};

use crate::found::{Cited, Found};
use arrayvec::ArrayVec;
use pg_certificate::{Refused, Sink};
use pg_position::{Move, Position};
use pg_sentences::phrases::{AFTER, AS, AT_THE_START, BARREN};
use pg_sentences::{GrowingFares, Node, Sentence, Tally, ended, expanded};
use pg_texts::write_movetext;

// A line, with room for the movetext of two games of 128 plies and for what is said.
#[derive(Drop)]
struct Line {
    text: ArrayVec<u8, 4096>,
    is_full: bool,
}

impl Sink for Line {
    ghost use Rattle.std.specs.Prelude.{None};

    ghost held = { λ _. None };

    ghost has_failed = { λ line. line.is_full };

    fn push(&mut self, bytes: &[u8]) -> Result<(), Refused> {
        if self.is_full || self.text.try_extend_from_slice(bytes).is_err() {
            self.is_full = true;
            return Err(Refused);
        }
        Ok(())
    }

    fn failed(&self) -> bool {
        self.is_full
    }
}

// The position after moves from the initial array, up to the first that is not legal.
fn position_after(moves: &[Move]) -> Position {
    let mut position = Position::array();
    for m in moves {
        match position.play(*m) {
            Ok(next) => position = next,
            Err(_) => return position,
        }
    }
    position
}

// The moves before a ply, as far as there are any.
fn front(line: &[Move], plies: usize) -> &[Move] {
    match line.get(..plies) {
        Some(front) => front,
        None => line,
    }
}

// Puts a text on a line.
fn put(text: &str, line: &mut Line) {
    let _ = line.push(text.as_bytes());
}

// Puts on a line where it says something: after some moves, or before the first.
fn put_place(moves: &[Move], line: &mut Line) {
    if moves.is_empty() {
        return put(AT_THE_START, line);
    }
    put(AFTER, line);
    let _ = write_movetext(moves, line);
}

// Puts on a line where the node of a reference stands.
fn put_cited(cited: &Cited, line: &mut Line) {
    put(AS, line);
    put_place(cited.line.as_slice(), line);
    put(BARREN, line);
}

// The plies that are left after so many.
fn plies_after(found: &Found, plies: usize) -> u8 {
    let gone = plies.min(255) as u8;
    found.plies.saturating_sub(gone)
}

// What the children of the node after so many plies are, where it is expanded.
fn tally_after<'a>(found: &Found<'a>, plies: usize) -> Option<&'a Tally> {
    match found.tallies.len().checked_sub(plies.saturating_add(1)) {
        Some(at) => found.tallies.get(at),
        None => None,
    }
}

// What is said of the node after so many plies: an expanded one, or what ends the line of moves.
fn said_after(found: &Found, plies: usize) -> Sentence {
    let position = position_after(front(found.line, plies));
    let node = Node {
        diagram: found.diagram,
        position: &position,
        left: plies_after(found, plies),
    };
    if let Some(tally) = tally_after(found, plies) {
        return expanded(&node, tally);
    }
    match found.ending {
        Some(ending) => {
            let mut fares = GrowingFares::new(found.alloc, found.diagram, found.tariffs);
            ended(&node, ending, &mut fares)
        }
        None => Sentence::new(),
    }
}

// Puts on a line what ends the line of moves after so many plies, and whether that goes on.
fn put_ending(found: &Found, plies: usize, line: &mut Line) {
    match found.cited {
        Some(cited) => put_cited(cited, line),
        None => put(said_after(found, plies).as_str(), line),
    }
    if plies < found.line.len() {
        put("; the line goes on", line);
    }
}

// Puts on a line what is said after so many plies.
fn put_line(found: &Found, plies: usize, line: &mut Line) {
    put_place(front(found.line, plies), line);
    put(": ", line);
    if plies < found.tallies.len() {
        put(said_after(found, plies).as_str(), line);
    } else {
        put_ending(found, plies, line);
    }
    put("\n", line);
}

// How many lines there are.
fn count_lines(found: &Found) -> usize {
    let count = found.tallies.len();
    match found.ending {
        Some(_) => count.saturating_add(1),
        None => count,
    }
}

// Appends what was found along a line of moves: a line of text for each expanded node, from the initial array on, and
// one for what ends the line of moves. docs/FORMATS.md has the sentences; no clause speaks of them.
//
// # Errors
// `Refused` where the sink has failed.
pub(crate) fn write_found<W: Sink>(found: &Found, out: &mut W) -> Result<(), Refused>
    ensures { MayPush W.held W.has_failed Grows out.old out.new result }
{
    let mut line = Line {
        text: ArrayVec::new(),
        is_full: false,
    };
    for plies in 0..count_lines(found) {
        line.text.clear();
        put_line(found, plies, &mut line);
        out.push(line.text.as_slice())?;
    }
    Ok(())
}
