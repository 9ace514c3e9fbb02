//! Second lines on a list of games that is refused, where it can be read again.

use crate::spelling::text_of;
use clap::ArgMatches;
use pg_board::{Board, Square};
use pg_checker::ListFault;
use pg_fen::{Diagram, Length};
use pg_files::{INPUT, open_plain, read_all};
use pg_hints::{Misfit, bad_byte, line_like, misfit_of, name_of, on_move};
use pg_pgn::{fitting, name_of as letters_name};
use pg_report::GamesFault;
use std::io::Eprint;
use std::rt::Runtime;
use std::str;

// The most squares that are told on which a game ends otherwise.
const SQUARES: u8 = 4;

// The moves that the words spell themselves, as one game.
fn moves_in<'a>(words: &ArgMatches<'a>) -> Option<&'a str> {
    match words.get_str("MOVES") {
        Some(moves) => Some(moves),
        None => words.get_str("game"),
    }
}

// The name of the file that a list is read from: where the words have none, that of standard input.
fn list_in<'a>(words: &ArgMatches<'a>) -> &'a str {
    match words.get_str("GAMES") {
        Some(name) => name,
        None => words.get_str("games").unwrap_or(INPUT),
    }
}

// The bytes of a list that the words name, where they can be read again: moves, or a plain file.
fn list_again<R: Runtime + AllocGlobal>(rt: &R, words: &ArgMatches<'_>) -> Option<Vec<u8>> {
    if let Some(moves) = moves_in(words) {
        return Vec::from_slice(rt.alloc(), moves.as_bytes()).ok();
    }
    let mut file = open_plain(rt, list_in(words)).ok()?;
    read_all(rt.alloc(), &mut file).ok()
}

// Whether bytes begin as a certificate, or as tariffs before one.
fn is_certificate(bytes: &[u8]) -> bool {
    bytes.starts_with(b"PGC") || bytes.starts_with(b"PGT")
}

// Says where a list is no text.
pub(crate) fn tell_byte<R: Runtime + AllocGlobal>(rt: &R, words: &ArgMatches<'_>) {
    let Some(list) = list_again(rt, words) else {
        return;
    };
    if is_certificate(list.as_slice()) {
        let _ = eprintln!(rt; "pg: it looks like a certificate; CERT stands before GAMES");
        return;
    }
    if let Some(place) = bad_byte(list.as_slice()) {
        let (line, byte) = (place.line, place.byte);
        let _ = eprintln!(rt; "pg: the first bad byte is byte {byte} of line {line}");
    }
}

// Says which letters games in PGN are in, where they are none in English ones.
pub(crate) fn tell_letters<R: Runtime + AllocGlobal>(rt: &R, words: &ArgMatches<'_>) {
    if words.get_str("letters").is_some() {
        return;
    }
    let Ok(mut file) = open_plain(rt, text_of(words, "FILE")) else {
        return;
    };
    let Ok(text) = read_all(rt.alloc(), &mut file) else {
        return;
    };
    if let Some(letters) = fitting(rt.alloc(), text.as_slice()) {
        let name = letters_name(letters);
        let _ = eprintln!(rt; "pg: the letters are others: say --letters {name}");
    }
}

// Points to the word or the line by which a list is refused.
pub(crate) fn tell_list<R: Runtime + AllocGlobal>(
    rt: &R,
    words: &ArgMatches<'_>,
    fault: &GamesFault,
) {
    let Some(list) = list_again(rt, words) else {
        return;
    };
    let Ok(list) = str::from_utf8(list.as_slice()) else {
        return;
    };
    match *fault {
        GamesFault::At {
            line,
            ply,
            cause: _,
        } => {
            let hint = on_move(rt.alloc(), list, line, ply);
            if !hint.is_empty() {
                let _ = eprintln!(rt; "pg: {}", hint.as_str());
            }
        }
        GamesFault::Repeated { line } => {
            if let Ok(Some(first)) = line_like(rt.alloc(), list, line) {
                let _ = eprintln!(rt; "pg: line {first} is the same game");
            }
        }
        GamesFault::TooMany { line: _ } | GamesFault::Memory => {}
    }
}

// Says that the moves which the words spell are the name of a file.
pub(crate) fn tell_name<R: Runtime + AllocGlobal>(rt: &R, words: &ArgMatches<'_>) {
    if let Some(name) = words.get_str("game") {
        if open_plain(rt, name).is_ok() {
            let _ = eprintln!(rt; "pg: a file has this name: say --games");
        }
    }
}

// Says what stands on a square at the end of a game, and what on the diagram.
fn tell_square<R: Eprint>(rt: &R, square: Square, end: &Board, wanted: &Board) {
    let file = char::from(b'a' - 1 + square.file());
    let rank = square.rank();
    let (there, other) = (name_of(end.get(square)), name_of(wanted.get(square)));
    let _ = eprintln!(rt; "pg: {file}{rank}: {there} there, {other} on the diagram");
}

// Says on which squares a game ends otherwise, four at most.
fn tell_squares<R: Eprint>(rt: &R, end: &Board, wanted: &Board) {
    let differing = end.differing(wanted);
    let mut squares = differing.squares();
    for _ in 0..SQUARES {
        let Some(square) = squares.next() else {
            return;
        };
        tell_square(rt, square, end, wanted);
    }
    let more = differing.len().saturating_sub(SQUARES);
    if more > 0 {
        let _ = eprintln!(rt; "pg: squares that differ too: {more}");
    }
}

// Says how many moves the game of a line has, and how many are wanted.
pub(crate) fn tell_moves<R: Eprint>(rt: &R, line: usize, game: &Misfit, wanted: Length) {
    let (moves, half) = (game.plies / 2, game.plies % 2 * 5);
    let wanted = wanted.write();
    let wanted = wanted.as_str();
    let _ = eprintln!(rt; "pg: line {line}: it has {moves}.{half} moves, {wanted} are wanted");
}

// Says where the game of a line ends, and on which squares that is not the diagram.
pub(crate) fn tell_end<R: Eprint>(rt: &R, line: usize, game: &Misfit, wanted: &Diagram) {
    let end = game.end.write();
    let _ = eprintln!(rt; "pg: line {line}: it ends on {}", end.as_str());
    tell_squares(rt, &game.end.board(), &wanted.board());
}

// Says which line of a list is the game that does not fit, and how long it is or where it ends.
pub(crate) fn tell_misfit<R: Runtime + AllocGlobal>(
    rt: &R,
    words: &ArgMatches<'_>,
    fault: &ListFault,
) {
    let Some(list) = list_again(rt, words) else {
        return;
    };
    let Ok(list) = str::from_utf8(list.as_slice()) else {
        return;
    };
    let at = match fault {
        ListFault::WrongLength(at) | ListFault::NotReaching(at) => *at,
    };
    let Ok(Some(game)) = misfit_of(rt.alloc(), list, at) else {
        return;
    };
    match fault {
        ListFault::WrongLength(_) => {
            if let Ok(wanted) = Length::read(text_of(words, "LENGTH")) {
                tell_moves(rt, game.line, &game, wanted);
            }
        }
        ListFault::NotReaching(_) => {
            if let Ok(wanted) = Diagram::read(text_of(words, "DIAGRAM")) {
                tell_end(rt, game.line, &game, &wanted);
            }
        }
    }
}
