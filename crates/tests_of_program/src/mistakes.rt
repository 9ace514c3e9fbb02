//! What is wrong with a list of games or a length, as it is said on a terminal.

use crate::shared::{size, word};
use pg_board::{Board, Square};
use pg_fen::Diagram;
use pg_hints::{Place, bad_byte, line_like, line_of, meant_by, misfit_of, name_of};
use pg_position::Move;
use pg_san::read_games;
use std::process::Abort;

// The first is not in canonical order, and stands twice.
const LIST: &str = "e4 e5\r\n\n1. d4 d5 2. c4\n  1.e2-e4 e7-e5\n-";

// A game of the list by its index in canonical order, its line, its plies, and where it ends.
const GAMES: &str = "0 5 0 rnbqkbnr/pppppppp/8/8/8/8/PPPPPPPP/RNBQKBNR
1 3 3 rnbqkbnr/ppp1pppp/8/3p4/2PP4/8/PP2PPPP/RNBQKBNR
2 1 2 rnbqkbnr/pppp1ppp/8/4p3/4P3/8/PPPP1PPP/RNBQKBNR";

// A game of a list with no repeated game.
fn check_listed<R: Abort + AllocGlobal>(rt: &R, list: &str, row: &str) {
    let at = size(rt, word(row, 0));
    let found = misfit_of(rt.alloc(), list, at).expect(rt, row);
    let found = found.expect(rt, row);
    assert_eq!(rt; found.line, size(rt, word(row, 1)));
    assert_eq!(rt; found.plies, size(rt, word(row, 2)));
    assert_eq!(rt; found.end.write().as_str(), word(row, 3));
}

#[test]
fn games_that_do_not_fit(rt: HostRuntime) {
    let list = LIST
        .replace(rt.alloc(), "  1.e2-e4 e7-e5\n", "\n")
        .expect(&rt, LIST);
    for row in GAMES.lines() {
        check_listed(&rt, list.as_str(), row);
    }
    assert!(rt; matches!(misfit_of(rt.alloc(), list.as_str(), 3), Ok(None)));
    assert!(rt; matches!(misfit_of(rt.alloc(), LIST, 0), Ok(None)));
}

// The line of a game in a list, or 0.
fn check_line<R: Abort + AllocGlobal>(rt: &R, list: &str, game: &[Move], wanted: usize) {
    let found = line_of(rt.alloc(), list, game).expect(rt, list);
    assert_eq!(rt; found.unwrap_or(0), wanted);
}

// A line of the list, and the first line that is like it, or 0.
const LIKE: &str = "0 0
1 1
2 0
3 3
4 1
5 5
6 0";

// The first line of the list that is like one of it.
fn check_like<R: Abort + AllocGlobal>(rt: &R, row: &str) {
    let found = line_like(rt.alloc(), LIST, size(rt, word(row, 0))).expect(rt, row);
    assert_eq!(rt; found.unwrap_or(0), size(rt, word(row, 1)), "{row}");
}

#[test]
fn games_that_are_repeated(rt: HostRuntime) {
    let games = read_games(rt.alloc(), "e4 e5").expect(&rt, LIST);
    let game = games.game(0).unwrap_or(&[]);
    check_line(&rt, LIST, game, 1);
    check_line(&rt, "d4", game, 0);
    for row in LIKE.lines() {
        check_like(&rt, row);
    }
}

// A text as a list, of which slashes part the lines.
fn list_of<R: Abort + AllocGlobal>(rt: &R, text: &str) -> String {
    text.replace(rt.alloc(), "/", "\n").expect(rt, text)
}

// A list, a game, and the first line of the list that is this game, or 0. A move number alone is the game of no move.
const FIRST: &str = " | e4 => 0
e4 | e4 => 1
//e4 | e4 => 3
d4/e4/e4 | e4 => 2
d4\r/e4\r | e4 => 2
d4/  1.e2-e4 | e4 => 2
d4/e4 e5 | e4 => 0
d4/e4 | e4 e5 => 0
e4/e4 e5/e4 e5 | e4 e5 => 2
x/e4 x/e4 | e4 => 3
x | e4 => 0
-/e4 | e4 => 2
e4/- | - => 2
e4/1. | - => 2
e4/ | - => 0";

// The first line of a list that is a game.
fn check_first<R: Abort + AllocGlobal>(rt: &R, row: &str) {
    let (asked, wanted) = row.split_once(" => ").expect(rt, row);
    let (list, game) = asked.split_once(" | ").expect(rt, row);
    let list = list_of(rt, list);
    let games = read_games(rt.alloc(), game).expect(rt, row);
    let game = games.game(0).expect(rt, row);
    let found = line_of(rt.alloc(), list.as_str(), game).expect(rt, row);
    assert_eq!(rt; found.unwrap_or(0), size(rt, wanted), "{row}");
}

#[test]
fn first_lines_of_games(rt: HostRuntime) {
    for row in FIRST.lines() {
        check_first(&rt, row);
    }
}

// A list, one of its lines, and the first that is the same game, or 0.
const ALIKE: &str = "e4/e4 | 2 => 1
e4/e4 | 1 => 1
e4/d4/e4 | 3 => 1
e4/d4/e4 | 2 => 2
x/e4/e2-e4 | 3 => 2
-/e4/1. | 3 => 1
e4/x | 2 => 0
e4/e4 x | 2 => 0
e4/ | 2 => 0
e4 | 2 => 0
e4 | 0 => 0
 | 1 => 0";

// The first line of a list that is the game of a line.
fn check_alike<R: Abort + AllocGlobal>(rt: &R, row: &str) {
    let (asked, wanted) = row.split_once(" => ").expect(rt, row);
    let (list, line) = asked.split_once(" | ").expect(rt, row);
    let list = list_of(rt, list);
    let found = line_like(rt.alloc(), list.as_str(), size(rt, line)).expect(rt, row);
    assert_eq!(rt; found.unwrap_or(0), size(rt, wanted), "{row}");
}

#[test]
fn first_lines_of_other_lines(rt: HostRuntime) {
    for row in ALIKE.lines() {
        check_alike(&rt, row);
    }
}

// A list, an index in canonical order, and the line and the plies of that game, or 0 twice.
const MISFITS: &str = "e4 | 0 => 1 1
e4 | 1 => 0 0
e4/d4 d5 | 0 => 2 2
e4/d4 d5 | 1 => 1 1
e4/d4 d5 | 2 => 0 0
/e4 | 0 => 2 1
- | 0 => 1 0
1. | 0 => 1 0
 | 0 => 0 0
x | 0 => 0 0
e4/x | 0 => 0 0
e4/e4 | 0 => 0 0
e4 | 18446744073709551615 => 0 0";

// A game of a list by its index.
fn check_misfit<R: Abort + AllocGlobal>(rt: &R, row: &str) {
    let (asked, wanted) = row.split_once(" => ").expect(rt, row);
    let (list, at) = asked.split_once(" | ").expect(rt, row);
    let list = list_of(rt, list);
    let found = misfit_of(rt.alloc(), list.as_str(), size(rt, at)).expect(rt, row);
    let (line, plies) = match found {
        Some(game) => (game.line, game.plies),
        None => (0, 0),
    };
    assert_eq!(rt; line, size(rt, word(wanted, 0)), "{row}");
    assert_eq!(rt; plies, size(rt, word(wanted, 1)), "{row}");
}

#[test]
fn games_by_their_index(rt: HostRuntime) {
    for row in MISFITS.lines() {
        check_misfit(&rt, row);
    }
}

// The first byte that is no text stands in this line, as its byte of this number; both are 0 where all is text.
fn check_bytes(rt: &impl Abort, bytes: &[u8], line: usize, byte: usize) {
    let none = Place { line: 0, byte: 0 };
    let place = bad_byte(bytes).unwrap_or(none);
    assert_eq!(rt; place.line, line);
    assert_eq!(rt; place.byte, byte);
}

#[test]
fn bytes_that_are_no_text(rt: HostRuntime) {
    check_bytes(&rt, b"e4 e5", 0, 0);
    check_bytes(&rt, b"\xff", 1, 1);
    check_bytes(&rt, b"e4\n\ne4 \xe9", 3, 4);
    check_bytes(&rt, b"\xc2\xa0e4\n\xc3", 2, 1);
}

// Texts that are no length, and what is meant.
const LENGTHS: &str = "2,0 => 2.0
18,5 => 18.5
2,5 moves => 
4... => 4.0
4.. => 
4.5... => 4.5
8 plies => 4.0
1 plies => 0.5
129 plies => 
plies => 
,5 => 
00000000000000000000002,5 => 2.5
+8 plies => 4.0
64,0 => 64.0
64,5 => 
2.0,0 => 
2. => 2.0
0,0 => 0.0
0,5 => 0.5
2,1 => 
2,00 => 
2, => 
2,50 => 
+2,0 => 
2;0 => 
1,2,0 => 
1,5 plies => 
0 plies => 0.0
5 plies => 2.5
128 plies => 64.0
-1 plies => 
256 plies => 
8  plies => 
8 plies  => 
8plies => 
8.0 plies => 
eight plies => 
0... => 0.0
64... => 64.0
64.5... => 
65... => 
... => 
4.... => 
2½ => 2.5
½ => 
64½ => 
4.0... => 4.0
+4... => ";

#[test]
fn lengths_that_are_meant(rt: HostRuntime) {
    for row in LENGTHS.lines() {
        let (text, wanted) = row.split_once(" => ").expect(&rt, row);
        let said = match meant_by(text) {
            Some(length) => length.write().as_str() == wanted,
            None => wanted == "",
        };
        assert!(rt; said, "{row}");
    }
}

// What stands on a square of the array, which its index says.
const MEN: &str = "0: white rook
1: white knight
2: white bishop
3: white queen
4: white king
8: white pawn
16: empty
48: black pawn
56: black rook
57: black knight
58: black bishop
59: black queen
60: black king";

fn check_name(rt: &impl Abort, board: &Board, row: &str) {
    let (index, wanted) = row.split_once(": ").expect(rt, row);
    let square = Square::from_index(index.parse().expect(rt, row)).expect(rt, row);
    assert_eq!(rt; name_of(board.get(square)), wanted);
}

#[test]
fn men_by_their_names(rt: HostRuntime) {
    let diagram = Diagram::read("rnbqkbnr/pppppppp/8/8/8/8/PPPPPPPP/RNBQKBNR").expect(&rt, "");
    let board = diagram.board();
    for row in MEN.lines() {
        check_name(&rt, &board, row);
    }
}
