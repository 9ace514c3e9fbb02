//! What is said of a line of a list of problems, and of words that stand in the place of others.

use pg_fen::Diagram;
use pg_hints::{
    Remark, hyphen_wanted_in, is_game_in_words, is_like_game, is_open, is_unit_apart_in,
    on_few_words, on_name, on_placement, on_problem_length, on_turned,
};
use std::process::Abort;

// A remark as `column: sentence`; nothing where there is none.
fn check<R: Abort + AllocGlobal>(rt: &R, found: Option<Remark>, wanted: &str) {
    let Some(remark) = found else {
        assert_eq!(rt; "", wanted);
        return;
    };
    let (column, hint) = (remark.column, remark.hint.as_str());
    let told = format!(in rt.alloc(); "{column}: {hint}").expect(rt, wanted);
    assert_eq!(rt; told.as_str(), wanted);
}

// A line, and what is said of its name.
const NAMES: &str = "Orb\u{e1}n x => 4: '\u{e1}' (U+00E1) in the name; letters are a to z and A to Z
\u{feff}x => 1: '\\u{feff}' (U+FEFF) in the name; letters are a to z and A to Z
\t a/b x => 4: '/' in the name; it has letters, digits, '-', '_' and '.'
No.12: x => 6: no ':' stands in a name: write No.12
x:: x => 2: no ':' stands in a name: write x
queen;8/8/8/8/8/8/8/8;2.0 => 6: write spaces or tabs for ';' between a name, a diagram and a length
.dot x => 1: a name begins with no dot
8/8/8/8/8/8/8/8 2.0 => 1: a name stands before the diagram
 => ";

// What is said of a line with two words or fewer.
const FEW: &str = "x => 
x 2.0 => 3: a diagram and a length stand behind the name
x 8/8/8/8/8/8/8/8 => 3: a length stands behind the diagram, as 2.0 or 2.5
x 8/8/8/8/8/8/8/8;2.0 => 18: write spaces or tabs for ';' between a name, a diagram and a length";

// What is said of a second word that is no diagram.
const PLACEMENTS: &str = "My Queen 8/8/8/8/8/8/8/8 2.0 => 4: a name is one word: write My_Queen
A  b c 8/8/8/8/8/8/8/8 => 4: a name is one word: write A_b_c
x 2.0 8/8/8/8/8/8/8/8 => 3: the diagram stands before the length
x 2 b 8/8/8/8/8/8/8/8 => 3: a name is one word: write x_2_b
x 8/8 2.0 => 3: 2 ranks; a board has 8
2. exd5 Qxd5 => 1: a problem and its game are one line
2... 8/8 2.0 => 1: a problem and its game are one line
2 8/8 2.0 => 3: 2 ranks; a board has 8
x 8/8/8/8/8/8/8/8 2.0 => 3: white has 0, black 0";

// What is said of a third word that is no length.
const LENGTHS: &str = "x 8/8/8/8/8/8/8/8 2,0 => 19: a length is in moves: write 2.0
x d w KQkq - 0 1 2.0 => 5: the length stands behind the first field of the FEN: leave the others out
x d b => 5: the length stands behind the first field of the FEN: leave the others out
x d ? => 5: one length is wanted; `pg solve DIAGRAM` finds the least that has a game
x d 2.0-2.5 => 5: one length is wanted; `pg solve DIAGRAM` finds the least that has a game
x d 2½ => 5: a length is in moves: write 2.5
x d soon => 5: a length is in moves, as 2.0 or 2.5
x d => ";

#[test]
fn remarks_on_lines(rt: HostRuntime) {
    for row in NAMES.lines() {
        let (line, wanted) = row.split_once(" => ").expect(&rt, row);
        check(&rt, on_name(line), wanted);
    }
    for row in FEW.lines() {
        let (line, wanted) = row.split_once(" => ").expect(&rt, row);
        check(&rt, on_few_words(line), wanted);
    }
    for row in LENGTHS.lines() {
        let (line, wanted) = row.split_once(" => ").expect(&rt, row);
        check(&rt, on_problem_length(line), wanted);
    }
}

// What is said of the second word of a line, which is refused as a diagram.
fn check_placement<R: Abort + AllocGlobal>(rt: &R, line: &str, wanted: &str) {
    let text = line.split_ascii_whitespace().nth(1).expect(rt, line);
    let Err(fault) = Diagram::read(text) else {
        panic!(rt; "{line}");
    };
    check(rt, on_placement(line, fault), wanted);
}

#[test]
fn remarks_on_diagrams(rt: HostRuntime) {
    for row in PLACEMENTS.lines() {
        let (line, wanted) = row.split_once(" => ").expect(&rt, row);
        check_placement(&rt, line, wanted);
    }
    let long = "x".repeat(rt.alloc(), 100).expect(&rt, "memory");
    let line = format!(in rt.alloc(); "a {} 8/8/8/8/8/8/8/8 2.0", long.as_str()).expect(
        &rt, "memory",
    );
    check_placement(&rt, line.as_str(), "3: a name is one word");
}

// A diagram, and what it is when it is turned, where that may be meant.
const TURNED: &str = "RNBQKBNR/PPPP1PPP/8/4P3/8/8/pppppppp/rnbqkbnr => \
is the board upside down? turned it is rnbqkbnr/pppppppp/8/8/4P3/8/PPPP1PPP/RNBQKBNR
rnbqkbnr/pppppppp/8/8/8/8/PPPPPPPP/RNBQKBNR w => 
K7/8/8/8/8/8/8/k7 w - - => is the board upside down? turned it is k7/8/8/8/8/8/8/K7
Kk6/8/8/8/8/8/8/8 => 
 => ";

#[test]
fn boards_upside_down(rt: HostRuntime) {
    for row in TURNED.lines() {
        let (text, wanted) = row.split_once(" => ").expect(&rt, row);
        assert_eq!(rt; on_turned(text).as_str(), wanted);
    }
}

// A text, and whether it begins as a game.
const GAMES: &str = "yes e4
yes 1.e4 d5
yes 1. e4
no games
no e5
no -
no ../e4";

// Words of a command line behind its name, that spaces part, with underscores for spaces in them; and what of it is to
// be one word: a game, a time, or neither.
const PARTS: &str = "solve 8 2.0 1._e4_e5 => game
solve 8 1. e4 e5 => game
solve 8 --game 1. e4 => game
solve 8 --game 1._e4_e5 => 
games 8 2.0 e4 => 
solve 8 --minutes 5 m => time
search 8 2.0 new --minutes 5 min => time
search 8 2.0 new --minutes 5 => 
search 8 2.0 m --minutes 5 => ";

fn check_parts<R: Abort + AllocGlobal>(rt: &R, row: &str) {
    let (text, wanted) = row.split_once(" => ").expect(rt, row);
    let mut words = Vec::new(rt.alloc());
    let name = String::from_str(rt.alloc(), "pg").expect(rt, row);
    words.push(name).expect(rt, row);
    for word in text.split(' ') {
        let word = word.replace(rt.alloc(), "_", " ").expect(rt, row);
        words.push(word).expect(rt, row);
    }
    let (game, time) = (
        is_game_in_words(words.as_slice()),
        is_unit_apart_in(words.as_slice()),
    );
    assert_eq!(rt; game, wanted == "game", "{row}");
    assert_eq!(rt; time, wanted == "time", "{row}");
}

#[test]
fn words_in_parts(rt: HostRuntime) {
    for row in PARTS.lines() {
        check_parts(&rt, row);
    }
    assert!(rt; !is_game_in_words(&[]) && !is_unit_apart_in(&[]));
    assert!(rt; is_open("?") && is_open("2.0-2.5") && is_open("2–3") && !is_open("soon"));
}

// The words of a command.
fn words_of<R: Abort + AllocGlobal>(rt: &R, words: &[&str]) -> Vec<String> {
    let mut given = Vec::new(rt.alloc());
    for text in words {
        let text = String::from_str(rt.alloc(), text).expect(rt, "memory");
        given.push(text).expect(rt, "memory");
    }
    given
}

#[test]
fn words_in_the_place_of_others(rt: HostRuntime) {
    for row in GAMES.lines() {
        let (is, text) = row.split_once(' ').expect(&rt, row);
        assert_eq!(rt; is_like_game(text), is == "yes", "{text}");
    }
    let given = words_of(&rt, &["pg", "-h", "-", "--all", "-1", "-journeys", "-x1"]);
    assert_eq!(rt;
        hyphen_wanted_in(given.as_slice()).unwrap_or(""),
        "-journeys"
    );
    let given = words_of(&rt, &["pg", "-h", "-", "--all", "-1"]);
    assert!(rt; hyphen_wanted_in(given.as_slice()).is_none());
}
