//! Lists of games that are long enough for readings to be kept: they are read as short ones are.

use super::lists::{check_fault, list};
use super::*;
use arrayvec::ArrayString;
use pg_san::{Games, GamesFault, SanFault, read_games};

// The orders of four moves.
const ORDERS: [[usize; 4]; 24] = [
    [0, 1, 2, 3],
    [0, 1, 3, 2],
    [0, 2, 1, 3],
    [0, 2, 3, 1],
    [0, 3, 1, 2],
    [0, 3, 2, 1],
    [1, 0, 2, 3],
    [1, 0, 3, 2],
    [1, 2, 0, 3],
    [1, 2, 3, 0],
    [1, 3, 0, 2],
    [1, 3, 2, 0],
    [2, 0, 1, 3],
    [2, 0, 3, 1],
    [2, 1, 0, 3],
    [2, 1, 3, 0],
    [2, 3, 0, 1],
    [2, 3, 1, 0],
    [3, 0, 1, 2],
    [3, 0, 2, 1],
    [3, 1, 0, 2],
    [3, 1, 2, 0],
    [3, 2, 0, 1],
    [3, 2, 1, 0],
];

// In any order, after e4 and e5. Each is read in many positions, and once a game.
const WHITE: [&str; 4] = ["Nbc3", "Nge2", "a3", "h3"];

const BLACK: [&str; 4] = ["a6", "h6", "Nbc6", "Nge7"];

// How many games these are.
const ALL: usize = 576;

type Text = ArrayString<30_000>;

fn push(rt: &impl Abort, text: &mut Text, more: &str) {
    assert!(rt; text.try_push_str(more).is_ok());
}

// Appends the game with this number, and a line feed.
fn push_game(rt: &impl Abort, text: &mut Text, number: usize) {
    let white = ORDERS[number / 24 % 24];
    let black = ORDERS[number % 24];
    push(rt, text, "1. e4 e5");
    for i in 0..4usize {
        push(rt, text, " ");
        push(rt, text, WHITE[white[i] % 4]);
        push(rt, text, " ");
        push(rt, text, BLACK[black[i] % 4]);
    }
    push(rt, text, "\n");
}

// `count` games, of which none is like the one before.
fn games_text(rt: &impl Abort, count: usize) -> Text {
    let mut text = Text::new();
    for number in 0..count {
        push_game(rt, &mut text, number.wrapping_mul(233) % ALL);
    }
    text
}

// Appends lines without words, up to this length.
fn pad(rt: &impl Abort, text: &mut Text, length: usize) {
    for _ in text.len()..length {
        push(rt, text, "\n");
    }
    assert!(rt; text.len() == length);
}

// A text of fewer bytes is short, and one of 8,000 is long.
const LENGTHS: [usize; 2] = [7_999, 8_000];

// That a list holds the one game of another.
fn check_holds(rt: &impl Abort, games: &Games, one: &Games) {
    let game = one.game(0).expect(rt, "a game");
    assert!(rt; one.len() == 1 && games.contains(game));
}

#[test]
fn a_long_list_is_read_as_its_lines_are(rt: HostRuntime) {
    let text = games_text(&rt, ALL);
    let games = list(&rt, text.as_str());
    assert!(rt; text.len() > 8_000 && games.len() == ALL);
    for line in text.as_str().lines() {
        check_holds(&rt, &games, &list(&rt, line));
    }
}

// That two lists are the same.
fn check_same(rt: &impl Abort, games: &Games, others: &Games) {
    assert!(rt; games.len() == others.len());
    for i in 0..games.len() {
        assert!(rt; games.game(i) == others.game(i));
    }
}

#[test]
fn lists_of_7999_and_8000_bytes(rt: HostRuntime) {
    for count in [0, 1, 2, 180] {
        let mut text = games_text(&rt, count);
        pad(&rt, &mut text, LENGTHS[0]);
        let short = list(&rt, text.as_str());
        pad(&rt, &mut text, LENGTHS[1]);
        let long = list(&rt, text.as_str());
        assert!(rt; short.len() == count);
        check_same(&rt, &short, &long);
    }
}

// A line behind 180 games, and its fault. In the first rows the texts were read before, in other positions.
const BAD_LINES: &str = "1. e4 e5 2. Nbc3 a6 3. Nbc3 => line 181, ply 5: no such legal move
1. e4 e5 2. a3 a6 3. Nge2 a6 => line 181, ply 6: no such legal move
1. e4 Nbc6 2. Nbc3 e5 3. e4 => line 181, ply 5: no such legal move
1. e4 e5 2. Nge2 a6 3. Nc3 => line 181, ply 5: ambiguous move
1. e4 e5 2. Nbc3 a6 3. Nb => line 181, ply 5: not a move
1. e4 e5 2. Nb1xc3 => line 181, ply 3: no such legal move
1. e4 e5 2. Nbc3 a6 3. Nge2 h6 4. a3 Nbc6 5. h3 Nge7 => line 181: repeated game";

#[test]
fn faults_of_long_lists(rt: HostRuntime) {
    for row in BAD_LINES.lines() {
        let (line, wanted) = halves(&rt, row);
        let mut text = games_text(&rt, 180);
        push(&rt, &mut text, line);
        push(&rt, &mut text, "\n");
        for length in LENGTHS {
            pad(&rt, &mut text, length);
            check_fault(&rt, text.as_str(), wanted);
        }
    }
}

// Want of memory is told, on both sides of the length from which readings are kept, and the next call answers as ever:
// passes too where `rt try --test --fail-alloc N` refuses the N-th growth.
#[test]
fn refused_growths_of_long_lists(rt: HostRuntime) {
    let mut refused = 0u8;
    let mut text = games_text(&rt, 30);
    for length in LENGTHS {
        pad(&rt, &mut text, length);
        for _ in 0..2u8 {
            match read_games(rt.alloc(), text.as_str()) {
                Ok(games) => assert!(rt; games.len() == 30),
                Err(fault) => {
                    assert!(rt; fault == GamesFault::Memory);
                    refused = refused.saturating_add(1);
                }
            }
        }
    }
    assert!(rt; refused <= 1);
}

// A word that is not read is told, and not want of memory, in a long text too: passes too where
// `rt try --test --fail-alloc N` refuses the N-th growth.
#[test]
fn bad_words_behind_refused_growths_of_long_texts(rt: HostRuntime) {
    let mut text = Text::new();
    push(&rt, &mut text, "1. e4 e5 2. Nf3 Nc6 3. Bb5 a6 4. Ke3\n");
    for length in LENGTHS {
        pad(&rt, &mut text, length);
        let wanted = GamesFault::At {
            line: 1,
            ply: 7,
            cause: SanFault::NoSuchMove,
        };
        assert!(rt; read_games(rt.alloc(), text.as_str()).err() == Some(wanted));
    }
}
