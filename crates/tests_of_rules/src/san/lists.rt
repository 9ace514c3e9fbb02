//! Lists of games, and their faults.

use super::*;
use pg_board::Square;
use pg_san::{AddFault, Games, GamesFault, SanFault, read_games};

// The games of three plies to one placement, one by en passant, in canonical order.
const FOUR: [&str; 4] = [
    "1. e4 a6 2. e5 d5 3. exd6",
    "1. e4 a6 2. e5 d6 3. exd6",
    "1. e4 d5 2. exd5 a6 3. d6",
    "1. e4 d6 2. e5 a6 3. exd6",
];

const FOUR_BY_SQUARES: &str = "e2e4 a7a6 e4e5 d7d5 e5d6
e2e4 a7a6 e4e5 d7d6 e5d6
e2e4 d7d5 e4d5 a7a6 d5d6
e2e4 d7d6 e4e5 a7a6 e5d6";

const WHITE: [&str; 16] = [
    "a2a3", "a2a4", "b2b3", "b2b4", "c2c3", "c2c4", "d2d3", "d2d4", "e2e3", "e2e4", "f2f3", "f2f4",
    "g2g3", "g2g4", "h2h3", "h2h4",
];

const BLACK: [&str; 20] = [
    "Na6", "Nc6", "Nf6", "Nh6", "a6", "a5", "b6", "b5", "c6", "c5", "d6", "d5", "e6", "e5", "f6",
    "f5", "g6", "g5", "h6", "h5",
];

// One of 4,480 different games of three plies: White moves pawns of two files, Black anything.
fn line(i: usize) -> [&'static str; 3] {
    let first = i / 280 % 16;
    let other = i % 14;
    let second = if other < first / 2 * 2 {
        other
    } else {
        other + 2
    };
    [WHITE[first], BLACK[i / 14 % 20], WHITE[second]]
}

// A text and then another.
fn push(rt: &impl Abort, text: &mut String, more: &str) {
    assert!(rt; text.push_str(more).is_ok());
}

// A text, `times` times.
fn repeated<R: Abort + AllocGlobal>(rt: &R, part: &str, times: usize) -> String {
    let mut text = String::new(rt.alloc());
    for _ in 0..times {
        push(rt, &mut text, part);
    }
    text
}

// `count` different games, a line each.
fn many_lines<R: Abort + AllocGlobal>(rt: &R, count: usize) -> String {
    let mut text = String::new(rt.alloc());
    for i in 0..count {
        for word in line(i) {
            push(rt, &mut text, word);
            push(rt, &mut text, " ");
        }
        push(rt, &mut text, "\n");
    }
    text
}

// That the list holds these games in this order, a line each, and no more.
fn check_games<R: Abort + AllocGlobal>(rt: &R, games: &Games, wanted: &str) {
    let mut count = 0usize;
    for squares in wanted.lines() {
        let game = games.game(count).expect(rt, squares);
        check_moves(rt, game, squares);
        assert!(rt; games.contains(game));
        count = count.saturating_add(1);
    }
    assert!(rt; games.len() == count && games.game(count).is_none());
}

// The games of a text.
pub(super) fn list<R: Abort + AllocGlobal>(rt: &R, text: &str) -> Games {
    let Ok(games) = read_games(rt.alloc(), text) else {
        panic!(rt; "a list of games");
    };
    games
}

// That a text is a list of these games.
fn check_list<R: Abort + AllocGlobal>(rt: &R, text: &str, wanted: &str) {
    check_games(rt, &list(rt, text), wanted);
}

// That a text is no list, by a fault that is shown so.
pub(super) fn check_fault<R: Abort + AllocGlobal>(rt: &R, text: &str, wanted: &str) {
    match read_games(rt.alloc(), text) {
        Ok(_) => panic!(rt; "{text}"),
        Err(fault) => check_case(rt, text, &fault, wanted),
    }
}

#[test]
fn four_games(rt: HostRuntime) {
    let text = "\n1. e4 d6 2. e5 a6 3. exd6\r\n \t\n1. e4 a6 2. e5 d6 3. exd6\n\
        1.e4 d5\t2.exd5 a6 3.d6\n\r\n1. e4 a6 2. e5 d5 3. exd6e.p.\r";
    check_list(&rt, text, FOUR_BY_SQUARES);
}

#[test]
fn empty_lists(rt: HostRuntime) {
    for text in ["", "\n", "\r\n \t\r\n\n", "\r"] {
        check_list(&rt, text, "");
    }
    check_games(&rt, &Games::new(rt.alloc()), "");
}

#[test]
fn games_of_no_move(rt: HostRuntime) {
    for text in ["-", "\t- \r\n", "1.", "\n1... 27.\n"] {
        check_list(&rt, text, "\n");
    }
    check_fault(&rt, "-\n\n1.", "line 3: repeated game");
    check_list(&rt, "e4 e5\n-\ne4", "\ne2e4\ne2e4 e7e5");
}

// That two spellings are one game.
fn check_spellings<R: Abort + AllocGlobal>(rt: &R, first: &str, second: &str) {
    let mut text = repeated(rt, first, 1);
    push(rt, &mut text, "\n");
    push(rt, &mut text, second);
    check_fault(rt, text.as_str(), "line 2: repeated game");
}

#[test]
fn one_game_in_three_spellings(rt: HostRuntime) {
    let spellings = ["1.e4 e5", "1. e4 e5", "e2-e4 e7-e5"];
    for first in spellings {
        for second in spellings {
            check_spellings(&rt, first, second);
        }
    }
}

// In the last two a word names two moves, and none: the pawn passed a move too early.
const BAD_WORDS: &str = "1. e4 e5 * => line 1, ply 3: not a move
1.1.e4 => line 1, ply 1: not a move
1.e4 1.1. e5 => line 1, ply 2: not a move
1 e4 => line 1, ply 1: not a move
.e4 => line 1, ply 1: not a move
- - => line 1, ply 1: not a move
1.- => line 1, ply 1: not a move
e4\re5 => line 1, ply 1: not a move
\r e4 => line 1, ply 1: not a move
e4 e\0 => line 1, ply 2: not a move
e4 é5 => line 1, ply 2: not a move
e4\u{a0}e5 => line 1, ply 1: not a move
1. Nf3 a6 2. d4 a5 3. Nd2 => line 1, ply 5: ambiguous move
1. e4 d5 2. e5 a6 3. exd6 => line 1, ply 5: no such legal move";

#[test]
fn bad_words(rt: HostRuntime) {
    for row in BAD_WORDS.lines() {
        let (text, wanted) = halves(&rt, row);
        check_fault(&rt, text, wanted);
    }
    check_fault(&rt, "e4\n\n1. d4 d5 2. 1-0", "line 3, ply 3: not a move");
    check_fault(&rt, "e4\r\r\n", "line 1, ply 1: not a move");
}

#[test]
fn a_word_of_two_million_characters(rt: HostRuntime) {
    let mut word = repeated(&rt, "1", 1_000_000);
    check_fault(&rt, word.as_str(), "line 1, ply 1: not a move");
    let dots = repeated(&rt, ".", 1_000_000);
    push(&rt, &mut word, dots.as_str());
    check_list(&rt, word.as_str(), "\n");
    push(&rt, &mut word, "x");
    check_fault(&rt, word.as_str(), "line 1, ply 1: not a move");
}

#[test]
fn too_many(rt: HostRuntime) {
    let same = repeated(&rt, "e4\n", 4097);
    check_fault(&rt, same.as_str(), "line 2: repeated game");
    let more = many_lines(&rt, 4097);
    check_fault(&rt, more.as_str(), "line 4097: more than 4096 games");
    let mut most = many_lines(&rt, 4096);
    push(&rt, &mut most, " \n\n");
    assert!(rt; list(&rt, most.as_str()).len() == 4096);
    push(&rt, &mut most, "?");
    check_fault(&rt, most.as_str(), "line 4099: more than 4096 games");
}

// That a game is added, or why it is not.
fn check_add(rt: &impl Abort, games: &mut Games, game: &[Move], wanted: Result<(), AddFault>) {
    assert!(rt; games.add(game) == wanted);
}

// The same, of the one game of a text.
fn check_add_text<R: Abort + AllocGlobal>(
    rt: &R,
    games: &mut Games,
    text: &str,
    wanted: Result<(), AddFault>,
) {
    let list = list(rt, text);
    assert!(rt; list.len() == 1);
    check_add(rt, games, list.game(0).expect(rt, text), wanted);
}

// That a game is refused with its last move once more behind it.
fn check_late<R: Abort + AllocGlobal>(rt: &R, games: &mut Games, text: &str, ply: usize) {
    let list = list(rt, text);
    let game = list.game(0).expect(rt, text);
    let Ok(mut late) = Vec::from_slice(rt.alloc(), game) else {
        panic!(rt; "memory");
    };
    let last = *late.last().expect(rt, text);
    assert!(rt; late.push(last).is_ok());
    check_add(rt, games, late.as_slice(), Err(AddFault::IllegalMove(ply)));
}

#[test]
fn adds_in_any_order(rt: HostRuntime) {
    let mut games = Games::new(rt.alloc());
    for text in FOUR.iter().rev() {
        check_add_text(&rt, &mut games, text, Ok(()));
        check_add_text(&rt, &mut games, text, Err(AddFault::Repeated));
    }
    check_games(&rt, &games, FOUR_BY_SQUARES);
    let illegal = [Move {
        from: Square::at(12),
        to: Square::at(36),
        promotion: None,
    }];
    check_add(&rt, &mut games, &illegal, Err(AddFault::IllegalMove(1)));
    check_late(&rt, &mut games, FOUR[0], 6);
    check_games(&rt, &games, FOUR_BY_SQUARES);
}

#[test]
fn adds_up_to_4096(rt: HostRuntime) {
    let mut games = Games::new(rt.alloc());
    let text = many_lines(&rt, 4097);
    for words in text.as_str().lines() {
        let wanted = if games.len() < 4096 {
            Ok(())
        } else {
            Err(AddFault::TooMany)
        };
        check_add_text(&rt, &mut games, words, wanted);
    }
    check_add_text(&rt, &mut games, "a3 Na6 b3", Err(AddFault::TooMany));
    assert!(rt; games.len() == 4096);
}

// Where a growth is refused the list stays as it was, and the next try adds the game.
fn add_at_last<R: Abort + AllocGlobal>(rt: &R, games: &mut Games, game: &[Move]) {
    let held = games.len();
    for _ in 0..9 {
        match games.add(game) {
            Ok(()) => return,
            Err(fault) => {
                assert!(rt; fault == AddFault::Memory && games.len() == held);
                assert!(rt; !games.contains(game));
            }
        }
    }
}

// Passes too where `rt try --test --fail-alloc N` refuses the N-th growth.
#[test]
fn refused_growths(rt: HostRuntime) {
    let text = "1. e4 d6 2. e5 a6 3. exd6\n1. e4 a6 2. e5 d6 3. exd6\n1.e4 d5 2. exd5 a6 3. d6\n-";
    for _ in 0..9 {
        match read_games(rt.alloc(), text) {
            Ok(games) => add_four(&rt, &games),
            Err(fault) => assert!(rt; fault == GamesFault::Memory),
        }
    }
}

// Adds four games to an empty list, in another order.
fn add_four<R: Abort + AllocGlobal>(rt: &R, games: &Games) {
    let mut again = Games::new(rt.alloc());
    for i in [2, 0, 3, 1] {
        add_at_last(rt, &mut again, games.game(i).expect(rt, "four games"));
    }
    assert!(rt; again.len() == 4);
}

// A word that is not read is told, and not want of memory: passes too where
// `rt try --test --fail-alloc N` refuses the N-th growth.
#[test]
fn bad_words_behind_refused_growths(rt: HostRuntime) {
    for _ in 0..9 {
        let fault = read_games(rt.alloc(), "1. e4 e5 2. Nf3 Nc6 3. Bb5 a6 4. Ke3").err();
        let wanted = GamesFault::At {
            line: 1,
            ply: 7,
            cause: SanFault::NoSuchMove,
        };
        assert!(rt; fault == Some(wanted));
    }
}

#[test]
fn texts_of_faults(rt: HostRuntime) {
    check_fault(&rt, "e4\n1. e4 e5 *", "line 2, ply 3: not a move");
    check_fault(&rt, "e5", "line 1, ply 1: no such legal move");
    check_fault(&rt, "Nf3 a6 d4 a5 Nd2", "line 1, ply 5: ambiguous move");
    check_fault(&rt, "e4\n\ne4", "line 3: repeated game");
    let full = GamesFault::TooMany { line: 4097 };
    check_shown(&rt, &full, "line 4097: more than 4096 games");
    check_shown(&rt, &AddFault::IllegalMove(3), "illegal move at ply 3");
    check_shown(&rt, &AddFault::TooMany, "more than 4096 games");
    check_shown(&rt, &AddFault::Repeated, "repeated game");
    check_shown(&rt, &AddFault::Memory, "out of memory");
}
