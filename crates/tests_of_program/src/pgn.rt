//! Games in PGN.

use pg_certificate::ToWrite;
use pg_pgn::{
    Letters, PgnFault, PgnGames, fitting, letters_of, name_of, read_pgn, write_pgn, write_pgn_and,
    write_problems,
};
use pg_position::{Move, Position};
use pg_san::{Games, San, read_games, write};
use std::alloc::AllocError;
use std::process::Abort;

// Rows of a language, a text in which `|` is a line end, and what it is read as.
const TEXTS: &str = r#"english  -> 0:
english * -> 1:
english [Event "a"]|1. e4 e5 * -> 1: e4 e5
english 1.e4 e5 2.Nf3 {good (or not} Nc6 ; a } comment|3.Bb5 1-0 -> 1: e4 e5 Nf3 Nc6 Bb5
english 1. e4 $1 e5!? 2 Nf3 (2. f4 exf4 (2... d5 3. exd5) 3. Nf3) 2... Nc6 *1.d4 -> 2: e4 e5 Nf3 Nc6 / d4
english %hidden {|1. e4|% 1... c5|e5 -> 1: e4 e5
english [White "A \"B\" ] \\"]||1. e4 1-0||[White "C"]|[Black "D"]|1. d4 [White "E"] -> 3: e4 / d4 /
english [SetUp "0"] e4 d5 e:d5 ! e6 dxe6 + -> 1: e4 d5 exd5 e6 dxe6
english e4 a6 e5 d5 exd6 e.p. h6 -> 1: e4 a6 e5 d5 exd6 h6
english 1.e4 e5 2.Nf3 Nf6 3.Bc4 Bc5 4.o-o 0-0 1/2-1/2 -> 1: e4 e5 Nf3 Nf6 Bc4 Bc5 O-O O-O
english ♙e2–e4 ♟e5 ♘f3 ♞c6 ♗×a6 -> 0: line 1, column 20: game 1, ply 5: ♗×a6 is no legal move
english e4|e5 * d4|d5|Nb2 * -> 0: line 4, column 1: game 2, ply 3: Nb2 is no legal move
english Nf3 a6 Nc3 a5 Nd4 a4 Nb5 -> 0: line 1, column 22: game 1, ply 7: Nb5 is ambiguous
english e4 *|[SetUp "1"] -> 0: line 2, column 1: game 2: the tag SetUp sets up a position
english [FEN "8/8"] -> 0: line 1, column 1: game 1: the tag FEN sets up a position
english e4 {open -> 0: line 1, column 4: game 1: a comment is not closed
english [Event "open|] -> 0: line 1, column 1: game 1: a tag pair is not closed
english e4 (d4 [Event "a"] -> 0: line 1, column 8: game 1: a variation is not closed
english e4 (d4 -> 0: line 1, column 7: game 1: a variation is not closed
english e4 ) -> 0: line 1, column 4: game 1: a bracket closes nothing
german e4 e5 Sf3 Sc6 Lb5 De7 Nf3 -> 0: line 1, column 23: game 1, ply 7: Nf3 is not a move
french e4 e5 Cf3 Cc6 Fb5 Dh4 Fxc6 Dxe4 Rf1 -> 1: e4 e5 Nf3 Nc6 Bb5 Qh4 Bxc6 Qxe4+ Kf1
dutch e4 e5 Pf3 Pc6 Lb5 -> 1: e4 e5 Nf3 Nc6 Bb5
spanish e4 e5 Cf3 Cc6 Ab5 -> 1: e4 e5 Nf3 Nc6 Bb5
italian e4 e5 Cf3 Cc6 Ab5 -> 1: e4 e5 Nf3 Nc6 Bb5
"#;

// The bytes of a text with its line ends.
fn bytes_of(rt: &(impl Abort + AllocGlobal), text: &str) -> Vec<u8> {
    let mut bytes = Vec::new(rt.alloc());
    for byte in text.as_bytes() {
        let byte = if *byte == b'|' { b'\n' } else { *byte };
        assert!(rt; bytes.push(byte).is_ok());
    }
    bytes
}

// The text of a move; none where it is not legal.
fn written(position: &Position, m: &Move) -> Option<San> {
    if position.is_legal(m) {
        Some(write(position, *m))
    } else {
        None
    }
}

fn show_game(text: &mut String, game: &[Move]) -> Result<(), AllocError> {
    let mut here = Position::array();
    for m in game {
        let Some(san) = written(&here, m) else {
            return text.push_str(" illegal");
        };
        text.push_str(" ")?;
        text.push_str(san.as_str())?;
        match here.play(*m) {
            Ok(next) => here = next,
            Err(_) => return text.push_str(" illegal"),
        }
    }
    Ok(())
}

fn show_games(rt: &impl AllocGlobal, games: &PgnGames) -> Result<String, AllocError> {
    let count = games.len();
    let mut text = format!(in rt.alloc(); "{count}:")?;
    for i in 0..count {
        if i > 0 {
            text.push_str(" /")?;
        }
        if let Some(game) = games.game(i) {
            show_game(&mut text, game)?;
        }
    }
    Ok(text)
}

fn shown(rt: &impl AllocGlobal, read: &Result<PgnGames, PgnFault>) -> Result<String, AllocError> {
    match read {
        Ok(games) => show_games(rt, games),
        Err(fault) => format!(in rt.alloc(); "0: {fault}"),
    }
}

fn check_row<R: Abort + AllocGlobal>(rt: &R, row: &str) {
    let (name, rest) = row.split_once(' ').expect(rt, row);
    let (text, wanted) = rest.split_once(" -> ").expect(rt, row);
    let letters = letters_of(name).expect(rt, row);
    let bytes = bytes_of(rt, text);
    let read = read_pgn(rt.alloc(), bytes.as_slice(), letters);
    let shown = match shown(rt, &read) {
        Ok(shown) => shown,
        Err(_) => panic!(rt; "memory"),
    };
    assert_eq!(rt; shown.as_str(), wanted);
}

#[test]
fn texts_are_read(rt: HostRuntime) {
    for row in TEXTS.lines() {
        check_row(&rt, row);
    }
}

// Rows of the language that is said to fit, and a text.
const LANGUAGES: &str = "german e4 e5 Dh5
dutch e4 e5 Pf3 Lc5
spanish e4 e5 Cf3 Ac5
french e4 e5 Cf3 Fc5
english e4 e5 Nf3
english e4 e5 Xf3";

fn check_language<R: Abort + AllocGlobal>(rt: &R, row: &str) {
    let (wanted, text) = row.split_once(' ').expect(rt, row);
    let letters = match fitting(rt.alloc(), text.as_bytes()) {
        Some(letters) => letters,
        None => Letters::English,
    };
    assert_eq!(rt; name_of(letters), wanted);
}

#[test]
fn languages_that_fit(rt: HostRuntime) {
    for row in LANGUAGES.lines() {
        check_language(&rt, row);
    }
}

// Two games, how they are written in canonical order, and how with a third one behind them.
const GAMES: &str =
    "1. e4 e5 2. Nf3 Nc6 3. Bb5 a6 4. Ba4 Nf6 5. O-O Be7 6. Re1 b5 7. Bb3 d6 8. c3 O-O 9. h3
1. d4";

const THIRD: &str = "1. Nf3";

const TAGS: &str = r#"[Event "?"]
[Site "?"]
[Date "????.??.??"]
[Round "?"]
[White "?"]
[Black "?"]
[Result "*"]

"#;

const MOVETEXTS: [&str; 3] = [
    "1. d4 *\n",
    "1. e4 e5 2. Nf3 Nc6 3. Bb5 a6 4. Ba4 Nf6 5. O-O Be7 6. Re1 b5 7. Bb3 d6 8. c3\nO-O 9. h3 *\n",
    "1. Nf3 *\n",
];

// The games of a list.
fn listed<R: Abort + AllocGlobal>(rt: &R, list: &str) -> Games {
    read_games(rt.alloc(), list).expect(rt, list)
}

// The games of these movetexts in PGN.
fn pgn_of<R: Abort + AllocGlobal>(rt: &R, movetexts: &[&str]) -> String {
    let mut text = String::new(rt.alloc());
    for movetext in movetexts {
        if !text.is_empty() {
            text.push_str("\n").expect(rt, "memory");
        }
        text.push_str(TAGS).expect(rt, "memory");
        text.push_str(movetext).expect(rt, "memory");
    }
    text
}

// The bytes that are written of the games of a list.
fn pgn_written<R: Abort + AllocGlobal>(rt: &R, list: &str) -> Vec<u8> {
    let games = listed(rt, list);
    let mut out = ToWrite::new(Vec::new(rt.alloc()));
    assert!(rt; write_pgn(&games, &mut out).is_ok());
    out.into_inner()
}

// The same with another game behind them, that of a text in PGN.
fn written_with<R: Abort + AllocGlobal>(rt: &R, list: &str, another: &str) -> Vec<u8> {
    let games = listed(rt, list);
    let Ok(last) = read_pgn(rt.alloc(), another.as_bytes(), Letters::English) else {
        panic!(rt; "no games");
    };
    let Some(game) = last.game(0) else {
        panic!(rt; "no game");
    };
    let mut out = ToWrite::new(Vec::new(rt.alloc()));
    assert!(rt; write_pgn_and(&games, game, &mut out).is_ok());
    out.into_inner()
}

#[test]
fn games_are_written(rt: HostRuntime) {
    let [short, long, third] = MOVETEXTS;
    let two = pgn_of(&rt, &[short, long]);
    assert!(rt; pgn_written(&rt, GAMES).as_slice() == two.as_bytes());
    let three = pgn_of(&rt, &[short, long, third]);
    assert!(rt; written_with(&rt, GAMES, THIRD).as_slice() == three.as_bytes());
    let one = pgn_of(&rt, &[third]);
    assert!(rt; pgn_written(&rt, THIRD).as_slice() == one.as_bytes());
}

// That the text written of games is read as these games.
#[test]
fn written_games_are_read(rt: HostRuntime) {
    let text = pgn_written(&rt, GAMES);
    let games = listed(&rt, GAMES);
    let Ok(read) = read_pgn(rt.alloc(), text.as_slice(), Letters::English) else {
        panic!(rt; "no games");
    };
    assert!(rt; read.len() == games.len());
    for i in 0..games.len() {
        assert!(rt; read.game(i) == games.game(i), "{i}");
    }
}

// Games with tags and without.
const TAGGED: &str = r#"[Event "A. B. \"C\""]
[White "W"]

1. e4 {[Event "X"]} (1. d4) e5 1-0

[Event "?"]
[White ".Nagy, é"]

1. d4 *
1. c4 1/2-1/2
[Event "A. B. \"C\""]
e4
[Black "W"]
d4 [Event ""]
[White "a.b-c_d"]
"#;

// The list of problems that they are.
const LISTED: &str = "A._B.__C_\trnbqkbnr/pppp1ppp/8/4p3/4P3/8/PPPP1PPP/RNBQKBNR\t1.0\t1. e4 e5
_Nagy___\trnbqkbnr/pppppppp/8/8/3P4/8/PPP1PPPP/RNBQKBNR\t0.5\t1. d4
game_3\trnbqkbnr/pppppppp/8/8/2P5/8/PP1PPPPP/RNBQKBNR\t0.5\t1. c4
A._B.__C__4\trnbqkbnr/pppppppp/8/8/4P3/8/PPPP1PPP/RNBQKBNR\t0.5\t1. e4
game_5\trnbqkbnr/pppppppp/8/8/3P4/8/PPP1PPPP/RNBQKBNR\t0.5\t1. d4
a.b-c_d\trnbqkbnr/pppppppp/8/8/8/8/PPPPPPPP/RNBQKBNR\t0.0\t-
";

fn check_listed<R: Abort + AllocGlobal>(rt: &R, text: &str, wanted: &str) {
    let Ok(games) = read_pgn(rt.alloc(), text.as_bytes(), Letters::English) else {
        panic!(rt; "no games");
    };
    let mut out = ToWrite::new(Vec::new(rt.alloc()));
    assert!(rt; write_problems(rt.alloc(), text.as_bytes(), &games, &mut out).is_ok());
    let bytes = out.into_inner();
    assert!(rt; bytes.as_slice() == wanted.as_bytes());
}

#[test]
fn games_are_problems(rt: HostRuntime) {
    check_listed(&rt, TAGGED, LISTED);
}
