//! Lists of games that are long enough for texts to be kept: they go out as if nothing were kept, in the same pieces.

use super::*;
use pg_texts::write_games;

// Any of the first ones, any of the second ones, and then one of the ends: by what White and Black began with, the
// last moves are captures or not.
const FIRST: [&str; 12] = [
    "a3", "a4", "b3", "b4", "d3", "d4", "e3", "e4", "g3", "g4", "h3", "h4",
];

const SECOND: [&str; 12] = [
    "a6", "a5", "b6", "b5", "d6", "d5", "e6", "e5", "g6", "g5", "h6", "h5",
];

const ENDS: [&str; 3] = ["", " c3b5", " c3b5 f6g4"];

// `count` different games.
fn games_of<R: Abort + AllocGlobal>(rt: &R, count: usize) -> Games {
    let mut text = String::new(rt.alloc());
    for number in 0..count {
        let first = FIRST[number / 36 % 12];
        let second = SECOND[number / 3 % 12];
        let end = ENDS[number % 3];
        let line = words(&format_args!("{first} {second} Nf3 Nc6 Nc3 Nf6{end}\n"));
        assert!(rt; text.push_str(line.as_str()).is_ok());
    }
    let Ok(games) = read_games(rt.alloc(), text.as_str()) else {
        panic!(rt; "a list of games");
    };
    assert!(rt; games.len() == count);
    games
}

// Takes `left` more pushes, and keeps what they bring; the next one fails, and so does each after it.
#[derive(Drop)]
struct Limited {
    bytes: Vec<u8>,
    left: usize,
    failed: bool,
}

impl Sink for Limited {
    ghost use Rattle.std.specs.Prelude.{None};

    ghost held = { λ _. None };

    ghost has_failed = { λ s. s.failed };

    fn push(&mut self, bytes: &[u8]) -> Result<(), Refused> {
        if self.failed || self.left == 0 || self.bytes.extend_from_slice(bytes).is_err() {
            self.failed = true;
            return Err(Refused);
        }
        self.left = self.left.saturating_sub(1);
        Ok(())
    }

    fn failed(&self) -> bool {
        self.failed
    }
}

// One that takes `left` pushes.
fn takes(alloc: Global, left: usize) -> Limited {
    Limited {
        bytes: Vec::new(alloc),
        left,
        failed: false,
    }
}

// What the list is as text: each game as it is written by itself, where nothing is kept, and a line feed.
fn text_of_games<R: Abort + AllocGlobal>(rt: &R, games: &Games) -> Vec<u8> {
    let mut out = ToWrite::new(Vec::new(rt.alloc()));
    for i in 0..games.len() {
        write_movetext(games.game(i).expect(rt, "a game"), &mut out).expect(rt, "written");
        assert!(rt; out.push(b"\n").is_ok());
    }
    out.into_inner()
}

// Whether a piece of its own begins at this byte of a text of games: a number, what stands behind it, a move, the space
// behind that, a line feed.
fn begins(text: &[u8], at: usize) -> bool {
    let before = if at == 0 {
        b'\n'
    } else {
        *text.get(at.wrapping_sub(1)).unwrap_or(&b'\n')
    };
    let here = *text.get(at).unwrap_or(&b'\n');
    match here {
        b'.' | b'\n' => true,
        b' ' => before != b'.',
        _ => before == b' ' || before == b'\n',
    }
}

// That of the list just these bytes go out where `pushes` pushes are taken.
fn check_front(rt: &impl Abort, alloc: Global, games: &Games, pushes: usize, wanted: &[u8]) {
    let mut out = takes(alloc, pushes);
    let refused = write_games(games, &mut out) == Err(Refused);
    assert!(rt; refused && out.failed() && out.left == 0, "{pushes} pushes");
    assert!(rt; out.bytes.as_slice() == wanted, "{pushes} pushes");
}

// That the list goes out in the pieces of its text, where a push fails: each of the last ones, and one of 61 of the
// others. How many they are.
fn check_pushes<R: Abort + AllocGlobal>(rt: &R, games: &Games, text: &[u8]) -> usize {
    let mut pushes = 0usize;
    for at in 0..text.len() {
        if begins(text, at) {
            if pushes % 61 == 0 || text.len().wrapping_sub(at) < 60 {
                check_front(rt, rt.alloc(), games, pushes, text.get(..at).unwrap_or(b""));
            }
            pushes = pushes.saturating_add(1);
        }
    }
    pushes
}

// A number of games, and how many pushes they are: a ply is one, so is the space behind it but for the last one, two
// stand before a move of White's, and one behind all. From 128 games on texts are kept.
const COUNTS: &str = "1 => 18
126 => 2688
127 => 2706
128 => 2728
129 => 2752
300 => 6400";

#[test]
fn pushes_of_long_lists(rt: HostRuntime) {
    for row in COUNTS.lines() {
        let (count, wanted) = halves(&rt, row, " => ");
        let games = games_of(&rt, count.parse().unwrap_or(0));
        let text = text_of_games(&rt, &games);
        let pushes = check_pushes(&rt, &games, text.as_slice());
        let mut out = takes(rt.alloc(), pushes);
        assert!(rt; write_games(&games, &mut out) == Ok(()) && out.left == 0 && !out.failed());
        assert!(rt; out.bytes == text, "{row}");
        assert_eq!(rt; words(&pushes).as_str(), wanted, "{row}");
    }
}
