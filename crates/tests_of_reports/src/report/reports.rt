//! Movetext and reports, written or refused.

use super::*;
use pg_board::Square;

// The square with an index.
fn square(rt: &impl Abort, index: &str) -> Square {
    let index = index.parse().expect(rt, index);
    Square::from_index(index).expect(rt, "a square")
}

// The moves from square to square, by the indexes of the squares.
fn moves_of<R: Abort + AllocGlobal>(rt: &R, text: &str) -> Vec<Move> {
    let mut moves = Vec::new(rt.alloc());
    for word in text.split_whitespace() {
        let (from, to) = halves(rt, word, "-");
        let m = Move {
            from: square(rt, from),
            to: square(rt, to),
            promotion: None,
        };
        moves.push(m).expect(rt, "memory");
    }
    moves
}

// The movetext of moves.
fn check_movetext<R: Abort + AllocGlobal>(rt: &R, moves: &[Move], wanted: &str) {
    let mut out = ToWrite::new(Vec::new(rt.alloc()));
    write_movetext(moves, &mut out).expect(rt, wanted);
    assert_eq!(rt; text_of(rt, out.into_inner().as_slice()), wanted);
}

// A game is written as it was read.
fn check_game<R: Abort + AllocGlobal>(rt: &R, text: &str) {
    let games = read_games(rt.alloc(), text).expect(rt, text);
    check_movetext(rt, games.game(0).expect(rt, text), text);
}

const GAMES: &str = "1. e4 e5 2. Nf3
1. f3 e5 2. g4 Qh4#
-
1. Nf3 Nf6 2. Ng1 Ng8 3. Nf3 Nf6 4. Ng1 Ng8 5. Nf3 Nf6 6. Ng1 Ng8 7. Nf3 Nf6 8. Ng1 Ng8 9. Nf3 Nf6 10. Ng1 Ng8 11. Nf3";

#[test]
fn movetexts_of_games(rt: HostRuntime) {
    for text in GAMES.lines() {
        check_game(&rt, text);
    }
}

// Moves of e4, e4 again and e5, from square to square.
const ILLEGAL: &str = "12-28 52-36 12-28 => 1. e4 e5
12-28 12-28 52-36 => 1. e4
52-36 12-28 52-36 => -
 => -";

// What stands behind a move that is not legal is left out, even where the position would allow it.
#[test]
fn movetexts_end_at_an_illegal_move(rt: HostRuntime) {
    for row in ILLEGAL.lines() {
        let (squares, wanted) = halves(&rt, row, " => ");
        check_movetext(&rt, moves_of(&rt, squares).as_slice(), wanted);
    }
}

const REPORTS: &str =
    "report | array | 0 | - => Sound => diagram rnbqkbnr/pppppppp/8/8/8/8/PPPPPPPP/RNBQKBNR$length 0.0$games 1$-$sound$
report | two-orders | 1.5 | 1. e3 e6 2. d3$1. d3 e6 2. e3$ => Cooked => \
    diagram rnbqkbnr/pppp1ppp/4p3/8/8/3PP3/PPP2PPP/RNBQKBNR$length 1.5$games 2$1. d3 e6 2. e3$1. e3 e6 2. d3$cooked$
report | two-orders | 02 |  => NoGame => \
    diagram rnbqkbnr/pppp1ppp/4p3/8/8/3PP3/PPP2PPP/RNBQKBNR$length 2.0$games 0$no game$";

#[test]
fn reports(rt: HostRuntime) {
    check_table(&rt, REPORTS);
}

// Each write fails in turn: what was written before it stands, and no write follows.
#[test]
fn writes_of_a_report_that_fail(rt: HostRuntime) {
    let row = REPORTS.lines().nth(1).expect(&rt, "two orders");
    check_row_writes(&rt, row, 31);
}
