//! Runs of a check from texts to a report.

use super::*;

// No choice: in no ply and in one. Cuts by travel; the games of the second list are out of order. No game, by a
// cut and by an expansion. Expansions alone.
pub(super) const RUNS: &str = "check | array | 0 | - |  | 1 array 0 |  | 37 => Sound => \
    diagram rnbqkbnr/pppppppp/8/8/8/8/PPPPPPPP/RNBQKBNR$length 0.0$games 1$-$sound$
check | after-e4 | 0.5 | e4 |  | 1 after-e4 0.5 | 01 => Sound => \
    diagram rnbqkbnr/pppppppp/8/8/4P3/8/PPPP1PPP/RNBQKBNR$length 0.5$games 1$1. e4$sound$
check | after-e4-e5 | 1.0 | 1. e4 e5 |  | 1 after-e4-e5 1.0 | 0204 01 0204*13 01 0204*6 | 79 => Sound => \
    diagram rnbqkbnr/pppp1ppp/8/4p3/4P3/8/PPPP1PPP/RNBQKBNR$length 1.0$games 1$1. e4 e5$sound$
check | two-orders | 1.5 | 1. e3 e6 2. d3$1. d3 e6 2. e3$ |  | 1 two-orders 1.5 | \
    0204*2 01 0204*10 01 0204*9 01 0204*11 01 0204*9 01 0204*17 | 158 => Cooked => \
    diagram rnbqkbnr/pppp1ppp/4p3/8/8/3PP3/PPP2PPP/RNBQKBNR$length 1.5$games 2$1. d3 e6 2. e3$1. e3 e6 2. d3$cooked$
check | after-e4-e5 | 0.5 | $ $ |  | 1 after-e4-e5 0.5 | 0204 => NoGame => \
    diagram rnbqkbnr/pppp1ppp/8/4p3/4P3/8/PPPP1PPP/RNBQKBNR$length 0.5$games 0$no game$
check | after-e4-e5 | 0.5 | $ $ |  | 1 after-e4-e5 0.5 | 01 => NoGame => \
    diagram rnbqkbnr/pppp1ppp/8/4p3/4P3/8/PPPP1PPP/RNBQKBNR$length 0.5$games 0$no game$
check | recaptured | 2 | 1. e4 d5 2. exd5 Qxd5 |  | 1 recaptured 2 | 01*9766 => Sound => \
    diagram rnb1kbnr/ppp1pppp/8/3q4/8/8/PPPP1PPP/RNBQKBNR$length 2.0$games 1$1. e4 d5 2. exd5 Qxd5$sound$
check | fools-mate | 2.0 | 1. f3 e5 2. g4 Qh4#$1. g4 e5 2. f3 Qh4# |  | 1 fools-mate 2.0 | 01*9766 => Cooked => \
    diagram rnb1kbnr/pppp1ppp/8/4p3/6Pq/5P2/PPPPP2P/RNBQKBNR$length 2.0$games 2$1. f3 e5 2. g4 Qh4#$\
    1. g4 e5 2. f3 Qh4#$cooked$";

// Through a reader and a writer of many bytes a call, and of one.
#[test]
fn runs(rt: HostRuntime) {
    check_table(&rt, RUNS);
}

// The games of a capture in passing and of those without one, not in order.
const EN_PASSANT: &str =
    "check | en-passant | 2.5 | 1. e4 d6 2. e5 a6 3. exd6$1. e4 a6 2. e5 d6 3. exd6$1. e4 d5 2. exd5 a6 3. d6$\
    1. e4 a6 2. e5 d5 3. exd6ep";

pub(super) const EN_PASSANT_REPORT: &str = "diagram rnbqkbnr/1pp1pppp/p2P4/8/8/8/PPPP1PPP/RNBQKBNR
length 2.5
games 4
1. e4 a6 2. e5 d5 3. exd6
1. e4 a6 2. e5 d6 3. exd6
1. e4 d5 2. exd5 a6 3. d6
1. e4 d6 2. e5 a6 3. exd6
cooked
";

// The certificate that the searcher writes, of `count` games.
pub(super) fn searched<R: Abort + AllocGlobal>(
    rt: &R,
    diagram: &str,
    length: &str,
    count: usize,
) -> Vec<u8> {
    let goal = diagram_of(rt, diagram);
    let plies = length_of(rt, length);
    let mut sink = ToWrite::new(Vec::new(rt.alloc()));
    let answer = search(rt.alloc(), &goal, plies, MANY, &mut sink);
    assert_eq!(rt; answer.expect(rt, "games").len(), count);
    sink.into_inner()
}

#[test]
fn four_games_by_en_passant(rt: HostRuntime) {
    let bytes = searched(&rt, "en-passant", "2.5", 4);
    let asked = lines_of(&rt, EN_PASSANT);
    let text = EN_PASSANT_REPORT.as_bytes();
    check_both(&rt, asked.as_str(), bytes.as_slice(), "Cooked", text);
}
