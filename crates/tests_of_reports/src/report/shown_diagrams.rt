//! What is shown of a diagram.

use super::*;

// How many writes `SCHWEIG_SHOWN` takes: the board; for each colour its name, two parts of its men, two of
// its captures and five of its need; and the last line.
const WRITES: u64 = 8 * 10 + 1 + 2 * 10 + 3;

// How many it takes with a length of no game: two more for what each colour has over, and three for the line that says
// so.
const WRITES_WITHIN: u64 = WRITES + 2 * 2 + 3;

// The array; one move of each side; a bishop too many; a lone king against a king; more men than a side has, which is
// no captured man; men that one man cannot all be; and lengths that leave moves over, none, or are too short. Captures
// land on one square, on two, on three to eight, which are named, on more, or nowhere; there are men who never move; of
// some lengths nothing is known, and some have no game. The nodes to expect are a twentieth to twenty times of 10^(0.6 +
// 0.28 plies, 14 at most, + 0.08 for each man who may move, 11 at most, - 0.28 for each man captured, 4 at most), each
// rounded to a digit; without journeys 10^(-0.6 + 0.65 slack + 0.26 plies), the slack of both sides being what the least
// moves of their men leave. Nothing is expected where the least length is shorter by more than four plies.
const LINES: &str =
    "show | array => white 16 men, captured 0, needs 0 plies$black 16 men, captured 0, needs 0 plies$\
no game is shorter than 0.0$
show | after-e4-e5 => white 16 men, captured 0, needs 1 ply (travel)$black 16 men, captured 0, needs 1 ply (travel)$\
no game is shorter than 1.0$
show | rnbqkbnr/pppppppp/8/8/8/3B4/PPPPPPPP/RN1QKBNR => \
white 16 men, captured 0, cannot stand so in 64.0 moves or less (promotions)$\
black 16 men, captured 0, needs 0 plies$no game of 64.0 moves or less$
show | 4k3/8/8/8/8/8/PPPPPPPP/QQQQQQQK => \
white 16 men, captured 15, cannot stand so in 64.0 moves or less (promotions)$\
black 1 man, captured 0, needs 0 plies$no game of 64.0 moves or less$
show | rnbqkbnr/pppppppp/8/8/8/P7/PPPPPPPP/RNBQKBNR => \
white 17 men, captured 0, cannot stand so in 64.0 moves or less (promotions)$\
black 16 men, captured 0, cannot stand so in 64.0 moves or less (captures)$no game of 64.0 moves or less$
show | r1bqnNnr/pppkpp1p/7R/3p4/8/8/PPPPPPP1/RNBQKBN1 => \
white 16 men, captured 2, needs 6 plies (travel, pair by pair)$\
black 14 men, captured 0, needs 5 plies (travel, pair by pair)$no game is shorter than 5.5$
within | schweig | 4.0 => white 15 men, captured 2, needs 2 plies (captures), 2 left over$\
black 14 men, captured 1, needs 1 ply (captures), 3 left over$\
white never moved: Ra1, Bc1, Qd1, Ke1, Bf1, Rh1, a2, b2, c2, d2, e2, f2, g2, h2$\
black never moved: a7, b7, c7, f7, g7, h7$no game is shorter than 3.5$\
a search by journeys may visit 40 to 20 thousand nodes, as a guess; without journeys ten times more, or worse$
within | rnb1kbnr/ppp1pppp/8/3q4/8/8/PPPP1PPP/RNBQKBNR | 2.0 => \
white 15 men, captured 1, needs 1 ply (captures), 1 left over$\
black 15 men, captured 1, needs 1 ply (captures), 1 left over$\
white captures on d5 alone; never moved: Ra1, Nb1, Bc1, Qd1, Ke1, Bf1, Ng1, Rh1, a2, b2, c2, d2, f2, g2, h2$\
black captures on d5 alone; never moved: a7, b7, c7, e7, f7, g7, h7, Ra8, Nb8, Bc8, Ke8, Bf8, Ng8, Rh8$\
no game is shorter than 2.0$\
a search by journeys may visit 1 to 500 nodes, as a guess$
within | array | 0.0 => white 16 men, captured 0, needs 0 plies, 0 left over$\
black 16 men, captured 0, needs 0 plies, 0 left over$\
white captures nothing; never moved: Ra1, Nb1, Bc1, Qd1, Ke1, Bf1, Ng1, Rh1, a2, b2, c2, d2, e2, f2, g2, h2$\
black captures nothing; never moved: a7, b7, c7, d7, e7, f7, g7, h7, Ra8, Nb8, Bc8, Qd8, Ke8, Bf8, Ng8, Rh8$\
no game is shorter than 0.0$a search by journeys may visit 1 to 80 nodes, as a guess$
within | array | 0.5 => white 16 men, captured 0, needs 0 plies, 1 left over$\
black 16 men, captured 0, needs 0 plies, 0 left over$\
white captures nothing; never moved: Ra1, Nb1, Bc1, Qd1, Ke1, Bf1, Ng1, Rh1, a2, b2, c2, d2, e2, f2, g2, h2$\
black captures nothing; never moved: a7, b7, c7, d7, e7, f7, g7, h7, Ra8, Nb8, Bc8, Qd8, Ke8, Bf8, Ng8, Rh8$\
no game is shorter than 0.0$a search by journeys may visit 1 to 200 nodes, as a guess$
within | array | 1.5 => white 16 men, captured 0, needs 0 plies, 2 left over$\
black 16 men, captured 0, needs 0 plies, 1 left over$\
white captures nothing; never moved: Bc1, Bf1, a2, b2, c2, d2, e2, f2, g2, h2$\
black captures nothing; never moved: a7, b7, c7, d7, e7, f7, g7, h7, Ra8, Nb8, Bc8, Qd8, Ke8, Bf8, Ng8, Rh8$\
no game is shorter than 0.0$a search by journeys may visit 4 to 2 thousand nodes, as a guess$
within | array | 2.0 => white 16 men, captured 0, needs 0 plies, 2 left over$\
black 16 men, captured 0, needs 0 plies, 2 left over$\
white captures nothing; never moved: Bc1, Bf1, a2, b2, c2, d2, e2, f2, g2, h2$\
black captures nothing; never moved: a7, b7, c7, d7, e7, f7, g7, h7, Bc8, Bf8$no game is shorter than 0.0$\
a search by journeys may visit 20 to 8 thousand nodes, as a guess$
within | array | 3.0 => white 16 men, captured 0, needs 0 plies, 3 left over$\
black 16 men, captured 0, needs 0 plies, 3 left over$\
white captures nothing; never moved: Bc1, Bf1, a2, b2, c2, d2, e2, f2, g2, h2$\
black captures nothing; never moved: a7, b7, c7, d7, e7, f7, g7, h7, Bc8, Bf8$no game is shorter than 0.0$
within | array | 4.5 => white 16 men, captured 0, needs 0 plies, 5 left over$\
black 16 men, captured 0, needs 0 plies, 4 left over$\
white captures nothing; never moved: Bc1, Bf1, a2, b2, c2, d2, e2, f2, g2, h2$\
black captures nothing; never moved: a7, b7, c7, d7, e7, f7, g7, h7, Bc8, Bf8$no game is shorter than 0.0$
within | array | 6.0 => white 16 men, captured 0, needs 0 plies, 6 left over$\
black 16 men, captured 0, needs 0 plies, 6 left over$\
white captures nothing; never moved: Bc1, Bf1, a2, b2, c2, d2, e2, f2, g2, h2$\
black captures nothing; never moved: a7, b7, c7, d7, e7, f7, g7, h7, Bc8, Bf8$no game is shorter than 0.0$
within | array | 7.0 => white 16 men, captured 0, needs 0 plies, 7 left over$\
black 16 men, captured 0, needs 0 plies, 7 left over$\
white captures nothing; never moved: Bc1, Bf1, a2, b2, c2, d2, e2, f2, g2, h2$\
black captures nothing; never moved: a7, b7, c7, d7, e7, f7, g7, h7, Bc8, Bf8$no game is shorter than 0.0$
within | rnbqkbnr/ppp2ppp/8/3pp3/3PP3/8/PPP2PPP/RNBQKBNR | 4.5 => \
white 16 men, captured 0, needs 2 plies (travel), 3 left over$\
black 16 men, captured 0, needs 2 plies (travel), 2 left over$\
white captures nothing; never moved: a2, b2, c2, f2, g2, h2$\
black captures nothing; never moved: a7, b7, c7, f7, g7, h7$no game is shorter than 2.0$
within | after-e4-e5 | 0.5 => white 16 men, captured 0, needs 1 ply (travel), 0 left over$\
black 16 men, captured 0, needs 1 ply (travel), 1 short$no game of 0.5 moves$no game is shorter than 1.0$
within | rnbqk1nN/pppp1p2/8/4p2p/7b/8/PPPPPPP1/RNBQKBNR | 4.5 => \
white 16 men, captured 2, needs 5 plies (travel, pair by pair), 0 left over$\
black 14 men, captured 0, needs 4 plies (travel), 0 left over$\
white captures on g7 or h8 alone; never moved: Ra1, Nb1, Bc1, Qd1, Ke1, Bf1, Ng1, Rh1, a2, b2, c2, d2, e2, f2, g2$\
black captures nothing; never moved: a7, b7, c7, d7, f7, Ra8, Nb8, Bc8, Qd8, Ke8, Ng8$no game is shorter than 4.5$\
a search by journeys may visit 50 to 20 thousand nodes, as a guess$
within | en-passant | 2.5 => white 16 men, captured 1, needs 3 plies (travel), 0 left over$\
black 15 men, captured 0, needs 1 ply (travel), 1 left over$\
white captures on d5 or d6 alone; never moved: Ra1, Nb1, Bc1, Qd1, Ke1, Bf1, Ng1, Rh1, a2, b2, c2, d2, f2, g2, h2$\
black captures nothing; never moved: b7, c7, e7, f7, g7, h7, Ra8, Nb8, Bc8, Qd8, Ke8, Bf8, Ng8, Rh8$\
no game is shorter than 2.5$a search by journeys may visit 5 to 2 thousand nodes, as a guess$
within | 2bqr1k1/2p1ppbp/1pp4p/7n/r2P3P/8/P1P1PPP1/RNB1KBNR | 9.5 => \
white 14 men, captured 2, needs 2 plies (captures), 8 left over$\
black 14 men, captured 2, needs 9 plies (travel), 0 left over$\
white captures on a7, b7, d7 or b8 alone; never moved: Bf1, a2, c2, e2, f2, g2$\
black captures on a4, h5, b6, c6, f6, h6, g7 or e8 alone; never moved: c7, e7, f7, h7, Bc8, Qd8$\
no game is shorter than 9.0$\
a search by journeys may visit 1 thousand to 400 thousand nodes, as a guess; without journeys ten times more, or worse$
within | 4r1k1/2p1ppbp/1p5p/2N2b1n/2rP4/q3P3/P1P1BPPP/RNB1K1NR | 12.0 => \
white 15 men, captured 3, needs 10 plies (travel, pair by pair), 2 left over$\
black 13 men, captured 1, needs 12 plies (travel), 0 left over$\
white captures on a7, d7 or b8 alone; never moved: Ra1, Nb1, Bc1, Ke1, Ng1, Rh1, a2, c2, f2, g2, h2$\
black never moved: c7, e7, f7, h7$no game is shorter than 12.0$\
a search by journeys may visit 1 thousand to 400 thousand nodes, as a guess; without journeys ten times more, or worse$
within | 4k3/8/8/8/8/8/8/4K3 | 30.0 => white 1 man, captured 15, needs 15 plies (captures), 15 left over$\
black 1 man, captured 15, needs 15 plies (captures), 15 left over$no game is shorter than 15.0$
within | 4k3/8/8/8/8/8/8/4K3 | 10.0 => white 1 man, captured 15, needs 15 plies (captures), 5 short$\
black 1 man, captured 15, needs 15 plies (captures), 5 short$no game of 10.0 moves$no game is shorter than 15.0$
within | rnbqkbnr/pppppppp/8/8/8/3B4/PPPPPPPP/RN1QKBNR | 4.0 => \
white 16 men, captured 0, cannot stand so in 64.0 moves or less (promotions)$\
black 16 men, captured 0, needs 0 plies, 4 left over$no game of 4.0 moves$no game of 64.0 moves or less$";

// The lines below the board.
fn check_lines<R: Abort + AllocGlobal>(rt: &R, row: &str) {
    let row = lines_of(rt, row);
    let (asked, wanted) = halves(rt, row.as_str(), " => ");
    let bytes = written(rt, asked, b"", MANY, "()").into_inner();
    let text = text_of(rt, bytes.as_slice());
    assert_eq!(rt; text.get(BOARD..).unwrap_or(""), wanted, "{asked}");
}

#[test]
fn lines_below_the_board(rt: HostRuntime) {
    for row in LINES.lines() {
        check_lines(&rt, row);
    }
}

const NO_DIAGRAMS: &str = "show |  => Diagram(Fields): wrong number of fields
show | 8/8/8/8/8/8/8/8 => Diagram(Kings): each side must have one king
show | rnbqkbnr/pppppppp/8/8/8/8/PPPPPPPP/RNBQKBN => Diagram(Rank): bad rank
within | 8/8/8/8/8/8/8/8 | 1.2 => Diagram(Kings): each side must have one king
within | array | 1.2 => Length(Shape): bad length
within | array | 64.5 => Length(TooLong): length above 64.0";

#[test]
fn texts_that_are_no_diagram(rt: HostRuntime) {
    check_table(&rt, NO_DIAGRAMS);
}

// Each write fails in turn, and is not tried again.
#[test]
fn writes_of_a_shown_diagram_that_fail(rt: HostRuntime) {
    check_writes(&rt, "show | schweig", b"", WRITES, "()", SCHWEIG_SHOWN);
}

// The same where no game has the length that is asked.
#[test]
fn writes_within_a_length_that_fail(rt: HostRuntime) {
    let asked = "within | after-e4-e5 | 0.5";
    let whole = written(&rt, asked, b"", MANY, "()").into_inner();
    let text = text_of(&rt, whole.as_slice());
    check_writes(&rt, asked, b"", WRITES_WITHIN, "()", text);
}
