//! What is said of a cut.

use super::*;

// What the one cut at the array says of a diagram that no game of one ply ends on, by the code of its bound.
const CUTS: &str =
    "rnbqkbnr/1pppppp1/8/8/8/8/PPPPPPPP/RNBQKBNR | 01 | white must capture 2 men and has 1 move left
rnbqkbnr/pppppppp/8/8/8/8/1PPPPPPP/RNBQKBNR | 01 | black must capture 1 man and has no move left
rnbqkbnr/pppppppp/n7/8/8/8/PPPPPPPP/RNBQKBNR | 01 | white has captured 1 man too many
rnbqkbnr/pppppppp/8/8/8/Q7/PPPPPPPP/RNBQKBN1 | 02 | white needs 9 pawns, 1 of them to promote, and has 8: 1 short
rnbqkbn1/pppppppp/p7/8/8/8/PPPPPPPP/RNBQKBNR | 02 | black needs 9 pawns and has 8: 1 short
rnbqkbnr/pppppppp/8/8/8/P7/P1PPPPPP/RNBQKBNR | 03 | \
    white's pawns must change file 1 time, and white has no man to capture
rnbqkbnr/1ppppp1p/3pp3/8/8/8/1PPPPPPP/RNBQKBNR | 03 | \
    black's pawns must change file 5 times, and black has 1 man to capture
rnbqkbnr/pppppppp/8/8/8/2N2N2/PPPPPPPP/R1BQKB1R | 04 | white needs 2 moves and has 1 (travel)
rnbqkbnr/pppp1ppp/8/4p3/8/8/PPPPPPPP/RNBQKBNR | 04 | black needs 1 move and has 0 (travel)
rnbqkbnr/pppppppp/8/8/8/4P3/PPPP1PPP/RNBQ1RK1 | 04 | white needs 2 moves and has 1 (travel, castling king side)
rnbqkbnr/pppppppp/8/8/8/4P3/PPPP1PPP/2KR1BNR | 04 | white needs 2 moves and has 1 (travel, castling queen side)";

// What the one cut says in a version, whether or not the line goes on.
fn check_cut<R: Abort + AllocGlobal>(rt: &R, version: u8, row: &str) {
    let diagram = field(row, 0);
    let code = field(row, 1);
    let said = field(row, 2);
    let header = words(&format_args!("{version} {diagram} 0.5"));
    let record = words(&format_args!("02{code}"));
    let bytes = certificate(rt, header.as_str(), record.as_str());
    for (moves, more) in [("-", ""), ("1. Nf3", "; the line goes on")] {
        let asked = words(&format_args!("{diagram} | 0.5 | {moves}"));
        let lines = words(&format_args!(
            "at the start: excluded: {said}{more}\nthe certificate is right\n"
        ));
        check(rt, asked.as_str(), bytes.as_slice(), "()", lines.as_str());
    }
}

#[test]
fn cuts_in_both_versions(rt: HostRuntime) {
    for row in CUTS.lines() {
        check_cut(&rt, 1, row);
        check_cut(&rt, 2, row);
    }
}

// What the cut at the array says in the tree of the stated length, where each tree is cut there by journeys: a diagram,
// a length, how many trees there are.
const JOURNEYS: &str =
    "rnbqkbnr/pppppppp/n7/8/8/8/PPPPPPPP/RNBQKBNR | 0.5 | 1 | white has captured 1 man too many
rnbqkbnr/1pppppp1/8/8/8/8/PPPPPPPP/RNBQKBNR | 0.5 | 1 | white must capture 2 men and has 1 move left
rnbqkbnr/pppppppp/8/8/8/2N2N2/PPPPPPPP/R1BQKB1R | 1.0 | 2 | white has 1 move left and needs 2 (journeys)
rnbqkbnr/pppppppp/8/8/8/4B3/PPPPPPPP/RN1QKBNR | 1.5 | 3 | no man of white's can come to be the bishop on e3 (journeys)
r1bqkbnr/pppppppp/8/8/8/8/PPPPPPPP/RNBQKBNR | 2.5 | 5 | \
    black has no plan: a knight must be captured, and white captures nowhere (journeys)
schweig | 3.0 | 6 | white has 3 moves left, 2 of them captures, and needs 2 quiet moves: a knight must come to one of \
    8 squares to be captured (journeys)";

#[test]
fn cuts_by_journeys(rt: HostRuntime) {
    for row in JOURNEYS.lines() {
        let diagram = field(row, 0);
        let length = field(row, 1);
        let trees = field(row, 2);
        let said = field(row, 3);
        let header = words(&format_args!("2 {diagram} {length}"));
        let records = words(&format_args!("0205*{trees}"));
        let bytes = certificate(&rt, header.as_str(), records.as_str());
        let asked = words(&format_args!("{diagram} | {length} | - | - | - | journeys"));
        let lines = words(&format_args!(
            "at the start: excluded: {said}\nthe certificate is right\n"
        ));
        check(&rt, asked.as_str(), bytes.as_slice(), "()", lines.as_str());
    }
}

// Nf3 and e5, where all first moves but Nf3 are cut by journeys; and the lines of three of them.
const CHILDREN: &str = "rnbqkbnr/pppp1ppp/8/4p3/8/5N2/PPPPPPPP/RNBQKB1R | 1.0 | - | \
    2 rnbqkbnr/pppp1ppp/8/4p3/8/5N2/PPPPPPPP/RNBQKB1R 1.0 | 0204 01 0205*2 01 0205*17 | journeys => () => \
    at the start: 1 of 20 moves leads on; cut 19 by journeys; 1 game below$the certificate is right$
rnbqkbnr/pppp1ppp/8/4p3/8/5N2/PPPPPPPP/RNBQKB1R | 1.0 | Na3 | 2 rnbqkbnr/pppp1ppp/8/4p3/8/5N2/PPPPPPPP/RNBQKB1R 1.0 | \
    0204 01 0205 0204 01 0204*16 0205 | journeys => () => \
    at the start: 1 of 20 moves leads on; cut 17 by travel, 2 by journeys; 1 game below$\
    after 1. Na3: excluded: white has no move left and needs 2 (journeys)$the certificate is right$
rnbqkbnr/pppp1ppp/8/4p3/8/5N2/PPPPPPPP/RNBQKB1R | 1.0 | e4 e5 | \
    2 rnbqkbnr/pppp1ppp/8/4p3/8/5N2/PPPPPPPP/RNBQKB1R 1.0 | 0204 01 0205*2 01 0205*17 | journeys => () => \
    at the start: 1 of 20 moves leads on; cut 19 by journeys; 1 game below$\
    after 1. e4: excluded: the pawn on e2 of the diagram has left its square (journeys); the line goes on$\
    the certificate is right$";

#[test]
fn children_cut_by_journeys(rt: HostRuntime) {
    check_table(&rt, CHILDREN);
}

// The cut of a record of prices: a code, white's colour, how many ways, sources and targets, and for each way what
// these pay. What is said is what each pair costs, so that the sum is the number that excludes. By pawn files, and by
// travel three times; of four men that are dear the first three are named.
const PRICES: &str =
    "rnbqkbnr/pppppppp/8/8/8/3P4/PPPP1PPP/RNBQKBNR | 0.5 | - | 2 rnbqkbnr/pppppppp/8/8/8/3P4/PPPP1PPP/RNBQKBNR 0.5 | \
    060300010808 00*3 01 00*7 01 00*3 01 => () => \
    at the start: excluded: white has no man to capture, and white's pawns must change file 1 time at least, counted \
    pair by pair: the pawn on d3 1$the certificate is right$
rnbqkbnr/pppppppp/8/8/8/2N2N2/PPPPPPPP/R1BQKB1R | 0.5 | - | 2 rnbqkbnr/pppppppp/8/8/8/2N2N2/PPPPPPPP/R1BQKB1R 0.5 | \
    060400031010 00*30 01*2 00*30 01*2 00*30 01*2 => () => \
    at the start: excluded: white has 1 move left, and white's men need 2 moves at least, counted pair by pair: the \
    knight on c3 1, the knight on f3 1$the certificate is right$
rnbqkbnr/pppppppp/8/8/8/4P3/PPPP1PPP/RNBQ1RK1 | 0.5 | - | 2 rnbqkbnr/pppppppp/8/8/8/4P3/PPPP1PPP/RNBQ1RK1 0.5 | \
    06040003100e 00*20 01 02 00*7 01 00*29 01 00*20 01 02 00*7 01 => () => \
    at the start: excluded: white has 1 move left, and white's men need 2 moves at least, counted pair by pair: the \
    pawn on e3 1, castling 1$the certificate is right$
rnbqkbnr/pppppppp/4N3/8/8/2N2P1P/PPPPP1P1/R1BQKB1R | 0.5 | - | \
    2 rnbqkbnr/pppppppp/4N3/8/8/2N2P1P/PPPPP1P1/R1BQKB1R 0.5 | \
    060400031010 00*28 01*3 03 00*28 01*3 03 00*28 01*3 03 => () => \
    at the start: excluded: white has 1 move left, and white's men need 6 moves at least, counted pair by pair: the \
    knight on e6 3, the knight on c3 1, the pawn on f3 1, others 1$the certificate is right$";

#[test]
fn prices(rt: HostRuntime) {
    check_table(&rt, PRICES);
}
