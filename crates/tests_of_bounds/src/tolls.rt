//! The bound by tolls: positions with the answers of a model that was written apart from it, and tariffs at the ends of
//! their range.

use crate::texts::{check_all, check_line, diagram, is_yes, position, row_of, square_of};
use pg_captures::Bound;
use pg_tolls::{Leasts, Tariff, Tolls};
use std::alloc::Global;
use std::process::Abort;

// The tolls of a colour with the one that a word such as `We4=-9` spells. One such as `W=-128` spells those of all
// squares.
fn with_toll(rt: &impl Abort, tolls: [i8; 64], word: &str) -> [i8; 64] {
    let (place, number) = word.split_once('=').expect(rt, word);
    let toll = number.parse::<i8>().expect(rt, word);
    let name = place.as_bytes();
    if name.len() == 1 {
        return [toll; 64];
    }
    assert!(rt; name.len() == 3, "{word}");
    let square = square_of(rt, &name[1..]);
    let mut all = tolls;
    all[usize::from(square.index())] = toll;
    all
}

// The tariff of a text such as `14 12 We4=-9 Bd5=7`: the weights of White and of Black, and tolls; others are 0.
fn tariff_of(rt: &impl Abort, text: &str) -> Tariff {
    let mut words = text.split(' ');
    let first = words.next().expect(rt, text);
    let second = words.next().expect(rt, text);
    let mut white = [0i8; 64];
    let mut black = [0i8; 64];
    for word in words {
        if word.starts_with('W') {
            let next = with_toll(rt, white, word);
            white = next;
        } else {
            let next = with_toll(rt, black, word);
            black = next;
        }
    }
    Tariff {
        weights: [
            first.parse::<u8>().expect(rt, text),
            second.parse::<u8>().expect(rt, text),
        ],
        tolls: [white, black],
    }
}

// Whether a colour's plans are charged at least what a text says; `none` where it has no plan.
fn is_least(found: Option<i64>, wanted: &str) -> bool {
    match found {
        Some(charge) => wanted.parse::<i64>() == Ok(charge),
        None => wanted == "none",
    }
}

// Whether the plans of White and of Black are; `- -` where no plans are asked for.
fn are_leasts(found: Option<Leasts>, wanted: &str) -> bool {
    let Some((white, black)) = wanted.split_once(' ') else {
        return false;
    };
    match found {
        Some(leasts) => is_least(leasts.white, white) && is_least(leasts.black, black),
        None => wanted == "- -",
    }
}

// That in each row, such as `diagram | position | plies tariff => yes white black`, the bound excludes or does not,
// and the cheapest plans of White and of Black are charged so much.
fn check_tolls(rt: &impl Abort, alloc: Global, table: &str) {
    for line in table.lines() {
        let row = row_of(rt, line);
        let (plies, tariff) = row.asked.split_once(' ').expect(rt, line);
        let (answer, leasts) = row.wanted.split_once(' ').expect(rt, line);
        let goal = diagram(rt, row.diagram);
        let start = position(rt, row.position);
        let bound = Tolls::new(alloc, &goal, &tariff_of(rt, tariff), 6).expect(rt, line);
        let plies = plies.parse::<u8>().expect(rt, line);
        let excludes = bound.excludes(&goal, &start, plies);
        check_line(rt, line, excludes == is_yes(rt, answer));
        check_line(rt, line, are_leasts(bound.leasts(&start), leasts));
    }
}

// Positions on the way to diagrams of twenty men or more, with tariffs by the answers of the model.
const MANY_MEN: &str =
    "2k1b1nr/pp5p/5Pp1/2n1b3/1pP1P1P1/N6P/PR3KBR/2Br2N1 | r1bqkbnr/pppp1p1p/n5p1/4p3/3P4/N7/PPP1PPPP/1RBQKBNR w Kkq e6 0 1 | \
    23 12 12 Wd1=-1 Wd4=-1 We5=-2 We6=-2 Wf6=4 Wc7=-3 Wd7=-8 Wf7=-10 Wd8=-10 Bd1=-2 Bb2=-9 Bf2=-11 Bb4=7 Bd4=-2 Bb5=3 \
    Bc6=3 => yes 140 139
2kr2n1/ppp1p3/3P1bpr/P3N2p/3p2b1/3PN1p1/2P1PP1P/R2QKB1R | rnbqkbnr/ppp1p1pp/8/3p1p2/1P6/N7/P1PPPPPP/R1BQKBNR w KQkq f6 0 1 | \
    25 4 13 Wc5=14 Wd6=9 Wb8=-11 Wd8=-5 Bc1=-9 Bb2=-3 Bd2=-2 Bg2=-9 Ba3=-2 Be3=-2 Bg3=3 Bf4=-2 Bg4=2 => yes 64 147
2kr2n1/ppp1p3/3P1bpr/P3N2p/3p2b1/3PN1p1/2P1PP1P/R2QKB1R | rnbqkbnr/ppp1p1pp/8/3p1p2/1PN5/8/P1PPPPPP/R1BQKBNR b KQkq - 0 1 | \
    24 4 13 Wc5=14 Wd6=9 Wb8=-11 Wd8=-5 Bc1=-9 Bb2=-3 Bd2=-2 Bg2=-9 Ba3=-2 Be3=-2 Bg3=3 Bf4=-2 Bg4=2 => yes 60 147
2kr2n1/ppp1p3/3P1bpr/P3N2p/3p2b1/3PN1p1/2P1PP1P/R2QKB1R | rnbqkbnr/ppp1p1pp/8/3p4/1PN2p2/8/PBPPPPPP/R2QKBNR b KQkq - 0 1 | \
    22 9 11 Wc5=12 Wd6=9 Wb8=-12 Wd8=-9 Ba1=-4 Bb2=-9 Bg2=-9 Bg3=9 => yes 102 120
2kr2n1/ppp1p3/3P1bpr/P3N2p/3p2b1/3PN1p1/2P1PP1P/R2QKB1R | rnbqkbnr/ppp1p1p1/8/3p3p/1PN2p2/8/PBPPPPPP/R2QKBNR w KQkq h6 0 1 | \
    21 9 11 Wc5=12 Wd6=9 Wb8=-12 Wd8=-9 Ba1=-4 Bb2=-9 Bg2=-9 Bg3=9 => yes 102 109
2bq3r/rp1k1p2/pn1p2pQ/2P1b1P1/5n1P/P7/1PPBPPR1/2KR1BN1 | rnbqkb1r/pppppp2/5npp/3N4/7P/P7/1PPPPPP1/R1BQKBNR b KQkq - 0 1 | \
    22 12 13 Wc4=3 Wc5=11 We5=-3 Wh6=-6 Wc7=-7 Wd7=-6 We7=-15 Bd5=-1 Bd6=9 Be7=-5 => yes 126 150
2kr2nr/1pp1b1p1/p3Pp1p/1b6/P1P4P/2K1P3/2n3P1/RNB2BNR | rnbqkbnr/ppppp1pp/5p2/8/2P5/8/PP1PPPPP/RNBQKBNR w KQkq - 0 1 | \
    21 9 13 Wd1=-3 Wd2=-1 Wa3=2 Wc3=1 We3=8 We5=4 We6=3 Wd7=-9 We7=-9 Wd8=-8 Bd1=-5 Bb2=-10 Bd2=-6 Bf2=-8 Ba3=-2 Bb3=-1 Bc3=-1 Bb4=-1 \
    Be7=-1 Bd8=-1 => yes 89 141
2k1b1nr/pp5p/5Pp1/2n1b3/1pP1P1P1/N6P/PR3KBR/2Br2N1 | r1bqkbnr/pppppppp/n7/8/8/N7/PPPPPPPP/1RBQKBNR b Kkq - 0 1 | \
    26 11 10 Wd1=-4 Wd2=-5 Wd5=-2 Wf5=-1 Wg5=2 Wd6=-2 We6=-1 Wc7=-4 Wd7=-10 We7=-10 Wf7=-11 Wg7=-6 Wd8=-8 Bb2=-5 Bd2=-5 Bf2=-7 Bb4=7 \
    Bb5=4 Bc6=4 Be6=1 Bf6=3 Bg6=6 Bd7=-1 Be7=-1 Bf7=-1 => yes 130 144
2kr2nr/1pp1b1p1/p3Pp1p/1b6/P1P4P/2K1P3/2n3P1/RNB2BNR | rnbqkbnr/pppppppp/8/8/8/8/PPPPPPPP/RNBQKBNR w KQkq - 0 1 | \
    23 8 14 Wd1=-4 Wa3=3 We3=7 We5=3 We6=3 Wd7=-8 We7=-7 Wf7=-6 Wd8=-8 Bd1=-3 Bb2=-11 Bd2=-7 Bf2=-7 Ba3=-3 Bb3=-1 Be6=1 Bf6=7 Bd7=-1 \
    Bd8=-3 => yes 91 161
2k1b1nr/pp5p/5Pp1/2n1b3/1pP1P1P1/N6P/PR3KBR/2Br2N1 | r1bqkbnr/pppppp1p/n5p1/8/8/N7/PPPPPPPP/1RBQKBNR w Kkq - 0 1 | \
    25 11 10 Wd1=-3 Wd2=-4 Wf2=-1 Wd5=-1 We5=-1 Wf5=-1 Wc7=-3 Wd7=-10 We7=-10 Wf7=-11 Wd8=-10 Bb2=-5 Bd2=-6 Bf2=-6 Bb4=7 Bb5=3 Bc6=3 \
    Be7=-1 => yes 129 135
2kr2nr/1pp1b1p1/p3Pp1p/1b6/P1P4P/2K1P3/2n3P1/RNB2BNR | rnbqkbnr/pppppppp/8/8/2P5/8/PP1PPPPP/RNBQKBNR b KQkq c3 0 1 | \
    22 8 14 Wd1=-4 Wa3=3 We3=7 We5=3 We6=3 Wd7=-8 We7=-7 Wf7=-6 Wd8=-8 Bd1=-3 Bb2=-11 Bd2=-7 Bf2=-7 Ba3=-3 Bb3=-1 Be6=1 Bf6=7 Bd7=-1 \
    Bd8=-3 => yes 83 161
r3bb2/N4B2/1p1Pqkrp/2p4P/2P5/PPnN2P1/1R1BP1K1/3n2R1 | rnbqkbnr/pp1p1p1p/4B1p1/2p1p3/2P5/N5P1/PP1PPP1P/1RBQK1NR b Kkq - 0 1 | \
    38 12 12 Wf5=-3 Wg5=-6 Wh5=-3 Wd6=1 Wg6=-17 Wa7=-6 Wb7=-6 Wd7=-9 Wf7=-4 Wb8=-12 Bd1=-2 Bf2=-2 Bd3=2 Bf5=3 Bh5=3 Bb6=6 \
    Bd7=1 => yes 209 248
3k1N2/1q2pQ2/1n1p1n2/rP3b1r/4PPp1/1PP3PP/R1PN2KR/2B5 | rnbqkbnr/pp1ppppN/8/8/4P3/2p3P1/PPPP1P1P/RNBQKB1R w KQkq - 0 1 | \
    29 13 10 Wb3=7 Wa5=-5 Wb5=5 Wa6=-5 Wb6=-4 Wa7=-12 Wb7=-7 Wf7=-5 Wg7=-7 Wf8=-7 Bf1=-16 Be2=-5 Bg2=-4 Bg4=7 Ba6=-4 \
    Bb6=4 => yes 187 149
r1bq1b2/1ppp1k1r/2n2n2/p1P2P1p/5p1P/P5R1/1P1PQ1P1/RNB1KB2 | r1bq1b1r/1ppp1k2/2n2n2/p4P1p/2P2p1P/P5R1/1P1PQ1P1/RNB1KB2 w Q - 0 1 | \
    1 9 2 => yes 9 2
6qr/1bp2k1n/rp1p3p/1n1NpPQ1/2P1P1p1/P2P1PBP/8/R4KNR | rnbqkbnr/ppppp1pp/8/5p2/8/4P2P/PPPP1PP1/RNBQKBNR b KQkq - 0 1 | \
    32 10 11 Wa3=3 Wf3=5 Wf5=4 Wa7=-7 Wb7=-7 Wg7=-2 Wh7=-7 Wf8=-12 Bf1=-12 Ba2=-5 Bb2=-9 Be2=-2 Bg4=9 Bb6=7 Bh6=7 => yes 162 176
rnbqkb1r/pppppp2/5n1p/6p1/8/1PPP4/P3PPPP/RNBQKBNR | rnbqkbnr/pppppppp/8/8/8/8/PPPPPPPP/RNBQKBNR w KQkq - 0 1 | 3 11 13 => yes 33 39
1rqk3r/1p6/P1pNpp1p/2n2nb1/1BP1PPpP/3B2Q1/3P3P/2KRR3 | r2qkbnr/1pp1p2p/3p1p2/p1n3p1/PPP1PP2/N6b/3P2PP/R1BQKB1R w KQkq - 0 1 | \
    23 16 16 => yes 208 176
2kr1bnr/ppp1pppp/2n5/8/P1p2P2/4P2P/1P1N3P/R1BQKBNR | rnbqkbnr/ppp1pppp/8/3p4/2P5/8/PP1PPPPP/RNBQKBNR w KQkq d6 0 1 | \
    8 16 16 We3=2 Wh3=2 Wc8=-2 Wd8=-2 Be2=-2 => yes 82 52
rn4k1/p2pr1p1/Pp2q1P1/2p1b3/P3p3/N3PP1p/R1PPK1PN/3Q1B1R | rnbqk2r/p1ppnppp/1p1b4/7P/PP2p3/8/R1PPPPP1/1NBQKBNR b Kkq - 0 1 | \
    24 5 12 Wa5=6 Wf5=-2 Wa6=4 We6=-2 Wg6=9 We7=-5 Wf7=-12 Wc8=-10 Bc1=-10 Bb2=-3 Ba3=-3 Be6=2 Bg6=9 Be7=1 => yes 62 143
rn3rk1/1pp3n1/2q2pp1/pN1p1P1p/3P1p1P/bP5B/P1PQP3/R1B1K1NR | rnbqkb1r/pppppppp/5n2/8/8/N7/PPPPPPPP/R1BQKBNR w KQkq - 0 1 | \
    27 1 16 Wf3=7 Wh3=1 Wf4=8 Wf5=7 Wf6=3 Wc8=-3 Bg2=-9 Bg3=-1 Bh3=-1 Bf4=6 Bg4=-1 Bf6=6 => yes 6 217
rn1q1r2/p1p2k1p/1p3p1n/3p4/3P1Pbp/2b4R/P1P1P1P1/2KRBBN1 | rnbqkbnr/ppp1pppp/8/3p4/3P4/8/PPPQPPPP/RNB1KBNR b KQkq - 0 1 | \
    20 6 16 Wa3=2 Wc3=1 We7=-8 Wf7=-5 Bb1=-11 Bc1=-2 Bb2=-9 Bd2=-9 Bh2=-7 Ba3=-4 Bb3=-3 Bc3=-2 Bh4=2 Bf6=3 Be7=-1 => yes 53 168
rn1k1b1r/2p1pnp1/1p5p/5p1N/b1p4P/4P1P1/p4PB1/RNB2RK1 | rn1qkb1r/pppbp1pp/7n/5p2/1Pp5/4P1P1/P2P1P1P/RNBQKBNR b KQkq - 0 1 | \
    18 4 18 Wd1=-3 Wd2=-3 Wb3=3 Wc3=3 We3=7 Wc4=1 We4=4 Wa5=2 Wc5=4 We5=3 Wd8=-5 Bd1=-8 Ba2=-2 Bd2=-14 Ba3=1 Bc3=-3 Bd3=-6 Be3=-7 Ba4=2 \
    Bb4=-4 Bc4=-1 Bd4=-6 Be4=-4 Ba5=-2 Bb5=-3 Bc5=-4 Bd5=-3 Be5=-3 Bd8=-1 => yes 40 160
2kr2nr/1pp1b1p1/p3Pp1p/1b6/P1P4P/2K1P3/2n3P1/RNB2BNR | rnbqkbnr/pppp2pp/5p2/4p3/Q1P5/8/PP1PPPPP/RNB1KBNR w KQkq e6 0 1 | \
    17 16 16 We3=1 We5=-1 Wd7=-1 Wd8=-1 Bb2=-1 Bf2=-1 Ba4=-1 => yes 129 146
rn1k1b1r/p6n/1pqpp2p/1P4p1/Q3pPR1/P5K1/2PPb2P/RNB2B2 | rnbqkbnr/pp1ppppp/8/2p5/4P3/8/PPPP1PPP/RNBQKBNR w KQkq c6 0 1 | \
    25 13 18 Wc5=-3 Wc6=-2 Bg1=-5 Bg2=-5 Bd6=3 Be6=3 => yes 140 254
rnbqk1nr/2ppb3/4ppp1/p7/P1P2PP1/N7/3PP3/R1BQKBNR | rnbqk1nr/2ppb2p/1p2ppP1/p7/PPP2PP1/8/3PP3/RNBQKBNR b KQ - 0 1 | \
    3 6 11 Wa1=-8 Wb2=-7 Wa3=2 Wb3=-2 Wh3=5 Wa4=-5 Wd4=-3 We4=-17 Wa5=1 Wf5=-11 Wa6=8 Wb6=-9 Wa7=9 We7=-6 Wc8=-7 We8=2 Bb1=3 Ba2=-15 \
    Bb2=-15 Bf2=-17 Bh2=-13 Ba3=9 Bb3=-13 Bc3=8 Bg3=-12 Bb4=-10 Bc4=7 Bb5=-7 Bd5=-13 Bf5=2 Bb6=2 Bc6=-14 Bd6=-12 Bf6=-9 Ba7=9 Be7=-4 \
    Bf7=-3 Bc8=-9 Bd8=-7 Bf8=-5 => yes 12 20
1r5r/1p4qp/p2ppk2/1bp1b3/2P5/P3R3/6p1/1Nn1KBNn | rnbq3r/pppppkbp/8/6p1/1P6/6P1/PBPP3P/RN2KBNn w Q - 0 1 | \
    35 0 17 Ba1=-1 Bb2=-4 Bd2=-4 Bh2=-4 Bd3=-1 Bg3=-3 Bh3=-1 Bb4=-3 Bf4=1 Bg4=-1 Bb5=-1 => yes -3 298
1r5r/1p4qp/p2ppk2/1bp1b3/2P5/P3R3/6p1/1Nn1KBNn | rnbq3r/pppp1kbp/4p3/6p1/1P6/3P2P1/PBP4P/RN2KBNn w Q - 0 1 | \
    32 0 17 Ba1=-1 Bb2=-4 Bh2=-4 Bd3=-3 Bg3=-3 Bh3=-1 Bb4=-3 Bd4=-1 Bf4=1 Bg4=-1 Bb5=-1 => yes -3 278
r2q1knr/p1pP1p1p/3b1p2/1pnB1QP1/7P/P7/1PPP4/RNB1K1NR | r1bqkbnr/p1pppp1p/np6/5Pp1/7P/P7/1PPPP1P1/RNBQKBNR b KQkq - 0 1 | \
    20 9 2 We2=-3 Wg4=-1 Wh4=-2 Wd5=2 Wg5=-5 Wd6=2 We6=1 Wd7=-1 Wc8=-8 Be2=-4 Bg2=-2 Bf3=2 Bf4=5 Bh4=2 Be6=5 Bf6=23 => yes 74 37
1rb3n1/P1n1p1br/3kq2p/N5p1/3P1p2/PPN1B1P1/4KP1P/R2Q1BR1 | r1b1kbnr/pp2pppp/n1p1q3/3P4/2PP4/4B3/PP2KPPP/RN1Q1BNR b kq - 0 1 | \
    24 17 8 Wb5=8 Wd5=-5 Wb6=5 Wc6=-1 Wb7=-8 Bg1=-6 Bb5=1 Bd5=-14 => yes 222 79
rn1k2r1/6p1/8/pb1Npp1p/7P/1p2KN2/P5PR/2R2B2 | r3k3/8/8/3p1Np1/N7/8/5b2/R3K2R w KQq - 0 1 | 4 105 15 => yes - -
1nb2b2/3kn3/1p1p3p/4p2q/1Pr1P2p/5P2/NB2K1R1/1R4N1 | r3k3/P7/B7/8/2N5/8/PP6/R3K2R b KQq - 0 1 | \
    4 5 10 Wa7=-8 Wa8=-6 Wb8=3 Ba1=-4 Bb1=-4 Bc1=-4 Bd1=-3 Bh1=-10 Ba3=-2 Ba7=-8 Ba8=-5 Bb8=-3 => yes - -
rnbqk1nr/p1p2p1p/1P2p3/3p2p1/Pb6/5P2/1P1PPKPP/RNBQ1BNR | q1R4K/1k6/8/2Pp4/8/3p4/2q5/8 w - d6 0 1 | 2 60 45 => yes - -
rnbqkb1r/1p2pp2/p1pP1np1/7p/5P2/8/PP1PP1PP/RNBQKBNR | r3k2r/3P3P/8/8/8/5B2/4PP2/R3K2R b KQkq - 0 1 | 1 105 120 => yes - -
rn1qkbnr/p1p2ppp/3p4/1p2p1P1/PPP5/5b2/3PPP1P/RNBQKBNR | rn2k1nr/3p4/5q1p/pN6/6Pp/b4B1R/1BP2P2/2R2KN1 w - - 0 1 | \
    9 6 8 Wc1=-1 Wb2=-2 Wa3=-5 => yes - -
rn4nr/5k1p/pp1bb1Q1/2ppp3/2P2PPN/P7/1P1B2B1/RN3RK1 | 8/3pK2b/2q5/8/8/8/2k3p1/6r1 w - - 0 1 | 3 0 8 => yes - -
r2q1knr/p1pP1p1p/3b1p2/1pnB1QP1/7P/P7/1PPP4/RNB1K1NR | r1bqkbnr/pppppppp/n7/8/5P1P/8/PPPPP1P1/RNBQKBNR b KQkq f3 0 1 | \
    24 7 1 We2=-1 We5=1 Wd6=1 Wf6=1 Wg7=-8 Wc8=-6 Be2=-2 Bg2=-1 Be5=1 Be6=2 Bf6=21 => yes 70 27
br3qnr/p4pn1/2pppkp1/1p5p/1P1P3P/P3bP2/R1PQP1PR/1N2KBN1 | 1rbqkbnr/p1pppp2/2n3p1/1p5p/7P/1P1P4/P1PBPPP1/RN1QKBNR b Qk - 0 1 | \
    22 9 19 Bd2=-7 => yes 70 247
1r5r/1p4qp/p2ppk2/1bp1b3/2P5/P3R3/6p1/1Nn1KBNn | rnbq3r/pppppkbp/8/6p1/1P6/6P1/PBPP3P/RN2KBNn w Q - 0 1 | \
    34 1 17 Ba1=-1 Bb2=-4 Bd2=-4 Bh2=-4 Bd3=-1 Bg3=-4 Bh3=-1 Bb4=-4 Bf4=1 Bg4=-1 Bb5=-1 => yes 11 296
r3kb1r/2pb1ppp/pp1pp3/1N3n2/2PPQP2/7P/1P1B2q1/1R1K1BnR | r1bqkbnr/p1pppppp/np6/8/8/N4N1P/PPPPPPP1/R1BQKB1R b KQkq - 0 1 | \
    24 7 19 Ba2=-6 Be2=-6 Bg2=-6 Bf3=-12 => yes 88 229
br3qn1/p4pnr/2ppp1p1/1p3k1p/1P1P3P/P1P1bP1N/R2QP1PR/1N2KB2 | rnbqkbnr/pppppp1p/6p1/8/8/3P4/PPP1PPPP/RNBQKBNR w KQkq - 0 1 | \
    35 4 19 Bc1=-6 => yes 44 361
br3qnr/p4pn1/2pppkp1/1p5p/1P1P3P/P3bP2/R1PQP1PR/1N2KBN1 | rnbqkbnr/pppppp1p/6p1/8/7P/3P4/PPP1PPP1/RNBQKBNR b KQkq h3 0 1 | \
    32 2 18 Bc1=-6 => yes 16 306
rn1b4/1p3k2/2pP1pr1/2q5/pP1PPP2/P1N3np/RQ5p/3K1B1b | rnbqkbnr/1p1pp2p/2p2p2/p5p1/3P4/P7/1PPBPPPP/RN1QKBNR b KQkq - 0 1 | \
    40 1 16 Wd3=6 Wf3=1 Wg3=1 Wh3=1 Wd4=6 We4=1 Wd5=7 Wd6=7 Wd7=-1 We7=-1 Wh7=-1 Ba1=-1 Bb1=-1 Bc1=-1 Be1=-1 Bg1=-5 Bh1=-1 Bd2=-5 Be2=-1 \
    Bg2=-1 Bh2=-1 Bc3=-1 Be3=-1 Bf3=-1 Bd7=-1 Bh7=-1 => yes 22 319
1r5r/1p4qp/p2ppk2/1bp1b3/2P5/P3R3/6p1/1Nn1KBNn | r1b2q1r/pppp1k1p/4p3/4b1p1/1n5P/P1PP2P1/8/RN2KBNn w Q - 0 1 | \
    25 0 18 Bd3=-4 Bg3=-4 Bd4=-1 Bg4=-1 Bh4=-4 Bh5=-1 => yes 0 222
rnbqkbnr/ppp2pp1/4p3/P2p3p/1P1P4/8/2P1PPPP/RNBQKBNR | rnbqkbnr/pppppppp/8/8/8/8/PPPPPPPP/RNBQKBNR w KQkq - 0 1 | 7 2 16 => no 8 48
rnbqkbnr/2pp1ppp/8/pp2p3/3P1P1P/8/PPP1P1P1/RNBQKBNR | rnbqkbnr/2pppppp/8/pp6/3P1P2/8/PPP1P1PP/RNBQKBNR w KQkq b6 0 1 | \
    2 14 18 => no 14 18
rnbqkbn1/4pp2/1ppp2p1/p5P1/1PPP4/8/P2BPP1r/RN1QKBNR | r1bqkbnr/3npp2/1ppp2p1/p5P1/1PPP4/8/P3PP2/RNBQKBNR b KQkq - 0 1 | \
    3 120 8 => no 120 16
rnb1kbnr/p1pqpp2/3p2pp/1p6/6PP/1P2PP2/P1PP4/RNBQKBNR | rnbqkbnr/p1p1pp2/3p2pp/1p6/6PP/1P2PP2/P1PP4/RNBQKBNR b KQkq - 0 1 | \
    1 113 30 => no 0 30
2bqk2r/r1pp1p1p/p1n3pn/4p3/p1P1PP1P/b2P1K2/1P1B2P1/RN1Q1BNR | r1bqkb1r/2pppp1p/p1n3pn/8/p1P1PP2/6K1/1P1P2PP/RNBQ1BNR w kq - 0 1 | \
    7 2 16 => no 8 48
rnbqkbnr/pppppp1p/6p1/8/7P/2P5/PP1PPPP1/RNBQKBNR | rnbqkbnr/pppppp1p/6p1/8/8/2P5/PP1PPPPP/RNBQKBNR w KQkq - 0 1 | 1 8 16 => no 8 0
rn3bnr/4pk2/p1p4p/5ppP/5PP1/p7/1PNqP1R1/R1B2KN1 | rn3bnr/4pk2/p1p4p/1p3ppP/5PP1/8/PPNqP1R1/R1B2KN1 b - - 0 1 | \
    3 37 41 Bb1=-77 Bc1=5 Bg1=-103 Ba2=-16 Bg2=20 Ba3=43 Be3=-25 Ba4=115 Bb4=13 Bb5=47 Bc5=65 Bf5=23 Bg5=70 Bh6=-29 Bd8=68 => no -78 125
rn1k2r1/6p1/8/pb1Npp1p/7P/1p2KN2/P5PR/2R2B2 | rn1k3r/6p1/8/pb1Npp1p/7P/1p3N2/P3K1PR/2R2B2 w - - 0 1 | 2 75 105 => no 75 105
rnbqkb1r/1p2pp2/p1pP1np1/7p/5P2/8/PP1PP1PP/RNBQKBNR | rnbqkb1r/1p1ppp2/p1p2np1/7p/2P2P2/8/PP1PP1PP/RNBQKBNR w KQkq - 0 1 | \
    3 13 4 Wc1=11 Wd1=-5 Wc2=-14 Wa3=-9 Wc3=-15 Wd3=-17 We3=-9 Wh3=-12 Wb4=-5 Wf4=6 Wh4=10 Wd5=1 Wg5=-8 Wb6=8 Wd6=10 Wf6=-1 Wd7=-3 \
    Wg7=-12 Wc8=-14 Wh8=-17 => no 27 -6
rn1qkbnr/p3ppp1/1pp1b2p/3p4/P7/1P1P4/1RPBPP1P/1N1QK1NR | rn1qkbnr/p3ppp1/1pp4p/3p4/P7/3P3b/RPPBPP1P/1N1QK1NR w Kkq - 0 1 | \
    3 120 68 => no 240 68
rnbqkbnr/2p1p1p1/7P/1p3p2/p2PpP1P/8/PPP1N3/RNBQKB1R | rnbqkbnr/pppppppp/8/8/5P2/8/PPPPP1PP/RNBQKBNR b KQkq f3 0 1 | \
    14 7 12 Wh5=8 Wh6=7 Wh7=-5 Be2=-6 Be4=6 => no 50 82
rnbqkbnr/ppppp1pp/8/5p2/7P/8/PPPPPPP1/RNBQKBNR | rnbqkbnr/pppppppp/8/8/7P/8/PPPPPPP1/RNBQKBNR b KQkq h3 0 1 | 1 2 16 => no 0 16
rnb1kbnr/pp1ppp2/2p3p1/8/P2P4/5N2/4PPBP/RN1QR1K1 | rnb1kbnr/pp1ppppp/2p5/8/P2P2P1/5N2/2P1PP1P/RNqQKB1R w KQkq - 0 1 | \
    9 5 8 Wc1=-1 Wc2=-4 Wb3=4 Wf5=4 Wg7=-4 Wh7=-6 Bc2=-5 Bb3=-4 Bg4=-8 Bf5=-4 Bg6=4 => no 25 15
r1bqkbn1/1p1ppp2/8/p1p5/P1P2p2/1P6/2QPN1B1/RNB1K2R | rnbqkbnr/1p1ppppp/8/p1p5/P4PP1/8/1PPPP2P/RNBQKBNR b KQkq g3 0 1 | \
    16 5 5 We2=-1 Wd3=1 Wg3=1 Wh7=-1 Wb8=-7 Wh8=-3 Be2=-5 Bh2=-5 Bd3=-1 Bg3=-2 Bg4=-6 => no 36 16
rnB1kbn1/2p3p1/1p2pp2/pP6/P4P2/4p3/R2P4/3K3R | rnB1kbn1/2p3p1/1p2pp2/pP6/P4P2/4p3/R2P4/3qK2R w q - 0 1 | \
    1 16 10 Wa1=-26 Wc1=1 Wd1=-10 Wf1=-28 Wg2=-2 Wc3=-31 Wd3=17 Wf3=3 Wg3=-18 Wg4=-12 Wh4=2 Wa5=-17 Wd5=-3 Wg6=-9 Wa7=-23 Wb7=10 Wd7=-30 \
    Wh7=-30 Wb8=12 We8=-28 Wh8=-32 => no 6 3
r2qkb1r/pp2p2B/5p1n/2pPn3/P7/8/1PPP3P/RNBQK2N | rnbqkbnr/ppppp2p/5p2/6p1/P3P3/8/1PPP1PPP/RNBQKBNR w KQkq g6 0 1 | \
    21 11 17 Wf1=-37 We2=-12 Wa3=-8 Wb3=11 Wd3=13 We3=28 Wf3=-14 Wh4=-31 Wa5=5 Wb5=-19 Wd5=-23 We5=-35 Wg5=-25 Wh5=-14 Wa6=-45 Wb6=19 \
    Wc6=-1 Wg6=-15 Wh6=-48 Wc7=1 Wd8=-22 Bb1=-3 Bc1=-12 Bh1=-5 Ba2=6 Be2=-27 Ba3=-46 Bb4=-6 Bd4=13 Be4=-46 Bg4=10 Bb5=-42 Bc5=-47 \
    Bd5=-12 Bf5=-10 Bg5=19 Ba6=-21 Bc6=-35 Bf6=-44 Bg6=-16 Ba8=14 Bb8=-50 Bc8=8 Bd8=-47 Bf8=5 Bh8=-40 => no -831 -609
2bqkbnr/2ppp1p1/8/1p5p/R7/6p1/2PPPP1P/2BQKBNR | rnbqkbnr/ppppp1p1/8/5p1p/PP6/N7/2PPPPPP/R1BQKBNR b KQkq - 0 1 | \
    9 0 0 Wb1=-38 We1=-40 Wf1=-35 Wa2=-29 Wb3=-35 Wc3=-40 Wd3=20 Wf3=-41 Wh3=28 Wb4=2 Wc4=-44 Wf4=-43 Wa5=-2 Wb5=-44 Wf5=-38 Wg5=-46 \
    Wh5=-21 Wa6=-12 Wb6=-22 Wc6=-40 We6=-8 Wg6=8 Wc8=-36 Wd8=-21 Wg8=-28 Bb1=-40 Bc1=12 Ba2=-34 Ba3=1 Bc3=1 Bb4=-2 Bc4=-9 Bf4=-18 Bg4=5 \
    Bh4=24 Ba5=11 Bc6=15 Bf6=18 Bh6=10 Ba8=5 Bc8=-23 Bd8=-32 => no -1605 -1364
rnb1kbnr/2ppqp2/4p2p/1p5P/p3PB2/2PP2P1/PP6/RN1QKBNR | rnbqkbnr/2pp1p2/4p2p/1p6/p3PB1P/2PP2P1/PP6/RN1QKBNR b KQkq - 0 1 | \
    3 2 0 => no 2 0
rnQ3n1/p4kb1/1pp5/8/2N1P1pP/8/PP2P3/R3KBN1 | rnQ3n1/p2p1kb1/1p6/2P5/4P1pP/N7/PP2P3/R3KBN1 w Q - 0 1 | 2 45 68 => no 45 68
rnbq1b1r/p1pk1p1p/1p2p1pn/8/PP3P1P/3PN3/2P1P1P1/R1BQKBNR | rnbq1b1r/pppkpp1p/6p1/3p4/PP3PnP/2NP4/2P1P1P1/R1BQKBNR b KQ b3 0 1 | \
    1 8 8 Wa1=19 Wb1=3 Wd1=21 We1=22 Wf1=-17 Wg1=-43 Wd2=26 Wc3=-31 Wd3=-24 Wg3=-19 Wh3=-29 Wa4=16 Wb4=21 Wc4=-39 Wd4=-1 Wc5=-47 Wd5=-3 \
    Wa6=25 Wf6=2 Wh6=-45 Wb8=-15 Wd8=-9 Wf8=-42 Wh8=-17 => no -157 22
rnbqkbnr/pp1p4/7P/2p1pp2/2P3P1/1P6/P2PPP2/RNBQKBNR | rnbqkbnr/pp1pp3/8/2p2pPp/2P3P1/8/PP1PPP2/RNBQKBNR w KQkq h6 0 1 | \
    1 0 8 Wc1=-33 Wc2=-22 Wg2=-2 Wh2=-42 Wc3=-5 Wg3=-27 Wh3=-43 We5=-29 Wf5=-2 Wa6=-25 Wb6=-16 Wg6=-50 Wb8=20 Wh8=27 => no -392 8
r1bqkbnr/1ppppppp/2nN4/8/3P1P2/8/PpP1P1PP/R1BQKBNR | rnbqkbnr/1ppppppp/8/8/p2P1P2/8/PPP1P1PP/RNBQKBNR w KQkq - 0 1 | \
    3 16 8 Bf1=-14 Bb3=-1 Bf3=8 Bh3=24 Bb4=-45 Bc4=20 Bd4=-40 Be4=2 Bf4=-29 Bg4=3 Bh5=-27 Bc6=-42 Bg6=-32 Ba7=20 Bb8=-4 Bc8=3 Bd8=22 \
    Bf8=17 => no 48 -32
rnbqkb1r/2p1ppp1/p5B1/1p1p4/8/P1P5/1P3PPP/RnBQK1NR | rnbqkbnr/ppppppp1/8/7p/4P3/P7/1PPP1PPP/RNBQKBNR b KQkq e3 0 1 | \
    10 18 1 We1=-8 Wf1=-48 Wg1=-39 Wa3=-43 Wb3=10 Wd3=-23 Wb4=-39 Wc4=9 Wd4=26 Wg4=-37 Wa5=-30 Wc5=11 We5=-22 Wf5=-22 Wa6=-36 Wc6=-31 \
    We6=-44 Wf6=-41 Wg6=14 Wa8=-50 We8=-31 Wf8=-36 Wg8=-32 Wh8=-9 Ba1=-34 Be1=-14 Bh1=-47 Bc2=9 Bd2=-47 Bc3=2 Bd3=-29 Bf3=2 Bd4=-4 \
    Bg4=-16 Ba6=-34 Bb6=1 Ba7=14 Bd7=-50 Be8=-40 => no -61 -1065
rnbqk1n1/1p2b3/p7/2Q2p2/5Ppr/PP1PP3/3K3P/RNB2BNR | rnbqk1n1/1p2P3/p2b4/2p2p1r/5PpP/PP1PP3/2QK3P/RNB2BNR b q - 0 1 | \
    1 6 15 Wf1=-12 Wa2=10 Wc2=7 Wa3=-6 Wb3=-4 Wd3=-15 Wg3=-3 Wh3=-5 Wa4=-12 Wf4=-10 Wc5=-1 Wd5=-10 Wf5=-5 Wa6=-15 Wb6=-17 Wd6=-15 Wg6=10 \
    Wh6=6 Wg7=9 Wa8=-2 Wb8=-4 Wc8=-13 Bf1=-13 Bg1=-9 Bb2=1 Be3=8 Bd4=-5 Bg4=-7 Bh4=-10 Bb5=9 Bc5=10 Be5=2 Bf5=-9 Bg5=4 Ba6=8 Bb6=-2 \
    Bh6=8 Ba7=-5 Ba8=-11 Bd8=-15 Bf8=-11 => no -16 21";

#[test]
fn diagrams_of_many_men(rt: HostRuntime) {
    check_tolls(&rt, rt.alloc(), MANY_MEN);
}

// The same for diagrams of seven men to nineteen.
const SOME_MEN: &str =
    "4k3/2R5/6N1/7N/8/8/2R5/3r1RK1 | Rnbk1br1/8/2B3Pp/1P2P3/6P1/2P1p3/1P6/1NB1K1NR b K - 0 1 | 2 9 10 => yes 117 30
2k5/6K1/2P5/q2p4/8/3p4/2q5/8 | q1R4K/1k6/8/2Pp4/8/3p4/2q5/8 w - d6 0 1 | \
    2 15 11 Ba1=10 Bc1=5 Bd1=-8 Bf1=-14 Bg1=5 Bh1=-7 Ba2=-4 Bc2=-15 Bg2=8 Ba3=-5 Bb3=-10 Ba4=-5 Bc4=-8 Bf4=2 Bc5=-15 Bf5=-8 Bd6=-10 \
    Be6=8 Bg6=-13 Be7=-5 Ba8=3 Be8=10 Bf8=7 Bg8=-3 Bh8=-6 => yes 30 22
8/1B2kp1r/2P5/6p1/8/4PK2/r7/5b1n | 1r6/4kp1r/B1P5/6p1/8/4P3/P3Kp2/7n b - - 0 1 | 3 0 98 => yes 0 294
3r4/5k2/n6r/1B1p3p/7P/6BN/1PPK4/1R6 | 1B1r4/5k2/B1n4r/1n1p3p/7P/7N/1PPK4/1R6 w - - 0 1 | 3 0 10 => yes 0 20
4k2r/7P/8/2p2Q2/8/8/1R3KP1/7q | 4k2r/7P/8/2p2Q2/8/8/1R4P1/2q1K2R w Kk - 0 1 | 2 83 105 => no 83 105
1n5r/8/2k1p3/1R3P1p/1bp1P2P/1r3P2/5R2/2BK4 | 1n5r/8/2k1p1R1/1R3P1p/1bp1P2P/1r3P2/8/2BK4 b - - 0 1 | 4 165 114 => no 330 0
4k1nr/8/7b/7p/2q5/5K2/8/7B | 4k1nr/8/7b/7p/8/8/4K3/2q4B b - - 0 1 | 2 2 16 => no 2 16
r3k1r1/B5Q1/B7/5p2/7R/8/8/4K2R | r3k2r/B7/B7/5p2/7R/2Q5/8/4K2R b Kkq - 0 1 | 3 2 14 => no 2 14
1n3rk1/6n1/1q2pp1B/p5p1/P1pP4/1P5N/4KPQ1/1R6 | 1n2k2r/8/1q2pp1B/p5pn/P1pP4/1P5N/5PQ1/1R2K3 b k - 0 1 | 3 11 9 => no 11 18
2kr4/8/8/3p2p1/N2N4/8/4K3/R6R | r3k3/8/8/3p1Np1/N7/8/5b2/R3K2R w KQq - 0 1 | 4 105 17 Wa1=-22 Wf2=-70 => no 210 34
3R4/8/2P5/8/8/2k4r/1pq5/4b1K1 | 3R4/8/8/1Pp5/8/2k4r/1pq5/4b1K1 w - c6 0 1 | \
    1 83 8 Wb1=-16 We1=-74 Wh1=-45 Wa2=-20 We2=-25 Wd3=2 Wh3=-36 Wb4=-128 We4=65 Wc5=-18 Wd5=-13 Wf5=23 Wg5=52 Wb6=-110 Wc6=54 Wd6=-68 \
    We6=-128 Wf6=-11 Wg6=-7 Wa7=-43 Wh7=77 Wd8=43 Wf8=68 Wh8=18 => no 137 -54
8/1n6/1k4pP/3P3R/8/8/P3p3/4K3 | 8/8/1k4p1/n2P2Pp/8/8/P3p3/4K2R w K h6 0 1 | 3 5 1 Wh5=3 Wh6=12 => no 22 -11
8/5P2/8/4Q3/2Pr2k1/8/4P3/R3K3 | 8/5P2/8/4Q3/2Pr1kP1/8/4P3/R3K3 b Q g3 0 1 | \
    1 3 3 Bf1=-1 Bg1=-5 Bb2=6 Bd2=10 Bh2=-17 Bb3=-11 Bh3=-14 Bb4=-10 Be4=-1 Bg4=-5 Bh4=-17 Ba5=10 Bd5=-9 Bd6=-11 Be6=-2 Bf6=9 Bh6=-14 \
    Bc7=-12 Be7=-7 Bg7=-11 Bb8=8 Be8=-17 => no 0 -19
8/5P2/8/4Q3/2Pr2k1/8/4P3/R3K3 | 8/5P2/8/4Q3/2Pr1kP1/8/4P3/R3K3 b Q g3 0 1 | 1 105 60 Bg4=-72 => no 0 -12
1R2k3/1p1n4/q7/1q6/8/r7/5K2/8 | r3k3/Pp1n4/q7/1q6/8/r3K3/8/8 w q - 0 1 | 3 34 15 Wa8=-36 Wb8=21 => no 89 -6
5kr1/p7/b5r1/6p1/2NK4/5P1B/R1n5/8 | 6r1/p4k2/bN4r1/6p1/3K4/5P2/4p1BR/4b3 w - - 0 1 | \
    8 6 7 We1=-18 Wd2=-8 Wf2=-4 Wc3=-10 Wg3=-10 Wb4=-8 Wh4=-8 Wa5=-9 => no 16 32
r3k2r/B5q1/8/8/4K3/8/3P1P2/6b1 | r3k2r/B5q1/8/8/5K2/8/3P1Pp1/8 w kq - 0 1 | 3 0 68 => no 0 68
8/4k3/B7/8/2N5/8/PP6/R3K3 | r3k3/P7/B7/8/2N5/8/PP6/R3K2R b KQq - 0 1 | \
    4 5 10 Wa7=-8 Wa8=-6 Wb8=3 Ba1=-4 Bb1=-4 Bc1=-4 Bd1=-3 Bh1=-10 Ba3=-2 Ba7=-8 Ba8=-5 Bb8=-3 => no 12 14
8/7p/4k3/8/3pP1b1/1n6/5K2/R7 | 8/7p/3k4/8/3pP1b1/1n6/8/R3K3 b Q e3 0 1 | 3 4 0 => no 4 0
3rk3/8/8/7p/8/3r4/7P/R3K2R | r3k3/8/7p/8/8/3r4/p6P/R3K2R b KQq - 0 1 | \
    3 22 12 Wb1=10 We1=13 Wc2=-38 Wd2=-28 We3=23 Wf3=6 Wg3=-35 Wd4=-11 Wf4=-6 Wc5=-39 Wh5=29 Wc6=-35 Wg6=-4 Wc7=8 Wd7=13 We8=-33 \
    Wf8=-48 => no 0 24
r3k3/p7/8/3n4/7Q/5P2/P7/R3K3 | r3k3/p7/n7/6q1/3Q4/5P2/P5p1/R3K3 b Qq - 0 1 | \
    3 21 19 Wa1=-4 Wd1=-11 Wh1=24 Wb2=31 Wf2=-14 Wh2=26 Wa3=-15 Wc3=-14 We3=13 Wf3=-2 Wg3=-27 Wb4=-23 Wh4=25 Wa5=-38 Wd5=-21 Wf6=-18 \
    Wh6=22 Wd7=23 Wa8=23 Wc8=-37 => no 19 32
8/5P2/8/8/2r3k1/8/4P2Q/R3K3 | 8/5P2/8/4Q3/2Pr1kP1/8/4P3/R3K3 b Q g3 0 1 | \
    1 13 20 Bc1=-37 Be1=-33 Bg1=36 Bh1=25 Bh2=-30 Be3=3 Bf3=-13 Bg3=-3 Ba4=-26 Bc4=-6 Bd4=28 Bg4=-3 Bh4=-34 Be5=31 Bf5=-39 Bg5=-23 \
    Bb6=-41 Bf7=-27 Ba8=35 Bb8=30 Be8=20 => no 22 -2
r3k3/pp6/7r/1b2K3/8/1P6/7P/2q5 | r3k2r/pp6/7P/1b3K2/8/8/1Pp4P/8 b kq - 0 1 | \
    3 5 22 Bc1=-17 Bg1=27 Bh1=1 Bd2=-41 Be2=-43 Ba3=32 Bc3=-19 Bg3=8 Bh3=-53 Ba4=18 Be4=-55 Be5=25 Bf5=4 Be6=-13 Bh6=19 Bd7=-8 Be7=-40 \
    Bd8=-42 Bh8=14 => no -9 13
r3k3/4p3/8/8/8/5K2/8/1rn4r | r3k2r/4p3/8/8/8/8/1pp5/4K2R b Kkq - 0 1 | \
    3 8 2 Bh1=5 Be2=1 Bh2=8 Bb3=8 Bf3=-13 Bb4=-10 Be4=2 Bf4=-8 Bg4=-11 Bb6=4 Bc6=-11 Bf6=-1 Bh6=-9 Bc7=-5 Bf7=-10 Bg7=-13 Ba8=10 Bb8=-14 \
    Bc8=3 Be8=-11 => no 11 -33";

#[test]
fn diagrams_of_some_men(rt: HostRuntime) {
    check_tolls(&rt, rt.alloc(), SOME_MEN);
}

// The same for diagrams of fewer men.
const FEW_MEN: &str =
    "8/8/5K2/2N5/8/8/8/5kq1 | 8/8/8/2N5/2q1RK2/4rN2/8/5kn1 w - - 0 1 | 6 14 14 Wg1=-9 We3=-7 Wf3=-5 We4=-3 Be3=-5 Bf3=-8 Be4=-8 => yes 41 44
8/8/7P/7k/3p4/8/K2B4/8 | 5r2/2B2R2/7P/6k1/3p4/5p2/K7/8 w - - 0 1 | 5 13 12 Wf3=-17 Wf7=-7 Wf8=-12 Bf3=-7 Bf7=-5 Bf8=-5 => yes 28 36
8/8/8/8/1p3Q2/3K4/8/4k3 | 8/8/8/4Q3/1p2r2r/3K2B1/8/5k2 w - - 0 1 | 4 13 12 We4=-17 Wh4=-12 Bg3=-12 Bh4=-5 => yes 15 36
8/2k3r1/8/1K6/8/8/8/8 | 8/2k5/4Q2r/3r4/8/K6Q/8/3r4 b - - 0 1 | \
    7 14 7 Wd1=-9 Wh3=-9 Wd5=-6 We6=-6 Wh6=-6 Bd1=-3 Bh3=-12 Bd5=-5 Be6=-11 Bh6=-5 => yes 51 22
1K3k2/8/8/8/8/8/8/8 | q4k2/8/1KP5/8/8/R7/8/8 b - - 0 1 | 5 17 6 Wa3=-5 Wc6=-5 Wa8=-6 Ba3=-10 Bc6=-10 Ba8=-5 => yes 54 1
8/8/4P3/6q1/8/4q3/8/1K2k3 | 2q5/8/8/4n3/2N1PBq1/8/8/1K2k3 b - - 0 1 | \
    7 11 14 Wd3=-3 Wc4=-6 We5=-13 Ba1=-1 Bd3=-1 Bc4=-6 Bf4=-9 Be5=-14 => yes 37 54
8/8/8/8/2Q5/k7/7K/8 | 6q1/8/8/6Q1/k7/8/3n3K/5r2 w - - 0 1 | 5 12 13 Wg8=-12 Wf1=-15 Wd2=-15 => yes 12 51
8/2R5/1R6/6k1/2B1K3/8/6n1/8 | 8/2R5/n5k1/8/2B1K3/8/Rr6/4n3 w - - 0 1 | 5 10 17 Wb2=-16 Wb4=-4 Wa6=-16 => yes 4 66
8/8/8/n2k4/3Q4/8/N4K2/8 | 7b/6k1/3Q4/n7/8/5n1Q/N4K2/8 w - - 0 1 | \
    7 6 16 We1=-1 Wf3=-12 Wh8=-12 Bd1=-1 Bf3=-5 Bh3=-11 Bd6=-5 Bh8=-5 => yes 5 72
8/8/4Q2b/8/8/8/8/k6K | 2b5/8/4Q2b/2Q2P2/8/r7/k7/7K b - - 0 1 | \
    4 9 13 Wa3=-13 Wf5=-9 We6=2 Wc8=-9 Ba3=-9 Bc5=-11 Bf5=-9 Be6=-2 Bc8=-2 => yes 11 35
8/6K1/8/3b4/8/8/3N3k/8 | 8/1B4K1/4q3/8/4p3/1b5N/3N4/7k b - - 0 1 | \
    5 9 14 Wh3=-9 We4=-11 We6=-11 Wb7=-4 Bg1=-5 Bh3=-9 Be4=-9 Bb7=-7 => yes 12 50
3k4/8/8/8/2b5/8/2K5/8 | 3k4/8/b7/8/KR6/8/1r3r2/2Q5 w - - 0 1 | \
    6 14 9 Wc1=-2 Wb2=-6 Wf2=-11 Wb4=-6 Bc1=-10 Bb2=-3 Bf2=-4 Bb4=-11 => yes 49 22
4k3/8/8/2K5/2p5/8/8/8 | 4k3/8/3Kp3/1r6/8/8/3Q4/3B4 b - - 0 1 | \
    7 12 9 Wb1=-3 Wd1=-3 Wd2=-3 Wb5=-13 Bd1=-10 Bd2=-5 Bc4=16 Bd5=11 => yes 20 54
8/5R2/3b2k1/8/8/7K/5P2/8 | q4q2/8/2Q5/6k1/1b6/3R3K/5P2/8 w - - 0 1 | \
    6 14 13 Wa3=-2 Wc6=-4 Wa8=-8 Wf8=-12 Bc6=-8 Ba8=-4 Bf8=-2 => yes 36 46
8/n6n/8/K1k5/8/P7/7P/8 | 2n5/7n/8/K1k5/8/8/P6P/8 w - - 0 1 | 1 11 9 => yes 11 9
r7/5kn1/8/8/8/8/8/4K2r | r3k2r/6n1/8/8/8/8/6K1/8 b kq - 0 1 | 3 3 11 => yes 6 22
r2k2n1/8/6P1/8/8/n7/8/6K1 | r3k1n1/8/8/6P1/8/n7/7K/8 b q - 0 1 | 2 90 83 => yes 180 83
8/2k5/8/8/6pP/2R5/5P2/4K3 | 8/8/1k6/8/2p3pP/8/5P2/R3K3 b Q h3 0 1 | \
    3 20 7 Wd1=-28 Wh1=21 Wb2=8 Wc2=5 Wd2=16 Wf3=-31 Wc4=-7 Wb6=-33 Wg6=-36 Wb7=6 Wd7=-50 Wg7=3 Wa8=27 We8=-36 => yes 29 14
8/2N5/8/3p4/1K4k1/5p2/2P5/8 | rnbqkb1r/pppn1p2/3pp1pp/8/1P2P2P/P1P2P2/3P2P1/RNBQKBNR w KQkq - 0 1 | \
    3 2 4 Ba1=-14 Bh1=3 Be2=10 Bf2=3 Ba3=-13 Bb3=-16 Bd3=8 Ba4=9 Bf4=-15 Bb5=10 Bf5=-11 Bg5=-14 Ba6=-8 Be6=-7 Bg6=9 Ba8=2 \
    Bd8=-5 => yes - -
8/1PN5/5k2/8/8/2KQ3p/8/8 | 8/1P3k2/8/3N4/6pP/2KQ4/8/8 b - h3 0 1 | 3 90 98 => no 90 196
r7/5k2/3K4/7N/5pP1/8/8/8 | r3k3/5P2/3K4/7N/5pP1/8/8/8 b q g3 0 1 | \
    1 90 68 Bb1=-20 Bc1=29 Bg1=18 Ba2=18 Bc2=-74 Bd2=-52 Bh2=-124 Bb4=-27 Bc4=-45 Bf4=43 Ba5=-32 Bg6=70 Bc7=-34 Bc8=-7 Bg8=-113 \
    Bh8=-16 => no 0 68
8/8/1P3k2/1B2b3/8/8/8/5KN1 | 8/8/BP3k2/8/8/8/7b/5KN1 b - - 0 1 | 2 234 125 => no 234 125
r3k1B1/8/R7/8/8/3p4/8/4K3 | r3k1B1/8/p7/8/2pP4/8/8/R3K3 b Qq d3 0 1 | 2 120 45 Wa6=-24 Bd3=24 Bd4=-24 => no 72 93
r3k3/7R/R7/8/5b2/8/8/4K3 | r3k3/8/7R/4B3/8/8/1b6/4K2R b Kq - 0 1 | \
    3 1 0 Bb1=-26 Be1=29 Bf1=25 Bh1=-25 Bb2=29 Bd2=-13 Be2=32 Bg2=5 Ba3=-46 Bf3=20 Bg3=26 Ba4=-25 Bb4=-1 Bc4=-26 Be4=3 Bf4=20 Bb5=-24 \
    Bh5=6 Bb6=-33 Bf6=-47 Bg6=18 Bh6=-3 Bb7=19 Bf7=30 Ba8=-42 Bd8=-24 => no -26 -141";

#[test]
fn diagrams_of_few_men(rt: HostRuntime) {
    check_tolls(&rt, rt.alloc(), FEW_MEN);
}

// Tolls of -128 and 127 on all squares, and weights of 0 and 255, with no ply left, with a few and with 255: of the
// initial array, also with all men but the kings captured; with a promotion and castling; and with a pawn who is captured
// in passing, or may not be.
const EXTREMES: &str =
    "rnbqkbnr/pppppppp/8/8/8/8/PPPPPPPP/RNBQKBNR | rnbqkbnr/pppppppp/8/8/8/8/PPPPPPPP/RNBQKBNR w KQkq - 0 1 | \
    0 255 255 W=-128 B=127 => no 0 0
rnbqkbnr/pppppppp/8/8/8/8/PPPPPPPP/RNBQKBNR | rnbqkbnr/pppppppp/8/8/8/8/PPPPPPPP/RNBQKBNR w KQkq - 0 1 | 0 0 0 => no 0 0
rnbqkbnr/pppppppp/8/8/8/8/PPPPPPPP/RNBQKBNR | rnbqkbnr/pppppppp/8/8/8/8/PPPPPPPP/RNBQKBNR w KQkq - 0 1 | \
    255 255 255 W=-128 B=127 => no 0 0
rnbqkbnr/pppppppp/8/8/8/8/PPPPPPPP/RNBQKBNR | rnbqkbnr/pppppppp/8/8/8/8/PPPPPPPP/RNBQKBNR w KQkq - 0 1 | \
    255 255 255 W=127 B=127 => no 0 0
4k3/8/8/8/8/8/8/4K3 | rnbqkbnr/pppppppp/8/8/8/8/PPPPPPPP/RNBQKBNR w KQkq - 0 1 | 255 255 255 W=-128 B=-128 => no 1920 1920
4k3/8/8/8/8/8/8/4K3 | rnbqkbnr/pppppppp/8/8/8/8/PPPPPPPP/RNBQKBNR w KQkq - 0 1 | 255 255 255 W=-128 B=127 => no -1905 1920
4k3/8/8/8/8/8/8/4K3 | rnbqkbnr/pppppppp/8/8/8/8/PPPPPPPP/RNBQKBNR w KQkq - 0 1 | 255 255 255 W=127 B=-128 => no 1920 -1905
4k3/8/8/8/8/8/8/4K3 | rnbqkbnr/pppppppp/8/8/8/8/PPPPPPPP/RNBQKBNR w KQkq - 0 1 | 255 255 255 W=127 B=127 => no -1905 -1905
4k3/8/8/8/8/8/8/4K3 | rnbqkbnr/pppppppp/8/8/8/8/PPPPPPPP/RNBQKBNR w KQkq - 0 1 | 255 0 0 W=-128 B=-128 => no -28800 -28800
4k3/8/8/8/8/8/8/4K3 | rnbqkbnr/pppppppp/8/8/8/8/PPPPPPPP/RNBQKBNR w KQkq - 0 1 | 255 0 0 W=-128 B=127 => no -32625 1920
4k3/8/8/8/8/8/8/4K3 | rnbqkbnr/pppppppp/8/8/8/8/PPPPPPPP/RNBQKBNR w KQkq - 0 1 | 255 255 0 W=-128 B=127 => no -1905 1920
4k3/8/8/8/8/8/8/4K3 | rnbqkbnr/pppppppp/8/8/8/8/PPPPPPPP/RNBQKBNR w KQkq - 0 1 | 255 0 255 W=127 B=-128 => no 1920 -1905
4k3/8/8/8/8/8/8/4K3 | rnbqkbnr/pppppppp/8/8/8/8/PPPPPPPP/RNBQKBNR w KQkq - 0 1 | 0 255 255 W=-128 B=-128 => yes 1920 1920
4k3/8/8/8/8/8/8/4K3 | rnbqkbnr/pppppppp/8/8/8/8/PPPPPPPP/RNBQKBNR w KQkq - 0 1 | 0 255 255 W=-128 B=127 => yes -1905 1920
4k3/8/8/8/8/8/8/4K3 | rnbqkbnr/pppppppp/8/8/8/8/PPPPPPPP/RNBQKBNR w KQkq - 0 1 | 0 255 255 W=127 B=127 => no -1905 -1905
N3k3/8/8/8/8/8/8/5RK1 | r3k3/1P6/8/8/8/8/8/4K2R w K - 0 1 | 3 255 255 W=-128 B=-128 => no 382 128
N3k3/8/8/8/8/8/8/5RK1 | r3k3/1P6/8/8/8/8/8/4K2R w K - 0 1 | 3 255 255 W=127 B=127 => no 637 -127
N3k3/8/8/8/8/8/8/5RK1 | r3k3/1P6/8/8/8/8/8/4K2R w K - 0 1 | 3 0 0 W=-128 B=-128 => no -384 128
N3k3/8/8/8/8/8/8/5RK1 | r3k3/1P6/8/8/8/8/8/4K2R w K - 0 1 | 3 0 0 W=127 B=-128 => no 0 -127
rnbqkbnr/1ppppppp/P7/8/8/8/P1PPPPPP/RNBQKBNR | rnbqkbnr/1ppppppp/8/pP6/8/8/P1PPPPPP/RNBQKBNR w KQkq a6 0 1 | \
    1 255 255 W=-128 B=-128 => no 127 128
rnbqkbnr/1ppppppp/P7/8/8/8/P1PPPPPP/RNBQKBNR | rnbqkbnr/1ppppppp/8/pP6/8/8/P1PPPPPP/RNBQKBNR w KQkq a6 0 1 | \
    1 255 255 W=-128 B=127 => no 127 128
rnbqkbnr/1ppppppp/P7/8/8/8/P1PPPPPP/RNBQKBNR | rnbqkbnr/1ppppppp/8/pP6/8/8/P1PPPPPP/RNBQKBNR w KQkq a6 0 1 | \
    1 255 255 W=127 B=-128 => no 382 -127
rnbqkbnr/1ppppppp/P7/8/8/8/P1PPPPPP/RNBQKBNR | rnbqkbnr/1ppppppp/8/pP6/8/8/P1PPPPPP/RNBQKBNR w KQkq a6 0 1 | \
    1 255 255 W=127 B=127 => no 382 -127
rnbqkbnr/1ppppppp/P7/8/8/8/P1PPPPPP/RNBQKBNR | rnbqkbnr/1ppppppp/8/pP6/8/8/P1PPPPPP/RNBQKBNR w KQkq a6 0 1 | \
    1 0 0 W=-128 B=-128 => no -1024 128
rnbqkbnr/1ppppppp/P7/8/8/8/P1PPPPPP/RNBQKBNR | rnbqkbnr/1ppppppp/8/pP6/8/8/P1PPPPPP/RNBQKBNR w KQkq a6 0 1 | \
    1 0 0 W=127 B=127 => no 127 -127
rnbqkbnr/1ppppppp/P7/8/8/8/P1PPPPPP/RNBQKBNR | rnbqkbnr/1ppppppp/8/pP6/8/8/P1PPPPPP/RNBQKBNR w KQkq a6 0 1 | \
    1 0 0 W=-128 B=127 => no -1024 128
rnbqkbnr/1ppppppp/P7/8/8/8/P1PPPPPP/RNBQKBNR | rnbqkbnr/1ppppppp/8/pP6/8/8/P1PPPPPP/RNBQKBNR w KQkq a6 0 1 | \
    1 0 0 W=127 B=-128 => no 127 -127
rnbqkbnr/1ppppppp/P7/8/8/8/P1PPPPPP/RNBQKBNR | rnbqkbnr/1ppppppp/8/pP6/8/8/P1PPPPPP/RNBQKBNR w KQkq - 0 1 | \
    1 255 255 W=-128 B=-128 => no 127 128
rnbqkbnr/1ppppppp/P7/8/8/8/P1PPPPPP/RNBQKBNR | rnbqkbnr/1ppppppp/8/pP6/8/8/P1PPPPPP/RNBQKBNR w KQkq - 0 1 | \
    1 9 9 Ba5=5 Wa6=-7 => no 2 0
rnbqkbnr/1ppppppp/P7/8/8/8/P1PPPPPP/RNBQKBNR | rnbqkbnr/1ppppppp/8/pP6/8/8/P1PPPPPP/RNBQKBNR w KQkq - 0 1 | \
    1 9 9 Wa5=-7 Wa6=7 => yes 16 7
rnbqkbnr/1ppppppp/P7/8/8/8/P1PPPPPP/RNBQKBNR | rnbqkbnr/1ppppppp/8/pP6/8/8/P1PPPPPP/RNBQKBNR w KQkq a6 0 1 | \
    1 9 9 Ba5=5 Wa6=-7 => no 2 0
rnbqkbnr/1ppppppp/P7/8/8/8/P1PPPPPP/RNBQKBNR | rnbqkbnr/1ppppppp/8/pP6/8/8/P1PPPPPP/RNBQKBNR w KQkq a6 0 1 | \
    1 9 9 Wa5=-7 Wa6=7 => no 16 -7";

#[test]
fn ends_of_ranges(rt: HostRuntime) {
    check_tolls(&rt, rt.alloc(), EXTREMES);
}

// Colours without a plan; a fate that costs more than 254 beyond the cheapest, which counts as 254, to be captured as 127
// more than it costs; more than sixteen men of a colour in the position, in the diagram and in both.
const EXCEPTIONS: &str =
    "rnbqkbnr/pppppppp/8/8/8/4B3/PPPPPPPP/RN1QKBNR | rnbqkbnr/pppppppp/8/8/8/8/PPPPPPPP/RNBQKBNR w KQkq - 0 1 | 20 0 0 => yes none 0
rnbqkbnr/pppppppp/8/8/8/4B3/PPPPPPPP/RN1QKBNR | rnbqkbnr/pppppppp/8/8/8/8/PPPPPPPP/RNBQKBNR w KQkq - 0 1 | \
    20 255 255 W=-128 B=127 => yes none 0
rnb1kbnr/pppppppp/8/8/8/8/PPPPPPPP/RNBQKBNR | rnbqkbnr/pppppppp/8/8/8/8/PPPPPPPP/RNBQKBNR w KQkq - 0 1 | 13 0 0 => no 0 0
rnb1kbnr/pppppppp/8/8/8/8/PPPPPPPP/RNBQKBNR | rnbqkbnr/pppppppp/8/8/8/8/PPPPPPPP/RNBQKBNR w KQkq - 0 1 | 13 1 0 => no 0 0
rnb1kbnr/pppppppp/8/8/8/8/PPPPPPPP/RNBQKBNR | rnbqkbnr/pppppppp/8/8/8/8/PPPPPPPP/RNBQKBNR w KQkq - 0 1 | 13 0 1 => no 0 0
4k3/8/8/8/7N/8/8/4K3 | 4k3/8/8/8/8/8/8/NN2K3 w - - 0 1 | 6 255 255 => no 381 0
4k3/8/8/8/7N/8/8/4K3 | 4k3/8/8/8/8/8/8/NN2K3 w - - 0 1 | 6 100 0 => no 300 0
4k3/8/8/8/7N/8/8/4K3 | 4k3/8/8/8/8/8/8/NN2K3 w - - 0 1 | 6 255 255 B=127 => no 127 0
4k3/8/8/8/7N/8/8/4K3 | 4k3/8/8/8/8/8/8/NN2K3 w - - 0 1 | 6 255 255 Ba1=-128 Bb1=-128 => no 637 0
QQQQQQQQ/8/8/4k3/8/8/QQQQQQQQ/7K | QQQQQQQQ/8/8/4k3/8/8/QQQQQQQQ/7K b - - 0 1 | 2 255 255 W=-128 B=127 => no - -
8/8/8/4k3/8/8/QQQQQQQQ/7K | QQQQQQQQ/8/8/4k3/8/8/QQQQQQQQ/7K b - - 0 1 | 16 255 255 W=-128 B=127 => no - -
8/8/8/4k3/8/8/QQQQQQQQ/7K | QQQQQQQQ/8/8/4k3/8/8/QQQQQQQQ/7K b - - 0 1 | 16 0 0 => no - -
8/8/8/4k3/8/8/PQQQQQQQ/7K | QQQQQQQQ/8/8/4k3/8/8/QQQQQQQQ/7K b - - 0 1 | 16 0 0 => yes - -
8/8/8/4k3/4p3/8/QQQQQQQQ/7K | QQQQQQQQ/8/8/4k3/8/8/QQQQQQQQ/7K b - - 0 1 | 16 0 0 => yes - -
QQQQQQQQ/8/8/4k3/8/8/QQQQQQQ1/7K | QQQQQQQQ/8/8/4k3/8/8/QQQQQQQ1/7K b - - 0 1 | 2 255 255 W=-128 B=127 => no 0 0
8/8/8/4k3/8/8/8/7K | QQQQQQQQ/8/8/4k3/8/8/QQQQQQQ1/7K b - - 0 1 | 255 255 255 W=-128 B=127 => no -1905 0
8/8/8/4k3/8/8/8/7K | QQQQQQQQ/8/8/4k3/8/8/QQQQQQQ1/7K b - - 0 1 | 255 0 0 W=127 B=-128 => no 1920 -1920
8/8/8/4k3/8/8/8/7K | QQQQQQQQ/8/8/4k3/8/8/QQQQQQQ1/7K b - - 0 1 | 255 255 0 W=-128 B=-128 => no 1920 -1920
QQQQQQQQ/QQQQQQQQ/QQQQQQQQ/QQQQQQQQ/qqqqqqqq/qqqqqqqq/kqqqqqqq/Kqqqqqqq | rnbqkbnr/pppppppp/8/8/8/8/PPPPPPPP/RNBQKBNR w KQkq - 0 1 | \
    255 0 0 => yes - -
QQQQQQQQ/8/8/4k3/8/8/QQQQQQQQ/7K | rnbqkbnr/pppppppp/8/8/8/8/PPPPPPPP/RNBQKBNR w KQkq - 0 1 | 255 255 255 W=127 B=127 => yes - -";

#[test]
fn exceptions(rt: HostRuntime) {
    check_tolls(&rt, rt.alloc(), EXCEPTIONS);
}

// A bound has the code and the tariff that it was given, and says nothing of another diagram.
#[test]
fn codes_and_other_diagrams(rt: HostRuntime) {
    let tariff = tariff_of(&rt, "1 2 We4=-3 B=4");
    let known = diagram(&rt, "4k3/8/8/8/8/8/8/6K1");
    let other = diagram(&rt, "4k3/8/8/8/8/8/8/7K");
    let start = position(&rt, "4k3/8/8/8/8/8/8/4K3 w - - 0 1");
    let bound = Tolls::new(rt.alloc(), &known, &tariff, 255).expect(&rt, "tables");
    check_all(
        &rt,
        &[
            bound.code() == 255,
            *bound.tariff() == tariff,
            bound.excludes(&known, &start, 1),
            !bound.excludes(&known, &start, 4),
            !bound.excludes(&other, &start, 1),
        ],
    );
}
