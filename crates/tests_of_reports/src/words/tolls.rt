//! What is said of a cut by a tariff: positions with a diagram, the plies that are left, the tariff, which has the code
//! 6, and the code of the cut.

use crate::shared::{diagram_of, field, halves, named, tariff_of};
use pg_certificate::{Bare, Record};
use pg_fen::read_position;
use pg_sentences::{Ending, GrowingFares, Node, Sentence, ended};
use std::process::Abort;

// Three men to be captured of docs/BOUNDS.md, where both are charged 63, for which 6 plies pay, with some plies left
// and with none; more squares, and one with two captures first; no number of plies; no captures; either colour without
// a plan; a wall of either colour; too many captures; and where it is not seen to exclude: with a ply more, with more
// than sixteen men, and by tariffs that are not there; and another bound.
const WORDS: &str =
    "8/8/8/8/2Q5/k7/7K/8 | 6q1/8/8/6Q1/k7/8/3n3K/5r2 w - - 0 1 | 5 | 12 13 Wg8=-12 Wf1=-15 Wd2=-15 | 6 => excluded: \
    white and black together need 6 plies and have 5: their cheapest plans disagree about captures on a1 and b1 \
    (tolls)
8/8/8/8/2Q5/k7/7K/8 | 6q1/8/8/6Q1/k7/8/3n3K/5r2 w - - 0 1 | 0 | 12 13 Wg8=-12 Wf1=-15 Wd2=-15 | 6 => excluded: \
    white and black together need 6 plies and have 0: their cheapest plans disagree about captures on a1 and b1 \
    (tolls)
8/8/8/8/1p3Q2/3K4/8/4k3 | 8/8/8/4Q3/1p2r2r/3K2B1/8/5k2 w - - 0 1 | 4 | 13 12 We4=-17 Wh4=-12 Bg3=-12 Bh4=-5 | 6 \
    => excluded: white and black together need 5 plies and have 4: their cheapest plans disagree about captures \
    on e1, e4 and h4 (tolls)
2kr2nr/1pp1b1p1/p3Pp1p/1b6/P1P4P/2K1P3/2n3P1/RNB2BNR | rnbqkbnr/ppppp1pp/5p2/8/2P5/8/PP1PPPPP/RNBQKBNR w KQkq - \
    0 1 | 21 | 9 13 Wd1=-3 Wd2=-1 Wa3=2 Wc3=1 We3=8 We5=4 We6=3 Wd7=-9 We7=-9 Wd8=-8 Bd1=-5 Bb2=-10 Bd2=-6 \
    Bf2=-8 Ba3=-2 Bb3=-1 Bc3=-1 Bb4=-1 Be7=-1 Bd8=-1 | 6 => excluded: white and black together need 22 plies and \
    have 21: their cheapest plans disagree about captures on d2, e7 and a2 (tolls)
4k3/8/8/3P4/8/8/8/4K3 | 4kb2/8/8/8/4P3/8/8/4K3 w - - 0 1 | 3 | 0 0 Wd5=10 | 6 => excluded: white and black \
    together need more than 255 plies and have 3: their cheapest plans disagree about captures on d5 and f8 \
    (tolls)
r1bq1b2/1ppp1k1r/2n2n2/p1P2P1p/5p1P/P5R1/1P1PQ1P1/RNB1KB2 | \
    r1bq1b1r/1ppp1k2/2n2n2/p4P1p/2P2p1P/P5R1/1P1PQ1P1/RNB1KB2 w Q - 0 1 | 1 | 9 2 | 6 => excluded: white and \
    black together need 2 plies and have 1 (tolls)
rnbqkbnr/pppppppp/8/8/8/4B3/PPPPPPPP/RN1QKBNR | start | 20 | 16 16 | 6 => excluded: white has no plan (tolls)
rn1qkbnr/pppppppp/4b3/8/8/8/PPPPPPPP/RNBQKBNR | start | 20 | 16 16 | 6 => excluded: black has no plan (tolls)
array | rnbqkbnr/pppppppp/8/8/4P3/8/PPPP1PPP/RNBQKBNR b KQkq e3 0 1 | 255 | 16 16 | 6 => excluded: the pawn on \
    e2 of the diagram has left its square (tolls)
array | rnbqkbnr/ppp1pppp/8/3p4/8/8/PPPPPPPP/RNBQKBNR w KQkq d6 0 2 | 255 | 16 16 | 6 => excluded: the pawn on \
    d7 of the diagram has left its square (tolls)
array | rnbqkbnr/pppppppp/8/8/8/8/PPPPPPPP/RNBQKB1R w KQkq - 0 1 | 255 | 16 16 | 6 => excluded: black has \
    captured 1 man too many
8/8/8/8/2Q5/k7/7K/8 | 6q1/8/8/6Q1/k7/8/3n3K/5r2 w - - 0 1 | 6 | 12 13 Wg8=-12 Wf1=-15 Wd2=-15 | 6 => cut by \
    bound 6, which is not seen to exclude
NNNNNNNN/NNNNNNNN/8/8/8/8/8/K6k | NNNNNNNN/NNNNNNNN/8/8/8/8/8/KN5k w - - 0 1 | 0 | 16 16 | 6 => cut by bound 6, \
    which is not seen to exclude
8/8/8/8/2Q5/k7/7K/8 | 6q1/8/8/6Q1/k7/8/3n3K/5r2 w - - 0 1 | 5 | 12 13 Wg8=-12 Wf1=-15 Wd2=-15 | 7 => cut by \
    bound 7, which is not seen to exclude
8/8/8/8/2Q5/k7/7K/8 | 6q1/8/8/6Q1/k7/8/3n3K/5r2 w - - 0 1 | 5 | 12 13 Wg8=-12 Wf1=-15 Wd2=-15 | 255 => cut by \
    bound 255, which is not seen to exclude
after-e4-e5 | start | 1 | 16 16 | 4 => excluded: black needs 1 move and has 0 (travel)";

// What is said of the node that ends so, in both forms.
fn check_words<R: Abort + AllocGlobal>(rt: &R, row: &str) {
    let (asked, wanted) = halves(rt, row, " => ");
    let diagram = diagram_of(rt, field(asked, 0));
    let text = named(field(asked, 1));
    let position = read_position(text).expect(rt, text).position;
    let node = Node {
        diagram: &diagram,
        position: &position,
        left: field(asked, 2).parse::<u8>().expect(rt, row),
    };
    let tariffs = [tariff_of(rt, field(asked, 3))];
    let code = field(asked, 4).parse::<u8>().expect(rt, row);
    let mut fares = GrowingFares::new(rt.alloc(), &diagram, &tariffs);
    let said = ended(&node, &Ending::Said(Record::Cut(code)), &mut fares);
    assert_eq!(rt; said.as_str(), wanted, "{asked}");
    let mut words = Sentence::new();
    let known = fares.put_reason_of_cut(&node, &Bare::Cut(code), &mut words);
    match known {
        Some(found) => {
            let rest = wanted.strip_prefix("excluded: ").expect(rt, row);
            assert!(rt; found == code && words.as_str() == rest, "{row}");
        }
        None => assert!(rt;
            words.as_str().is_empty() && !wanted.ends_with("(tolls)"),
            "{row}"
        ),
    }
}

#[test]
fn cuts_by_tolls(rt: HostRuntime) {
    for row in WORDS.lines() {
        check_words(&rt, row);
    }
}

// Tariffs for another diagram say nothing.
#[test]
fn tariffs_for_another_diagram(rt: HostRuntime) {
    let diagram = diagram_of(&rt, "8/8/8/8/2Q5/k7/7K/8");
    let text = "6q1/8/8/6Q1/k7/8/3n3K/5r2 w - - 0 1";
    let position = read_position(text).expect(&rt, text).position;
    let node = Node {
        diagram: &diagram,
        position: &position,
        left: 0,
    };
    let tariffs = [tariff_of(&rt, "16 16")];
    let mut fares = GrowingFares::new(rt.alloc(), &diagram_of(&rt, "array"), &tariffs);
    let mut words = Sentence::new();
    let code = fares.put_reason_of_cut(&node, &Bare::Cut(6), &mut words);
    assert!(rt; code.is_none() && words.as_str().is_empty());
}
