//! What is said of a cut by journeys: positions with a diagram and the plies that are left.

use crate::shared::{diagram_of, field, halves, named};
use pg_certificate::{Bare, Record};
use pg_fen::read_position;
use pg_price_lists::Prices;
use pg_sentences::{
    Distances, GrowingDistances, Node, Sentence, put_reason_of_bounds, put_reason_of_cut,
    reason_of_bounds, reason_of_cut,
};
use std::process::Abort;

// A wall of either colour; a man who does not come back; captures that are more than the moves; moves, and none; quiet
// moves, with one capture, with all the moves captures, and beside a man, some men and men who are not told who must be
// captured; who comes nowhere; whom nobody captures; ways of which none is enough by both measures; and where the bound
// does not exclude.
const WORDS: &str = "array | rnbqkbnr/pppppppp/8/8/4P3/8/PPPP1PPP/RNBQKBNR b KQkq e3 0 1 | 255 => \
    the pawn on e2 of the diagram has left its square (journeys)
rnbqkbnr/p2pp2p/5p2/1Bp3p1/4P1P1/8/PPPP1P1P/RNBQK1NR | \
    rnbqkbnr/ppp1pppp/8/3p4/8/6P1/PPPPPP1P/RNBQKBNR w KQkq d6 0 1 | 4 => \
    the pawn on d7 of the diagram has left its square (journeys)
rnbqkbnr/pppppppp/n7/8/8/8/PPPPPPPP/RNBQKBNR | start | 255 => white has captured 1 man too many
rnbqkbnr/pppppppp/8/8/8/8/1PPPPPPP/RNBQKBNR | start | 1 => black must capture 1 man and has no move left
4k3/8/8/8/8/8/8/5RK1 | 4k3/8/8/8/8/8/8/4K2R w - - 0 1 | 1 => white has 1 move left and needs 3 (journeys)
8/7k/8/8/8/8/8/KQ6 | 8/P6k/8/8/8/8/8/K7 w - - 0 1 | 3 => white has 2 moves left and needs 3 (journeys)
k7/8/8/8/8/8/8/K7 | 8/P7/1k6/8/8/8/8/K7 w - - 0 1 | 2 => black has 1 move left and needs 2 (journeys)
r1bqkbnr/1ppppp2/4n3/4B1pp/6P1/P1PP4/1P2PP1P/RN2KBNR | rnbqkbnr/ppppppp1/7p/8/8/3PB3/PPP1PPPP/RN1QKBNR b KQkq - 0 1 | \
    12 => white has 6 moves left and needs 7: the queen on d1 must come to d4 to be captured (journeys)
rnbqkbnr/p2pp2p/2p2p2/1p6/6P1/3P1N2/PPP1PP1P/R1BQKB1R | r1bqkbnr/pppppppp/n7/8/8/2N5/PPPPPPPP/R1BQKBNR w KQkq - 0 1 | \
    9 => white has 5 moves left, 1 of them a capture, and needs 5 quiet moves: a knight must come to f6 to be \
    captured (journeys)
rnbqk1nr/pp2b2p/6p1/3pp1Q1/4P3/7P/PP1P1PP1/RNB1KBNR | rnbqkbnr/pp1ppppp/2p5/8/8/4P2P/PPPP1PP1/RNBQKBNR b KQkq - 0 1 | \
    11 => white has 5 moves left, 2 of them captures, and needs 4 quiet moves: black captures on b5 or d5 alone \
    (journeys)
4k3/8/8/8/8/2N5/8/4K3 | r3k3/8/8/8/8/8/8/1N2K3 w - - 0 1 | 1 => \
    white has 1 move left, a capture, and needs 1 quiet move (journeys)
4k3/8/8/8/8/2N5/8/4K3 | r3k2r/8/8/8/8/8/8/1N2K3 w - - 0 1 | 3 => \
    white has 2 moves left, all captures, and needs 1 quiet move (journeys)
rnbqkbnr/pppppppp/8/8/8/4B3/PPPPPPPP/RN1QKBNR | start | 20 => \
    no man of white's can come to be the bishop on e3 (journeys)
rnb1kbnr/pppppppp/8/8/8/8/PPPPPPPP/RNBQKBNR | start | 13 => \
    black has no plan: the queen on d8 must be captured, and white captures nowhere (journeys)
rnb1kb1r/pp1ppppp/7q/2p5/1P4n1/2PP1P2/P1Q1P1P1/RN2KBNR | rnbqkbnr/pppppppp/8/8/8/7P/PPPPPPP1/RNBQKBNR b KQkq - 0 1 | \
    11 => white has no plan: black captures on c1 alone (journeys)
4k3/8/8/8/8/8/8/5RK1 | 4k3/8/8/8/3n4/8/8/n3K2R w K - 0 1 | 3 => \
    white has 2 moves left and no plan by both measures (journeys)
array | start | 0 => ";

const CODE: u8 = 5;

// What is said of the cut, in the three forms.
fn check_words(rt: &impl Abort, row: &str) {
    let (asked, wanted) = halves(rt, row, " => ");
    let diagram = diagram_of(rt, field(asked, 0));
    let text = named(field(asked, 1));
    let position = read_position(text).expect(rt, text).position;
    let left = field(asked, 2).parse::<u8>().expect(rt, row);
    let record = Record::Cut(CODE);
    let found = reason_of_cut(&diagram, &position, left, &record).expect(rt, row);
    assert_eq!(rt; found.text.as_str(), wanted, "{asked}");
    let node = Node {
        diagram: &diagram,
        position: &position,
        left,
    };
    let prices = Prices::new(&[], &[]).expect(rt, "no prices");
    let said = Bare::Cut(CODE);
    let mut words = Sentence::new();
    let code = put_reason_of_cut(&Distances::new(&diagram), &node, &said, &prices, &mut words);
    assert!(rt; code == Some(CODE) && words.as_str() == wanted, "{row}");
    let mut words = Sentence::new();
    let mut growing = GrowingDistances::new(&diagram);
    let code = growing.put_reason_of_cut(&node, &said, &prices, &mut words);
    assert!(rt; code == Some(CODE) && words.as_str() == wanted, "{row}");
}

#[test]
fn cuts_by_journeys(rt: HostRuntime) {
    for row in WORDS.lines() {
        check_words(&rt, row);
    }
}

// Where the four bounds say nothing, journeys are not asked.
#[test]
fn journeys_are_asked_of_cuts_alone(rt: HostRuntime) {
    let diagram = diagram_of(&rt, "rnbqkbnr/pppppppp/8/8/8/4B3/PPPPPPPP/RN1QKBNR");
    let position = read_position(named("start")).expect(&rt, "start").position;
    assert!(rt; reason_of_bounds(&diagram, &position, 20).is_none());
    let node = Node {
        diagram: &diagram,
        position: &position,
        left: 20,
    };
    let mut words = Sentence::new();
    let code = put_reason_of_bounds(&Distances::new(&diagram), &node, &mut words);
    assert!(rt; code.is_none() && words.as_str().is_empty());
}
