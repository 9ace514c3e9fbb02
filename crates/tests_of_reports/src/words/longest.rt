//! The longest of what is said of a node: it is whole.

use crate::shared::diagram_of;
use pg_board::Color;
use pg_certificate::Record;
use pg_fen::{Diagram, read_position};
use pg_position::Position;
use pg_price_lists::Prices;
use pg_sentences::{Ending, GrowingFares, Node, Tally, ended, expanded};
use pg_travel::Travel;
use std::process::Abort;

// Sixty-two bishops come from nowhere, and a rook goes nowhere.
const FROM: &str = "k7/8/8/8/8/8/8/4K2R w K - 0 1";

const BISHOPS: &str = "kBBBBBBB/BBBBBBBB/BBBBBBBB/BBBBBBBB/BBBBBBBB/BBBBBBBB/BBBBBBBB/BBBBBBKB";

// What these bishops and the rook cost, without castling and with it: the king comes to g1 by two moves, or is there.
fn prices_of(rt: &impl Abort) -> Prices {
    let sources = [0, 255];
    let mut targets = [255; 63];
    targets[6] = 2;
    let mut prices = Prices::new(&sources, &targets).expect(rt, "a list");
    targets[6] = 0;
    assert!(rt; prices.add(&sources, &targets));
    prices
}

// The position and the diagram, with as many plies left as there can be.
fn node<'a>(diagram: &'a Diagram, position: &'a Position) -> Node<'a> {
    Node {
        diagram,
        position,
        left: 255,
    }
}

#[test]
fn longest_prices_are_whole(rt: HostRuntime) {
    let diagram = diagram_of(&rt, BISHOPS);
    let position = read_position(FROM).expect(&rt, FROM).position;
    let record = Record::Priced {
        code: Travel::CODE,
        color: Color::White,
        prices: prices_of(&rt),
    };
    let mut fares = GrowingFares::new(rt.alloc(), &diagram, &[]);
    let ending = Ending::Said(record);
    let mut said = ended(&node(&diagram, &position), &ending, &mut fares);
    assert_eq!(rt;
        said.as_str(),
        "excluded: white has 128 moves left, and white's men need 15556 moves at least, counted pair by pair: the \
            bishop on a1 255, \
         the bishop on b1 255, the bishop on c1 255, others 15045, castling 1, less 255"
    );
    // What `pg why` may say behind it has room too.
    assert!(rt; said.try_push_str("; the line goes on").is_ok());
}

#[test]
fn longest_counts_are_whole(rt: HostRuntime) {
    let diagram = diagram_of(&rt, BISHOPS);
    let position = read_position(FROM).expect(&rt, FROM).position;
    let tally = Tally {
        moves: u16::MAX,
        lead: u16::MAX,
        captures: u16::MAX,
        promotions: u16::MAX,
        files: u16::MAX,
        travel: u16::MAX,
        journeys: u16::MAX,
        tolls: u16::MAX,
        others: u16::MAX,
        references: u16::MAX,
        played_out: u16::MAX,
        games: u64::MAX,
    };
    let said = expanded(&node(&diagram, &position), &tally);
    assert_eq!(rt;
        said.as_str(),
        "65535 of 65535 moves lead on; cut 65535 by captures, 65535 by promotions, 65535 by pawn files, 65535 by \
            travel, \
         65535 by journeys, 65535 by tolls, 65535 by other bounds, 65535 by reference; 65535 played out; \
             18446744073709551615 games below"
    );
}
