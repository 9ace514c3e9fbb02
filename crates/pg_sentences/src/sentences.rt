//! What is said of a node that ends.

use crate::distances::{Distances, GrowingDistances};
use crate::ending::Ending;
use crate::fares::GrowingFares;
use crate::journey_words::write_journeys;
use crate::names::{number_name, put_all};
use crate::numbers::{Excess, Node, captures_of, files_of, promotions_of};
use crate::phrases::{CUT_BY, ELSEWHERE, EXCLUDED, SOLUTION, UNSEEN};
use crate::prices::reason_of_prices;
use crate::toll_words::write_tolls;
use crate::travel::travel_of;
use crate::words::write_excess;
use arrayvec::ArrayString;
use pg_board::Color;
use pg_captures::{Captures, Promotions};
use pg_certificate::{Bare, Record};
use pg_fen::Diagram;
use pg_journeys::Journeys;
use pg_pawns::PawnFiles;
use pg_position::Position;
use pg_travel::{Prices, Travel};

// The codes of the four bounds that a node is asked about which no record cuts, in the order in which they are asked.
const CODES: [u8; 4] = [
    Captures::CODE,
    Promotions::CODE,
    PawnFiles::CODE,
    Travel::CODE,
];

/// What is said of a node. What would be longer is cut off.
pub type Sentence = ArrayString<320>;

/// Why a node is excluded: the code of the bound, and in words what excludes there; no words where that is not seen.
#[derive(Clone, Copy)]
pub struct Grounds {
    pub code: u8,
    pub text: Sentence,
}

// A colour that is excluded, and what by.
#[derive(Clone, Copy)]
struct Shown {
    color: Color,
    excess: Excess,
}

// What the bound with this code excludes a colour by; none where it does not, or is not known.
fn excess_of(
    distances: &Option<&Distances>,
    node: &Node,
    code: u8,
    color: Color,
) -> Option<Excess> {
    match code {
        Captures::CODE => captures_of(node, color),
        Promotions::CODE => promotions_of(node, color),
        PawnFiles::CODE => files_of(node, color),
        Travel::CODE => travel_of(distances, node, color),
        _ => None,
    }
}

// The same for either colour, White first.
fn first_excess(distances: &Option<&Distances>, node: &Node, code: u8) -> Option<Shown> {
    if let Some(excess) = excess_of(distances, node, code, Color::White) {
        return Some(Shown {
            color: Color::White,
            excess,
        });
    }
    match excess_of(distances, node, code, Color::Black) {
        Some(excess) => Some(Shown {
            color: Color::Black,
            excess,
        }),
        None => None,
    }
}

// Writes why the bound with this code excludes a node; whether it is seen to.
fn write_reason(
    distances: &Option<&Distances>,
    node: &Node,
    code: u8,
    text: &mut Sentence,
) -> bool {
    if code == Journeys::CODE {
        return write_journeys(node, text);
    }
    match first_excess(distances, node, code) {
        Some(found) => {
            write_excess(found.color, &found.excess, text);
            true
        }
        None => false,
    }
}

// Writes why the first bound that excludes a node does, and says which it is; none where no bound is seen to.
fn write_first(distances: &Option<&Distances>, node: &Node, text: &mut Sentence) -> Option<u8> {
    for code in CODES {
        if write_reason(distances, node, code, text) {
            return Some(code);
        }
    }
    None
}

// Why the bound with this code excludes a node; none where it is not seen to.
fn reason(node: &Node, code: u8) -> Option<Sentence> {
    let mut text = Sentence::new();
    if write_reason(&None, node, code, &mut text) {
        Some(text)
    } else {
        None
    }
}

// Why the first bound that excludes a node does, with its code; none where no bound is seen to.
pub(crate) fn first_of_four(node: &Node) -> Option<Grounds> {
    let mut text = Sentence::new();
    match write_first(&None, node, &mut text) {
        Some(code) => Some(Grounds { code, text }),
        None => None,
    }
}

// What is said of a cut, with why it excludes.
fn excluded(code: u8, reason: Option<Sentence>) -> Sentence {
    let mut text = Sentence::new();
    match reason {
        Some(reason) => put_all(&mut text, &[EXCLUDED, reason.as_str()]),
        None => put_all(
            &mut text,
            &[CUT_BY, number_name(u64::from(code)).as_str(), UNSEEN],
        ),
    }
    text
}

// Why the bound with this code excludes a node, or the tariff that it names; none where it is not seen to.
fn reason_by(fares: &mut GrowingFares<'_>, node: &Node, code: u8) -> Option<Sentence> {
    let mut text = Sentence::new();
    if write_tolls(fares, node, code, &mut text) {
        Some(text)
    } else {
        reason(node, code)
    }
}

// What is said of a record; a reference is told elsewhere, where its node is known.
fn recorded(fares: &mut GrowingFares<'_>, node: &Node, record: &Record) -> Sentence {
    match record {
        Record::Cut(code) => excluded(*code, reason_by(fares, node, *code)),
        Record::Priced {
            code,
            color,
            prices,
        } => excluded(*code, reason_of_prices(&None, node, *code, *color, prices)),
        Record::Ref(_) | Record::Expand { .. } => said("a reference to no closed node"),
    }
}

fn said(words: &str) -> Sentence {
    let mut text = Sentence::new();
    put_all(&mut text, &[words]);
    text
}

/// What is said of a node that ends, where these tariffs stand before the certificate. No clause speaks of the words.
pub fn ended(node: &Node, ending: &Ending, fares: &mut GrowingFares<'_>) -> Sentence {
    match ending {
        Ending::Leaf(true) => said(SOLUTION),
        Ending::Leaf(false) => said(ELSEWHERE),
        Ending::Said(record) => recorded(fares, node, record),
    }
}

// Why a bound excludes, with no words where it is not seen to.
fn with_code(code: u8, text: Option<Sentence>) -> Grounds {
    match text {
        Some(text) => Grounds { code, text },
        None => Grounds {
            code,
            text: Sentence::new(),
        },
    }
}

/// Why a record cuts the node that it stands at, a position with so many plies left below which no game ends on the
/// diagram; none where it is no cut. No clause speaks of the words.
pub fn reason_of_cut(
    diagram: &Diagram,
    position: &Position,
    left: u8,
    record: &Record,
) -> Option<Grounds> {
    let node = Node {
        diagram,
        position,
        left,
    };
    match record {
        Record::Cut(code) => Some(with_code(*code, reason(&node, *code))),
        Record::Priced {
            code,
            color,
            prices,
        } => Some(with_code(*code, reason_of_prices(&None, &node, *code, *color, prices))),
        Record::Ref(_) | Record::Expand { .. } => None,
    }
}

/// Writes what `reason_of_cut` says into a sentence that is empty, for a record whose price lists, where it has any,
/// stand elsewhere: the same words, several times as fast for a cut by travel. The code of the bound; none where the
/// record is no cut.
pub fn put_reason_of_cut(
    distances: &Distances,
    node: &Node,
    said: &Bare,
    prices: &Prices,
    text: &mut Sentence,
) -> Option<u8> {
    match said {
        Bare::Cut(code) => {
            write_reason(&Some(distances), node, *code, text);
            Some(*code)
        }
        Bare::Priced { code, color } => {
            let words = reason_of_prices(distances.tested_by(), node, *code, *color, prices);
            if let Some(words) = words {
                *text = words;
            }
            Some(*code)
        }
        Bare::Ref(_) | Bare::Expand { .. } => None,
    }
}

/// Why the first of the four bounds that excludes a position with so many plies left does; none where no bound is seen
/// to. No clause speaks of the words.
pub fn reason_of_bounds(diagram: &Diagram, position: &Position, left: u8) -> Option<Grounds> {
    first_of_four(&Node {
        diagram,
        position,
        left,
    })
}

/// Writes what `reason_of_bounds` says into a sentence that is empty: the same words, several times as fast. The code
/// of the bound; none where no bound is seen to exclude.
pub fn put_reason_of_bounds(distances: &Distances, node: &Node, text: &mut Sentence) -> Option<u8> {
    write_first(&Some(distances), node, text)
}

impl GrowingDistances {
    /// Writes what `put_reason_of_cut` writes. Only a cut by travel asks for distances, and one by its prices for rows.
    pub fn put_reason_of_cut(
        &mut self,
        node: &Node,
        said: &Bare,
        prices: &Prices,
        text: &mut Sentence,
    ) -> Option<u8> {
        if matches!(said, Bare::Cut(Travel::CODE)) {
            self.meet(node.position);
        }
        if matches!(
            said,
            Bare::Priced {
                code: Travel::CODE,
                ..
            }
        ) {
            self.meet_prices(node.diagram);
        }
        put_reason_of_cut(self.known(), node, said, prices, text)
    }

    /// Writes what `put_reason_of_bounds` writes.
    pub fn put_reason_of_bounds(&mut self, node: &Node, text: &mut Sentence) -> Option<u8> {
        self.meet(node.position);
        put_reason_of_bounds(self.known(), node, text)
    }
}
