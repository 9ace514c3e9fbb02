//! The bound by travel and the tests of prices. A round of `travel` asks eight cases, a round of `travel-prices` four cases of
//! 16 men a side with six lists in all, a round of `pawn-prices` four cases of 8 pawns.

use crate::fault::Fault;
use pg_board::Color;
use pg_captures::Bound;
use pg_fen::{Diagram, FenFault, read_position};
use pg_position::Position;
use pg_travel::{Prices, Rows, Travel, prices_exclude_by};
use std::alloc::Global;

// What one call is given.
#[derive(Drop)]
struct Case {
    diagram: Diagram,
    position: Position,
    left: u8,
}

// After 2.5 moves: a white pawn captures on d6, and may do so en passant.
const PAWN: &str = "rnbqkbnr/1pp1pppp/p2P4/8/8/8/PPPP1PPP/RNBQKBNR";

// After two moves: the black queen has recaptured on d5.
const QUEEN: &str = "rnb1kbnr/ppp1pppp/8/3q4/8/8/PPPP1PPP/RNBQKBNR";

const ARRAY: &str = "rnbqkbnr/pppppppp/8/8/8/8/PPPPPPPP/RNBQKBNR w KQkq - 0 1";

// A diagram, a position and the plies left. The last of each diagram is from a game that lost a
// ply on its way, so it excludes; the others are from games that arrive.
const CASES: [(&str, &str, u8); 8] = [
    (PAWN, ARRAY, 5),
    (
        PAWN,
        "rnbqkbnr/1ppppppp/p7/8/4P3/8/PPPP1PPP/RNBQKBNR w KQkq - 0 2",
        3,
    ),
    (
        PAWN,
        "rnbqkbnr/1pp1pppp/p7/3pP3/8/8/PPPP1PPP/RNBQKBNR w KQkq d6 0 3",
        1,
    ),
    (
        PAWN,
        "rnbqkbnr/1ppppppp/p7/8/8/4P3/PPPP1PPP/RNBQKBNR w KQkq - 0 2",
        3,
    ),
    (QUEEN, ARRAY, 4),
    (
        QUEEN,
        "rnbqkbnr/ppp1pppp/8/3p4/4P3/8/PPPP1PPP/RNBQKBNR w KQkq d6 0 2",
        2,
    ),
    (
        QUEEN,
        "rnbqkbnr/ppp1pppp/8/3P4/8/8/PPPP1PPP/RNBQKBNR b KQkq - 0 2",
        1,
    ),
    (
        QUEEN,
        "rnbqkbnr/ppp1pppp/8/3p4/4P3/5N2/PPPP1PPP/RNBQKB1R b KQkq - 1 2",
        1,
    ),
];

fn case_of(diagram: &str, position: &str, left: u8) -> Result<Case, FenFault> {
    Ok(Case {
        diagram: Diagram::read(diagram)?,
        position: read_position(position)?.position,
        left,
    })
}

// The cases, each read once.
fn read_cases(alloc: Global) -> anyhow::Result<Vec<Case>> {
    let mut cases = Vec::new(alloc);
    for (diagram, position, left) in CASES {
        match case_of(diagram, position, left) {
            Ok(case) => cases.push(case)?,
            Err(fault) => Err(Fault::Diagram(fault))?,
        }
    }
    Ok(cases)
}

// How many of the cases exclude.
fn count_excluded(cases: &[Case]) -> u64 {
    let mut count = 0u64;
    for case in cases {
        if Travel.excludes(&case.diagram, &case.position, case.left) {
            count = count.saturating_add(1);
        }
    }
    count
}

// The array without rights, and with White's; White has castled, with 5 men on other squares.
const AT_HOME: &str = "rnbqkbnr/pppppppp/8/8/8/8/PPPPPPPP/RNBQKBNR w - - 0 1";

const WITH_RIGHTS: &str = "rnbqkbnr/pppppppp/8/8/8/8/PPPPPPPP/RNBQKBNR w KQ - 0 1";

const CASTLED: &str = "rnbqkbnr/pppppppp/8/8/2B1P3/5N2/PPPP1PPP/RNBQ1RK1";

// The least distances of White's men on a1 to d1, f1, g1, a2 to d2, f2 to h2, f3, c4 and e4, with no
// castling, after castling king side, and queen side.
const FREE: [u8; 16] = [0, 0, 0, 0, 1, 2, 0, 0, 0, 0, 0, 0, 0, 1, 1, 1];

const SHORT: [u8; 16] = [0, 0, 0, 0, 0, 0, 0, 0, 0, 0, 0, 0, 0, 1, 1, 1];

const LONG: [u8; 16] = [1, 0, 0, 0, 1, 4, 0, 0, 0, 0, 0, 0, 0, 1, 1, 1];

// As `FREE`, and one more on every man.
const RAISED: [u8; 16] = [1, 1, 1, 1, 2, 3, 1, 1, 1, 1, 1, 1, 1, 2, 2, 2];

// What one call of a test of prices is given.
#[derive(Drop)]
struct Priced {
    rows: Rows,
    diagram: Diagram,
    position: Position,
    left: u8,
    prices: Prices,
}

fn list(u: &[u8], v: &[u8]) -> anyhow::Result<Prices> {
    match Prices::new(u, v) {
        None => Err(Fault::Usage)?,
        Some(prices) => Ok(prices),
    }
}

fn priced_case(position: &str, left: u8, prices: Prices) -> anyhow::Result<Priced> {
    match case_of(CASTLED, position, left) {
        Ok(case) => {
            let Case {
                diagram,
                position,
                left,
            } = case;
            Ok(Priced {
                rows: Rows::new(&diagram),
                diagram,
                position,
                left,
                prices,
            })
        }
        Err(fault) => Err(Fault::Diagram(fault))?,
    }
}

// One way, one way where every target pays something, three ways, and a list that does not fit.
fn priced_cases(alloc: Global) -> anyhow::Result<Vec<Priced>> {
    let mut three = list(&[0; 16], &FREE)?;
    three.add(&[0; 16], &SHORT);
    three.add(&[0; 16], &LONG);
    let mut cases = Vec::new(alloc);
    cases.push(priced_case(AT_HOME, 10, list(&[0; 16], &FREE)?)?)?;
    cases.push(priced_case(AT_HOME, 10, list(&[1; 16], &RAISED)?)?)?;
    cases.push(priced_case(WITH_RIGHTS, 6, three)?)?;
    cases.push(priced_case(AT_HOME, 10, list(&[0; 16], &RAISED)?)?)?;
    Ok(cases)
}

// How many of the travel prices exclude.
fn count_priced(cases: &[Priced]) -> u64 {
    let mut count = 0u64;
    for case in cases {
        let Priced {
            rows,
            diagram,
            position,
            left,
            prices,
        } = case;
        if prices_exclude_by(rows, diagram, position, *left, Color::White, prices) {
            count = count.saturating_add(1);
        }
    }
    count
}

// A white pawn that came to d3 from the e-file.
const SHIFTED: &str = "rnbqkbnr/pppppppp/8/8/8/3P4/PPPP1PPP/RNBQKBNR";

// Prices of White's pawns: that list, one more on every pawn, one that does not fit, and all equal.
const PAWN_LISTS: [([u8; 8], [u8; 8]); 4] = [
    ([0, 0, 0, 1, 0, 0, 0, 0], [0, 0, 0, 1, 0, 0, 0, 1]),
    ([1, 1, 1, 2, 1, 1, 1, 1], [1, 1, 1, 2, 1, 1, 1, 2]),
    ([0, 0, 0, 1, 0, 0, 0, 0], [0, 0, 0, 1, 0, 0, 0, 2]),
    ([255; 8], [255; 8]),
];

// How many of the pawn prices exclude.
fn count_pawns(diagram: &Diagram, position: &Position) -> u64 {
    let mut count = 0u64;
    for (u, v) in PAWN_LISTS {
        if pg_pawns::prices_exclude(diagram, position, Color::White, &u, &v) {
            count = count.saturating_add(1);
        }
    }
    count
}

// How many calls of the bound by travel excluded, in all rounds.
pub(crate) fn travel(alloc: Global, rounds: u64) -> anyhow::Result<u64> {
    let cases = read_cases(alloc)?;
    let mut count = 0u64;
    for _ in 0..rounds {
        count = count.saturating_add(count_excluded(cases.as_slice()));
    }
    Ok(count)
}

// The same of the test of travel prices.
pub(crate) fn travel_prices(alloc: Global, rounds: u64) -> anyhow::Result<u64> {
    let cases = priced_cases(alloc)?;
    let mut count = 0u64;
    for _ in 0..rounds {
        count = count.saturating_add(count_priced(cases.as_slice()));
    }
    Ok(count)
}

// The same of the test of pawn prices.
pub(crate) fn pawn_prices(rounds: u64) -> Result<u64, Fault> {
    let mut count = 0u64;
    match case_of(SHIFTED, ARRAY, 4) {
        Ok(case) => {
            for _ in 0..rounds {
                count = count.saturating_add(count_pawns(&case.diagram, &case.position));
            }
        }
        Err(fault) => return Err(Fault::Diagram(fault)),
    }
    Ok(count)
}
