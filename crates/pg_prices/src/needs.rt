//! What the men of one colour of a position need to come onto the squares of a diagram: the need of
//! travel and its price, pawns to promote, changes of file and their price.

use crate::assignment::{Costs, assign, least_costs};
use crate::leasts::Leasts;
use crate::lists::Lists;
use crate::rows::Rows;
use pg_board::{Board, Color, Kind, Man};
use pg_captures::is_short;
use pg_fen::Diagram;
use pg_pawns::shift_need;
use pg_position::{Position, Rights, Wing};

/// The cost of a dummy for travel: above any number of plies left.
pub const TRAVEL_DUMMY: u8 = 65;

/// The cost of a dummy for changes of file: above any number of captures.
pub const PAWN_DUMMY: u8 = 17;

/// A number that is not yet known.
pub const UNKNOWN: u8 = 254;

/// What stands for a need that nothing pays for.
pub const NEVER: u8 = 255;

// The ways of a colour: without castling, and with each castling.
const WAYS: [Option<Wing>; 3] = [None, Some(Wing::KingSide), Some(Wing::QueenSide)];

/// What is known of the men and the rights of one colour: the need of travel, `NEVER` where pawns to
/// promote are short; the changes of file by lines; the least assignment of travel and that of changes
/// of file, or `UNKNOWN`; and the place of price lists that a memory keeps, 0 for none.
#[derive(Clone, Copy, Debug, PartialEq, Eq)]
pub struct Needs {
    pub need: u8,
    pub shift: u8,
    pub travel: u8,
    pub pawns: u8,
    pub lists: u32,
}

// A number as a byte, at most 250, below those that stand for something else.
fn small(value: u16) -> u8 {
    value.min(250) as u8
}

// The costs of a way: without castling, or with one that the rights allow.
fn costs_of(rows: &Rows, board: &Board, costs: &Costs, way: Option<Wing>) -> Costs {
    let mut costs = *costs;
    if let Some(wing) = way {
        rows.castle(&mut costs, board, wing);
    }
    costs
}

// Whether the rights allow a way.
fn allows(rows: &Rows, rights: Rights, way: Option<Wing>) -> bool {
    match way {
        None => true,
        Some(wing) => rights.holds(rows.color(), wing),
    }
}

/// The need of travel, the least number of plies by distances over the ways: 200 and more for none.
pub fn need_by_rows(rows: &Rows, position: &Position) -> u8 {
    small(Leasts::new(rows, &position.board(), position.rights()).need())
}

/// The value of a least assignment, the least over the ways, at most 250, and the prices of each way.
pub fn travel_lists(rows: &Rows, position: &Position) -> (u8, Lists) {
    let board = position.board();
    let free = rows.travel(&board);
    let sources = usize::from(board.squares_of_color(rows.color()).len());
    let mut lists = Lists::new(sources, rows.targets());
    let mut least = u8::MAX;
    for way in WAYS {
        if allows(rows, position.rights(), way) {
            let costs = costs_of(rows, &board, &free, way);
            let answer = assign(&costs, rows.targets(), TRAVEL_DUMMY);
            least = least.min(small(answer.value).saturating_add(u8::from(way.is_some())));
            lists.add(&answer);
        }
    }
    (least, lists)
}

// The lesser of a number and the value of a way with castling, which is found where it may be below that number.
fn lesser_by(rows: &Rows, board: &Board, free: &Costs, wing: Wing, least: u8) -> u8 {
    let costs = costs_of(rows, board, free, Some(wing));
    let bound = small(least_costs(&costs, rows.targets(), TRAVEL_DUMMY));
    if bound.saturating_add(1) >= least {
        return least;
    }
    let answer = assign(&costs, rows.targets(), TRAVEL_DUMMY);
    least.min(small(answer.value).saturating_add(1))
}

/// The value that `travel_lists` answers, without the prices.
pub fn travel_value(rows: &Rows, position: &Position) -> u8 {
    let board = position.board();
    let free = rows.travel(&board);
    let mut least = small(assign(&free, rows.targets(), TRAVEL_DUMMY).value);
    for wing in [Wing::KingSide, Wing::QueenSide] {
        if position.rights().holds(rows.color(), wing) && rows.may_pay(wing) {
            least = lesser_by(rows, &board, &free, wing, least);
        }
    }
    least
}

/// The value of the least assignment of pawns, at most 250, and its prices.
pub fn pawn_lists(rows: &Rows, position: &Position) -> (u8, Lists) {
    let board = position.board();
    let pawn = Man::new(rows.color(), Kind::Pawn);
    let sources = usize::from(board.squares_of(pawn).len());
    let mut lists = Lists::new(sources, rows.pawn_targets());
    let answer = assign(&rows.pawns(&board), rows.pawn_targets(), PAWN_DUMMY);
    lists.add(&answer);
    (small(answer.value), lists)
}

/// What takes no assignment.
pub fn first_needs(rows: &Rows, diagram: &Diagram, position: &Position) -> Needs {
    let mut needs = Needs {
        need: NEVER,
        shift: 0,
        travel: UNKNOWN,
        pawns: UNKNOWN,
        lists: 0,
    };
    if is_short(&diagram.board(), &position.board(), rows.color()) {
        return needs;
    }
    needs.need = need_by_rows(rows, position);
    needs.shift = small(shift_need(rows.color(), diagram, position));
    needs
}
