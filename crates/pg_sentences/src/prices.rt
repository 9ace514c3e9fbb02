//! What a cut by prices says: what each man of the diagram costs, in pairs with the men of the position.

use crate::names::{color_name, man_name, many};
use crate::numbers::{Node, own_plies};
use crate::pairing::{BySquare, Choices, Partners, settle_all};
use crate::sentences::Sentence;
use crate::words::write_too_many;
use pg_board::{Board, Color, Kind, Man, Square, SquareSet};
use pg_captures::{owed, price_sum};
use pg_pawns::PawnFiles;
use pg_position::{Rights, Wing, king_crossed, king_home, king_target, rook_home};
use pg_travel::{Prices, Rows, Travel, distance, prices_exclude, prices_exclude_by};
use std::fmt::Write;

// How many of the dearest men are named.
const NAMED: usize = 3;

// The sum of a list of prices, of which there are 64 at most.
fn sum_of(prices: &[u8]) -> u16 {
    match prices.get(..64) {
        Some(first) => price_sum(first),
        None => price_sum(prices),
    }
}

// The value of a price list: what the men of the diagram pay less what those of the position do.
fn value(prices: &Prices, way: usize) -> u16 {
    sum_of(prices.v(way)).saturating_sub(sum_of(prices.u(way)))
}

// What castling adds in a way: every way but the first is one with castling.
fn charge(way: usize) -> u16 {
    u16::from(way > 0)
}

// The way that needs the fewest moves, and how many.
fn least_way(prices: &Prices) -> (usize, u16) {
    let mut best = (0, value(prices, 0));
    for way in 1..3usize {
        if way < prices.ways() {
            let needs = value(prices, way).saturating_add(charge(way));
            if needs < best.1 {
                best = (way, needs);
            }
        }
    }
    best
}

// The castling of a way, in the order of the ways that the rights allow.
fn wing_of(way: usize, rights: &Rights, color: Color) -> Option<Wing> {
    match way {
        0 => None,
        1 if rights.holds(color, Wing::KingSide) => Some(Wing::KingSide),
        _ => Some(Wing::QueenSide),
    }
}

// The men that a price list is for: on the board of the position and on that of the diagram, the squares of both, and
// the castling of the way; of pawn files or of travel.
#[derive(Clone, Copy)]
struct Sides {
    color: Color,
    here: Board,
    goal: Board,
    sources: SquareSet,
    targets: SquareSet,
    wing: Option<Wing>,
    is_files: bool,
}

// The prices by squares.
#[derive(Clone, Copy)]
struct Priced {
    sources: BySquare,
    targets: BySquare,
}

// The number of a square.
fn at(numbers: &BySquare, square: Square) -> u8 {
    match numbers.get(usize::from(square.index())) {
        Some(number) => *number,
        None => 0,
    }
}

fn put(numbers: &mut BySquare, square: Square, number: u8) {
    if let Some(place) = numbers.get_mut(usize::from(square.index())) {
        *place = number;
    }
}

// The prices by squares, which they are for in their order.
fn by_square(squares: SquareSet, prices: &[u8]) -> BySquare {
    let mut numbers = [0; 64];
    let mut squares = squares.squares();
    for price in prices {
        let Some(square) = squares.next() else {
            return numbers;
        };
        put(&mut numbers, square, *price);
    }
    numbers
}

// Where a man counts as standing: a castling has moved king and rook.
fn counted(sides: &Sides, square: Square) -> Square {
    let Some(wing) = sides.wing else {
        return square;
    };
    if square == king_home(sides.color) {
        king_target(sides.color, wing)
    } else if square == rook_home(sides.color, wing) {
        king_crossed(sides.color, wing)
    } else {
        square
    }
}

// How many files a pawn changes on the way to a square; none where it does not come there.
fn files_between(color: Color, from: Square, to: Square) -> Option<u8> {
    let files = from.file().abs_diff(to.file());
    let ranks = match color {
        Color::White => to.rank().checked_sub(from.rank()),
        Color::Black => from.rank().checked_sub(to.rank()),
    };
    match ranks {
        Some(ranks) if files <= ranks => Some(files),
        _ => None,
    }
}

// What the way from a man of the position to one of the diagram costs; none where there is no way.
fn cost(sides: &Sides, from: Square, to: Square) -> Option<u8> {
    if sides.is_files {
        return files_between(sides.color, from, to);
    }
    match (sides.here.get(from), sides.goal.get(to)) {
        (Some(man), Some(goal)) => distance(man, counted(sides, from), goal.kind, to),
        _ => None,
    }
}

// Whether the prices of two men differ by just what the way costs.
fn is_tight(sides: &Sides, priced: &Priced, from: Square, to: Square) -> bool {
    match cost(sides, from, to) {
        Some(cost) => at(&priced.sources, from).checked_add(cost) == Some(at(&priced.targets, to)),
        None => false,
    }
}

// The men of the position that a man of the diagram may be paired with.
fn sources_of(sides: &Sides, priced: &Priced, to: Square) -> SquareSet {
    let mut tight = SquareSet::empty();
    let mut sources = sides.sources.squares();
    for _ in 0..64u8 {
        let Some(from) = sources.next() else {
            return tight;
        };
        if is_tight(sides, priced, from, to) {
            tight = tight | SquareSet::single(from);
        }
    }
    tight
}

// The men of the diagram that a man of the position may be paired with.
fn targets_of(sides: &Sides, priced: &Priced, from: Square) -> SquareSet {
    let mut tight = SquareSet::empty();
    let mut targets = sides.targets.squares();
    for _ in 0..64u8 {
        let Some(to) = targets.next() else {
            return tight;
        };
        if is_tight(sides, priced, from, to) {
            tight = tight | SquareSet::single(to);
        }
    }
    tight
}

// For each man of the diagram those of the position that he may be paired with.
fn by_targets(sides: &Sides, priced: &Priced) -> Choices {
    let mut choices = [SquareSet::empty(); 64];
    let mut targets = sides.targets.squares();
    for _ in 0..64u8 {
        let Some(to) = targets.next() else {
            return choices;
        };
        let sources = sources_of(sides, priced, to);
        if let Some(place) = choices.get_mut(usize::from(to.index())) {
            *place = sources;
        }
    }
    choices
}

// For each man of the position who pays those of the diagram that he may be paired with; and who these are.
fn by_payers(sides: &Sides, priced: &Priced) -> (Choices, SquareSet) {
    let mut choices = [SquareSet::empty(); 64];
    let mut payers = SquareSet::empty();
    let mut sources = sides.sources.squares();
    for _ in 0..64u8 {
        let Some(from) = sources.next() else {
            return (choices, payers);
        };
        if at(&priced.sources, from) > 0 {
            let targets = targets_of(sides, priced, from);
            payers = payers | SquareSet::single(from);
            if let Some(place) = choices.get_mut(usize::from(from.index())) {
                *place = targets;
            }
        }
    }
    (choices, payers)
}

// For each man of the diagram the man of the position that he is paired with. Who pays is paired first, so that with
// prices that show the least assignment each of them is.
fn pairs(sides: &Sides, priced: &Priced) -> Partners {
    let mut held = Partners::none();
    let mut holders = Partners::none();
    let (choices, payers) = by_payers(sides, priced);
    settle_all(&choices, payers, &mut held, &mut holders);
    let choices = by_targets(sides, priced);
    settle_all(&choices, sides.targets, &mut holders, &mut held);
    holders
}

// What each man of the diagram costs: his price less that of his partner. All of these less the prices of the men who
// have no partner are the value.
fn costs(sides: &Sides, priced: &Priced) -> BySquare {
    let partners = pairs(sides, priced);
    let mut costs = [0; 64];
    let mut targets = sides.targets.squares();
    for _ in 0..64u8 {
        let Some(to) = targets.next() else {
            return costs;
        };
        let less = match partners.of(to) {
            Some(from) => at(&priced.sources, from),
            None => 0,
        };
        put(&mut costs, to, at(&priced.targets, to).saturating_sub(less));
    }
    costs
}

// The square after another one with the greatest number above 0, in the order of greatest first, then of squares.
fn greatest(numbers: &BySquare, last: &Option<(u8, Square)>) -> Option<(u8, Square)> {
    let mut best = None;
    let mut most = 0u8;
    let mut squares = SquareSet::full().squares();
    for number in numbers {
        let Some(square) = squares.next() else {
            return best;
        };
        if *number > most && is_later(*number, square, last) {
            most = *number;
            best = Some((most, square));
        }
    }
    best
}

// Whether a number comes after another in that order.
fn is_later(number: u8, square: Square, last: &Option<(u8, Square)>) -> bool {
    match last {
        None => true,
        Some((before, at)) => {
            number < *before || number == *before && at.index() < square.index()
        }
    }
}

// The dearest men by name, as in `the knight on g8 3`; the sum of what they cost.
fn write_dearest(goal: &Board, costs: &BySquare, text: &mut Sentence) -> u16 {
    let mut last = None;
    let mut sum = 0u16;
    for i in 0..NAMED {
        let Some((cost, square)) = greatest(costs, &last) else {
            return sum;
        };
        let name = match goal.get(square) {
            Some(man) => man_name(man.kind, square),
            None => man_name(Kind::Pawn, square),
        };
        let comma = if i > 0 { ", " } else { "" };
        let name = name.as_str();
        let _ = write!(text, "{comma}{name} {cost}");
        sum = sum.saturating_add(u16::from(cost));
        last = Some((cost, square));
    }
    sum
}

// What a number of moves or of changes of file is made of, pair by pair: the dearest men, the others, castling, and
// what men without a partner pay.
fn write_pairs(sides: &Sides, prices: &Prices, way: usize, text: &mut Sentence) {
    let priced = Priced {
        sources: by_square(sides.sources, prices.u(way)),
        targets: by_square(sides.targets, prices.v(way)),
    };
    let costs = costs(sides, &priced);
    let all = price_sum(&costs);
    let _ = write!(text, ", counted pair by pair: ");
    let named = write_dearest(&sides.goal, &costs, text);
    let others = all.saturating_sub(named);
    if others > 0 {
        let _ = write!(text, ", others {others}");
    }
    let castling = charge(way);
    if castling > 0 {
        let _ = write!(text, ", castling {castling}");
    }
    let less = all.saturating_sub(value(prices, way));
    if less > 0 {
        let _ = write!(text, ", less {less}");
    }
}

// Why changes of file exclude, of which prices show so many: the colour has fewer men to capture.
fn files_by(color: Color, owed: i16, files: u16) -> Sentence {
    let mut text = Sentence::new();
    let color = color_name(color);
    let times = many(u64::from(files), "time", "times");
    let men = many(u64::from(owed.unsigned_abs()), "man", "men");
    let (times, men) = (times.as_str(), men.as_str());
    let _ = write!(
        text,
        "{color} has {men} to capture, and {color}'s pawns must change file {times} at least"
    );
    text
}

// Why the prices of pawns exclude; none where they do not.
fn pawn_prices_of(node: &Node, color: Color, prices: &Prices) -> Option<Sentence> {
    let (u, v) = (prices.u(0), prices.v(0));
    if prices.ways() != 1 || !pg_pawns::prices_exclude(node.diagram, node.position, color, u, v) {
        return None;
    }
    let owed = owed(color, node.diagram, node.position);
    if owed < 0 {
        let mut text = Sentence::new();
        write_too_many(color, owed, &mut text);
        return Some(text);
    }
    let (here, goal) = (node.position.board(), node.diagram.board());
    let pawn = Man::new(color, Kind::Pawn);
    let sides = Sides {
        color,
        here,
        goal,
        sources: here.squares_of(pawn),
        targets: goal.squares_of(pawn),
        wing: None,
        is_files: true,
    };
    let mut text = files_by(color, owed, value(prices, 0));
    write_pairs(&sides, prices, 0, &mut text);
    Some(text)
}

// Whether prices of travel exclude, by rows where they are at hand.
fn travel_excludes(rows: &Option<Rows>, node: &Node, color: Color, prices: &Prices) -> bool {
    let (diagram, position) = (node.diagram, node.position);
    match rows {
        Some(rows) => prices_exclude_by(rows, diagram, position, node.left, color, prices),
        None => prices_exclude(diagram, position, node.left, color, prices),
    }
}

// Why the prices of travel exclude; none where they do not.
fn travel_prices_of(
    rows: &Option<Rows>,
    node: &Node,
    color: Color,
    prices: &Prices,
) -> Option<Sentence> {
    if !travel_excludes(rows, node, color, prices) {
        return None;
    }
    let (here, goal) = (node.position.board(), node.diagram.board());
    let (way, needs) = least_way(prices);
    let sides = Sides {
        color,
        here,
        goal,
        sources: here.squares_of_color(color),
        targets: goal.squares_of_color(color),
        wing: wing_of(way, &node.position.rights(), color),
        is_files: false,
    };
    let left = many(u64::from(own_plies(node, color)), "move", "moves");
    let moves = many(u64::from(needs), "move", "moves");
    let (left, moves) = (left.as_str(), moves.as_str());
    let name = color_name(color);
    let mut text = Sentence::new();
    let _ = write!(
        text,
        "{name} has {left} left, and {name}'s men need {moves} at least"
    );
    write_pairs(&sides, prices, way, &mut text);
    Some(text)
}

// Why prices of this code exclude; none where they do not.
pub(crate) fn reason_of_prices(
    rows: &Option<Rows>,
    node: &Node,
    code: u8,
    color: Color,
    prices: &Prices,
) -> Option<Sentence> {
    match code {
        PawnFiles::CODE => pawn_prices_of(node, color, prices),
        Travel::CODE => travel_prices_of(rows, node, color, prices),
        _ => None,
    }
}
