//! What a check meets along a line of moves.
ghost use Rattle.std.specs.Prelude.{◌≡◌};
ghost use Rattle.pg_certificate.specs.Spelling.{record_of};

use crate::found::Cited;
use arrayvec::ArrayVec;
use pg_certificate::{Bare, Record};
use pg_checker::{CheckWatch, Problem, Spot};
use pg_fen::Diagram;
use pg_moves::LegalMoves;
use pg_position::{Move, Position};
use pg_price_lists::Prices;
use pg_sentences::{Ending, Tally, first_code};
use pg_tolls::Tariff;
use std::alloc::Global;

// A line of moves from the initial array, with the problem's diagram and plies, and the positions that it leads
// through, the array first, as far as there was room for them.
#[derive(Drop)]
pub(crate) struct Line<'a> {
    pub(crate) diagram: &'a Diagram,
    pub(crate) plies: u8,
    pub(crate) moves: &'a [Move],
    positions: Vec<Position>,
}

// Where the check is: the moves that lead to the topmost open node, how many games it has met, how many it had met
// before each open node, by the plies left there, and how many named nodes have closed.
#[derive(Drop)]
struct Whereabouts {
    path: ArrayVec<Move, 128>,
    games: u64,
    before: [u64; 129],
    closed: u32,
}

// What a check meets along a line: what the children are of the nodes on it that are open, the root first, and of those
// that have closed, the last one first; what ends the line, if something does; and the named nodes that the record
// which ends it may cite, of the same future and plies as a node on the line, as far as there was room for them. The
// tariffs are those that stand before the certificate.
#[derive(Drop)]
pub(crate) struct Along<'a> {
    pub(crate) line: Line<'a>,
    pub(crate) alloc: Global,
    pub(crate) tariffs: &'a [Tariff],
    place: Whereabouts,
    open: ArrayVec<Tally, 128>,
    pub(crate) tallies: ArrayVec<Tally, 128>,
    pub(crate) ending: Option<Ending>,
    named: Vec<Cited>,
}

// The positions that moves lead through from the initial array, which is the first, up to a move that is not legal.
fn positions_along(alloc: Global, moves: &[Move]) -> Vec<Position> {
    let mut positions = Vec::new(alloc);
    let mut position = Position::array();
    let _ = positions.push(position);
    for m in moves {
        match position.play(*m) {
            Ok(next) => position = next,
            Err(_) => return positions,
        }
        let _ = positions.push(position);
    }
    positions
}

impl<'a> Along<'a> {
    // What is met before a check. What is kept takes its room from `alloc`.
    pub(crate) fn new(
        alloc: Global,
        problem: &'a Problem,
        moves: &'a [Move],
        tariffs: &'a [Tariff],
    ) -> Along<'a> {
        Along {
            line: Line {
                diagram: &problem.diagram,
                plies: problem.length.plies(),
                moves,
                positions: positions_along(alloc, moves),
            },
            alloc,
            tariffs,
            place: Whereabouts {
                path: ArrayVec::new(),
                games: 0,
                before: [0; 129],
                closed: 0,
            },
            open: ArrayVec::new(),
            tallies: ArrayVec::new(),
            ending: None,
            named: Vec::new(alloc),
        }
    }
}

// A record with its price lists, where it has any.
fn whole(said: &Bare, prices: &Prices) -> Record
    ensures { result ≡ record_of prices.now said.now }
{
    match said {
        Bare::Expand { named } => Record::Expand { named: *named },
        Bare::Cut(code) => Record::Cut(*code),
        Bare::Ref(number) => Record::Ref(*number),
        Bare::Priced { code, color } => Record::Priced {
            code: *code,
            color: *color,
            prices: *prices,
        },
    }
}

// How many moves of the line lead to a node of the tree of the stated length with so many plies left. Just so many
// nodes on the line are open above it if its parent is on the line; in a shorter tree, none.
fn ply_of(line: &Line, left: u8) -> usize {
    usize::from(line.plies.saturating_sub(left))
}

// Whether the line's move to this ply is this one.
fn is_of_line(line: &Line, ply: usize, m: &Move) -> bool {
    line.moves.get(ply.saturating_sub(1)) == Some(m)
}

// A node on the line is reached: it is one more that is open, or ends the line.
fn enter(along: &mut Along, said: &Bare, prices: &Prices) {
    match said {
        Bare::Expand { .. } => {
            let _ = along.open.try_push(Tally::default());
        }
        _ => along.ending = Some(Ending::Said(whole(said, prices))),
    }
}

// A child is reached: a node on the line counts it, and the line leads to it or not.
#[inline(always)]
fn enter_child(along: &mut Along, m: &Move, left: u8, said: &Bare, prices: &Prices) {
    let ply = ply_of(&along.line, left);
    if along.open.len() != ply {
        return;
    }
    let tariffs = along.tariffs.len();
    if let Some(tally) = along.open.last_mut() {
        tally.count(said, tariffs);
    }
    if is_of_line(&along.line, ply, m) {
        enter(along, said, prices);
    }
}

// A leaf is reached below the last node on the line, which counts it; and it may end the line.
fn enter_leaf(along: &mut Along, position: &Position, m: &Move) {
    let Ok(there) = position.play(*m) else {
        return;
    };
    let hit = along.line.diagram.matches(&there);
    let plies = usize::from(along.line.plies);
    if let Some(tally) = along.open.last_mut() {
        tally.count_leaf(hit);
    }
    if is_of_line(&along.line, plies, m) {
        along.ending = Some(Ending::Leaf(hit));
    }
}

// The moves of the last node on the line are played.
#[inline(never)]
fn leaves(along: &mut Along, position: &Position) {
    let mut moves = LegalMoves::new(position);
    for _ in 0..u16::MAX {
        let Some(m) = moves.next() else {
            return;
        };
        enter_leaf(along, position, &m);
    }
}

// A node on the line closes, with so many games below.
#[inline(never)]
fn close_on_line(along: &mut Along, position: &Position, left: u8, games: u64) {
    if left == 1 {
        leaves(along, position);
    }
    if let Some(tally) = along.open.pop() {
        let mut tally = tally;
        tally.games = games;
        let _ = along.tallies.try_push(tally);
    }
}

// A node closes: what its children are is known if it is on the line. With one ply left and no game its parent does not
// lead on by it.
#[inline(always)]
fn close(along: &mut Along, position: &Position, left: u8, games: u64) {
    let ply = ply_of(&along.line, left);
    if along.open.len() > ply {
        close_on_line(along, position, left, games);
    }
    if left == 1 && games == 0 && along.open.len() == ply {
        if let Some(parent) = along.open.last_mut() {
            parent.recount(first_code(along.line.diagram, position, 1));
        }
    }
}

// Whether a position with so many plies left has the future of a node on the line.
#[inline(always)]
fn is_like(line: &Line, position: &Position, left: u8) -> bool {
    match line.positions.get(ply_of(line, left)) {
        Some(there) => there.same_future(position),
        None => false,
    }
}

// These moves, as a list of their own.
fn copied(moves: &[Move]) -> ArrayVec<Move, 128> {
    let mut list = ArrayVec::new();
    for m in moves {
        let _ = list.try_push(*m);
    }
    list
}

// A named node closes: it takes its number, and is kept if what ends the line may cite it.
#[inline(always)]
fn name(along: &mut Along, position: &Position, left: u8) {
    let number = along.place.closed;
    along.place.closed = number.saturating_add(1);
    if along.ending.is_some() || !is_like(&along.line, position, left) {
        return;
    }
    let line = copied(along.place.path.as_slice());
    let _ = along.named.push(Cited { number, line });
}

// A node with so many plies left opens.
#[inline(always)]
fn open(place: &mut Whereabouts, m: &Option<Move>, left: u8) {
    if let Some(m) = m {
        let _ = place.path.try_push(*m);
    }
    let at = usize::from(left);
    if at < 129 {
        place.before[at] = place.games;
    }
}

// How many games there are below the open node with so many plies left.
#[inline(always)]
fn games_below(place: &Whereabouts, left: u8) -> u64 {
    match place.before.get(usize::from(left)) {
        Some(before) => place.games.saturating_sub(*before),
        None => 0,
    }
}

impl CheckWatch for Along<'_> {
    fn began(&mut self, _plies: u8) {
        if self.line.plies == 0 {
            let hit = self.line.diagram.matches(&Position::array());
            self.ending = Some(Ending::Leaf(hit));
        }
    }

    fn met(&mut self, spot: &Spot, left: u8, said: &Bare, prices: &Prices) {
        match &spot.m {
            Some(m) => enter_child(self, m, left, said, prices),
            None => {
                if left == self.line.plies {
                    enter(self, said, prices);
                }
            }
        }
        if let Bare::Expand { .. } = said {
            open(&mut self.place, &spot.m, left);
        }
    }

    fn ended(&mut self, _spot: &Spot) {
        self.place.games = self.place.games.saturating_add(1);
    }

    fn closed(&mut self, position: &Position, left: u8, named: bool) {
        let games = games_below(&self.place, left);
        close(self, position, left, games);
        if named {
            name(self, position, left);
        }
        let _ = self.place.path.pop();
    }
}

// The node that the record which ends the line cites; none where it cites none, or there was no room for it.
pub(crate) fn cited<'b>(along: &'b Along<'_>) -> Option<&'b Cited> {
    let Some(Ending::Said(Record::Ref(number))) = &along.ending else {
        return None;
    };
    for cited in along.named.as_slice() {
        if cited.number == *number {
            return Some(cited);
        }
    }
    None
}
