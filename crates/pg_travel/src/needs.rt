//! The values of a colour's ways, its need and the test of the bound.
ghost use Rattle.std.specs.Prelude.{◌≡◌, ℕ, ◌+◌, ◌*◌, ◌<◌, ◌≤◌, ◌↔◌, ◌/◌, ◌%◌, min, IsTrue, true, Some, None};
ghost use Rattle.pg_board.specs.Bits.{has};
ghost use Rattle.pg_board.specs.Placement.{get};
ghost use Rattle.pg_board.specs.Tally.{one};
ghost use Rattle.pg_board.specs.Men.{color_eq};
ghost use Rattle.pg_position.specs.declared.rights.Wing.TheVariants.{KingSide, QueenSide};
ghost use Rattle.pg_captures.specs.Owed.{plies_left};
ghost use Rattle.pg_travel.specs.Origins.{counted, charge};
ghost use Rattle.pg_travel.specs.inner.Formulas.{least_of};
ghost use Rattle.pg_travel.specs.inner.Costs.{BeyondFar, nearest_man, nearest, cost_of, cost, most_of};
ghost use Rattle.pg_travel.specs.Needs.{ValueIs, lesser, HeldBeside, NeedIs, TravelTest};
ghost use Rattle.pg_travel.specs.inner.Within.{SumWithin, PaysIs, CastledIs};

use crate::bands::{Band, promoting, whole_board};
use crate::castling::{charge, counted};
use crate::distances::{closer, is_promoted};
use crate::misplaced::{sure_to_cost, to_come};
use pg_board::{Board, Color, Kind, Man, Square, SquareSet};
use pg_captures::plies_left;
use pg_fen::Diagram;
use pg_position::{Position, Wing};

// Whether two colours are one. A call, since `==` would stand in the goals of what follows.
pub(crate) fn same_side(a: Color, b: Color) -> bool
    ensures { result ≡ color_eq a b }
{
    a == b
}

// From the nearest square with this man to a kind on a target, where that is less than `best`. Those
// outside of a band are no nearer than that.
#[tactic(auto, unfolding(crate::specs::inner::Costs::nearest_man))]
fn nearer(
    board: &Board,
    man: Man,
    way: Option<Wing>,
    kind: Kind,
    t: Square,
    best: u8,
    band: Band,
) -> u8
    requires low { best ≤ 64 }
    requires beyond { BeyondFar board.now man way kind t best band.first band.past }
    ensures { result ≡ min best (nearest_man board.now man way kind t) }
{
    let own = board.squares_of(man);
    let mut least = best;
    let mut from = band.first;
    while let Some(o) = own.first_from(from) {
        let at = o.index();
        if band.past <= at {
            return least;
        }
        let origin = counted(man.color, way, o);
        least = closer(man, origin, kind, t, least);
        from = at + 1;
    }
    least
}

// From the nearest man of the colour to a kind on a target, 64 for none: from one of the kind, or
// from a pawn that becomes of it.
fn nearest(board: &Board, color: Color, way: Option<Wing>, kind: Kind, t: Square) -> u8
    ensures value { result ≡ nearest board.now color way kind t }
    ensures low { result ≤ 64 }
{
    let man = Man::new(color, kind);
    let own = nearer(board, man, way, kind, t, 64, whole_board());
    if is_promoted(kind) {
        let pawn = Man::new(color, Kind::Pawn);
        nearer(board, pawn, way, kind, t, own, promoting(color, own))
    } else {
        own
    }
}

// Whether the man on a square is the one that is to stand there, and counts as standing there.
fn is_home(color: Color, way: Option<Wing>, t: Square, here: Option<Man>, man: Man) -> bool
    ensures { IsTrue result ↔ ((here ≡ Some man) × (counted color way t ≡ t)) }
{
    match here {
        None => false,
        Some(m) => m == man && counted(color, way, t).index() == t.index(),
    }
}

// What the man of the diagram on a square costs: nothing where it is not of the colour.
#[tactic(auto, unfolding(crate::specs::inner::Costs::cost))]
fn cost(board: &Board, goal: &Board, color: Color, way: Option<Wing>, t: Square) -> u8
    ensures value { result ≡ cost board.now goal.now color way t }
    ensures low { result ≤ 64 }
{
    match goal.get(t) {
        None => 0,
        Some(m) => {
            if same_side(color, m.color) {
                if is_home(color, way, t, board.get(t), m) {
                    0
                } else {
                    nearest(board, color, way, m.kind, t)
                }
            } else {
                0
            }
        }
    }
}

// What a man costs besides the one ply that each on these squares is sure to cost.
fn beyond_sure(sure: SquareSet, t: Square, n: u8) -> u8
    requires { has sure t ≡ true → 1 ≤ n }
    ensures { result + one (has sure t) ≡ n }
{
    if sure.contains(t) { n - 1 } else { n }
}

// No way costs more: its charge is 1 at most, and a man on each square 63 at most.
const MOST_VALUE: u16 = 1 + 64 * 63;

// The charge of a way and what all men of the diagram cost; none where that is above the limit, or
// where one has no man to come. Each man that is sure to cost a ply is counted with one from the
// start, so that the sum is soon above a low limit.
fn total_within(
    board: &Board,
    goal: &Board,
    color: Color,
    way: Option<Wing>,
    limit: u16,
) -> Option<u16>
    ensures { SumWithin board.now goal.now color way limit result }
{
    let sure = sure_to_cost(board, goal, color, way);
    let mut total = charge(way) + u16::from(sure.len());
    if total > limit {
        return None;
    }
    let squares = to_come(board, goal, color, way);
    let mut from = 0u8;
    while let Some(t) = squares.first_from(from) {
        let n = cost(board, goal, color, way, t);
        if n == 64 {
            return None;
        }
        total += u16::from(beyond_sure(sure, t, n));
        if total > limit {
            return None;
        }
        from = t.index() + 1;
    }
    Some(total)
}

// The most that a value may be which is no greater than the best so far.
fn most_of(best: Option<u16>) -> u16
    ensures { result ≡ most_of best }
{
    match best {
        None => MOST_VALUE,
        Some(n) => n,
    }
}

// The value of a castling way beside the best of the others: none where it is greater, where it is none, or
// where the right is not held. Most sums are soon greater, so they stop there.
fn castled_value(
    position: &Position,
    diagram: &Diagram,
    color: Color,
    wing: Wing,
    best: Option<u16>,
) -> Option<u16>
    ensures { HeldBeside diagram.now position.now color wing best result }
{
    if position.rights().holds(color, wing) {
        let most = most_of(best);
        total_within(&position.board(), &diagram.board(), color, Some(wing), most)
    } else {
        None
    }
}

fn lesser(a: Option<u16>, b: Option<u16>) -> Option<u16>
    ensures { result ≡ lesser a b }
{
    match a {
        None => b,
        Some(x) => match b {
            None => Some(x),
            Some(y) => Some(x.min(y)),
        },
    }
}

/// The values of a colour's ways. The value of a way is 1 for castling, and for each of the colour's men
/// of the diagram the distance of its nearest man, where a castling way counts the king and the rook on
/// the squares that they castle to.
#[derive(Clone, Copy)]
pub struct Ways {
    /// Without castling. None where a man of the diagram has no man that can come to it.
    pub free: Option<u16>,
    /// By castling king side. None too where the right is not held, and where it is above `free`.
    pub short: Option<u16>,
    /// By castling queen side. None too where the right is not held, and where it is above one of the others.
    pub long: Option<u16>,
}

impl Ways {
    /// From the position to the diagram.
    pub fn new(color: Color, diagram: &Diagram, position: &Position) -> Ways
        ensures free { ValueIs diagram.now position.now color None result.free }
        ensures short { HeldBeside diagram.now position.now color KingSide result.free result.short }
        ensures long { HeldBeside diagram.now position.now color QueenSide (lesser result.free result.short)
            result.long }
    {
        let free = total_within(&position.board(), &diagram.board(), color, None, MOST_VALUE);
        let short = castled_value(position, diagram, color, Wing::KingSide, free);
        let better = lesser(free, short);
        let long = castled_value(position, diagram, color, Wing::QueenSide, better);
        Ways { free, short, long }
    }

    /// The least of them.
    pub fn need(&self) -> Option<u16>
        ensures { result ≡ lesser (lesser self.now.free self.now.short) self.now.long }
    {
        lesser(lesser(self.free, self.short), self.long)
    }
}

/// The need of a colour: how many plies of its own it needs at least, by distances, to bring its men
/// from the position onto the squares of the diagram. It is the least value of its ways, none where
/// no way has one. A way is no castling, or castling by a right that the position holds; its value
/// is 1 for castling, and for each of the colour's men of the diagram the distance of its nearest
/// man, where a castling way counts the king and the rook on the squares that they castle to.
pub fn need(color: Color, diagram: &Diagram, position: &Position) -> Option<u16>
    ensures { NeedIs diagram.now position.now color result }
{
    Ways::new(color, diagram, position).need()
}

// Whether `plies` plies pay for a way.
fn pays(position: &Position, diagram: &Diagram, color: Color, way: Option<Wing>, plies: u16) -> bool
    ensures { PaysIs position.now diagram.now color way plies result }
{
    match total_within(&position.board(), &diagram.board(), color, way, plies) {
        None => false,
        Some(n) => n <= plies,
    }
}

// Whether a right is held to castle so, and `plies` plies pay for it.
fn pays_castled(
    position: &Position,
    diagram: &Diagram,
    color: Color,
    right: Wing,
    plies: u16,
) -> bool
    ensures { CastledIs position.now diagram.now color right plies result }
{
    if position.rights().holds(color, right) {
        pays(position, diagram, color, Some(right), plies)
    } else {
        false
    }
}

// Whether the colour's need does not exist or is above its plies left: no way is paid for.
pub(crate) fn excludes_for(color: Color, diagram: &Diagram, position: &Position, left: u8) -> bool
    ensures { IsTrue result ↔ TravelTest diagram.now position.now left color }
{
    let plies = u16::from(plies_left(position.side(), color, left));
    let free = pays(position, diagram, color, None, plies);
    if free {
        return false;
    }
    let short = pays_castled(position, diagram, color, Wing::KingSide, plies);
    if short {
        return false;
    }
    let long = pays_castled(position, diagram, color, Wing::QueenSide, plies);
    !long
}
