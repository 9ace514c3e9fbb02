//! The search for the first legal move from a place on.
ghost use Rattle.std.specs.Prelude.{◌≡◌, ◌≢◌, ℕ, ◌+◌, ◌*◌, ◌<◌, ◌≤◌, ◌↔◌, IsTrue, MatchOption};
ghost use Rattle.pg_position.specs.Position.{Stands};
ghost use Rattle.pg_position.specs.Step.{IsLegal};
ghost use Rattle.pg_moves.specs.inner.Places.{most_moves, place, place_of, NoneFrom, IsNextWithin};
ghost use Rattle.pg_moves.specs.inner.Sources.{IsExact};
ghost use Rattle.pg_moves.specs.Targets.{IsOwn, Covers};

use crate::pins::Pins;
use crate::places::{Target, promotion_at};
use crate::sources::{first_of_source, source_at};
use pg_board::{Kind, Square, SquareSet};
use pg_position::{Move, Position, must_promote};

// The move, if it is legal.
fn legal_at(position: &Position, from: Square, to: Square, number: u8) -> Option<Move>
    requires place { number < 7 }
    ensures { MatchOption result
        (NoneFrom position.now (place_of from to number) (place_of from to (number + 1)))
        (λ m. IsLegal position.now m × (place m ≡ place_of from to number)) }
{
    let m = Move {
        from,
        to,
        promotion: promotion_at(number),
    };
    // A fact for the proof: the square is on the board.
    to.index();
    if position.is_legal(&m) { Some(m) } else { None }
}

// The promotions that are to be tried, as two places: none alone, or knight to queen.
fn promotions(position: &Position, kind: Kind, from: Square, to: Square) -> (u8, u8)
    requires { Stands position.now.board position.now.side kind from }
    ensures bound { result.1 ≤ 7 }
    ensures before { NoneFrom position.now (place_of from to 0) (place_of from to result.0) }
    ensures rest { NoneFrom position.now (place_of from to result.1) (place_of from to 7) }
{
    // A fact for the proof: the square is on the board.
    to.index();
    if must_promote(kind, position.side(), to) {
        (2, 6)
    } else {
        (0, 1)
    }
}

// The first legal move from one square to another, from this promotion on.
fn first_to(position: &Position, kind: Kind, from: Square, target: Target) -> Option<Move>
    requires { Stands position.now.board position.now.side kind from }
    ensures { IsNextWithin position.now (place_of from target.to target.number) (place_of from target.to 7) result }
{
    let (start, end) = promotions(position, kind, from, target.to);
    let start = start.max(target.number);
    for k in start..end {
        if let Some(m) = legal_at(position, from, target.to, k) {
            return Some(m);
        }
    }
    None
}

// The first legal move of the man on a square, which goes to squares of the set, from this target and
// promotion on.
pub(crate) fn first_of_man(
    position: &Position,
    kind: Kind,
    from: Square,
    set: SquareSet,
    target: Target,
) -> Option<Move>
    requires stands { Stands position.now.board position.now.side kind from }
    requires covers { Covers position.now from set }
    ensures { IsNextWithin position.now (place_of from target.to target.number) (place_of (from + 1) 0 0) result }
{
    let mut at = target.to.index();
    while let Some(square) = set.first_from(at) {
        if let Some(m) = first_to(position, kind, from, target.resume_at(square)) {
            return Some(m);
        }
        at = square.index() + 1;
    }
    None
}

// The first legal move of a man, all of whose moves go without promotion to the squares of the set, and
// all of those are legal, from this target and promotion on.
pub(crate) fn first_of_exact(
    position: &Position,
    from: Square,
    set: SquareSet,
    target: Target,
) -> Option<Move>
    requires { IsExact position.now from set }
    ensures { IsNextWithin position.now (place_of from target.to target.number) (place_of (from + 1) 0 0) result }
{
    // A fact for the proof: the square is on the board.
    from.index();
    match set.first_from(target.next_square()) {
        Some(square) => Some(Move {
            from,
            to: square,
            promotion: None,
        }),
        None => None,
    }
}

// The first legal move from a square, from this target and promotion on.
fn first_of_square(pins: &Pins<'_>, from: Square, target: Target) -> Option<Move>
    requires { IsOwn pins.now.board pins.now.side from }
    ensures { IsNextWithin pins.now (place_of from target.to target.number) (place_of (from + 1) 0 0) result }
{
    let source = source_at(pins, from);
    first_of_source(pins.position(), from, &source, target)
}

// The first legal move from these squares and this promotion on.
pub(crate) fn first_move(pins: &Pins<'_>, from: Square, target: Target) -> Option<Move>
    ensures { IsNextWithin pins.now (place_of from target.to target.number) most_moves result }
{
    let position = pins.position();
    // A fact for the proof: the square is on the board.
    target.to.index();
    let own = position.board().squares_of_color(position.side());
    let mut at = from.index();
    while let Some(square) = own.first_from(at) {
        let start = target.resume_of(square, from);
        if let Some(m) = first_of_square(pins, square, start) {
            return Some(m);
        }
        at = square.index() + 1;
    }
    None
}
