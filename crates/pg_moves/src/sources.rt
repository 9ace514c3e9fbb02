//! The men of the side to move, and where each goes.
ghost use Rattle.std.specs.Prelude.{◌≡◌, ◌<◌, ◌≤◌, ◌+◌, ◌↔◌, IsTrue};
ghost use Rattle.pg_position.specs.Position.{Stands};
ghost use Rattle.pg_moves.specs.inner.Places.{place_of, IsNextWithin};
ghost use Rattle.pg_moves.specs.inner.Sources.{IsToldSource};
ghost use Rattle.pg_moves.specs.Targets.{IsOwn};

use crate::kings::king_targets;
use crate::parries::parrying;
use crate::pins::{Pins, is_special};
use crate::places::Target;
use crate::search::{first_of_exact, first_of_man};
use crate::targets::{advances, targets};
use pg_board::{Board, Color, Kind, Man, Square, SquareSet};
use pg_position::{Move, Position};

// A man of the side to move: where it may go, its kind, and whether it goes to just those squares, with
// no promotion.
#[derive(Clone, Copy)]
pub(crate) struct Source {
    pub(crate) set: SquareSet,
    pub(crate) kind: Kind,
    pub(crate) exact: bool,
}

// The man of the side to move, of this kind, on a square: the king with his legal moves, a pawn that may promote or
// capture en passant with all squares to which it may go, one that may be pinned with those of his advances that leave
// his king unattacked, any other with his advances.
#[inline(always)]
#[tactic(auto, unfolding(crate::specs::inner::Sources::IsToldSource))]
fn source_of_kind(pins: &Pins<'_>, kind: Kind, from: Square) -> Source
    requires { Stands pins.now.board pins.now.side kind from }
    ensures { IsToldSource pins.now from result }
{
    // A fact for the proof: the square is on the board.
    from.index();
    let position = pins.position();
    if kind == Kind::King {
        Source {
            kind,
            set: king_targets(position, from),
            exact: true,
        }
    } else if is_special(position, kind, from) {
        Source {
            kind,
            set: targets(position, kind, from),
            exact: false,
        }
    } else if pins.maybe_pinned().contains(from) {
        Source {
            kind,
            set: parrying(position, kind, from),
            exact: true,
        }
    } else {
        Source {
            kind,
            set: advances(&position.board(), position.side(), kind, from),
            exact: true,
        }
    }
}

// The same by code of its own for each kind.
#[inline(always)]
fn source_of(pins: &Pins<'_>, kind: Kind, from: Square) -> Source
    requires { Stands pins.now.board pins.now.side kind from }
    ensures { IsToldSource pins.now from result }
{
    match kind {
        Kind::Pawn => source_of_kind(pins, Kind::Pawn, from),
        Kind::Knight => source_of_kind(pins, Kind::Knight, from),
        Kind::Bishop => source_of_kind(pins, Kind::Bishop, from),
        Kind::Rook => source_of_kind(pins, Kind::Rook, from),
        Kind::Queen => source_of_kind(pins, Kind::Queen, from),
        Kind::King => source_of_kind(pins, Kind::King, from),
    }
}

// The man of the side to move on a square.
#[inline(always)]
#[tactic(auto, using(crate::proofs::SearchLemmas::stands_own))]
pub(crate) fn source_at(pins: &Pins<'_>, from: Square) -> Source
    requires { IsOwn pins.now.board pins.now.side from }
    ensures { IsToldSource pins.now from result }
{
    match pins.position().board().get(from) {
        Some(man) => source_of(pins, man.kind, from),
        None => unreachable!(),
    }
}

// Whether a man of this colour and kind stands on the square, by the set of these men.
#[inline(always)]
pub(crate) fn is_there(board: &Board, color: Color, kind: Kind, from: Square) -> bool
    ensures { IsTrue result ↔ Stands board.now color kind from }
{
    board.squares_of(Man::new(color, kind)).contains(from)
}

// The first legal move of a man, from this target and promotion on.
#[inline(always)]
#[tactic(auto, unfolding(crate::specs::inner::Sources::IsToldSource))]
pub(crate) fn first_of_source(
    position: &Position,
    from: Square,
    source: &Source,
    target: Target,
) -> Option<Move>
    requires { IsToldSource position.now from source.now }
    ensures { IsNextWithin position.now (place_of from target.to target.number) (place_of (from + 1) 0 0) result }
{
    if source.exact {
        first_of_exact(position, from, source.set, target)
    } else {
        first_of_man(position, source.kind, from, source.set, target)
    }
}
