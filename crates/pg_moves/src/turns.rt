//! A man of the side to move begins to move: his first legal move, and what is found for it serves his next.
ghost use Rattle.std.specs.Prelude.{◌≡◌, ◌≢◌, true, false, None};
ghost use Rattle.pg_board.specs.Bits.{has};
ghost use Rattle.pg_position.specs.Position.{Stands};
ghost use Rattle.pg_moves.specs.Left.{IsFirstOfMan, IsFirstOfAll, men_from};
ghost use Rattle.pg_moves.specs.inner.Men.{AreMen, AreToCome};
ghost use Rattle.pg_moves.specs.inner.Sources.{IsExact, IsToldSource};
ghost use Rattle.pg_moves.specs.Targets.{IsOwn};

use crate::kings::king_targets;
use crate::men::{Men, is_of_kind, pawn_set, piece_set};
use crate::pins::Pins;
use crate::places::Target;
use crate::search::first_of_man;
use crate::sources::{Source, is_there, source_at};
use pg_board::{Kind, Square, SquareSet};
use pg_position::{Move, Position};

// The move that was handed out last, the man that made it, the squares to which he goes past it, and the men that
// did not yet move.
#[derive(Clone, Copy)]
pub(crate) struct Turn {
    pub(crate) left: SquareSet,
    pub(crate) rest: SquareSet,
    pub(crate) source: Source,
    pub(crate) last: Option<Move>,
}

// What is kept before there is a move, with all men still to come.
#[inline(always)]
pub(crate) fn no_turn(left: SquareSet) -> Turn
    ensures last { result.last ≡ None }
    ensures left { result.left ≡ left }
{
    Turn {
        left,
        rest: SquareSet::empty(),
        source: Source {
            kind: Kind::Pawn,
            set: SquareSet::empty(),
            exact: false,
        },
        last: None,
    }
}

// A man begins who has legal moves to just these squares, if there are any. What is kept of him is written part by
// part: whole it is copied with what lies between its parts.
#[inline(always)]
fn begin_exact(
    position: &Position,
    kind: Kind,
    from: Square,
    set: SquareSet,
    left: SquareSet,
    turn: &mut Turn,
) -> bool
    requires stands { Stands position.now.board position.now.side kind from }
    requires exact { IsExact position.now from set }
    ensures { IsFirstOfMan position.now from left turn.old turn.new result }
{
    // A fact for the proof: the square is on the board.
    from.index();
    let mut rest = set;
    match rest.pop_first() {
        Some(to) => {
            turn.last = Some(Move {
                from,
                to,
                promotion: None,
            });
            turn.left = left;
            turn.rest = rest;
            turn.source.set = set;
            turn.source.kind = kind;
            turn.source.exact = true;
            true
        }
        None => false,
    }
}

// A man begins whose moves have to be tried, if one is legal.
#[tactic(auto, unfolding(crate::specs::inner::Sources::IsToldSource))]
fn begin_tried(
    position: &Position,
    source: &Source,
    from: Square,
    left: SquareSet,
    turn: &mut Turn,
) -> bool
    requires source { IsToldSource position.now from source.now }
    requires tried { source.now.exact ≡ false }
    ensures { IsFirstOfMan position.now from left turn.old turn.new result }
{
    match first_of_man(position, source.kind, from, source.set, Target::first()) {
        Some(m) => {
            turn.last = Some(m);
            turn.left = left;
            turn.rest = SquareSet::empty();
            turn.source = *source;
            true
        }
        None => false,
    }
}

// Any man begins who has a legal move.
#[inline(always)]
#[tactic(auto, unfolding(crate::specs::inner::Sources::IsToldSource))]
fn begin_any(pins: &Pins<'_>, from: Square, left: SquareSet, turn: &mut Turn) -> bool
    requires { IsOwn pins.now.board pins.now.side from }
    ensures { IsFirstOfMan pins.now from left turn.old turn.new result }
{
    let position = pins.position();
    let source = source_at(pins, from);
    if source.exact {
        begin_exact(position, source.kind, from, source.set, left, turn)
    } else {
        begin_tried(position, &source, from, left, turn)
    }
}

// The same where nothing is known of him: not inlined, since few men come here besides kings, who are asked for first.
#[inline(never)]
fn begin_rare(position: &Position, from: Square, left: SquareSet, turn: &mut Turn) -> bool
    requires own { IsOwn position.now.board position.now.side from }
    ensures { IsFirstOfMan position.now from left turn.old turn.new result }
{
    if is_there(&position.board(), position.side(), Kind::King, from) {
        let set = king_targets(position, from);
        return begin_exact(position, Kind::King, from, set, left, turn);
    }
    begin_any(&Pins::all(position), from, left, turn)
}

// A piece of this kind begins that cannot be pinned, no king.
#[inline(always)]
fn begin_piece(
    position: &Position,
    men: &Men,
    kind: Kind,
    from: Square,
    left: SquareSet,
    turn: &mut Turn,
) -> bool
    requires men { AreMen position.now men.now }
    requires stands { Stands position.now.board position.now.side kind from }
    requires free { has men.now.pinned from ≡ false }
    requires pawn { kind ≢ Kind.Pawn }
    ensures { IsFirstOfMan position.now from left turn.old turn.new result }
{
    let set = piece_set(position, men, kind, from);
    begin_exact(position, kind, from, set, left, turn)
}

// A man begins who cannot be pinned, no quiet pawn: mostly a piece. A call for each kind gives each code of its own.
#[inline(always)]
fn begin_other(
    position: &Position,
    men: &Men,
    from: Square,
    left: SquareSet,
    turn: &mut Turn,
) -> bool
    requires men { AreMen position.now men.now }
    requires own { IsOwn position.now.board position.now.side from }
    requires free { has men.now.pinned from ≡ false }
    ensures { IsFirstOfMan position.now from left turn.old turn.new result }
{
    if is_of_kind(position, Kind::Knight, from) {
        begin_piece(position, men, Kind::Knight, from, left, turn)
    } else if is_of_kind(position, Kind::Bishop, from) {
        begin_piece(position, men, Kind::Bishop, from, left, turn)
    } else if is_of_kind(position, Kind::Rook, from) {
        begin_piece(position, men, Kind::Rook, from, left, turn)
    } else if is_of_kind(position, Kind::Queen, from) {
        begin_piece(position, men, Kind::Queen, from, left, turn)
    } else {
        begin_rare(position, from, left, turn)
    }
}

// The man on a square begins.
#[inline(always)]
fn begin_man(position: &Position, men: &Men, from: Square, left: SquareSet, turn: &mut Turn) -> bool
    requires men { AreMen position.now men.now }
    requires own { IsOwn position.now.board position.now.side from }
    ensures { IsFirstOfMan position.now from left turn.old turn.new result }
{
    if men.quiet.contains(from) {
        let set = pawn_set(position, men, from);
        begin_exact(position, Kind::Pawn, from, set, left, turn)
    } else if men.pinned.contains(from) {
        begin_rare(position, from, left, turn)
    } else {
        begin_other(position, men, from, left, turn)
    }
}

// The first of these men begins who has a legal move. They are all that are past the last move. No board and no man is
// copied on the way: each is looked at where he is kept.
#[inline(always)]
pub(crate) fn begin_next(position: &Position, men: &Men, all: SquareSet, turn: &mut Turn) -> bool
    requires men { AreMen position.now men.now }
    requires to_come { AreToCome position.now (men_from turn.old.last) all }
    ensures { IsFirstOfAll position.now turn.old turn.new result }
{
    let mut left = all;
    while let Some(from) = left.pop_first() {
        if begin_man(position, men, from, left, turn) {
            return true;
        }
    }
    false
}

// The same where nothing is kept of the men: each is looked at for himself.
#[inline(always)]
pub(crate) fn begin_each(pins: &Pins<'_>, all: SquareSet, turn: &mut Turn) -> bool
    requires { AreToCome pins.now (men_from turn.old.last) all }
    ensures { IsFirstOfAll pins.now turn.old turn.new result }
{
    let mut left = all;
    while let Some(from) = left.pop_first() {
        if begin_any(pins, from, left, turn) {
            return true;
        }
    }
    false
}
