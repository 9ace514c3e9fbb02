//! The men of the side to move one after the other, and where each goes: pawns that need no trial by
//! sets shifted along the board.
ghost use Rattle.std.specs.Prelude.{◌≡◌, ◌≢◌, ℕ, ◌<◌, IsTrue, true, false};
ghost use Rattle.pg_board.specs.Bits.{has};
ghost use Rattle.pg_board.specs.Men.{is_of, other};
ghost use Rattle.pg_board.specs.Placement.{get};
ghost use Rattle.pg_board.specs.Squares.{rank};
ghost use Rattle.pg_board.specs.SquareSets.{IsSetOf};
ghost use Rattle.pg_position.specs.Position.{Stands};
ghost use Rattle.pg_position.specs.Squares.{HasAhead};
ghost use Rattle.pg_moves.specs.inner.Men.{AreMen, AreKept};
ghost use Rattle.pg_moves.specs.inner.Pawns.{forward, IsInside, one_rank};
ghost use Rattle.pg_moves.specs.inner.Sources.{IsExact};
ghost use Rattle.pg_moves.specs.inner.Steps.{StepsTo, leap_rank};
ghost use Rattle.pg_moves.specs.Targets.{IsOwn, Leaps, Advances};

use crate::guards::find_guard;
use crate::pawns::quiet_pawns;
use crate::player::Player;
use pg_board::{Board, Color, Kind, Man, Square, SquareSet};
use pg_position::{Position, ahead, attacks_from};

// The squares one rank ahead of those of the set.
#[inline(always)]
fn one_ahead(set: SquareSet, color: Color) -> SquareSet
    ensures { (q : ℕ) → q < 64 → IsInside (other color) one_rank q
        → has result q ≡ has set (forward (other color) one_rank q) }
{
    match color {
        Color::White => SquareSet::of_bits(set.bits() << 8),
        Color::Black => SquareSet::of_bits(set.bits() >> 8),
    }
}

// The squares of the rank to which the colour's pawns go by two squares from home.
#[inline(always)]
fn leap_squares(color: Color) -> SquareSet
    ensures { IsSetOf result (λ q. rank q ≡ leap_rank color) }
{
    match color {
        Color::White => SquareSet::of_rank(4),
        Color::Black => SquareSet::of_rank(5),
    }
}

// The square in front of a pawn, if that is empty.
#[inline(always)]
fn first_step(board: &Board, color: Color, from: Square) -> SquareSet
    requires { HasAhead color 1 from }
    ensures { IsSetOf result (StepsTo board.now color from) }
{
    // A fact for the proof: the square is on the board.
    from.index();
    SquareSet::single(ahead(color, 1, from)) - board.occupied()
}

// Where a pawn at home goes two squares forward, of which the first is this: no branch tells whether it
// is at home.
#[inline(always)]
fn second_step(board: &Board, color: Color, from: Square, once: SquareSet) -> SquareSet
    requires { IsSetOf once (StepsTo board.now color from) }
    ensures { IsSetOf result (Leaps board.now color from) }
{
    // A fact for the proof: the square is on the board.
    from.index();
    let twice = one_ahead(once, color) & leap_squares(color);
    twice - board.occupied()
}

// Where a pawn goes or captures, en passant apart.
#[inline(always)]
fn pawn_advances(board: &Board, color: Color, from: Square) -> SquareSet
    requires { HasAhead color 1 from }
    ensures { IsSetOf result (Advances board.now color Kind.Pawn from) }
{
    let pawn = Man::new(color, Kind::Pawn);
    let taken = attacks_from(board, pawn, from) & board.squares_of_color(color.other());
    let once = first_step(board, color, from);
    let near = taken | once;
    near | second_step(board, color, from, once)
}

// What is known of all men of the side to move: which of them may be pinned, and to which squares the others may go
// that no man of theirs has; and which of the others are pawns that neither promote nor capture en passant.
#[derive(Clone, Copy)]
pub(crate) struct Men {
    pub(crate) pinned: SquareSet,
    pub(crate) quiet: SquareSet,
    pub(crate) allowed: SquareSet,
}

// What is kept before the men are looked at.
pub(crate) fn no_men() -> Men
    ensures { result.pinned ≡ 0 }
{
    Men {
        pinned: SquareSet::empty(),
        quiet: SquareSet::empty(),
        allowed: SquareSet::empty(),
    }
}

// The squares of the men of the side to move.
#[inline(always)]
pub(crate) fn own_men(position: &Position) -> SquareSet
    ensures { (q : ℕ) → q < 64 → has result q ≡ is_of position.now.side (get position.now.board q) }
{
    position.board().squares_of_color(position.side())
}

// What is known of the men: once for a position, also where its king is attacked. Not inlined, since few calls of the
// cursor are the first ones.
#[inline(never)]
fn find_men(position: &Position) -> Men
    ensures { AreMen position.now result }
{
    let board = position.board();
    let color = position.side();
    let player = Player::new(position, &board, color);
    let guard = find_guard(&player);
    let own = board.squares_of_color(color);
    let free = own - guard.pinned;
    Men {
        pinned: guard.pinned,
        quiet: quiet_pawns(&player, &guard, free),
        allowed: guard.goals - own,
    }
}

// Whether the men were looked at: the king at least may be pinned then.
#[inline(always)]
pub(crate) fn are_known(men: &Men) -> bool
    ensures { IsTrue result → men.now.pinned ≢ 0 }
{
    !men.pinned.is_empty()
}

// The men are looked at, unless they were.
#[inline(always)]
pub(crate) fn keep_men(position: &Position, men: &mut Men)
    requires { AreKept position.now men.old }
    ensures { AreMen position.now men.new }
{
    if !are_known(men) {
        *men = find_men(position);
    }
}

// Where a quiet pawn goes.
#[inline(always)]
pub(crate) fn pawn_set(position: &Position, men: &Men, from: Square) -> SquareSet
    requires men { AreMen position.now men.now }
    requires quiet { has men.now.quiet from ≡ true }
    ensures exact { IsExact position.now from result }
    ensures stands { Stands position.now.board position.now.side Kind.Pawn from }
{
    // A fact for the proof: the square is on the board.
    from.index();
    pawn_advances(&position.board(), position.side(), from) & men.allowed
}

// Where a piece of this kind goes that cannot be pinned, no king: its attack is asked for here, with the kind known, so
// that it is inlined.
#[inline(always)]
pub(crate) fn piece_set(position: &Position, men: &Men, kind: Kind, from: Square) -> SquareSet
    requires men { AreMen position.now men.now }
    requires stands { Stands position.now.board position.now.side kind from }
    requires free { has men.now.pinned from ≡ false }
    requires pawn { kind ≢ Kind.Pawn }
    ensures { IsExact position.now from result }
{
    // A fact for the proof: the square is on the board.
    from.index();
    attacks_from(&position.board(), Man::new(position.side(), kind), from) & men.allowed
}

// Whether the man of the side to move on a square is of this kind: his colour is not looked up.
#[inline(always)]
pub(crate) fn is_of_kind(position: &Position, kind: Kind, from: Square) -> bool
    requires { IsOwn position.now.board position.now.side from }
    ensures { IsTrue result → Stands position.now.board position.now.side kind from }
{
    let board = position.board();
    let white = board.squares_of(Man::new(Color::White, kind));
    let black = board.squares_of(Man::new(Color::Black, kind));
    (white | black).contains(from)
}
