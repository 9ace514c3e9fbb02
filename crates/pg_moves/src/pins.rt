//! Which men may be pinned, so that some of their moves may leave their king attacked.
ghost use Rattle.std.specs.Prelude.{◌≡◌, ◌↔◌, ℕ, ◌<◌, IsTrue, IsFalse, false};
ghost use Rattle.pg_board.specs.Bits.{has};
ghost use Rattle.pg_board.specs.Men.{is_man, is_of, man, other};
ghost use Rattle.pg_board.specs.Placement.{get, without};
ghost use Rattle.pg_position.specs.Attack.{Attacks};
ghost use Rattle.pg_position.specs.Position.{Stands};
ghost use Rattle.pg_moves.specs.inner.Parries.{IsLineKind, IsPinnedAlong};
ghost use Rattle.pg_moves.specs.Targets.{FreeOff, IsOrdinary, IsOwn, IsTried, only};

use crate::targets::en_passant_targets;
use pg_board::{Board, Color, Kind, Man, Sets, Square, SquareSet};
use pg_position::{Position, attacked, attacks_from, home_rank};
use std::marker::Model;

// A position, and the squares of the men of the side to move that may be pinned: all others are free. Contracts see the
// position. Those who take one are inlined, so it is kept nowhere.
#[derive(Drop)]
pub(crate) struct Pins<'a> {
    position: &'a Position,
    maybe_pinned: SquareSet,
}

impl<'a> Model for Pins<'a> {
    ghost use Rattle.pg_position.specs.declared.state.State.{State};
    ghost use Rattle.pg_position.specs.contracts.state.State.{the_row as state_row};
    ghost use Rattle.pg_moves.specs.Targets.{FreeOff};

    ghost Value = { State };

    ghost coded = { state_row.coded };

    ghost view = { λ a. a.position.now };

    ghost invariant = { λ a. FreeOff a.position.now a.maybe_pinned };
}

impl<'a> Pins<'a> {
    #[inline(always)]
    pub(crate) fn new(position: &'a Position, maybe_pinned: SquareSet) -> Pins<'a>
        requires { FreeOff position.now maybe_pinned }
        ensures { result ≡ position.now }
    {
        Pins {
            position,
            maybe_pinned,
        }
    }

    // Where nothing is known of the men, each may be pinned.
    #[inline(always)]
    #[tactic(auto, using(crate::proofs::LeafLemmas::free_none_off))]
    pub(crate) fn all(position: &'a Position) -> Pins<'a>
        ensures { result ≡ position.now }
    {
        Pins {
            position,
            maybe_pinned: SquareSet::full(),
        }
    }

    #[inline(always)]
    pub(crate) fn position(&self) -> &'a Position
        ensures { result.now ≡ self.now }
    {
        self.position
    }

    #[inline(always)]
    pub(crate) fn maybe_pinned(&self) -> SquareSet
        ensures { FreeOff self.now result }
    {
        self.maybe_pinned
    }
}

// The squares with this man, as the bits of a number.
fn bits_of(board: &Board, color: Color, kind: Kind) -> u64
    ensures { (q : ℕ) → q < 64 → has result q ≡ is_man (man color kind) (get board.now q) }
{
    board.squares_of(Man::new(color, kind)).bits()
}

// The squares of the side where the colour's men stand alone, as the bits of a number: theirs, or none.
fn alone_of(board: &Board, color: Color, side: Color) -> u64
    ensures { (q : ℕ) → q < 64 → has result q ≡ is_of side (only color (get board.now q)) }
{
    match color {
        Color::White => match side {
            Color::White => board.squares_of_color(Color::White).bits(),
            Color::Black => 0,
        },
        Color::Black => match side {
            Color::White => 0,
            Color::Black => board.squares_of_color(Color::Black).bits(),
        },
    }
}

// The men of the colour alone.
pub(crate) fn men_of(board: &Board, color: Color) -> Board
    ensures { (q : ℕ) → q < 64 → get result q ≡ only color (get board.now q) }
{
    let white = alone_of(board, color, Color::White);
    let black = alone_of(board, color, Color::Black);
    let pawns = bits_of(board, color, Kind::Pawn);
    let knights = bits_of(board, color, Kind::Knight);
    let bishops = bits_of(board, color, Kind::Bishop);
    let rooks = bits_of(board, color, Kind::Rook);
    let queens = bits_of(board, color, Kind::Queen);
    let kings = bits_of(board, color, Kind::King);
    Board::of_sets(Sets {
        pawns,
        knights,
        bishops,
        rooks,
        queens,
        kings,
        white,
        black,
    })
}

// Whether the other colour would attack the square with none of the colour's men on the board.
#[inline(always)]
pub(crate) fn attacked_alone(board: &Board, square: Square, color: Color) -> bool
    ensures { IsFalse result → (r : ℕ) → IsOwn board.now color r
        → ¬ Attacks (without board.now r) (other color) square }
{
    attacked(&men_of(board, color.other()), square, color.other())
}

// The squares that are seen from the square along the lines of the kind, if a man of the other colour would
// attack it along them with none of the colour's men on the board; else none, for no man is pinned there.
fn seen_if_pinned(board: &Board, square: Square, color: Color, kind: Kind) -> SquareSet
    requires { IsLineKind kind }
    ensures { (r : ℕ) → r < 64 → IsOwn board.now color r → has result r ≡ false
        → ¬ IsPinnedAlong board.now color kind square r }
{
    let by = color.other();
    let man = Man::new(by, kind);
    let queens = board.squares_of(Man::new(by, Kind::Queen));
    let sliders = board.squares_of(man) | queens;
    if attacks_from(&men_of(board, by), man, square).meets(sliders) {
        attacks_from(board, man, square)
    } else {
        SquareSet::empty()
    }
}

// The squares of the men that may be pinned: the king's alone where he would not be attacked with none of his men on
// the board. Else all in check, and else the king's and those that are seen from there along the lines of rooks, or of
// bishops, by which he would be attacked then. Not inlined: else `next_legal`, which asks, spills its registers.
#[inline(never)]
pub(crate) fn maybe_pinned(position: &Position) -> SquareSet
    ensures { FreeOff position.now result }
{
    let side = position.side();
    let board = position.board();
    match board.king(side) {
        Some(king) => {
            if !attacked_alone(&board, king, side) {
                SquareSet::single(king)
            } else if position.in_check() {
                SquareSet::full()
            } else {
                let straight = seen_if_pinned(&board, king, side, Kind::Rook);
                let diagonal = seen_if_pinned(&board, king, side, Kind::Bishop);
                straight | diagonal | SquareSet::single(king)
            }
        }
        None => SquareSet::full(),
    }
}

// Whether the man is a pawn that may promote or capture en passant.
#[inline(always)]
pub(crate) fn is_special(position: &Position, kind: Kind, from: Square) -> bool
    requires { Stands position.now.board position.now.side kind from }
    ensures ordinary { IsFalse result → IsOrdinary position.now kind from }
    ensures tried { IsTrue result → IsTried position.now from }
{
    match kind {
        Kind::Pawn => {
            if en_passant_targets(position, from).is_empty() {
                from.rank() == home_rank(position.side().other())
            } else {
                true
            }
        }
        _ => false,
    }
}
