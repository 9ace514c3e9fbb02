//! Where the men of the side to move may go, as sets of squares.
ghost use Rattle.std.specs.Prelude.{◌≡◌, ◌≢◌, ℕ, ◌+◌, ◌-◌, ◌*◌, ◌<◌, ◌↔◌, IsTrue, true, Some};
ghost use Rattle.pg_board.specs.Squares.{file, rank};
ghost use Rattle.pg_position.specs.Geometry.{IsForward};
ghost use Rattle.pg_board.specs.SquareSets.{IsSetOf};
ghost use Rattle.pg_position.specs.Position.{Stands, IsVacant};
ghost use Rattle.pg_position.specs.Squares.{ahead, home_rank};
ghost use Rattle.pg_moves.specs.Targets.{IsOwn, Strides, Leaps, Advances, CapturesEnPassant, Covers};

use crate::parries::parries;
use pg_board::{Board, Color, Kind, Man, Square, SquareSet};
use pg_position::{Position, ahead, attacks_from, has_ahead, home_rank, is_vacant};

// The square in front: none at the edge.
#[inline(always)]
fn in_front(color: Color, from: Square) -> SquareSet
    ensures { IsSetOf result (λ q. (file from ≡ file q) × IsForward color 1 from q) }
{
    // A fact for the proof: the square is on the board.
    from.index();
    if has_ahead(color, 1, from) {
        SquareSet::single(ahead(color, 1, from))
    } else {
        SquareSet::empty()
    }
}

// Where a pawn goes one square forward or captures.
#[inline(always)]
fn pawn_strides(board: &Board, color: Color, from: Square) -> SquareSet
    ensures { IsSetOf result (Strides board.now color Kind.Pawn from) }
{
    let pawn = Man::new(color, Kind::Pawn);
    let taken = attacks_from(board, pawn, from) & board.squares_of_color(color.other());
    taken | (in_front(color, from) - board.occupied())
}

// Where a piece goes or captures.
fn piece_strides(board: &Board, color: Color, kind: Kind, from: Square) -> SquareSet
    requires { kind ≢ Kind.Pawn }
    ensures { IsSetOf result (Strides board.now color kind from) }
{
    attacks_from(board, Man::new(color, kind), from) - board.squares_of_color(color)
}

// Whether a pawn stands at home with two empty squares in front of it.
#[inline(always)]
fn can_leap(board: &Board, color: Color, from: Square) -> bool
    ensures { IsTrue result ↔
        ((rank from ≡ home_rank color) × IsVacant board.now (ahead color 1 from)
        × IsVacant board.now (ahead color 2 from)) }
{
    from.rank() == home_rank(color)
        && is_vacant(board, ahead(color, 1, from))
        && is_vacant(board, ahead(color, 2, from))
}

// Where a pawn at home goes two squares forward.
#[inline(always)]
fn leaps(board: &Board, color: Color, from: Square) -> SquareSet
    ensures { IsSetOf result (Leaps board.now color from) }
{
    if can_leap(board, color, from) {
        SquareSet::single(ahead(color, 2, from))
    } else {
        SquareSet::empty()
    }
}

// Where a man goes or captures, en passant and castling apart.
#[inline(always)]
pub(crate) fn advances(board: &Board, color: Color, kind: Kind, from: Square) -> SquareSet
    ensures { IsSetOf result (Advances board.now color kind from) }
{
    match kind {
        Kind::Pawn => pawn_strides(board, color, from) | leaps(board, color, from),
        _ => piece_strides(board, color, kind, from),
    }
}

// Where a pawn captures en passant.
pub(crate) fn en_passant_targets(position: &Position, from: Square) -> SquareSet
    ensures { IsSetOf result (CapturesEnPassant position.now from) }
{
    match position.passed() {
        Some(square) => {
            let pawn = Man::new(position.side(), Kind::Pawn);
            attacks_from(&position.board(), pawn, from) & SquareSet::single(square)
        }
        None => SquareSet::empty(),
    }
}

// Each square to which a legal move of the man, no king, may go, and maybe more.
pub(crate) fn targets(position: &Position, kind: Kind, from: Square) -> SquareSet
    requires stands { Stands position.now.board position.now.side kind from }
    requires king { kind ≢ Kind.King }
    ensures { Covers position.now from result }
{
    let board = position.board();
    let side = position.side();
    let steps = advances(&board, side, kind, from) & parries(position, kind, from);
    match kind {
        Kind::Pawn => steps | en_passant_targets(position, from),
        _ => steps,
    }
}
