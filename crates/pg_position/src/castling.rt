//! Castling: the squares to which the king goes by it.
ghost use Rattle.std.specs.Prelude.{◌≡◌, ◌<◌, ℕ, ◌↔◌, IsTrue, true};
ghost use Rattle.pg_position.specs.Attack.{IsClear};
ghost use Rattle.pg_position.specs.Geometry.{IsBetween};
ghost use Rattle.pg_board.specs.SquareSets.{IsSetOf};
ghost use Rattle.pg_position.specs.Step.{CastlesTo};
ghost use Rattle.pg_position.specs.Squares.{king_home, rook_home};
ghost use Rattle.pg_position.specs.inner.Castling.{IsOpen, IsSafe, IsSafeTo};

use crate::attack::attacked;
use crate::rights::Wing;
use crate::squares::{king_crossed, king_home, king_target};
use crate::state::State;
use pg_board::{Board, Color, Kind, SquareSet};

// The squares between the king's home and the rook's.
fn path(color: Color, wing: Wing) -> SquareSet
    ensures { IsSetOf result (λ t. IsBetween (king_home color) t (rook_home color wing)) }
{
    match color {
        Color::White => match wing {
            Wing::KingSide => SquareSet::of_bits(0x60),
            Wing::QueenSide => SquareSet::of_bits(0x0e),
        },
        Color::Black => match wing {
            Wing::KingSide => SquareSet::of_bits(0x6000_0000_0000_0000),
            Wing::QueenSide => SquareSet::of_bits(0x0e00_0000_0000_0000),
        },
    }
}

// Whether no man stands between the king's home and the rook's.
fn is_path_clear(board: &Board, color: Color, wing: Wing) -> bool
    ensures { IsTrue result ↔ IsClear board.now (king_home color) (rook_home color wing) }
{
    !path(color, wing).meets(board.occupied())
}

impl State {
    // Whether the right is held, and no man stands in the way.
    pub(crate) fn is_castling_open(&self, wing: Wing) -> bool
        ensures { IsTrue result ↔ IsOpen self.now wing }
    {
        self.rights.holds(self.side, wing) && is_path_clear(&self.board, self.side, wing)
    }

    // Whether neither the square that the king crosses nor the one that he comes to is attacked.
    pub(crate) fn is_castling_safe(&self, wing: Wing) -> bool
        ensures { IsTrue result ↔ IsSafe self.now wing }
    {
        let by = self.side.other();
        !attacked(&self.board, king_crossed(self.side, wing), by)
            && !attacked(&self.board, king_target(self.side, wing), by)
    }

    // Where the king goes towards a wing whose way is open.
    fn target_if_safe(&self, way: bool, wing: Wing) -> SquareSet
        ensures { IsSetOf result (IsSafeTo self.now way wing) }
    {
        if way && self.is_castling_safe(wing) {
            SquareSet::single(king_target(self.side, wing))
        } else {
            SquareSet::empty()
        }
    }

    // The squares to which the king castles towards wings whose ways are open: not inlined, since most kings have
    // none.
    #[inline(never)]
    fn targets_from_home(&self, short: bool, long: bool) -> SquareSet
        requires short { IsTrue short ↔ IsOpen self.now Wing.KingSide }
        requires long { IsTrue long ↔ IsOpen self.now Wing.QueenSide }
        ensures { IsSetOf result (CastlesTo self.now) }
    {
        if attacked(&self.board, king_home(self.side), self.side.other()) {
            return SquareSet::empty();
        }
        self.target_if_safe(short, Wing::KingSide) | self.target_if_safe(long, Wing::QueenSide)
    }

    // The squares to which the king castles. That he can at all is asked where he stands, inlined.
    #[inline(always)]
    pub(crate) fn castling_targets(&self) -> SquareSet
        ensures { IsSetOf result (CastlesTo self.now) }
    {
        let short = self.is_castling_open(Wing::KingSide);
        let long = self.is_castling_open(Wing::QueenSide);
        if !short && !long {
            return SquareSet::empty();
        }
        self.targets_from_home(short, long)
    }
}
