//! Positions with the same future.
ghost use Rattle.std.specs.Prelude.{◌≡◌, ◌↔◌, ℕ, ◌<◌, IsTrue};
ghost use Rattle.pg_position.specs.Future.{IsPawnAttacked, IsEffective, SameFuture};

use crate::attack::pawn_attacks;
use crate::state::State;
use pg_board::Square;

impl State {
    // Whether a pawn of the side to move attacks the square.
    fn is_pawn_attacked(&self, square: Square) -> bool
        ensures { IsTrue result ↔ IsPawnAttacked self.now square }
    {
        pawn_attacks(&self.board, square, self.side)
    }

    // The passed square where a pawn of the side to move attacks it, else none.
    pub(crate) fn effective_passed(&self) -> Option<Square>
        ensures { IsEffective self.now result }
    {
        match self.passed {
            Some(square) => {
                if self.is_pawn_attacked(square) {
                    Some(square)
                } else {
                    None
                }
            }
            None => None,
        }
    }
}

pub(crate) fn same_future(a: &State, b: &State) -> bool
    ensures { IsTrue result ↔ SameFuture a.now b.now }
{
    a.board == b.board
        && a.side == b.side
        && a.rights == b.rights
        && a.effective_passed() == b.effective_passed()
}
