//! What stands where, and which squares are attacked.
ghost use Rattle.std.specs.Prelude.{◌≡◌, ◌↔◌, ◌≤◌, ◌<◌, ℕ, IsTrue};
ghost use Rattle.pg_board.specs.Squares.{file};
ghost use Rattle.pg_position.specs.Geometry.{IsForward};
ghost use Rattle.pg_position.specs.Attack.{Reaches, Attacks};
ghost use Rattle.pg_position.specs.Position.{Stands, IsVacant, InCheck};
ghost use Rattle.pg_position.specs.Step.{IsEnemy, Goes};

use crate::attack::attacked;
use crate::reaching::reaches;
use crate::state::State;
use pg_board::{Board, Color, Kind, Man, Square};

/// Whether a man of this colour and kind stands on the square.
pub fn stands(board: &Board, color: Color, kind: Kind, square: Square) -> bool
    ensures { IsTrue result ↔ Stands board.now color kind square }
{
    board.squares_of(Man::new(color, kind)).contains(square)
}

/// Whether no man stands on the square.
pub fn is_vacant(board: &Board, square: Square) -> bool
    ensures { IsTrue result ↔ IsVacant board.now square }
{
    !board.occupied().contains(square)
}

/// Whether a man of the other colour stands on the square.
#[tactic(auto, unfolding(crate::specs::Step::IsEnemy))]
pub fn is_enemy(board: &Board, color: Color, square: Square) -> bool
    ensures { IsTrue result ↔ IsEnemy board.now color square }
{
    board.squares_of_color(color.other()).contains(square)
}

// Whether `to` is `ranks` ranks forward of `from`.
pub(crate) fn is_forward(color: Color, ranks: u8, from: Square, to: Square) -> bool
    requires { ranks < 9 }
    ensures { IsTrue result ↔ IsForward color ranks from to }
{
    match color {
        Color::White => to.rank() == from.rank() + ranks,
        Color::Black => from.rank() == to.rank() + ranks,
    }
}

// Whether a man may go to an empty square.
#[tactic(auto, unfolding(crate::specs::Step::Goes))]
pub(crate) fn goes(board: &Board, man: &Man, from: Square, to: Square) -> bool
    ensures { IsTrue result ↔ Goes board.now man.now.color man.now.kind from to }
{
    match man.kind {
        Kind::Pawn => from.file() == to.file() && is_forward(man.color, 1, from, to),
        _ => reaches(board, *man, from, to),
    }
}

// Whether a king of the colour is attacked.
#[inline(never)]
pub(crate) fn in_check(board: &Board, color: Color) -> bool
    ensures { IsTrue result ↔ InCheck board.now color }
{
    let mut kings = board.squares_of(Man::new(color, Kind::King));
    while let Some(king) = kings.pop_first() {
        if attacked(board, king, color.other()) {
            return true;
        }
    }
    false
}

impl State {
    // Whether a man of the colour attacks the square.
    pub(crate) fn is_attacked(&self, square: Square, by: Color) -> bool
        ensures { IsTrue result ↔ Attacks self.now.board by square }
    {
        attacked(&self.board, square, by)
    }

    // Whether a king of the side to move is attacked.
    pub(crate) fn is_in_check(&self) -> bool
        ensures { IsTrue result ↔ InCheck self.now.board self.now.side }
    {
        in_check(&self.board, self.side)
    }
}
