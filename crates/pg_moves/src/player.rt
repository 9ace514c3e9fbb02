//! The player who has the move: a position with its board and the side to move.
ghost use Rattle.std.specs.Prelude.{◌≡◌};
ghost use Rattle.pg_position.specs.Position.{IsPosition};

use pg_board::{Board, Color};
use pg_position::Position;
use std::marker::Model;

// The player who has the move. Contracts see the position: the board is that of the position, the colour that of the
// side to move. Those who take one are inlined, so it is kept nowhere; with its colour handed in, each colour has code
// of its own.
#[derive(Drop)]
pub(crate) struct Player<'a> {
    position: &'a Position,
    board: &'a Board,
    color: Color,
}

impl<'a> Model for Player<'a> {
    ghost use Rattle.std.specs.Prelude.{◌≡◌};
    ghost use Rattle.pg_position.specs.declared.state.State.{State};
    ghost use Rattle.pg_position.specs.contracts.state.State.{the_row as state_row};

    ghost Value = { State };

    ghost coded = { state_row.coded };

    ghost view = { λ a. a.position.now };

    ghost invariant = { λ a. (a.board.now ≡ a.position.now.board) × (a.color ≡ a.position.now.side) };
}

impl<'a> Player<'a> {
    #[inline(always)]
    pub(crate) fn new(position: &'a Position, board: &'a Board, color: Color) -> Player<'a>
        requires board { board.now ≡ position.now.board }
        requires color { color ≡ position.now.side }
        ensures { result ≡ position.now }
    {
        Player {
            position,
            board,
            color,
        }
    }

    #[inline(always)]
    pub(crate) fn position(&self) -> &'a Position
        ensures { result.now ≡ self.now }
    {
        self.position
    }

    #[inline(always)]
    pub(crate) fn board(&self) -> &'a Board
        ensures { result.now ≡ self.now.board }
    {
        self.board
    }

    #[inline(always)]
    pub(crate) fn color(&self) -> Color
        ensures value { result ≡ self.now.side }
        ensures position { IsPosition self.now }
    {
        // A fact for the proof: what is kept is a position.
        self.position.side();
        self.color
    }
}
