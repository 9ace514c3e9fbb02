//! Positions in few bytes.
ghost use Rattle.std.specs.Prelude.{◌≡◌, ◌↔◌, IsTrue};
ghost use Rattle.std.specs.Cmp.{partial_equiv_from_equiv, decided};
ghost use Rattle.pg_position.specs.Equality.{AreAlike, state_eq};
ghost use Rattle.pg_position.specs.lemmas.Equalities.{state_eq_decides};

use crate::position::Position;
use crate::rights::Rights;
use crate::state::State;
use pg_board::{Color, PackedBoard, Square};
use std::marker::Model;

/// A position in 40 bytes, for keeping many of them. Contracts see it as the four parts of the
/// position.
#[derive(Clone, Copy, Debug)]
pub struct PackedPosition {
    board: PackedBoard,
    side: Color,
    rights: Rights,
    passed: Option<Square>,
}

impl Model for PackedPosition {
    ghost use Rattle.pg_position.specs.declared.state.State.{State};
    ghost use Rattle.pg_position.specs.Position.{parts, IsPosition};
    ghost use Rattle.pg_position.specs.contracts.state.State.{the_row as state_row};

    ghost Value = { State };

    ghost coded = { state_row.coded };

    ghost view = { λ p. record { board = p.board; side = p.side; rights = p.rights; passed = p.passed } };

    ghost invariant = { λ p. IsPosition (parts p.board p.side p.rights p.passed) };

    ghost inverse = { λ s. record { board = s.board; side = s.side; rights = s.rights; passed = s.passed } };
}

impl PackedPosition {
    /// The same position.
    pub fn position(&self) -> Position
        ensures { result ≡ self.now }
    {
        Position::of_state(State {
            board: self.board.board(),
            side: self.side,
            rights: self.rights,
            passed: self.passed,
        })
    }
}

fn are_alike(a: &PackedPosition, b: &PackedPosition) -> bool
    ensures { IsTrue result ↔ AreAlike a.now b.now }
{
    a.board == b.board && a.side == b.side && a.rights == b.rights && a.passed == b.passed
}

/// Two packed positions are equal where they are the same position.
impl PartialEq for PackedPosition {
    ghost eq = { state_eq };

    ghost laws = { partial_equiv_from_equiv (decided state_eq state_eq_decides) };

    fn eq(&self, other: &PackedPosition) -> bool
        ensures value { result ≡ state_eq self.now other.now }
        ensures same { IsTrue result ↔ (self.now ≡ other.now) }
    {
        are_alike(self, other)
    }
}

impl Eq for PackedPosition {
    ghost laws = { decided state_eq state_eq_decides };
}

impl Position {
    /// The same position in 40 bytes.
    pub fn packed(&self) -> PackedPosition
        ensures { result ≡ self.now }
    {
        PackedPosition {
            board: self.board().packed(),
            side: self.side(),
            rights: self.rights(),
            passed: self.passed(),
        }
    }
}
