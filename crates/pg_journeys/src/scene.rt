//! What plans see of a position: its men without those who rest, the side to move, the rights and the passed square.
ghost use Rattle.std.specs.Prelude.{◌≡◌, ◌≤◌};
ghost use Rattle.pg_position.specs.declared.state.State.{State};
ghost use Rattle.pg_position.specs.Position.{IsPosition, PawnsClause};
ghost use Rattle.pg_captures.specs.Counting.{men, any_man};
ghost use Rattle.pg_journeys.specs.inner.Resting.{lifted_from};
ghost use Rattle.pg_journeys.specs.inner.Sides.{AreMen};

use crate::men::{Men, men_without};
use pg_board::{Color, Square, SquareSet};
use pg_position::{Position, Rights};
use std::marker::Model;

// A position without the men on a set of squares.
#[derive(Drop)]
pub(crate) struct Scene {
    position: Position,
    resting: SquareSet,
}

impl Model for Scene {
    ghost use Rattle.pg_position.specs.declared.state.State.{State};
    ghost use Rattle.pg_position.specs.contracts.state.State.{the_row as state_row};
    ghost use Rattle.pg_journeys.specs.inner.Resting.{lifted_from};

    ghost Value = { State };

    ghost coded = { state_row.coded };

    ghost view = { λ x. lifted_from x.position x.resting };
}

impl Scene {
    // The position without these men.
    pub(crate) fn new(position: &Position, resting: SquareSet) -> Scene
        ensures { result ≡ lifted_from position.now resting }
    {
        Scene {
            position: *position,
            resting,
        }
    }

    // The side to move.
    pub(crate) fn side(&self) -> Color
        ensures value { result ≡ self.now.side }
        ensures seen { (p : State) × IsPosition p × (p.side ≡ self.now.side) × (p.passed ≡ self.now.passed) }
    {
        self.position.side()
    }

    // The rights to castle.
    pub(crate) fn rights(&self) -> Rights
        ensures { result ≡ self.now.rights }
    {
        self.position.rights()
    }

    // The passed square.
    pub(crate) fn passed(&self) -> Option<Square>
        ensures { result ≡ self.now.passed }
    {
        self.position.passed()
    }

    // The men of a colour.
    pub(crate) fn men(&self, color: Color) -> Men
        requires { men color any_man self.now.board ≤ 16 }
        ensures pawns { PawnsClause self.now.board }
        ensures all { AreMen self.now.board color result }
        ensures count { result.count ≡ men color any_man self.now.board }
    {
        men_without(&self.position.board(), color, self.resting)
    }
}
