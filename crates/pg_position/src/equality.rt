//! Equality of states, part by part.
ghost use Rattle.std.specs.Prelude.{◌↔◌, IsTrue};
ghost use Rattle.pg_position.specs.Equality.{AreAlike};

use crate::state::State;

pub(crate) fn same_state(a: &State, b: &State) -> bool
    ensures { IsTrue result ↔ AreAlike a.now b.now }
{
    a.board == b.board && a.side == b.side && a.rights == b.rights && a.passed == b.passed
}
