//! What a legal move takes, told from the position before it.
ghost use Rattle.std.specs.Prelude.{◌≡◌, ◌↔◌, ◌≤◌, IsTrue};
ghost use Rattle.pg_captures.specs.Owed.{victims};
ghost use Rattle.pg_captures.specs.Taking.{Takes, TakesPassing};
ghost use Rattle.pg_position.specs.declared.state.State.{State};
ghost use Rattle.pg_position.specs.Step.{IsEnemy, IsLegal, Legal};

use crate::captures::victims_of;
use pg_board::{Kind, Man};
use pg_position::{Move, Position};

// Whether a man of the other colour stands where the move goes.
fn takes_there(position: &Position, m: &Move) -> bool
    ensures { IsTrue result ↔ IsEnemy position.now.board position.now.side m.now.to }
{
    let theirs = position.board().squares_of_color(position.side().other());
    theirs.contains(m.to)
}

// Whether a pawn goes to the passed square from another file.
fn takes_passing(position: &Position, m: &Move) -> bool
    ensures { IsTrue result ↔ TakesPassing position.now m.now }
{
    let Some(passed) = position.passed() else {
        return false;
    };
    if passed != m.to {
        return false;
    }
    let pawns = position
        .board()
        .squares_of(Man::new(position.side(), Kind::Pawn));
    pawns.contains(m.from) && m.from.file() != m.to.file()
}

// Whether a legal move takes a man.
#[inline(always)]
#[tactic(auto, unfolding(crate::specs::Taking::Takes))]
fn takes(position: &Position, m: &Move) -> bool
    ensures { IsTrue result ↔ Takes position.now m.now }
{
    takes_there(position, m) || takes_passing(position, m)
}

// How many men the side that is not to move has after a legal move.
#[inline(always)]
pub(crate) fn victims_after(position: &Position, m: &Move) -> u8
    requires { IsLegal position.now m.now }
    ensures value { (q : State) → Legal position.now m.now q → result ≡ victims position.now.side q.board }
    ensures few { result ≤ 64 }
{
    let here = victims_of(&position.board(), position.side());
    if takes(position, m) {
        here.saturating_sub(1)
    } else {
        here
    }
}
