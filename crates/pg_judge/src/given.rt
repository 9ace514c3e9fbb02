//! What the author's game is to its problem.
ghost use Rattle.std.specs.Prelude.{◌≡◌, ◌<◌, None, Some, length as length_of, slice_get, List};
ghost use Rattle.pg_judge.specs.Ruling.{IsGiven};
ghost use Rattle.pg_position.specs.declared.moves.Move.{Move};

use crate::entry::Entry;
use pg_checker::{ListFault, check_listed};
use pg_san::Games;

/// What the author's game is to its problem. It fails by the last three.
#[derive(Clone, Copy, Debug, PartialEq, Eq)]
pub enum Given {
    /// None is given.
    NoGame,
    /// It has the stated length and ends on the diagram.
    Solves,
    /// Its word of this ply, counted from 1, is no move there.
    StopsAt(usize),
    /// It has so many plies, and not as many as stated.
    OfPlies(usize),
    /// It has the stated length and does not end on the diagram.
    EndsElsewhere,
}

// The plies of the game of a list with this index.
fn plies_at(games: &Games, at: usize) -> usize
    requires { at < length_of games.now }
    ensures { (game : List Move) × (slice_get games.now at ≡ Some game) × (length_of game ≡ result) }
{
    let Some(game) = games.game(at) else {
        unreachable!();
    };
    game.len()
}

// What the author's game is, where each of its words is read.
fn read_given(entry: &Entry<'_>) -> Given
    requires { entry.now.bad ≡ None }
    ensures { IsGiven entry.now result }
{
    if entry.games.len() == 0 {
        return Given::NoGame;
    }
    match check_listed(&entry.problem.diagram, entry.problem.length, &entry.games) {
        Ok(()) => Given::Solves,
        Err(ListFault::WrongLength(at)) => Given::OfPlies(plies_at(&entry.games, at)),
        Err(ListFault::NotReaching(_)) => Given::EndsElsewhere,
    }
}

/// What the author's game is to its problem; of more than one the first that fails. Takes no memory.
pub fn given_to(entry: &Entry<'_>) -> Given
    ensures { IsGiven entry.now result }
{
    match &entry.bad {
        Some(bad) => Given::StopsAt(bad.ply),
        None => read_given(entry),
    }
}
