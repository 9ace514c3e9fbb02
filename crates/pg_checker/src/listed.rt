//! The listed games.
ghost use Rattle.std.specs.Prelude.{◌≡◌, ◌↔◌, ℕ, IsTrue, MatchResult, OnOk, IfErr};
ghost use Rattle.pg_position.specs.Array.{array_state};
ghost use Rattle.pg_position.specs.declared.state.State.{State};
ghost use Rattle.pg_position.specs.Game.{IsGame};
ghost use Rattle.pg_san.specs.Games.{IsFromArray};
ghost use Rattle.pg_checker.specs.Answer.{IsSolution, AreSolutions};
ghost use Rattle.pg_checker.specs.Listed.{IsGameFault, IsListFault};

use crate::fault::ListFault;
use pg_fen::{Diagram, Length};
use pg_position::{Move, Position};
use pg_san::Games;

// The last position of a game.
fn end_of(game: &[Move]) -> Position
    requires { IsFromArray game.now }
    ensures { IsGame array_state game.now result }
{
    let mut position = Position::array();
    for m in game {
        position = position.after(m);
    }
    position
}

// Whether a game ends on the diagram.
fn reaches(diagram: &Diagram, game: &[Move]) -> bool
    requires { IsFromArray game.now }
    ensures { IsTrue result ↔ ((r : State) × IsGame array_state game.now r × (r.board ≡ diagram.now)) }
{
    diagram.matches(&end_of(game))
}

// Whether a game of the list, that with the index, is a solution.
fn check_game(diagram: &Diagram, plies: usize, game: &[Move], i: usize) -> Result<(), ListFault>
    requires { IsFromArray game.now }
    ensures ok { OnOk result (IsSolution diagram.now plies game.now) }
    ensures err { IfErr result (λ e. IsGameFault diagram.now plies game.now i e) }
{
    if game.len() != plies {
        Err(ListFault::WrongLength(i))
    } else if reaches(diagram, game) {
        Ok(())
    } else {
        Err(ListFault::NotReaching(i))
    }
}

/// Whether each listed game is a solution: a game of the stated length from the initial array that ends
/// on the diagram. Takes no memory.
///
/// # Errors
/// Of the first game in canonical order, counted from 0, that is no solution: `WrongLength` where it
/// has another number of plies, otherwise `NotReaching`.
pub fn check_listed(diagram: &Diagram, length: Length, games: &Games) -> Result<(), ListFault>
    ensures ok { OnOk result (AreSolutions diagram.now length games.now) }
    ensures err { IfErr result (λ e. IsListFault diagram.now length games.now e) }
{
    let plies = usize::from(length.plies());
    for i in 0..games.len() {
        let Some(game) = games.game(i) else {
            unreachable!();
        };
        match check_game(diagram, plies, game, i) {
            Ok(()) => {}
            Err(fault) => return Err(fault),
        }
    }
    Ok(())
}
