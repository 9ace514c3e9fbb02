//! A game of a list that is no solution: on which line it stands, how long it is, and where it ends.
ghost use Rattle.std.specs.Prelude.{IfOk, IfSome};
ghost use Rattle.pg_position.specs.Array.{array_state};
ghost use Rattle.pg_position.specs.Game.{IsGame};
ghost use Rattle.pg_hints.specs.Misfits.{IsMisfit};

use crate::places::{games_of, line_of};
use pg_fen::Diagram;
use pg_position::{Move, Position};
use std::alloc::{AllocError, Global};

/// A game of a list: the number of its line, from 1, its plies, and the diagram on which it ends.
#[derive(Clone, Copy, Debug)]
pub struct Misfit {
    pub line: usize,
    pub plies: usize,
    pub end: Diagram,
}

// The last position of a game from the initial array; none where a move is not legal.
fn end_of(game: &[Move]) -> Option<Position>
    ensures { IfSome result (λ last. IsGame array_state game.now last) }
{
    let mut position = Position::array();
    for m in game {
        let Ok(next) = position.play(*m) else {
            return None;
        };
        position = next;
    }
    Some(position)
}

/// The game of a list with this index, counted from 0 in canonical order; none where the list is refused or has no more
/// games than that.
///
/// # Errors
/// Memory is refused, which is taken from `alloc`, for a line that is a game.
pub fn misfit_of(alloc: Global, list: &str, at: usize) -> Result<Option<Misfit>, AllocError>
    ensures { IfOk result (λ found. IfSome found (λ found. IsMisfit list.now at found)) }
{
    let Some(games) = games_of(alloc, list)? else {
        return Ok(None);
    };
    let Some(game) = games.game(at) else {
        return Ok(None);
    };
    let Some(last) = end_of(game) else {
        return Ok(None);
    };
    match line_of(alloc, list, game)? {
        Some(line) => Ok(Some(Misfit {
            line,
            plies: game.len(),
            end: Diagram::of(&last),
        })),
        None => Ok(None),
    }
}
