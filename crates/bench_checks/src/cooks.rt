//! Searches for cooks, led by one game.

use crate::fault::Fault;
use pg_fen::{Diagram, Length};
use pg_position::{Move, Position};
use pg_san::read_games;
use pg_searcher::{Led, LedLimits, LedProgress, search_led};

// How far a search is.
#[derive(Clone, Copy, Debug)]
struct Reached {
    foreign: u8,
    plies: u8,
    left: u64,
}

impl LedProgress for Reached {
    fn reached(&mut self, foreign: u8, plies: u8, left: u64) {
        *self = Reached {
            foreign,
            plies,
            left,
        };
    }
}

// The diagram and the length at which a game ends.
fn end_of(game: &[Move]) -> anyhow::Result<(Diagram, Length)> {
    let mut position = Position::array();
    for m in game {
        match position.play(*m) {
            Ok(next) => position = next,
            Err(_) => return Err(Fault::Text)?,
        }
    }
    match Length::from_plies(game.len().min(200) as u8) {
        Some(length) => Ok((Diagram::of(&position), length)),
        None => Err(Fault::Text)?,
    }
}

// Looks for another game, led by one, and prints the numbers.
pub(crate) fn print_one(
    rt: &HostRuntime,
    game: &str,
    nodes: u64,
    foreign: Option<u8>,
) -> anyhow::Result<()> {
    let Ok(games) = read_games(rt.alloc(), game) else {
        return Err(Fault::Text)?;
    };
    let Some(first) = games.game(0) else {
        return Err(Fault::Text)?;
    };
    let (diagram, length) = end_of(first)?;
    let limits = LedLimits {
        max_nodes: nodes,
        foreign,
    };
    let mut reached = Reached {
        foreign: 0,
        plies: 0,
        left: nodes,
    };
    match search_led(rt.alloc(), &diagram, length, &games, limits, &mut reached) {
        Ok(Led::Found(other)) => println!(rt;
            "plies {} foreign {} nodes {}",
            other.len(),
            reached.foreign,
            nodes.saturating_sub(reached.left)
        )?,
        Ok(Led::NotFound { foreign, nodes, .. }) => {
            println!(rt; "none {foreign:?} nodes {nodes}")?
        }
        Err(fault) => return Err(Fault::Led(fault))?,
    }
    Ok(())
}
