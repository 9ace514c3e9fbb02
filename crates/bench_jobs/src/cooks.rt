//! The job `cooks`: problems of 4.0 to 5.5 moves, and for each the search for a game beside those that are known.
//! Where a search settles the problem all its games are known, so that none is to be found; else the author's game
//! alone, and then another one is near.
use crate::dice::Dice;
use crate::digest::Digest;
use crate::fault::Fault;
use crate::games::{Game, Manner, play};
use crate::settled::{Came, settle};
use crate::texts::put_line;
use pg_cooks::{CookAnswer, LedLimits, run_cooks};
use pg_report::{Length, Problem, ToWrite, Unwatched};
use pg_san::read_games;
use std::alloc::Global;

// How many nodes the searches visit at most: the one that settles, and the one that is led.
const MOST: u64 = 30_000;

const MOST_LED: u64 = 200_000;

// The games that are known, a line each.
fn known(
    alloc: Global,
    game: &Game,
    length: Length,
    digest: &mut Digest,
) -> anyhow::Result<String> {
    let mut text = String::new(alloc);
    match settle(alloc, &game.diagram(), length, MOST, digest)? {
        Came::Settled {
            games,
            bytes: _bytes,
        } => {
            for number in 0..games.len() {
                if let Some(listed) = games.game(number) {
                    put_line(alloc, listed, &mut text)?;
                }
            }
        }
        Came::Limit | Came::Other(_) => put_line(alloc, game.moves.as_slice(), &mut text)?,
    }
    Ok(text)
}

// Looks for a cook; how many nodes were visited, or 1,000 where one is found.
fn problem(alloc: Global, game: &Game, digest: &mut Digest) -> anyhow::Result<u64> {
    let Some(length) = game.length() else {
        return Err(Fault::NoAnswer("length"))?;
    };
    let text = known(alloc, game, length, digest)?;
    let Ok(games) = read_games(alloc, text.as_str()) else {
        return Err(Fault::NoAnswer("list"))?;
    };
    let diagram = game.diagram();
    let problem = Problem { diagram, length };
    let limits = LedLimits {
        max_nodes: MOST_LED,
        foreign: None,
    };
    let mut out = ToWrite::new(Vec::new(alloc));
    let answer = run_cooks(alloc, &problem, &games, limits, &mut Unwatched, &mut out);
    digest.text(out.into_inner().as_slice());
    match answer {
        Ok(CookAnswer::NotFound { nodes, .. }) => {
            digest.number(nodes);
            Ok(nodes)
        }
        Ok(_) => Ok(1_000),
        Err(_) => Err(Fault::NoAnswer("cooks"))?,
    }
}

// Problems until `size` nodes were visited.
pub(crate) fn run(
    alloc: Global,
    dice: &mut Dice,
    size: u64,
    digest: &mut Digest,
) -> anyhow::Result<()> {
    let mut visited = 0u64;
    for _ in 0..u64::MAX {
        if visited >= size {
            break;
        }
        let plies = 8 + dice.below(4).min(100) as u8;
        let game = play(alloc, dice, Manner::Composed, plies)?;
        visited = visited
            .saturating_add(problem(alloc, &game, digest)?)
            .saturating_add(100);
    }
    Ok(())
}
