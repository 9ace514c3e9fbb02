//! The games beside a list that a search finds, each tested.
ghost use Rattle.std.specs.Prelude.{◌≡◌, IsTrue, IfOk, IfSome, IfErr, OnOk, length as length_of};
ghost use Rattle.pg_checker.specs.Answer.{AreSolutions, IsSolution};
ghost use Rattle.pg_cooks.specs.Cooks.{IsCookAnswer, IsCooksFault, IsRefuted};

use crate::fault::CooksFault;
use crate::standing::{Standing, standing_of};
use pg_checker::check_listed;
use pg_fen::{Diagram, Length};
use pg_position::Move;
use pg_san::{AddFault, Games};
use pg_searcher::{Game, Led, LedEnd, LedFault, LedLimits, LedProgress, search_led};
use std::alloc::{AllocError, Global};

/// What is found beside a list of games.
#[derive(Debug, PartialEq, Eq, Drop)]
pub enum CookAnswer {
    /// A game of the stated length that ends on the diagram and is not listed.
    Cook(Game),
    /// A game of fewer plies than stated that ends on the diagram.
    Shorter(Game),
    /// None was found. The search says that it has met each game with at most `foreign` foreign moves, where it
    /// came so far, and how it came to its end; nothing proves that. It visited `nodes` nodes. The listed games
    /// by themselves say `standing`, which is proved.
    NotFound {
        foreign: Option<u8>,
        nodes: u64,
        end: LedEnd,
        standing: Standing,
    },
}

// Whether the moves are a game of the length that ends on the diagram.
fn is_solution(
    alloc: Global,
    diagram: &Diagram,
    length: Length,
    game: &[Move],
) -> Result<bool, AllocError>
    ensures { IfOk result (λ is. IsTrue is → IsSolution diagram.now length game.now) }
{
    let mut one = Games::new(alloc);
    match one.add(game) {
        Ok(()) => Ok(check_listed(diagram, length, &one).is_ok()),
        Err(AddFault::Memory) => Err(AllocError),
        Err(_) => Ok(false),
    }
}

// How long a game is, where it has 128 plies at most.
fn length_of(game: &[Move]) -> Option<Length>
    ensures { IfSome result (λ n. n ≡ length_of game.now) }
{
    match u8::try_from(game.len()) {
        Ok(plies) => Length::from_plies(plies),
        Err(_) => None,
    }
}

// What a game that a search has met shows beside the list; none where it is no solution, or is listed.
fn shown(
    alloc: Global,
    diagram: &Diagram,
    length: Length,
    games: &Games,
    game: Game,
) -> Result<Option<CookAnswer>, AllocError>
    ensures { IfOk result (λ o. IfSome o (λ a. IsCookAnswer diagram.now length games.now a)) }
{
    let Some(own) = length_of(game.as_slice()) else {
        return Ok(None);
    };
    match is_solution(alloc, diagram, own, game.as_slice()) {
        Ok(true) => {}
        Ok(false) => return Ok(None),
        Err(fault) => return Err(fault),
    }
    if own.plies() < length.plies() {
        Ok(Some(CookAnswer::Shorter(game)))
    } else if own.plies() == length.plies() && !games.contains(game.as_slice()) {
        Ok(Some(CookAnswer::Cook(game)))
    } else {
        Ok(None)
    }
}

// What a led search finds beside the list. A game that is nothing beside it is not told: the search stops there as
// if the nodes had come to their end.
fn found<P: LedProgress>(
    alloc: Global,
    diagram: &Diagram,
    length: Length,
    games: &Games,
    limits: LedLimits,
    watch: &mut P,
) -> Result<CookAnswer, CooksFault>
    ensures answer { IfOk result (λ a. IsCookAnswer diagram.now length games.now a) }
    ensures err { IfErr result (λ e. e ≡ CooksFault.Memory) }
{
    let game = match search_led(alloc, diagram, length, games, limits, watch) {
        Ok(Led::Found(game)) => game,
        Ok(
            Led::NotFound {
                foreign,
                nodes,
                end,
            },
        ) => {
            return Ok(CookAnswer::NotFound {
                foreign,
                nodes,
                end,
                standing: standing_of(games),
            });
        }
        Err(LedFault::Memory) => return Err(CooksFault::Memory),
    };
    match shown(alloc, diagram, length, games, game) {
        Ok(Some(answer)) => Ok(answer),
        Ok(None) => Ok(CookAnswer::NotFound {
            foreign: None,
            nodes: 0,
            end: LedEnd::Nodes,
            standing: standing_of(games),
        }),
        Err(AllocError) => Err(CooksFault::Memory),
    }
}

/// Looks for a game beside a list of solutions, led by it: `Cook` with a game of the stated length that ends on the
/// diagram and is not listed, so that the problem is not sound; `Shorter` with a game of fewer plies that ends on the
/// diagram, so that no list is its answer; else `NotFound`. The game is tested, so this holds whatever the search does;
/// a game that failed the test would not be told. With `NotFound` nothing is claimed of the problem but what the list
/// shows by itself, as `standing_on` tells it: two games or more, that it is not sound. At most `max_nodes` nodes are
/// visited, with at most `foreign` foreign moves. What the search and the test grow by is taken from `alloc`; `watch`
/// is told how far the search is.
///
/// # Errors
/// In this order: `NoGame` where the list is empty; `Listed` where a listed game is no solution, with the
/// first of them and why; `Memory` where a growth is refused.
pub fn cooks<P: LedProgress>(
    alloc: Global,
    diagram: &Diagram,
    length: Length,
    games: &Games,
    limits: LedLimits,
    watch: &mut P,
) -> Result<CookAnswer, CooksFault>
    ensures headline { IfOk result (λ a. IsRefuted diagram.now length a) }
    ensures answer { IfOk result (λ a. IsCookAnswer diagram.now length games.now a) }
    ensures listed { OnOk result (AreSolutions diagram.now length games.now) }
    ensures err { IfErr result (λ e. IsCooksFault diagram.now length games.now e) }
{
    if games.len() == 0 {
        return Err(CooksFault::NoGame);
    }
    match check_listed(diagram, length, games) {
        Ok(()) => {}
        Err(fault) => return Err(CooksFault::Listed(fault)),
    }
    match found(alloc, diagram, length, games, limits, watch) {
        Ok(answer) => Ok(answer),
        Err(fault) => Err(fault),
    }
}
