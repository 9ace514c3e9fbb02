//! A game that is shorter than stated, found again and tested.
ghost use Rattle.std.specs.Prelude.{◌≡◌, ◌<◌, length as length_of, IfOk, IfSome};
ghost use Rattle.pg_checker.specs.Answer.{IsSolution};
ghost use Rattle.pg_judge.specs.Ruling.{IsFindingOf};

use crate::entry::Entry;
use crate::progress::JudgeProgress;
use crate::ruling::{Evidence, Finding, Reason};
use crate::scratch::Scratch;
use crate::searching::{Attempt, search_for};
use arrayvec::ArrayVec;
use pg_checker::{Problem, check_listed};
use pg_fen::{Diagram, Length};
use pg_san::Games;
use pg_searcher::Game;
use std::alloc::Global;

// The first of games that are solutions.
fn first_of(diagram: &Diagram, length: Length, games: &Games) -> Option<Game>
    ensures { IfSome result (λ game. (length_of game.items ≡ length) × IsSolution diagram.now length game.items) }
{
    match check_listed(diagram, length, games) {
        Ok(()) => {}
        Err(_) => return None,
    }
    let Some(first) = games.game(0) else {
        return None;
    };
    let mut game = ArrayVec::new();
    match game.try_extend_from_slice(first) {
        Ok(()) => Some(game),
        Err(_) => None,
    }
}

// The first of games of some length, where it ends on the diagram of a problem that states a greater one.
fn shorter(problem: &Problem, length: Length, games: &Games) -> Option<Game>
    ensures { IfSome result (λ game. (length_of game.items < problem.now.length)
        × IsSolution problem.now.diagram (length_of game.items) game.items) }
{
    if length.plies() >= problem.length.plies() {
        return None;
    }
    first_of(&problem.diagram, length, games)
}

// What a search is asked again that has met a game of so many plies on its way to a problem's diagram.
pub(crate) fn shortened(problem: &Problem, plies: u8) -> Option<Problem> {
    match Length::from_plies(plies) {
        Some(length) => Some(Problem {
            diagram: problem.diagram,
            length,
        }),
        None => None,
    }
}

// That the problem of an entry is not sound, by the first of games of such a length.
//
// # Errors
// `Nodes` where there is none.
pub(crate) fn refuted_by(
    entry: &Entry<'_>,
    length: Length,
    games: &Games,
) -> Result<Finding, Reason>
    ensures { IfOk result (λ f. IsFindingOf entry.now f) }
{
    match shorter(&entry.problem, length, games) {
        Some(game) => Ok(Finding::NotSound(Evidence::Shorter(game))),
        None => Err(Reason::Nodes),
    }
}

// That the problem of an entry is not sound, by a game of so many plies: a search has met one, and is asked again.
//
// # Errors
// `Nodes` where none is found again.
pub(crate) fn refuted<S: Scratch, P: JudgeProgress>(
    alloc: Global,
    entry: &Entry<'_>,
    plies: u8,
    attempt: &Attempt<'_>,
    scratch: &mut S,
    watch: &mut P,
) -> Result<Finding, Reason>
    ensures { IfOk result (λ f. IsFindingOf entry.now f) }
{
    let Some(asked) = shortened(&entry.problem, plies) else {
        return Err(Reason::Nodes);
    };
    let mut games = Games::new(alloc);
    search_for(alloc, &asked, attempt, scratch, &mut games, watch);
    refuted_by(entry, asked.length, &games)
}
