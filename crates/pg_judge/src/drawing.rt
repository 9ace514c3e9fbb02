//! The search for two games of a problem of which none is given, by drawn orders.
ghost use Rattle.std.specs.Prelude.{IfOk, IfSome};
ghost use Rattle.pg_judge.specs.Ruling.{IsFindingOf};

use crate::entry::Entry;
use crate::judging::Pending;
use crate::limits::Limits;
use crate::progress::{Effort, JudgeProgress};
use crate::ruling::{Finding, Means, Ruling};
use crate::searching::{Question, behind};
use crate::shorter::refuted_by;
use pg_captures::Bound;
use pg_checker::Problem;
use pg_drawn::{DrawnLimits, search_drawn};
use pg_fen::Length;
use pg_san::Games;
use pg_searcher::{Game, Met};
use std::alloc::Global;

// What the numbers are drawn by.
const SEED: u64 = 1;

// How often the search starts, and how many nodes it visits in each start at most.
const STARTS: u32 = 120;

const NODES: u64 = 600;

// How far a drawn search goes that visits `max_nodes` nodes at most.
fn limits_of(max_nodes: u64) -> DrawnLimits {
    DrawnLimits {
        seed: SEED,
        starts: STARTS,
        max_nodes: NODES.min(max_nodes / u64::from(STARTS)),
    }
}

// That a problem is not sound, by a game that is shorter than stated.
fn by_shorter(alloc: Global, entry: &Entry<'_>, game: &Game) -> Option<Finding>
    ensures { IfSome result (IsFindingOf entry.now) }
{
    let length = Length::from_plies(u8::try_from(game.len()).ok()?)?;
    let mut games = Games::new(alloc);
    games.add(game.as_slice()).ok()?;
    match refuted_by(entry, length, &games) {
        Ok(finding) => Some(finding),
        Err(_) => None,
    }
}

// The same, where a shorter game was met.
fn refuted(alloc: Global, entry: &Entry<'_>, shorter: &Option<Game>) -> Option<Finding>
    ensures { IfSome result (IsFindingOf entry.now) }
{
    match shorter {
        Some(game) => by_shorter(alloc, entry, game),
        None => None,
    }
}

// Searches, and tells the games that are met; the shorter one, if one was met.
fn search_with<P: JudgeProgress>(
    alloc: Global,
    problem: &Problem,
    bounds: &[Box<dyn Bound>],
    limits: DrawnLimits,
    met: &mut Met<'_, P>,
) -> Option<Game> {
    match search_drawn(alloc, &problem.diagram, problem.length, limits, bounds, met) {
        Ok(drawn) => drawn.shorter,
        Err(_) => None,
    }
}

// Looks for two games, or a shorter one, in the tree of the stated length, and adds those that are met to those that are
// known; the shorter one, if one was met, and how many nodes were visited.
fn look<P: JudgeProgress>(
    alloc: Global,
    problem: &Problem,
    bounds: &[Box<dyn Bound>],
    limits: DrawnLimits,
    games: &mut Games,
    watch: &mut P,
) -> (Option<Game>, u64) {
    let most = limits.max_nodes.saturating_mul(u64::from(limits.starts));
    watch.begins(Effort::Drawn, most);
    let mut met = Met::new(watch, games, most);
    let shorter = search_with(alloc, problem, bounds, limits, &mut met);
    (shorter, most.saturating_sub(met.left))
}

// Looks for two games of a problem that its first searches did not settle, or for a shorter one.
//
// # Errors
// What is known where no shorter game was met; two games may be known then.
pub(crate) fn draw<P: JudgeProgress>(
    alloc: Global,
    question: &Question<'_>,
    limits: Limits,
    pending: Pending,
    watch: &mut P,
) -> Result<Ruling, Pending>
    ensures { IfOk result (λ r. IsFindingOf question.now.entry.now r.finding) }
{
    if !limits.draw() || !pending.goes_on(limits, watch) {
        return Err(pending);
    }
    let Pending {
        games,
        stop,
        foreign,
    } = pending;
    let mut games = games;
    let Question { entry, bounds } = *question;
    let most = limits_of(limits.max_nodes);
    let (shorter, nodes) = look(alloc, &entry.problem, bounds, most, &mut games, watch);
    watch.has_drawn();
    let means = Means::Search(Effort::Drawn, nodes);
    let last = if games.len() < 2 { stop.means } else { means };
    let stop = behind(stop, last, watch);
    match refuted(alloc, entry, &shorter) {
        Some(finding) => Ok(Ruling { finding, means }),
        None => Err(Pending {
            games,
            stop,
            foreign,
        }),
    }
}
