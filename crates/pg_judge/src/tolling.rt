//! A problem is judged by tolls: tariffs are looked for, and then its games are, by searches that ask these too.
ghost use Rattle.std.specs.Prelude.{IfOk, IfErr};
ghost use Rattle.pg_judge.specs.Ruling.{IsFindingOf};

use crate::enough::UntilEnough;
use crate::entry::Entry;
use crate::judging::Pending;
use crate::limits::Limits;
use crate::progress::{Effort, JudgeProgress};
use crate::ruling::{Finding, Means, Reason, Ruling};
use crate::scratch::Scratch;
use crate::searching::{Attempt, Question, Searched, attempt_once, in_time, stopped};
use crate::shorter::{refuted_by, shortened};
use pg_captures::Bound;
use pg_checker::Problem;
use pg_san::Games;
use pg_searcher::{FoundTariffs, SearchFault, find_tariffs};
use pg_tolls::Tariff;
use std::alloc::Global;

/// What a search for tariffs leaves, by which a problem is judged.
#[derive(Drop)]
pub struct Prepared {
    /// The tariffs, 64 at most, those first that exclude most nodes. There may be none.
    pub tariffs: Vec<Tariff>,
    /// What is known so far.
    pub pending: Pending,
}

// Looks for tariffs, and adds the games that are met to those that are known.
fn look<P: JudgeProgress>(
    alloc: Global,
    problem: &Problem,
    bounds: &[Box<dyn Bound>],
    limits: Limits,
    games: &mut Games,
    watch: &mut P,
) -> Searched<FoundTariffs> {
    let limit = limits.max_nodes;
    watch.begins(Effort::Tariffs, limit);
    let mut watch = UntilEnough::new(watch, games, limit, limits);
    let found = find_tariffs(
        alloc,
        &problem.diagram,
        problem.length,
        limit,
        bounds,
        &mut watch,
    );
    Searched {
        found,
        nodes: limit.saturating_sub(watch.met.left),
        tree: watch.met.tree,
    }
}

// What is found where a search for tariffs gave up: that a problem is not sound, where it met a shorter game, which is
// met again then.
//
// # Errors
// Why nothing is found.
fn given_up<P: JudgeProgress>(
    alloc: Global,
    question: &Question<'_>,
    limits: Limits,
    fault: SearchFault,
    watch: &mut P,
) -> Result<Finding, Reason>
    ensures { IfOk result (λ f. IsFindingOf question.now.entry.now f) }
{
    let Question { entry, bounds } = *question;
    let plies = match fault {
        SearchFault::Shorter(plies) => plies,
        SearchFault::Memory => return Err(Reason::Memory),
        _ => return Err(Reason::Nodes),
    };
    let Some(asked) = shortened(&entry.problem, plies) else {
        return Err(Reason::Nodes);
    };
    let mut games = Games::new(alloc);
    look(alloc, &asked, bounds, limits, &mut games, watch);
    refuted_by(entry, asked.length, &games)
}

/// Looks for tariffs by which `judge_by_tolls` may judge a problem that `judge` did not settle, and that is worth it
/// (`Pending::goes_on`): by a search that asks the first of these bounds of code 5, if there is one, over as many nodes
/// at most as `limits` say. What the search
/// grows by is taken from `alloc`; `watch` is told how far it is.
///
/// # Errors
/// A ruling where the search gave up: `NotSound` where it met a shorter game, or where two games are known; both are
/// tested. Else `NotSettled`, which claims nothing.
pub fn prepare_tolls<P: JudgeProgress>(
    alloc: Global,
    entry: &Entry<'_>,
    bounds: &[Box<dyn Bound>],
    pending: Pending,
    limits: Limits,
    watch: &mut P,
) -> Result<Prepared, Ruling>
    ensures headline { IfErr result (λ r. IsFindingOf entry.now r.finding) }
{
    let Pending {
        games,
        stop,
        foreign,
    } = pending;
    let mut games = games;
    let looked = look(alloc, &entry.problem, bounds, limits, &mut games, watch);
    let Searched { found, nodes, tree } = looked;
    let fault = match found {
        Ok(found) => {
            return Ok(Prepared {
                tariffs: found.tariffs,
                pending: Pending {
                    games,
                    stop,
                    foreign,
                },
            });
        }
        Err(fault) => fault,
    };
    let means = Means::Search(Effort::Tariffs, nodes);
    let question = Question { entry, bounds };
    match given_up(alloc, &question, limits, fault, watch) {
        Ok(finding) => Err(Ruling { finding, means }),
        Err(reason) => {
            let stop = stopped(in_time(reason, watch), &games, means, tree);
            let pending = Pending {
                games,
                stop,
                foreign,
            };
            Err(pending.ruling(entry))
        }
    }
}

/// Judges a problem by one search that asks the tariffs of `prepared` too, over as many nodes at most as `limits` say.
/// It writes `lead` to `scratch`, and behind it a certificate, which is checked by `bounds`. So these are those of
/// `judge`, and for the entry's diagram a `pg_tolls::Tolls` of each tariff, by the code `pg_tolls::Tolls::FIRST_CODE`
/// and its number from 0; without it the check refuses the certificate. What is found is what one search of `judge`
/// finds, with the games of `prepared` among those that are known: `Settled`, and then `lead` and the certificate stand
/// in `scratch`; `NotSound` where a shorter game was met, or two games at least are known and tested; else
/// `NotSettled`. What the search grows by is taken from `alloc`; `watch` is told how far it is.
pub fn judge_by_tolls<S: Scratch, P: JudgeProgress>(
    alloc: Global,
    entry: &Entry<'_>,
    bounds: &[Box<dyn Bound>],
    prepared: Prepared,
    lead: &[u8],
    limits: Limits,
    scratch: &mut S,
    watch: &mut P,
) -> Ruling
    ensures headline { IsFindingOf entry.now result.finding }
{
    let Prepared { tariffs, pending } = prepared;
    let Pending { games, foreign, .. } = pending;
    let mut games = games;
    let question = Question { entry, bounds };
    let attempt = Attempt {
        effort: Effort::Tolls,
        limit: limits.max_nodes,
        limits,
        bounds,
        tariffs: tariffs.as_slice(),
        lead,
    };
    match attempt_once(alloc, &question, &attempt, scratch, &mut games, watch) {
        Ok(ruling) => ruling,
        Err(stop) => {
            let pending = Pending {
                games,
                stop,
                foreign,
            };
            pending.ruling(entry)
        }
    }
}
