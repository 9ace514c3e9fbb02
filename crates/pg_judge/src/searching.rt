//! One search for the games of a problem, and the check of what it wrote.
ghost use Rattle.std.specs.Prelude.{IfOk};
ghost use Rattle.pg_judge.specs.Ruling.{IsFindingOf};

use crate::enough::UntilEnough;
use crate::entry::Entry;
use crate::limits::Limits;
use crate::progress::{Effort, JudgeProgress};
use crate::ruling::{Finding, Known, Means, Reason, Ruling};
use crate::scratch::Scratch;
use crate::shorter::refuted;
use pg_captures::Bound;
use pg_certificate::format::MOST_NAMED;
use pg_certificate::{FromRead, Sink, Source, ToWrite};
use pg_checker::{Fault, Problem, check};
use pg_fen::Length;
use pg_san::Games;
use pg_searcher::{SearchFault, search_by_tolls, search_watched};
use pg_texts::verdict_on;
use pg_tolls::Tariff;
use std::alloc::Global;

// An entry, and the bounds by which certificates of its problem are checked.
#[derive(Clone, Copy)]
pub(crate) struct Question<'a> {
    pub(crate) entry: &'a Entry<'a>,
    pub(crate) bounds: &'a [Box<dyn Bound>],
}

// One search: how many nodes it visits at most, and which games are enough; the bounds by which its certificate is
// checked, of which it asks that by journeys; the tariffs that it asks too; and the bytes that are to stand before its
// certificate.
#[derive(Clone, Copy)]
pub(crate) struct Attempt<'a> {
    pub(crate) effort: Effort,
    pub(crate) limit: u64,
    pub(crate) limits: Limits,
    pub(crate) bounds: &'a [Box<dyn Bound>],
    pub(crate) tariffs: &'a [Tariff],
    pub(crate) lead: &'a [u8],
}

impl<'a> Attempt<'a> {
    // One without tariffs, which writes a certificate alone.
    pub(crate) fn alone(
        effort: Effort,
        limit: u64,
        limits: Limits,
        bounds: &'a [Box<dyn Bound>],
    ) -> Attempt<'a> {
        Attempt {
            effort,
            limit,
            limits,
            bounds,
            tariffs: &[],
            lead: &[],
        }
    }
}

// What a search came to: what it found, or why it has nothing; how many nodes it visited, as far as it told; and the
// plies of the tree at work.
#[derive(Drop)]
pub(crate) struct Searched<T> {
    pub(crate) found: Result<T, SearchFault>,
    pub(crate) nodes: u64,
    pub(crate) tree: u8,
}

// What a search came to that did not settle the problem, and which search that was.
#[derive(Clone, Copy)]
pub(crate) struct Stop {
    pub(crate) known: Known,
    pub(crate) means: Means,
}

// Writes what is to stand before the certificate, searches, and writes the certificate. With no tariffs a search by
// them is one by journeys.
fn search_into<S: Scratch, P: JudgeProgress>(
    alloc: Global,
    problem: &Problem,
    attempt: &Attempt<'_>,
    scratch: &mut S,
    watch: &mut UntilEnough<'_, P>,
) -> Result<Games, SearchFault> {
    let Attempt {
        effort,
        limit,
        bounds,
        tariffs,
        lead,
        ..
    } = *attempt;
    let mut sink = ToWrite::new(scratch);
    if sink.push(lead).is_err() {
        return Err(SearchFault::Write);
    }
    let (diagram, length) = (&problem.diagram, problem.length);
    match effort {
        Effort::Search | Effort::Cooks | Effort::Drawn => {
            search_watched(alloc, diagram, length, limit, &mut sink, watch)
        }
        Effort::Journeys | Effort::Tariffs | Effort::Tolls => {
            search_by_tolls(
                alloc, diagram, length, limit, bounds, tariffs, &mut sink, watch,
            )
        }
    }
}

// Empties the scratch, searches, writes the certificate there, and adds the games that are met to those that are known.
pub(crate) fn search_for<S: Scratch, P: JudgeProgress>(
    alloc: Global,
    problem: &Problem,
    attempt: &Attempt<'_>,
    scratch: &mut S,
    games: &mut Games,
    watch: &mut P,
) -> Searched<Games> {
    if scratch.clear().is_err() {
        return Searched {
            found: Err(SearchFault::Write),
            nodes: 0,
            tree: 0,
        };
    }
    let limit = attempt.limit;
    watch.begins(attempt.effort, limit);
    let mut watch = UntilEnough::new(watch, games, limit, attempt.limits);
    let found = search_into(alloc, problem, attempt, scratch, &mut watch);
    Searched {
        found,
        nodes: limit.saturating_sub(watch.met.left),
        tree: watch.met.tree,
    }
}

// Why a check settled nothing: what it could not have, or else the certificate.
fn reason_of_check(fault: &Fault) -> Reason {
    match fault {
        Fault::Memory => Reason::Memory,
        Fault::Read => Reason::Scratch,
        _ => Reason::Refused,
    }
}

// Whether a source goes on with these bytes, which are passed then.
fn goes_on_with<R: Source>(bytes: &[u8], source: &mut R) -> bool {
    for byte in bytes {
        let mut next = [0u8];
        match source.pull(&mut next) {
            Ok(1) if next[0] == *byte => {}
            _ => return false,
        }
    }
    true
}

// Checks the certificate that was written behind such bytes, with the games that were found. A search writes at most
// one record for each node, so the check needs no limit of its own.
fn confirmed<S: Scratch>(
    alloc: Global,
    question: &Question<'_>,
    lead: &[u8],
    games: Games,
    scratch: &mut S,
) -> Result<Finding, Reason>
    ensures { IfOk result (λ f. IsFindingOf question.now.entry.now f) }
{
    if scratch.rewind().is_err() {
        return Err(Reason::Scratch);
    }
    let Question { entry, bounds } = *question;
    let mut source = FromRead::new(scratch);
    if !goes_on_with(lead, &mut source) {
        return Err(Reason::Scratch);
    }
    match check(
        alloc,
        &entry.problem.diagram,
        entry.problem.length,
        &games,
        bounds,
        &mut source,
        u64::MAX,
        MOST_NAMED,
    ) {
        Ok(_) => Ok(Finding::Settled(verdict_on(&games), games)),
        Err(fault) => Err(reason_of_check(&fault)),
    }
}

// Why a search that ended so settled nothing.
fn reason_of<S: Scratch>(fault: SearchFault, scratch: &S) -> Reason {
    match fault {
        SearchFault::Budget | SearchFault::Shorter(_) | SearchFault::TooManyGames => Reason::Nodes,
        SearchFault::Write => scratch.lack(),
        SearchFault::Memory => Reason::Memory,
    }
}

// Searches once more where what was written is not kept whole, in a scratch that has room for it. What is met is known.
fn search_anew<S: Scratch, P: JudgeProgress>(
    alloc: Global,
    problem: &Problem,
    attempt: &Attempt<'_>,
    found: Result<Games, SearchFault>,
    scratch: &mut S,
    watch: &mut P,
) -> Result<Games, SearchFault> {
    if found.is_err() || scratch.is_whole() {
        return found;
    }
    if scratch.widen().is_err() {
        return Err(SearchFault::Write);
    }
    let mut met = Games::new(alloc);
    let searched = search_for(alloc, problem, attempt, scratch, &mut met, watch);
    searched.found
}

// What a search found, once it is checked or tested; or why it settled nothing.
fn settled<S: Scratch, P: JudgeProgress>(
    alloc: Global,
    question: &Question<'_>,
    attempt: &Attempt<'_>,
    found: Result<Games, SearchFault>,
    scratch: &mut S,
    watch: &mut P,
) -> Result<Finding, Reason>
    ensures { IfOk result (λ f. IsFindingOf question.now.entry.now f) }
{
    match found {
        Ok(games) => confirmed(alloc, question, attempt.lead, games, scratch),
        Err(SearchFault::Shorter(plies)) => {
            refuted(alloc, question.entry, plies, attempt, scratch, watch)
        }
        Err(fault) => Err(reason_of(fault, scratch)),
    }
}

// Why searches settled nothing: where their limits did not let them, maybe the end of their time.
pub(crate) fn in_time<P: JudgeProgress>(reason: Reason, watch: &mut P) -> Reason {
    if reason == Reason::Nodes && !watch.goes_on() {
        Reason::Time
    } else {
        reason
    }
}

// What a search came to that did not settle the problem, where another one came behind it that did not either.
pub(crate) fn behind<P: JudgeProgress>(stop: Stop, means: Means, watch: &mut P) -> Stop {
    let Known {
        games,
        below,
        foreign,
        reason,
    } = stop.known;
    let known = Known {
        games,
        below,
        foreign,
        reason: in_time(reason, watch),
    };
    Stop { known, means }
}

// The length of the tree at work, below which no game was met; none where that is the first one.
fn below(tree: u8) -> Option<Length> {
    if tree == 0 {
        return None;
    }
    Length::from_plies(tree)
}

// Where a search settled nothing: why, how many games are known, by what, and how far it came.
pub(crate) fn stopped(reason: Reason, games: &Games, means: Means, tree: u8) -> Stop {
    let known = Known {
        games: games.len(),
        below: below(tree),
        foreign: None,
        reason,
    };
    Stop { known, means }
}

// Searches once, and checks what was written; the games that are met are added to those that are known.
//
// # Errors
// Where that settles nothing, what is known then.
pub(crate) fn attempt_once<S: Scratch, P: JudgeProgress>(
    alloc: Global,
    question: &Question<'_>,
    attempt: &Attempt<'_>,
    scratch: &mut S,
    games: &mut Games,
    watch: &mut P,
) -> Result<Ruling, Stop>
    ensures { IfOk result (λ r. IsFindingOf question.now.entry.now r.finding) }
{
    let problem = &question.entry.problem;
    let searched = search_for(alloc, problem, attempt, scratch, games, watch);
    let Searched { found, nodes, tree } = searched;
    let found = search_anew(alloc, problem, attempt, found, scratch, watch);
    let means = Means::Search(attempt.effort, nodes);
    match settled(alloc, question, attempt, found, scratch, watch) {
        Ok(finding) => Ok(Ruling { finding, means }),
        Err(reason) => Err(stopped(in_time(reason, watch), games, means, tree)),
    }
}
