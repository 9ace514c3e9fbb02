//! The search for a certificate.
ghost use Rattle.std.specs.Prelude.{◌≡◌, ◌≤◌};
ghost use Rattle.pg_searcher.specs.Refusals.{RefusesTruly};

use crate::fault::SearchFault;
use crate::judge::{Judge, journeys_among};
use crate::machine::{Asking, Findings, Frames, Machine, Question, Recorder, written};
use crate::progress::SearchProgress;
use crate::tolled::Tolled;
use crate::walk::tree_of;
use pg_captures::Bound;
use pg_certificate::{Header, Sink};
use pg_fen::{Diagram, Length};
use pg_moves::Unwatched;
use pg_san::Games;
use pg_tolls::Tariff;
use std::alloc::{AllocError, Global};

// The header of the certificate.
fn header(diagram: &Diagram, plies: u8) -> Header
    ensures { result.version ≡ 2 }
{
    Header {
        version: 2,
        plies,
        diagram: diagram.packed(),
    }
}

// The header, the trees of all lengths from 0 to the stated one, and the end.
fn write<W: Sink, P: SearchProgress>(
    diagram: &Diagram,
    plies: u8,
    frames: &mut Frames,
    machine: &mut Machine,
    sink: &mut W,
    watch: &mut P,
) -> Result<(), SearchFault>
    requires limit { plies ≤ 128 }
{
    let header = header(diagram, plies);
    written(machine.recorder.output.writer.header(&header, sink))?;
    for tree in 0..=plies {
        let question = Question {
            diagram,
            plies,
            tree,
        };
        tree_of(&question, frames, machine, sink, watch)?;
    }
    written(machine.recorder.output.writer.finish(sink))
}

// How far a search goes: to games of a length, and over how many nodes at most.
#[derive(Clone, Copy)]
pub(crate) struct Reach {
    pub(crate) length: Length,
    pub(crate) max_nodes: u64,
}

// What a search that gives up says. A write that is refused leaves the sink failed, and a tree is shorter where it has
// fewer plies than the last; that they say so truly is tested here once, so that no call below has to promise it.
pub(crate) fn refused<T, W: Sink>(fault: SearchFault, plies: u8, sink: &W) -> Result<T, SearchFault>
    ensures { RefusesTruly plies (W.has_failed sink.now) result }
{
    match fault {
        SearchFault::Write if sink.failed() => Err(SearchFault::Write),
        SearchFault::Shorter(fewer) if fewer < plies => Err(SearchFault::Shorter(fewer)),
        SearchFault::TooManyGames => Err(SearchFault::TooManyGames),
        SearchFault::Memory => Err(SearchFault::Memory),
        _ => Err(SearchFault::Budget),
    }
}

// What a walk over all trees leaves: the games that it met, the tariffs that it asked, and how many nodes more it might
// have visited.
#[derive(Drop)]
pub(crate) struct Walked {
    pub(crate) games: Games,
    pub(crate) tolls: Option<Box<Tolled>>,
    pub(crate) left: u64,
}

// The walk over all trees, which cuts by journeys and by tariffs too where they are asked. Of what it refuses `refused`
// says what is told.
pub(crate) fn walk_all<W: Sink, P: SearchProgress>(
    alloc: Global,
    diagram: &Diagram,
    reach: &Reach,
    asking: Asking<'_>,
    sink: &mut W,
    watch: &mut P,
) -> Result<Walked, SearchFault> {
    let Ok(judge) = Judge::new(alloc, diagram) else {
        return Err(SearchFault::Memory);
    };
    let mut frames = Frames::new(alloc);
    let mut machine = Machine {
        open: 0,
        recorder: Recorder::new(alloc, judge, reach.max_nodes, asking),
        findings: Findings {
            games: Games::new(alloc),
            fertile: false,
        },
    };
    write(
        diagram,
        reach.length.plies(),
        &mut frames,
        &mut machine,
        sink,
        watch,
    )?;
    let Machine {
        recorder,
        findings,
        ..
    } = machine;
    let Recorder { output, tolls, .. } = recorder;
    let Findings { games, .. } = findings;
    Ok(Walked {
        games,
        tolls,
        left: output.budget.nodes,
    })
}

// The games of a search that asks so much of its nodes.
fn searched<W: Sink, P: SearchProgress>(
    alloc: Global,
    diagram: &Diagram,
    reach: &Reach,
    asking: Asking<'_>,
    sink: &mut W,
    watch: &mut P,
) -> Result<Games, SearchFault>
    ensures { RefusesTruly reach.now.length (W.has_failed sink.new) result }
{
    match walk_all(alloc, diagram, reach, asking, sink, watch) {
        Ok(walked) => Ok(walked.games),
        Err(fault) => refused(fault, reach.length.plies(), sink),
    }
}

/// Searches for the games of a length from the initial array that end on the diagram, and
/// writes a certificate of version 2 that no others do. The answer is trusted for nothing: a check
/// of what was written, with the games that were found, says whether it is right.
///
/// Legal moves (FIDE article 3) are visited in canonical order, in a tree for each length from 0 to
/// the stated one. A node is a position that is visited with at least one ply left. With one ply left it
/// is expanded. With more it is cut where a bound excludes, by captures, promotions, pawn files or the
/// need of travel; or where prices do, of pawn files or else of travel, of the two colours those with
/// the fewer bytes. Otherwise it refers to a closed node of as many plies and the same future with no
/// game below it, if there is one; or it is expanded and named, up to 4,194,304 nodes. What the search
/// grows by is taken from `alloc`.
///
/// # Errors
/// `Budget` where a node more than `max_nodes` would be visited; `Shorter` with the plies of a game
/// that is shorter than stated and ends on the diagram; `TooManyGames` at the 4,097th game; `Write`
/// where the sink has failed; `Memory` where memory is refused. After any of them what was written is
/// to be thrown away.
pub fn search<W: Sink>(
    alloc: Global,
    diagram: &Diagram,
    length: Length,
    max_nodes: u64,
    sink: &mut W,
) -> Result<Games, SearchFault>
    ensures { RefusesTruly length (W.has_failed sink.new) result }
{
    search_watched(alloc, diagram, length, max_nodes, sink, &mut Unwatched)
}

/// As `search`, and tells `watch` how far it is.
///
/// # Errors
/// As for `search`; and `Budget` where `watch` ends the search.
pub fn search_watched<W: Sink, P: SearchProgress>(
    alloc: Global,
    diagram: &Diagram,
    length: Length,
    max_nodes: u64,
    sink: &mut W,
    watch: &mut P,
) -> Result<Games, SearchFault>
    ensures { RefusesTruly length (W.has_failed sink.new) result }
{
    let reach = Reach { length, max_nodes };
    let asking = Asking {
        journeys: None,
        tolls: None,
    };
    searched(alloc, diagram, &reach, asking, sink, watch)
}

/// As `search_watched`, and cuts by journeys too: a node with at least two plies left that no other bound and no
/// prices exclude, and that does not refer to a closed node, is cut where the first bound of code 5 among `bounds`
/// excludes, and expanded only where it does not. With no bound of that code it is `search_watched`. So a check of what
/// was written wants that very bound beside the four of `search`; where it remembers what it has shown, as
/// `pg_journeys::JourneysByMemory` does, the check is the sooner for it. A problem of many moves takes far fewer nodes,
/// and each that is expanded more time.
///
/// # Errors
/// As for `search_watched`.
pub fn search_by_journeys<'a, W: Sink, P: SearchProgress>(
    alloc: Global,
    diagram: &'a Diagram,
    length: Length,
    max_nodes: u64,
    bounds: &'a [Box<dyn Bound>],
    sink: &mut W,
    watch: &mut P,
) -> Result<Games, SearchFault>
    ensures { RefusesTruly length (W.has_failed sink.new) result }
{
    let reach = Reach { length, max_nodes };
    let journeys = journeys_among(diagram, bounds);
    let asking = Asking {
        journeys,
        tolls: None,
    };
    searched(alloc, diagram, &reach, asking, sink, watch)
}

// The tariffs of a search, where there are any.
fn tolls_by(
    alloc: Global,
    diagram: &Diagram,
    tariffs: &[Tariff],
) -> Result<Option<Box<Tolled>>, AllocError> {
    if tariffs.is_empty() {
        return Ok(None);
    }
    Ok(Some(Tolled::fixed(alloc, diagram, tariffs)?))
}

/// As `search_by_journeys`, and cuts by tariffs too, the first 250 of those that it is handed: a node with at least
/// two plies left that no other bound and no prices exclude, and that does not refer to a closed node, is cut where a
/// tariff excludes of the few that are tried first; else where journeys do, if they are lent; else, with at least six
/// plies left, where any tariff does. A tariff's code is `pg_tolls::Tolls::FIRST_CODE` and its number from 0. So a
/// check of what was written wants beside the bounds of `search_by_journeys` a `pg_tolls::Tolls` of each tariff by its
/// code. Which are tried first goes by the nodes before and not by time, so the number of nodes is fixed. With no
/// tariffs it is `search_by_journeys`. `find_tariffs` finds some.
///
/// # Errors
/// As for `search_by_journeys`.
pub fn search_by_tolls<'a, W: Sink, P: SearchProgress>(
    alloc: Global,
    diagram: &'a Diagram,
    length: Length,
    max_nodes: u64,
    bounds: &'a [Box<dyn Bound>],
    tariffs: &[Tariff],
    sink: &mut W,
    watch: &mut P,
) -> Result<Games, SearchFault>
    ensures { RefusesTruly length (W.has_failed sink.new) result }
{
    let reach = Reach { length, max_nodes };
    let Ok(tolls) = tolls_by(alloc, diagram, tariffs) else {
        return Err(SearchFault::Memory);
    };
    let asking = Asking {
        journeys: journeys_among(diagram, bounds),
        tolls,
    };
    searched(alloc, diagram, &reach, asking, sink, watch)
}
