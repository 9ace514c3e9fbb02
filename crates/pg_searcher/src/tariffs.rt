//! The search for tariffs.
ghost use Rattle.std.specs.Prelude.{false};
ghost use Rattle.pg_searcher.specs.Refusals.{RefusesTruly};

use crate::choosing::{all_of, chosen, uses_of};
use crate::fault::SearchFault;
use crate::find::{Reach, Walked, refused, walk_all};
use crate::judge::{Asked, journeys_among};
use crate::machine::Asking;
use crate::progress::SearchProgress;
use crate::tolled::Tolled;
use crate::unkept::{Again, Unkept};
use pg_captures::Bound;
use pg_fen::{Diagram, Length};
use pg_tolls::Tariff;
use std::alloc::{AllocError, Global};

// So few tariffs are all kept, with no walk that shows which are of use.
const FEW: usize = 16;

/// Tariffs for the way to a diagram, and how many nodes were visited to find them.
#[derive(Drop)]
pub struct FoundTariffs {
    /// At most 64, those first that exclude most nodes; or those that were found first, where they are 16 at most.
    pub tariffs: Vec<Tariff>,
    /// How many nodes were visited.
    pub nodes: u64,
}

// An answer of what takes memory, as a search says it.
fn remembered<T>(answer: Result<T, AllocError>) -> Result<T, SearchFault> {
    match answer {
        Ok(value) => Ok(value),
        Err(_) => Err(SearchFault::Memory),
    }
}

// The walk that looks for tariffs.
fn first_walk<P: SearchProgress>(
    alloc: Global,
    diagram: &Diagram,
    reach: &Reach,
    journeys: Option<Asked<'_>>,
    watch: &mut P,
) -> Result<Walked, SearchFault> {
    let by_journeys = journeys.is_some();
    let tolls = remembered(Tolled::looking(alloc, diagram, by_journeys, reach.max_nodes))?;
    let asking = Asking {
        journeys,
        tolls: Some(tolls),
    };
    walk_all(alloc, diagram, reach, asking, &mut Unkept, watch)
}

// The walk that shows which tariffs are of use, over as many nodes as the first one has left.
fn trial_walk<P: SearchProgress>(
    alloc: Global,
    diagram: &Diagram,
    reach: &Reach,
    journeys: Option<Asked<'_>>,
    tolls: Box<Tolled>,
    watch: &mut P,
) -> Result<Walked, SearchFault> {
    let asking = Asking {
        journeys,
        tolls: Some(tolls),
    };
    let mut again = Again { watch };
    walk_all(alloc, diagram, reach, asking, &mut Unkept, &mut again)
}

// Those of the tariffs that were found that are of use, and how many nodes were visited, of `reach.max_nodes` at most.
fn of_use<P: SearchProgress>(
    alloc: Global,
    diagram: &Diagram,
    reach: &Reach,
    journeys: Option<Asked<'_>>,
    first: Walked,
    watch: &mut P,
) -> Result<FoundTariffs, SearchFault> {
    let most = reach.max_nodes;
    let Walked { tolls, left, .. } = first;
    let Some(mut tolls) = tolls else {
        return Err(SearchFault::Budget);
    };
    if tolls.tariffs().len() <= FEW {
        return Ok(FoundTariffs {
            tariffs: remembered(all_of(alloc, tolls.tariffs()))?,
            nodes: most.saturating_sub(left),
        });
    }
    let before = remembered(uses_of(alloc, tolls.tariffs()))?;
    let reach = Reach {
        length: reach.length,
        max_nodes: left,
    };
    tolls.settle();
    let trial = trial_walk(alloc, diagram, &reach, journeys, tolls, watch)?;
    let Some(tolls) = &trial.tolls else {
        return Err(SearchFault::Budget);
    };
    Ok(FoundTariffs {
        tariffs: remembered(chosen(alloc, tolls.tariffs(), before.as_slice()))?,
        nodes: most.saturating_sub(trial.left),
    })
}

// The tariffs, or why there are none, of which `refused` says what is told.
fn found<P: SearchProgress>(
    alloc: Global,
    diagram: &Diagram,
    reach: &Reach,
    journeys: Option<Asked<'_>>,
    watch: &mut P,
) -> Result<FoundTariffs, SearchFault> {
    let first = first_walk(alloc, diagram, reach, journeys, watch)?;
    of_use(alloc, diagram, reach, journeys, first, watch)
}

/// Looks for tariffs that make `search_by_tolls` of the same arguments short, by a search that writes no certificate.
/// It starts with none. When it comes back to a node with at least eight plies left from one after a move of it, no
/// game was met below it, and many nodes were visited since it opened, a tariff is looked for that excludes the node.
/// One that is found closes it, and cuts as it would in `search_by_tolls` from then on; no more than 250 are kept. How
/// many nodes are enough goes by what looks have cost so far, in steps and not in time, so the answer is fixed.
///
/// Of more than 16 tariffs those are handed out that cut a node in another walk over the trees, with no looks. Both
/// walks tell `watch` how far they are, and the first alone of games.
///
/// # Errors
/// `Budget` where in both walks together a node more than `max_nodes` would be visited, or `watch` ends one; `Shorter`
/// with the plies of a game that is shorter than stated and ends on the diagram; `TooManyGames` at the 4,097th game;
/// `Memory` where memory is refused.
pub fn find_tariffs<'a, P: SearchProgress>(
    alloc: Global,
    diagram: &'a Diagram,
    length: Length,
    max_nodes: u64,
    bounds: &'a [Box<dyn Bound>],
    watch: &mut P,
) -> Result<FoundTariffs, SearchFault>
    ensures { RefusesTruly length false result }
{
    let reach = Reach { length, max_nodes };
    let journeys = journeys_among(diagram, bounds);
    match found(alloc, diagram, &reach, journeys, watch) {
        Ok(found) => Ok(found),
        Err(fault) => refused(fault, length.plies(), &Unkept),
    }
}
