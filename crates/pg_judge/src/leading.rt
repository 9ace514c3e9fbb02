//! The search for a game beside the author's.
ghost use Rattle.std.specs.Prelude.{IfOk};
ghost use Rattle.pg_judge.specs.Ruling.{IsFindingOf};

use crate::entry::Entry;
use crate::given::Given;
use crate::progress::{Effort, JudgeProgress};
use crate::reach::Reach;
use crate::ruling::{Evidence, Finding, Means, Ruling};
use pg_cooks::{CookAnswer, LedLimits, cooks};
use std::alloc::Global;

// Looks for a game beside the author's, led by his where they solve the problem, over `max_nodes` nodes at most.
//
// # Errors
// Where none is found, or none leads: with how many foreign moves at most all games were gone through, if so.
pub(crate) fn lead<P: JudgeProgress>(
    alloc: Global,
    entry: &Entry<'_>,
    given: Given,
    max_nodes: u64,
    watch: &mut P,
) -> Result<Ruling, Option<u8>>
    ensures { IfOk result (λ r. IsFindingOf entry.now r.finding) }
{
    if given != Given::Solves {
        return Err(None);
    }
    let limits = LedLimits {
        max_nodes,
        foreign: None,
    };
    watch.begins(Effort::Cooks, limits.max_nodes);
    let mut reach = Reach::new(watch, limits.max_nodes);
    let answer = cooks(
        alloc,
        &entry.problem.diagram,
        entry.problem.length,
        &entry.games,
        limits,
        &mut reach,
    );
    let means = Means::Search(Effort::Cooks, limits.max_nodes.saturating_sub(reach.left));
    match answer {
        Ok(CookAnswer::Cook(game)) => Ok(Ruling {
            finding: Finding::NotSound(Evidence::Another(game)),
            means,
        }),
        Ok(CookAnswer::Shorter(game)) => Ok(Ruling {
            finding: Finding::NotSound(Evidence::Shorter(game)),
            means,
        }),
        Ok(
            CookAnswer::NotFound {
                foreign,
                nodes: _,
                end: _,
                standing: _,
            },
        ) => Err(foreign),
        Err(_) => Err(None),
    }
}
