//! Whether the checker's answer to a mutant is true.
use crate::case::Case;
use crate::lists::are_same;
use crate::mutant::Mutant;
use crate::refusal::Refusal;
use pg_captures::Bound;
use pg_certificate::{FromRead, Source};
use pg_checker::{Fault, Proved, check};
use pg_san::Games;
use pg_trial::{FailsAt, OneByte};
use std::alloc::Global;
use std::io::ErrorKind;

// The list that a mutant asks about.
fn games_of<'a>(case: &'a Case, mutant: &'a Mutant) -> &'a Games {
    match &mutant.games {
        Some(games) => games,
        None => &case.games,
    }
}

// The answer to a mutant whose bytes come from this source.
fn answer<S: Source>(
    alloc: Global,
    case: &Case,
    mutant: &Mutant,
    bounds: &[Box<dyn Bound>],
    source: &mut S,
) -> Result<Proved, Fault> {
    check(
        alloc,
        &case.diagram,
        mutant.length,
        games_of(case, mutant),
        bounds,
        source,
        mutant.most_records,
        mutant.most_named,
    )
}

// The answer to a mutant, all its bytes in a call.
pub(crate) fn answer_at_once(
    alloc: Global,
    case: &Case,
    mutant: &Mutant,
    bounds: &[Box<dyn Bound>],
) -> Result<Proved, Fault> {
    let mut source = FromRead::new(mutant.bytes.as_slice());
    answer(alloc, case, mutant, bounds, &mut source)
}

// Whether one byte a call gives the same answer.
pub(crate) fn is_same_by_bytes(
    alloc: Global,
    case: &Case,
    mutant: &Mutant,
    bounds: &[Box<dyn Bound>],
    told: &Result<Proved, Fault>,
) -> bool {
    let mut source = FromRead::new(OneByte::new(mutant.bytes.as_slice()));
    answer(alloc, case, mutant, bounds, &mut source) == *told
}

// The answer where one byte a call comes and the call with this number fails.
pub(crate) fn answer_failing(
    alloc: Global,
    case: &Case,
    mutant: &Mutant,
    bounds: &[Box<dyn Bound>],
    at: u64,
) -> Result<Proved, Fault> {
    let bytes = OneByte::new(mutant.bytes.as_slice());
    let mut source = FromRead::new(FailsAt::new(bytes, at, ErrorKind::Other));
    answer(alloc, case, mutant, bounds, &mut source)
}

// Whether the list is the one that is known to be exact. Where the case's own list has a game, that is
// this list at the case's length, the empty one at fewer plies, as no game of fewer plies reaches its
// diagram, and none at more. Where it has none, no game of any length reaches the diagram.
fn is_exact(case: &Case, mutant: &Mutant) -> bool {
    let (asked, known) = (mutant.length.plies(), case.length.plies());
    let games = games_of(case, mutant);
    if asked < known || case.games.len() == 0 {
        games.len() == 0
    } else {
        asked == known && are_same(games, &case.games)
    }
}

// Sees that an answer is true, of what is known of the case: a yes comes to the exact list alone and
// within the limits, a game of fewer plies is told only at more plies than the case has, with its
// number, and a game that is not listed is one of the case's own.
pub(crate) fn judge(
    case: &Case,
    mutant: &Mutant,
    told: &Result<Proved, Fault>,
    at: (usize, usize),
) -> Result<(), Refusal> {
    let longer = case.length.plies() < mutant.length.plies() && case.games.len() > 0;
    let is_true = match told {
        Ok(proved) => {
            if !is_exact(case, mutant) {
                return Err(Refusal::Yes(at.0, at.1));
            }
            if proved.records > mutant.most_records || proved.named > mutant.most_named {
                return Err(Refusal::Limits(at.0, at.1));
            }
            true
        }
        Err(Fault::Shorter(plies)) => longer
            && case.length.plies() <= *plies
            && *plies < mutant.length.plies(),
        Err(Fault::Unlisted(game)) => {
            let unlisted = !games_of(case, mutant).contains(game.as_slice());
            unlisted && (longer || case.games.contains(game.as_slice()))
        }
        Err(Fault::Read | Fault::Memory) => false,
        Err(_) => true,
    };
    if is_true {
        Ok(())
    } else {
        Err(Refusal::Untrue(at.0, at.1))
    }
}
