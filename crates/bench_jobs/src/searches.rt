//! The job `search`: problems of 5.0 to 8.5 moves, each with growing limits until one settles it, and then the
//! check of what was written and its report. Many do not settle.
use crate::dice::Dice;
use crate::digest::Digest;
use crate::fault::Fault;
use crate::games::{Game, Manner, play};
use crate::settled::{Came, RECORDS, settle};
use pg_certificate::format::MOST_NAMED;
use pg_report::{
    Bound, Captures, Diagram, FromRead, Games, Length, PawnFiles, Promotions, ToWrite, run_listed,
};
use pg_travel::{Rows, TravelByRows};
use std::alloc::Global;

const LIMITS: [u64; 3] = [10_000, 60_000, 250_000];

// Checks what a search has written, as `pg search` does, and takes the report in.
fn check_found(
    alloc: Global,
    diagram: &Diagram,
    length: Length,
    games: &Games,
    bytes: &[u8],
    digest: &mut Digest,
) -> anyhow::Result<()> {
    // The four bounds, as the program hands them in.
    let mut bounds: Vec<Box<dyn Bound>> = Vec::new(alloc);
    bounds.push(Box::new(alloc, Captures)?)?;
    bounds.push(Box::new(alloc, Promotions)?)?;
    bounds.push(Box::new(alloc, PawnFiles)?)?;
    let rows = Rows::new(diagram);
    bounds.push(Box::new(alloc, TravelByRows { rows })?)?;
    let mut source = FromRead::new(bytes);
    let mut out = ToWrite::new(Vec::new(alloc));
    let answer = run_listed(
        alloc,
        diagram,
        length,
        games,
        bounds.as_slice(),
        &mut source,
        &mut out,
        RECORDS,
        MOST_NAMED,
    );
    if answer.is_err() {
        return Err(Fault::NoAnswer("check"))?;
    }
    digest.text(out.into_inner().as_slice());
    Ok(())
}

// One search, and the check behind it where it settles; how many nodes it visited, as its certificate has two
// bytes a node, and whether a greater limit is wanted.
fn tried(
    alloc: Global,
    game: &Game,
    length: Length,
    limit: u64,
    digest: &mut Digest,
) -> anyhow::Result<(u64, bool)> {
    let diagram = game.diagram();
    match settle(alloc, &diagram, length, limit, digest)? {
        Came::Settled { games, bytes } => {
            check_found(alloc, &diagram, length, &games, bytes.as_slice(), digest)?;
            Ok((bytes.len() as u64 / 2, false))
        }
        Came::Limit => {
            digest.number(limit);
            Ok((limit, true))
        }
        Came::Other(what) => {
            digest.number(what);
            Ok((0, false))
        }
    }
}

// One problem, with growing limits; how many nodes were visited.
fn problem(alloc: Global, game: &Game, digest: &mut Digest) -> anyhow::Result<u64> {
    let Some(length) = game.length() else {
        return Err(Fault::NoAnswer("length"))?;
    };
    let mut visited = 0u64;
    for limit in LIMITS {
        let (nodes, is_open) = tried(alloc, game, length, limit, digest)?;
        visited = visited.saturating_add(nodes);
        if !is_open {
            break;
        }
    }
    Ok(visited)
}

// Problems until `size` nodes were visited.
pub(crate) fn run(
    alloc: Global,
    dice: &mut Dice,
    size: u64,
    digest: &mut Digest,
) -> anyhow::Result<()> {
    let mut visited = 0u64;
    for _ in 0..u64::MAX {
        if visited >= size {
            break;
        }
        let plies = 10 + dice.below(8).min(100) as u8;
        let game = play(alloc, dice, Manner::Composed, plies)?;
        visited = visited
            .saturating_add(problem(alloc, &game, digest)?)
            .saturating_add(100);
    }
    Ok(())
}
