//! Searches: what the tests share.

mod bytes;
mod found_games;
mod growths;
mod journeys;
mod met;
mod nodes;
mod refused_writes;
mod tolls;

use crate::shared::{Goal, Said, field, games_of, goal_of, halves, number, words};
use pg_captures::{Bound, Captures, Promotions};
use pg_certificate::format::MOST_NAMED;
use pg_certificate::{FromRead, Sink, ToWrite};
use pg_checker::check;
use pg_fen::{Diagram, Length};
use pg_moves::legal_moves;
use pg_pawns::PawnFiles;
use pg_position::Position;
use pg_san::Games;
use pg_searcher::*;
use pg_travel::Travel;
use std::alloc::Global;
use std::process::Abort;

// How many nodes are visited at most where a test does not say otherwise.
const NODES: u64 = 1_000_000;

// How many games were found, and how many records the certificate has.
#[derive(Clone, Copy)]
struct Found {
    games: usize,
    records: u64,
}

// How many games and records there are, or the fault.
fn told(answer: &Result<Found, SearchFault>) -> Said {
    match answer {
        Ok(found) => words(&format_args!("{} {}", found.games, found.records)),
        Err(fault) => words(&format_args!("{fault:?}")),
    }
}

fn add(bounds: &mut Vec<Box<dyn Bound>>, bound: Box<dyn Bound>) {
    let _ = bounds.push(bound);
}

// The bounds by captures, promotions, pawn files and travel; fewer where memory is refused.
fn four_bounds(alloc: Global) -> Vec<Box<dyn Bound>> {
    let mut bounds: Vec<Box<dyn Bound>> = Vec::new(alloc);
    if let Ok(bound) = Box::new(alloc, Captures) {
        add(&mut bounds, bound);
    }
    if let Ok(bound) = Box::new(alloc, Promotions) {
        add(&mut bounds, bound);
    }
    if let Ok(bound) = Box::new(alloc, PawnFiles) {
        add(&mut bounds, bound);
    }
    if let Ok(bound) = Box::new(alloc, Travel) {
        add(&mut bounds, bound);
    }
    bounds
}

// What a check of the certificate says, with the games that were found and the four bounds: how many records it
// has, or the fault.
fn checked(alloc: Global, goal: &Goal, games: &Games, bytes: &[u8]) -> Said {
    let bounds = four_bounds(alloc);
    if bounds.len() < 4 {
        return words(&"Memory");
    }
    checked_by(alloc, goal, games, &bounds, bytes)
}

// The same with bounds that are told.
fn checked_by(
    alloc: Global,
    goal: &Goal,
    games: &Games,
    bounds: &[Box<dyn Bound>],
    bytes: &[u8],
) -> Said {
    let mut source = FromRead::new(bytes);
    let (diagram, length) = (&goal.diagram, goal.length);
    match check(
        alloc,
        diagram,
        length,
        games,
        bounds,
        &mut source,
        NODES,
        MOST_NAMED,
    ) {
        Ok(proved) => words(&proved.records),
        Err(fault) => words(&format_args!("{fault:?}")),
    }
}

// How many records the certificate has, which a check says yes to.
fn records_of(rt: &impl Abort, alloc: Global, goal: &Goal, games: &Games, bytes: &[u8]) -> u64 {
    let said = checked(alloc, goal, games, bytes);
    said.as_str().parse().expect(rt, said.as_str())
}

// What a search finds.
fn searched<W: Sink>(
    alloc: Global,
    goal: &Goal,
    nodes: u64,
    sink: &mut W,
) -> Result<Games, SearchFault> {
    search(alloc, &goal.diagram, goal.length, nodes, sink)
}

// How many games a search found, or the fault.
fn count_of(answer: &Result<Games, SearchFault>) -> Said {
    match answer {
        Ok(games) => words(&games.len()),
        Err(fault) => words(&format_args!("{fault:?}")),
    }
}

// How many games a search of `nodes` nodes finds that tells of itself, or the fault.
fn watched<R: Abort + AllocGlobal, P: SearchProgress>(
    rt: &R,
    goal: &Goal,
    nodes: u64,
    watch: &mut P,
) -> Said {
    let mut sink = ToWrite::new(Vec::new(rt.alloc()));
    let (diagram, length) = (&goal.diagram, goal.length);
    count_of(&search_watched(rt.alloc(), diagram, length, nodes, &mut sink, watch))
}

// The games and the certificate, which has been checked, or the fault of a search of `nodes` nodes.
fn settled<R: Abort + AllocGlobal>(rt: &R, goal: &Goal, nodes: u64) -> Result<Found, SearchFault> {
    let mut sink = ToWrite::new(Vec::new(rt.alloc()));
    match searched(rt.alloc(), goal, nodes, &mut sink) {
        Ok(games) => {
            let bytes = sink.into_inner();
            Ok(Found {
                games: games.len(),
                records: records_of(rt, rt.alloc(), goal, &games, bytes.as_slice()),
            })
        }
        Err(fault) => Err(fault),
    }
}

// The certificate of a search.
fn certificate<R: Abort + AllocGlobal>(rt: &R, goal: &Goal) -> Vec<u8> {
    let mut sink = ToWrite::new(Vec::new(rt.alloc()));
    let games = searched(rt.alloc(), goal, NODES, &mut sink).expect(rt, "found");
    let bytes = sink.into_inner();
    assert!(rt; records_of(rt, rt.alloc(), goal, &games, bytes.as_slice()) > 0);
    bytes
}

// A row of a diagram, a length and how many nodes are allowed, if that is told: how many games and records there are,
// or the fault.
fn check_row<R: Abort + AllocGlobal>(rt: &R, row: &str) {
    let (asked, wanted) = halves(rt, row, " => ");
    let diagram = field(asked, 0);
    let length = field(asked, 1);
    let nodes = field(asked, 2);
    let goal = goal_of(rt, diagram, length);
    let nodes = nodes.parse().unwrap_or(NODES);
    assert_eq!(rt;
        told(&settled(rt, &goal, nodes)).as_str(),
        wanted,
        "{asked}"
    );
}

fn check_table<R: Abort + AllocGlobal>(rt: &R, table: &str) {
    for row in table.lines() {
        check_row(rt, row);
    }
}
