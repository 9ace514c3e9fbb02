//! Problems that a search settles.
use crate::digest::Digest;
use crate::fault::Fault;
use pg_report::{Diagram, Games, Length, SearchFault, ToWrite, search};
use std::alloc::Global;

// How many records a check takes at most, and how many named nodes: what the program takes.
pub(crate) const RECORDS: u64 = 100_000_000;

// What a search came to.
#[derive(Drop)]
pub(crate) enum Came {
    // These games and this certificate.
    Settled { games: Games, bytes: Vec<u8> },
    // It came to its limit.
    Limit,
    // Another end: a shorter game, or more games than a list holds.
    Other(u64),
}

// A search with `nodes` nodes at most. What it has written is taken in, however it ended.
pub(crate) fn settle(
    alloc: Global,
    diagram: &Diagram,
    length: Length,
    nodes: u64,
    digest: &mut Digest,
) -> Result<Came, Fault> {
    let mut sink = ToWrite::new(Vec::new(alloc));
    let answer = search(alloc, diagram, length, nodes, &mut sink);
    let bytes = sink.into_inner();
    digest.text(bytes.as_slice());
    match answer {
        Ok(games) => Ok(Came::Settled { games, bytes }),
        Err(SearchFault::Budget) => Ok(Came::Limit),
        Err(SearchFault::Shorter(plies)) => Ok(Came::Other(u64::from(plies))),
        Err(SearchFault::TooManyGames) => Ok(Came::Other(1_000)),
        Err(_) => Err(Fault::NoAnswer("search")),
    }
}
