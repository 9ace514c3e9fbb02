//! What records cost the checker: how many were judged, in all rounds.

use crate::fault::Fault;
use crate::transposed;
use pg_captures::Bound;
use pg_certificate::FromRead;
use pg_certificate::format::EXPAND;
use pg_checker::{check, skip_to_solution};
use pg_fen::{Diagram, Length, read_position};
use pg_moves::LegalMoves;
use pg_san::{Games, read_games};
use std::alloc::{AllocError, Global};

// A diagram of 64 men.
const FULL: &str = "nnnnknnn/pppppppp/rrrrrrrr/bbbbbbbb/BBBBBBBB/RRRRRRRR/PPPPPPPP/NNNNKNNN";

fn read_diagram(text: &str) -> Result<Diagram, Fault> {
    Diagram::read(text).map_err(|_| Fault::Text)
}

fn read_list(alloc: Global, text: &str) -> Result<Games, Fault> {
    read_games(alloc, text).map_err(|_| Fault::Text)
}

// The header, and an expansion for each node with a ply left.
fn certificate(alloc: Global, diagram: &Diagram, length: Length) -> Result<Vec<u8>, AllocError> {
    let mut bytes = Vec::new(alloc);
    bytes.extend_from_slice(b"PGC1")?;
    bytes.push(length.plies())?;
    bytes.extend_from_slice(&diagram.packed())?;
    for _ in 0..9_766 {
        bytes.push(EXPAND)?;
    }
    Ok(bytes)
}

// Checks all games of 2.0 by a certificate, `rounds` times.
fn checked(
    alloc: Global,
    diagram: &Diagram,
    length: Length,
    list: &str,
    bytes: &[u8],
    rounds: u32,
) -> anyhow::Result<u64> {
    let games = read_list(alloc, list)?;
    let bounds: Vec<Box<dyn Bound>> = Vec::new(alloc);
    let mut records = 0u64;
    for _ in 0..rounds {
        let mut source = FromRead::new(bytes);
        match check(
            alloc,
            diagram,
            length,
            &games,
            &bounds,
            &mut source,
            1_000_000,
            1_000_000,
        ) {
            Ok(proved) => records = records.saturating_add(proved.records),
            Err(fault) => Err(Fault::Check(fault))?,
        }
    }
    Ok(records)
}

// Checks all games of 2.0 by expansions, `rounds` times.
fn expanded(alloc: Global, placement: &str, list: &str, rounds: u32) -> anyhow::Result<u64> {
    let diagram = read_diagram(placement)?;
    let length = Length::read("2.0").map_err(|_| Fault::Text)?;
    let bytes = certificate(alloc, &diagram, length)?;
    checked(alloc, &diagram, length, list, bytes.as_slice(), rounds)
}

// Checks all games of 2.0 to the diagram of 64 men by expansions and references, `rounds` times.
pub(crate) fn references(alloc: Global, rounds: u32) -> anyhow::Result<u64> {
    let diagram = read_diagram(FULL)?;
    let length = Length::read("2.0").map_err(|_| Fault::Text)?;
    let bytes = transposed::certificate(alloc, &diagram, length)?;
    checked(alloc, &diagram, length, "", bytes.as_slice(), rounds)
}

// Asks a thousand times a round for the moves that lead to the diagram, in a position of 218 moves, four squares of which are
// not as the diagram has them: no node with one ply left that was tried costs more.
pub(crate) fn near(rounds: u32) -> Result<u64, Fault> {
    let game = read_position("R6R/3Q4/1Q4Q1/4Q3/2Q4Q/Q4Q2/pp1Q4/kBNN1KB1 w - - 0 1").map_err(
        |_| Fault::Text,
    )?;
    let diagram = read_diagram("R6R/3B4/1B4B1/4B3/2Q4Q/Q4Q2/pp1Q4/kBNN1KB1")?;
    let mut records = 0u64;
    for _ in 0..rounds {
        for _ in 0..1_000 {
            let mut moves = LegalMoves::new(&game.position);
            if !skip_to_solution(&diagram, &mut moves) {
                records = records.saturating_add(1);
            }
        }
    }
    Ok(records)
}

// Checks the queen recaptures by expansions alone, 9,766 records a round.
pub(crate) fn expansions(alloc: Global, rounds: u32) -> anyhow::Result<u64> {
    expanded(
        alloc,
        "rnb1kbnr/ppp1pppp/8/3q4/8/8/PPPP1PPP/RNBQKBNR",
        "1. e4 d5 2. exd5 Qxd5",
        rounds,
    )
}

// The same for the diagram of 64 men.
pub(crate) fn full(alloc: Global, rounds: u32) -> anyhow::Result<u64> {
    expanded(alloc, FULL, "", rounds)
}
