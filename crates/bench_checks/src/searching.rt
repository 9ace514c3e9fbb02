//! Searches: how many games were found, how many bytes the certificate has and how many records of each sort.

use crate::fault::Fault;
use pg_captures::{Bound, Captures, Promotions};
use pg_certificate::format::MOST_NAMED;
use pg_certificate::{FromRead, Record, RecordReader, ToWrite};
use pg_checker::check;
use pg_fen::{Diagram, Length};
use pg_journeys::JourneysByMemory;
use pg_moves::Unwatched;
use pg_pawns::PawnFiles;
use pg_san::Games;
use pg_searcher::search_by_journeys;
use pg_travel::Travel;
use std::alloc::Global;

// Problems of four to nine moves: diagram and length.
const TABLE: [(&str, &str); 11] = [
    ("r1bqkbnr/ppp2ppp/3p4/8/8/8/PPPPPPPP/R1BQKBNR", "4.0"),
    ("rnbqkb1r/ppp2ppp/8/8/8/8/PPPPPPPP/RNBQKB1R", "4.0"),
    ("rnQ1kbnr/pp1ppppp/8/2p5/2P5/2q5/PP1PPPPP/RNB1KBNR", "3.5"),
    ("rnbqkbnr/p1pppppp/8/8/8/3QP3/PPP2PPP/RNB1K1NR", "3.5"),
    ("rnb1kb1r/ppppqppp/8/8/8/5P2/PPPP1KPP/RNB2BNn", "5.0"),
    ("r1bqnNnr/pppkpp1p/7R/3p4/8/8/PPPPPPP1/RNBQKBN1", "5.5"),
    ("Rnb1kbnr/p1p1pppp/8/3p4/8/8/1PPPPP2/RNBQ1KNR", "5.5"),
    ("1nbqkbnr/p1ppppp1/1N6/8/8/6n1/1PPPPP1P/RNBQKBN1", "6.0"),
    ("rnbq1bnr/ppppp1p1/8/8/2k4p/2NPP3/PPP2PPP/RNBQ1RK1", "6.5"),
    ("4kbnr/3pppp1/8/1bR4p/8/r7/P1PPPPPP/RNBQKBNR", "7.0"),
    ("2bqr1k1/2pNppbp/1p5p/7n/1r1P4/8/P1P1PPPP/RNB1KBNR", "9.0"),
];

// One of twelve moves.
const LONG: (&str, &str) = (
    "4r1k1/2p1ppbp/1p5p/2N2b1n/2rP4/q3P3/P1P1BPPP/RNB1K1NR",
    "12.0",
);

// What is asked for these: 100,000 nodes at most, and a check.
const CHECKED: Asked = Asked {
    nodes: 100_000,
    by_journeys: false,
    is_checked: true,
};

// How many records of each sort.
#[derive(Debug, Clone, Copy, Drop)]
struct Count {
    nodes: u64,
    named: u64,
    references: u64,
    cuts: u64,
    priced: u64,
}

// The records of a certificate.
fn count_records(bytes: &[u8]) -> Count {
    let mut source = FromRead::new(bytes);
    let mut reader = RecordReader::new();
    let mut count = Count {
        nodes: 0,
        named: 0,
        references: 0,
        cuts: 0,
        priced: 0,
    };
    let _ = reader.header(&mut source);
    for _ in 0..u64::MAX {
        let Ok(record) = reader.next_record(&mut source) else {
            return count;
        };
        count.nodes = count.nodes.saturating_add(1);
        match record {
            Record::Expand { named } => {
                count.named = count.named.saturating_add(u64::from(named));
            }
            Record::Cut(_) => count.cuts = count.cuts.saturating_add(1),
            Record::Ref(_) => count.references = count.references.saturating_add(1),
            Record::Priced { .. } => count.priced = count.priced.saturating_add(1),
        }
    }
    count
}

// What a search found: the games and the certificate.
#[derive(Drop)]
struct Found {
    games: Games,
    bytes: Vec<u8>,
}

// What a search is asked for beside the problem.
#[derive(Clone, Copy)]
pub(crate) struct Asked {
    // How many nodes it may visit.
    pub(crate) nodes: u64,
    // Whether it cuts by journeys too.
    pub(crate) by_journeys: bool,
    // Whether its certificate is checked.
    pub(crate) is_checked: bool,
}

// Searches, and cuts by journeys where these bounds have that one.
fn run(
    alloc: Global,
    diagram: &Diagram,
    length: Length,
    bounds: &[Box<dyn Bound>],
    nodes: u64,
) -> anyhow::Result<Found> {
    let mut sink = ToWrite::new(Vec::new(alloc));
    let games = match search_by_journeys(
        alloc,
        diagram,
        length,
        nodes,
        bounds,
        &mut sink,
        &mut Unwatched,
    ) {
        Ok(games) => games,
        Err(fault) => Err(Fault::Search(fault))?,
    };
    let bytes = sink.into_inner();
    Ok(Found { games, bytes })
}

fn read(diagram: &str, length: &str) -> anyhow::Result<(Diagram, Length)> {
    let diagram = match Diagram::read(diagram) {
        Ok(diagram) => diagram,
        Err(fault) => Err(Fault::Diagram(fault))?,
    };
    let length = match Length::read(length) {
        Ok(length) => length,
        Err(fault) => Err(Fault::Length(fault))?,
    };
    Ok((diagram, length))
}

// Whether a check says yes.
fn holds(
    alloc: Global,
    diagram: &Diagram,
    length: Length,
    bounds: &[Box<dyn Bound>],
    found: &Found,
    nodes: u64,
) -> bool {
    let mut source = FromRead::new(found.bytes.as_slice());
    let answer = check(
        alloc,
        diagram,
        length,
        &found.games,
        bounds,
        &mut source,
        nodes,
        MOST_NAMED,
    );
    answer.is_ok()
}

fn print(rt: &HostRuntime, found: &Found) -> anyhow::Result<()> {
    let count = count_records(found.bytes.as_slice());
    println!(rt;
        "games {} bytes {} nodes {} named {} references {} cuts {} priced {}",
        found.games.len(),
        found.bytes.len(),
        count.nodes,
        count.named,
        count.references,
        count.cuts,
        count.priced
    )?;
    Ok(())
}

// Settles each problem of the table and the long one, this by journeys too, checks the certificates and prints the numbers.
pub(crate) fn print_table(rt: &HostRuntime) -> anyhow::Result<()> {
    for (diagram, length) in TABLE {
        print_one(rt, diagram, length, CHECKED)?;
    }
    let (diagram, length) = LONG;
    print_one(rt, diagram, length, CHECKED)?;
    let by_journeys = Asked {
        by_journeys: true,
        ..CHECKED
    };
    print_one(rt, diagram, length, by_journeys)
}

// Searches for one problem as it is asked, and prints the numbers. A check goes by the bounds that the search was lent.
pub(crate) fn print_one(
    rt: &HostRuntime,
    diagram: &str,
    length: &str,
    asked: Asked,
) -> anyhow::Result<()> {
    let (diagram, length) = read(diagram, length)?;
    let alloc = rt.alloc();
    let mut bounds: Vec<Box<dyn Bound>> = Vec::new(alloc);
    bounds.push(Box::new(alloc, Captures)?)?;
    bounds.push(Box::new(alloc, Promotions)?)?;
    bounds.push(Box::new(alloc, PawnFiles)?)?;
    bounds.push(Box::new(alloc, Travel)?)?;
    if asked.by_journeys {
        let journeys = JourneysByMemory::new(alloc, &diagram)?;
        bounds.push(Box::new(alloc, journeys)?)?;
    }
    let nodes = asked.nodes;
    let found = run(alloc, &diagram, length, bounds.as_slice(), nodes)?;
    if asked.is_checked && !holds(alloc, &diagram, length, bounds.as_slice(), &found, nodes) {
        return Err(Fault::Refused)?;
    }
    print(rt, &found)
}
