//! Searches that cut by journeys too: how many nodes they visit, that they find the games of those that do not, and
//! which bound they ask.

use super::bytes::WRITTEN;
use super::found_games::are_same;
use super::*;
use crate::shared::journeys_to;
use pg_moves::Unwatched;
use pg_trial::Never;

// The four bounds and that by journeys.
pub(super) fn five_bounds<R: Abort + AllocGlobal>(
    rt: &R,
    diagram: &Diagram,
) -> Vec<Box<dyn Bound>> {
    let mut bounds = four_bounds(rt.alloc());
    add(&mut bounds, journeys_to(rt, diagram));
    bounds
}

// What a search finds that is lent these bounds.
pub(super) fn searched_by_journeys<W: Sink>(
    alloc: Global,
    goal: &Goal,
    nodes: u64,
    bounds: &[Box<dyn Bound>],
    sink: &mut W,
) -> Result<Games, SearchFault> {
    search_by_journeys(
        alloc,
        &goal.diagram,
        goal.length,
        nodes,
        bounds,
        sink,
        &mut Unwatched,
    )
}

// The games that a search by journeys finds within its limit of nodes, and how many records its certificate has, by a
// check with the five bounds that the search was lent.
#[derive(Drop)]
struct Settled {
    games: Games,
    records: u64,
}

fn settled_by_journeys<R: Abort + AllocGlobal>(
    rt: &R,
    goal: &Goal,
    nodes: u64,
) -> Result<Settled, SearchFault> {
    let mut sink = ToWrite::new(Vec::new(rt.alloc()));
    let bounds = five_bounds(rt, &goal.diagram);
    match searched_by_journeys(rt.alloc(), goal, nodes, &bounds, &mut sink) {
        Ok(games) => {
            let bytes = sink.into_inner();
            let said = checked_by(rt.alloc(), goal, &games, &bounds, bytes.as_slice());
            let records = number(rt, said.as_str());
            Ok(Settled { games, records })
        }
        Err(fault) => Err(fault),
    }
}

// How many games and records there are, or the fault.
fn said_by_journeys<R: Abort + AllocGlobal>(rt: &R, goal: &Goal, nodes: u64) -> Said {
    match settled_by_journeys(rt, goal, nodes) {
        Ok(settled) => words(&format_args!("{} {}", settled.games.len(), settled.records)),
        Err(fault) => words(&format_args!("{fault:?}")),
    }
}

// Problems of four to twelve moves: a diagram and a length; how many games there are, and how many nodes a search by
// journeys visits, of which each is a record of its certificate.
const PROBLEMS: &str = "r1bqkbnr/ppp2ppp/3p4/8/8/8/PPPPPPPP/R1BQKBNR | 4.0 => 1 3033
four-knights-gone | 4.0 => 1 1731
rnb1kb1r/ppppqppp/8/8/8/5P2/PPPP1KPP/RNB2BNn | 5.0 => 3 533
rnbq1bnr/ppppp1p1/8/8/2k4p/2NPP3/PPP2PPP/RNBQ1RK1 | 6.5 => 1 536
4kbnr/3pppp1/8/1bR4p/8/r7/P1PPPPPP/RNBQKBNR | 7.0 => 1 3802
2bqr1k1/2pNppbp/1p5p/7n/1r1P4/8/P1P1PPPP/RNB1KBNR | 9.0 => 1 647
2bqr1k1/2p1ppbp/1pp4p/7n/r2P3P/8/P1P1PPP1/RNB1KBNR | 9.5 => 1 1959
4r1k1/2p1ppbp/1p5p/2N2b1n/2rP4/q3P3/P1P1BPPP/RNB1K1NR | 12.0 => 1 1554";

// A search of the row's number of nodes settles the problem, and one of a node less does not.
fn check_nodes<R: Abort + AllocGlobal>(rt: &R, row: &str) {
    let (asked, wanted) = halves(rt, row, " => ");
    let goal = goal_of(rt, field(asked, 0), field(asked, 1));
    let (_, nodes) = halves(rt, wanted, " ");
    let nodes = number(rt, nodes);
    assert_eq!(rt;
        said_by_journeys(rt, &goal, nodes).as_str(),
        wanted,
        "{asked}"
    );
    let fewer = said_by_journeys(rt, &goal, nodes.saturating_sub(1));
    assert_eq!(rt; fewer.as_str(), "Budget", "{asked}");
}

#[test]
fn problems_are_settled_by_journeys_with_so_many_nodes(rt: HostRuntime) {
    for row in PROBLEMS.lines() {
        check_nodes(&rt, row);
    }
}

// What a check of a certificate by journeys says that has no bound by journeys.
fn checked_without<R: Abort + AllocGlobal>(rt: &R, goal: &Goal) -> Said {
    let mut sink = ToWrite::new(Vec::new(rt.alloc()));
    let bounds = five_bounds(rt, &goal.diagram);
    let games = searched_by_journeys(rt.alloc(), goal, NODES, &bounds, &mut sink).expect(
        rt, "found",
    );
    let bytes = sink.into_inner();
    checked(rt.alloc(), goal, &games, bytes.as_slice())
}

// A certificate with a cut by journeys, and one without.
const WITHOUT: &str = "2bqr1k1/2pNppbp/1p5p/7n/1r1P4/8/P1P1PPPP/RNB1KBNR | 9.0 => UnknownBound(5)
after-e4-e5 | 1.0 => 22";

#[test]
fn cuts_by_journeys_want_their_bound(rt: HostRuntime) {
    for row in WITHOUT.lines() {
        let (asked, wanted) = halves(&rt, row, " => ");
        let goal = goal_of(&rt, field(asked, 0), field(asked, 1));
        assert_eq!(rt; checked_without(&rt, &goal).as_str(), wanted, "{asked}");
    }
}

// What a search of the row's number of nodes finds, one by journeys finds with as many, and with no more records.
fn check_same<R: Abort + AllocGlobal>(rt: &R, row: &str) {
    let (asked, _) = halves(rt, row, " => ");
    let goal = goal_of(rt, field(asked, 0), field(asked, 1));
    let nodes = number(rt, field(asked, 2));
    let mut sink = ToWrite::new(Vec::new(rt.alloc()));
    if let Ok(games) = searched(rt.alloc(), &goal, nodes, &mut sink) {
        let settled = settled_by_journeys(rt, &goal, nodes).expect(rt, asked);
        assert!(rt;
            are_same(&games, &settled.games) && settled.records <= nodes,
            "{asked}"
        );
    }
}

#[test]
fn the_same_games_are_found_by_journeys(rt: HostRuntime) {
    for row in WRITTEN.lines() {
        check_same(&rt, row);
    }
}

// Bounds by the words of a list: that by journeys, or by its code one that never excludes.
fn lent<R: Abort + AllocGlobal>(rt: &R, list: &str, diagram: &Diagram) -> Vec<Box<dyn Bound>> {
    let mut bounds: Vec<Box<dyn Bound>> = Vec::new(rt.alloc());
    for word in list.split(' ') {
        if word == "journeys" {
            add(&mut bounds, journeys_to(rt, diagram));
        } else {
            let code: u8 = word.parse().expect(rt, word);
            let never = Box::new(rt.alloc(), Never::new(code)).expect(rt, "memory");
            add(&mut bounds, never);
        }
    }
    bounds
}

// Lists of bounds, and how many records the certificate has of a search that is lent them: as many as by journeys, or
// as many as of a search that does not cut by them.
const LENT: &str = "journeys => 647
4 journeys 5 => 647
5 journeys => 9198
4 6 => 9198";

fn check_lent<R: Abort + AllocGlobal>(rt: &R, goal: &Goal, row: &str) {
    let (list, wanted) = halves(rt, row, " => ");
    let mut sink = ToWrite::new(Vec::new(rt.alloc()));
    let bounds = lent(rt, list, &goal.diagram);
    let games = searched_by_journeys(rt.alloc(), goal, NODES, &bounds, &mut sink).expect(rt, list);
    let bytes = sink.into_inner();
    let bounds = five_bounds(rt, &goal.diagram);
    let said = checked_by(rt.alloc(), goal, &games, &bounds, bytes.as_slice());
    assert_eq!(rt; said.as_str(), wanted, "{list}");
}

// The first bound of code 5 is asked, and no other.
#[test]
fn a_search_asks_the_bound_that_it_is_lent(rt: HostRuntime) {
    let goal = goal_of(
        &rt,
        "2bqr1k1/2pNppbp/1p5p/7n/1r1P4/8/P1P1PPPP/RNB1KBNR",
        "9.0",
    );
    for row in LENT.lines() {
        check_lent(&rt, &goal, row);
    }
}
