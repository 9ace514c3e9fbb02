//! The drawn search: the games that it meets are other ones, of the stated length, and end on the diagram; its runs are
//! the same, within limits; and it loses no game of short trees.

mod limits;
mod short;

use crate::shared::{Goal, Said, end_of, field, goal_of, halves, journeys_to, number, words};
use pg_captures::Bound;
use pg_drawn::*;
use pg_moves::Unwatched;
use pg_position::Move;
use pg_searcher::SearchProgress;
use std::alloc::{AllocError, Global};
use std::process::Abort;

// The bound by journeys alone.
fn by_journeys<R: Abort + AllocGlobal>(rt: &R, goal: &Goal) -> Vec<Box<dyn Bound>> {
    let mut bounds: Vec<Box<dyn Bound>> = Vec::new(rt.alloc());
    let journeys = journeys_to(rt, &goal.diagram);
    let _ = bounds.push(journeys);
    bounds
}

// Limits of a row: a seed, how many starts, and how many nodes in each.
fn limits_of(rt: &impl Abort, row: &str) -> DrawnLimits {
    DrawnLimits {
        seed: number(rt, field(row, 2)),
        starts: number(rt, field(row, 3)).min(1_000) as u32,
        max_nodes: number(rt, field(row, 4)),
    }
}

// Whether a game is one that ends on the diagram.
fn ends_there(goal: &Goal, game: &[Move]) -> bool {
    match end_of(game) {
        Some(end) => goal.diagram.matches(&end),
        None => false,
    }
}

// Whether each game that was met is of the stated length and ends on the diagram, two are different ones, and a shorter
// one is shorter and ends there too.
fn are_games(goal: &Goal, drawn: &Drawn) -> bool {
    let plies = usize::from(goal.length.plies());
    for i in 0..drawn.games.len() {
        let Some(game) = drawn.games.game(i) else {
            return false;
        };
        if game.len() != plies || !ends_there(goal, game) {
            return false;
        }
    }
    if drawn.games.len() == 2 && drawn.games.game(0) == drawn.games.game(1) {
        return false;
    }
    match &drawn.shorter {
        Some(game) => game.len() < plies && ends_there(goal, game.as_slice()),
        None => true,
    }
}

// What a search comes to, in words: its end, how many games were met, and how many plies a shorter one has.
fn said_of(rt: &impl Abort, goal: &Goal, drawn: &Drawn) -> Said {
    assert!(rt; are_games(goal, drawn));
    let end = drawn.end;
    let games = drawn.games.len();
    match &drawn.shorter {
        Some(game) => words(&format_args!("{end:?} {games} shorter {}", game.len())),
        None => words(&format_args!("{end:?} {games}")),
    }
}

// What a search of a row by journeys comes to: a diagram, a length, a seed, starts, and nodes.
fn drawn_by<R: Abort + AllocGlobal>(rt: &R, row: &str) -> (Said, u64) {
    let goal = goal_of(rt, field(row, 0), field(row, 1));
    let bounds = by_journeys(rt, &goal);
    let limits = limits_of(rt, row);
    let (diagram, length) = (&goal.diagram, goal.length);
    let drawn = search_drawn(rt.alloc(), diagram, length, limits, &bounds, &mut Unwatched);
    match drawn {
        Ok(drawn) => (said_of(rt, &goal, &drawn), drawn.nodes),
        Err(fault) => (words(&fault), 0),
    }
}

// Problems that are not sound: mates in two moves, a capture en passant, a game and one that gives back a tempo,
// knights that might stay at home, so that a shorter game is met on the way, or a ply too many; and problems of 12 and
// 15 moves by chance.
const TWICE: &str = "fools-mate | 2.0 | 1 | 9 | 1000 => Met 2
rnbqkbnr/1pp1pppp/p2P4/8/8/8/PPPP1PPP/RNBQKBNR | 2.5 | 1 | 9 | 1000 => Met 2
rnbqkbnr/p1pppppp/8/8/8/3QP3/PPP2PPP/RNB1K1NR | 3.5 | 1 | 9 | 1000 => Met 2
rnb1kb1r/ppppqppp/8/8/8/5P2/PPPP1KPP/RNB2BNn | 5.0 | 7 | 9 | 1000 => Met 2
after-e4-e5 | 3.0 | 1 | 9 | 1000 => Met 0 shorter 2
after-e4 | 1.0 | 1 | 9 | 1000 => Met 0 shorter 1
r2qkb1r/1pP1ppp1/7p/p5nn/P7/7b/3PPPPP/RNBQKB1R | 12.0 | 1 | 20 | 100 => Met 2
r1bq2nr/1pp1B1k1/8/4Np1p/p1n5/8/PPP1P1PP/RN1QKBNR | 15.0 | 1 | 40 | 300 => Met 2
rnbq1bnr/2ppp1p1/5k2/1pP5/p3Q3/P6N/1P1P1PPP/RNB1KB1R | 15.0 | 1 | 40 | 300 => Met 2";

#[test]
fn two_games_are_met(rt: HostRuntime) {
    for row in TWICE.lines() {
        let (asked, wanted) = halves(&rt, row, " => ");
        let (said, nodes) = drawn_by(&rt, asked);
        assert_eq!(rt; said.as_str(), wanted, "{row}");
        let (again, as_many) = drawn_by(&rt, asked);
        assert!(rt; again.as_str() == wanted && as_many == nodes, "{row}");
    }
}

// Sound problems, and diagrams that no game of the length reaches: at most the one game is met, and where all were gone
// through just that one.
const NOT_TWICE: &str = "array | 0 | 1 | 9 | 1000 => All 0
after-e4 | 0.5 | 1 | 9 | 1000 => All 0
after-e4-e5 | 1.0 | 1 | 9 | 1000 => All 1
r1bqkbnr/ppp2ppp/3p4/8/8/8/PPPPPPPP/R1BQKBNR | 4.0 | 1 | 9 | 100000 => All 1
rnbqkb1r/ppp2ppp/8/8/8/8/PPPPPPPP/RNBQKB1R | 4.0 | 3 | 9 | 100000 => All 1
3n1Rn1/p1pkppp1/7r/3p3p/6b1/3K4/1PPPPP2/RNBQ2NR | 11.0 | 1 | 9 | 100000 => All 1
1nb2bnr/rp1pp1pp/p1p2p2/8/5BP1/3P1N1k/PPPQPP1P/1KR2R2 | 11.0 | 1 | 9 | 100000 => All 1";

#[test]
fn sound_problems_have_one_game_at_most(rt: HostRuntime) {
    for row in NOT_TWICE.lines() {
        let (asked, wanted) = halves(&rt, row, " => ");
        let (said, _) = drawn_by(&rt, asked);
        assert_eq!(rt; said.as_str(), wanted, "{row}");
    }
}
