//! Limits of nodes and of memory, and who watches.

use super::*;

// Problems that are open within their limits, and how many nodes are visited then: all that may be, or fewer where each
// start ends between.
const LIMITS: &str = "fools-mate | 2.0 | 1 | 0 | 1000 => Nodes 0 | 0
fools-mate | 2.0 | 1 | 3 | 0 => Nodes 0 | 0
fools-mate | 2.0 | 1 | 3 | 1 => Nodes 0 | 3
r1bqkbnr/ppp2ppp/3p4/8/8/8/PPPPPPPP/R1BQKBNR | 4.0 | 1 | 4 | 5 => Nodes 0 | 20
rn1qk2r/1pp2p1N/4pP2/8/3p1np1/8/PPP1P2P/R1BQKB2 | 20.0 | 1 | 5 | 30 => Nodes 0 | 150";

#[test]
fn nodes_end_a_start(rt: HostRuntime) {
    for row in LIMITS.lines() {
        let (asked, wanted) = halves(&rt, row, " => ");
        let (said, nodes) = drawn_by(&rt, asked);
        let said = words(&format_args!("{} | {nodes}", said.as_str()));
        assert_eq!(rt; said.as_str(), wanted, "{row}");
    }
}

// What is told of a search: whether the plies were those of the length and the nodes that are left became no more, how
// often it was told, and how many games; it ends the search when it was told so often.
#[derive(Drop)]
struct Told {
    plies: u8,
    left: u64,
    in_order: bool,
    times: u32,
    games: u32,
    most: u32,
}

impl SearchProgress for Told {
    fn reached(&mut self, plies: u8, left: u64) {
        self.in_order = self.in_order && plies == self.plies && left <= self.left;
        self.left = left;
        self.times = self.times.saturating_add(1);
    }

    fn met(&mut self, game: &[Move]) {
        self.in_order = self.in_order && game.len() == usize::from(self.plies);
        self.games = self.games.saturating_add(1);
    }

    fn goes_on(&mut self) -> bool {
        self.times < self.most
    }
}

// What a search comes to that is told `most` times at most how far it is, of three starts with `nodes` nodes.
fn watched<R: Abort + AllocGlobal>(rt: &R, goal: &Goal, nodes: u64, most: u32) -> (Said, Told) {
    let bounds = by_journeys(rt, goal);
    let limits = DrawnLimits {
        seed: 1,
        starts: 3,
        max_nodes: nodes,
    };
    let mut watch = Told {
        plies: goal.length.plies(),
        left: nodes.saturating_mul(3),
        in_order: true,
        times: 0,
        games: 0,
        most,
    };
    let (diagram, length) = (&goal.diagram, goal.length);
    let drawn = search_drawn(rt.alloc(), diagram, length, limits, &bounds, &mut watch);
    let drawn = drawn.expect(rt, "memory");
    let visited = nodes.saturating_mul(3).saturating_sub(drawn.nodes);
    assert!(rt; watch.in_order && watch.left >= visited);
    (said_of(rt, goal, &drawn), watch)
}

#[test]
fn a_drawn_search_is_watched(rt: HostRuntime) {
    let goal = goal_of(&rt, "fools-mate", "2.0");
    let (said, watch) = watched(&rt, &goal, 1_000, 1_000);
    assert_eq!(rt; said.as_str(), "Met 2");
    assert_eq!(rt; watch.games, 2);
    let schweig = "r1bqkbnr/ppp2ppp/3p4/8/8/8/PPPPPPPP/R1BQKBNR";
    let goal = goal_of(&rt, schweig, "4.0");
    let (said, watch) = watched(&rt, &goal, 1_000, 4);
    assert_eq!(rt; said.as_str(), "Stopped 0");
    assert!(rt; watch.times == 4 && watch.games == 0);
    let (said, watch) = watched(&rt, &goal, 20, 1_000);
    assert_eq!(rt; said.as_str(), "Nodes 0");
    assert!(rt; watch.times > 50 && watch.games == 0);
}

// How many searches are refused memory, of one without bounds; else both games are met.
fn refusals(rt: &impl Abort, alloc: Global, goal: &Goal) -> u8 {
    let limits = DrawnLimits {
        seed: 1,
        starts: 3,
        max_nodes: 1_000,
    };
    let (diagram, length) = (&goal.diagram, goal.length);
    match search_drawn(alloc, diagram, length, limits, &[], &mut Unwatched) {
        Ok(drawn) => {
            assert_eq!(rt; said_of(rt, goal, &drawn).as_str(), "Met 2");
            0
        }
        Err(fault) => {
            assert_eq!(rt; words(&fault).as_str(), "out of memory");
            1
        }
    }
}

// Passes too where `rt try --test --fail-alloc N` refuses the N-th growth: then one search answers that memory was
// refused.
#[test]
fn refused_growths_of_drawn_searches(rt: HostRuntime) {
    let goal = goal_of(&rt, "fools-mate", "2.0");
    let first = refusals(&rt, rt.alloc(), &goal);
    let second = refusals(&rt, rt.alloc(), &goal);
    assert!(rt; first.saturating_add(second) <= 1);
}
