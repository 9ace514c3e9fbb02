//! Searches that cut by journeys too: they find the games that the first form found, which did not.

use super::*;
use crate::by_nodes::searches::drawn_goal;
use crate::shared::{Goal, journeys_to};
use pg_captures::Bound;
use pg_certificate::ToWrite;
use pg_moves::Unwatched;

// How many games a search of `nodes` nodes by journeys finds, and their digest.
fn said<R: Abort + AllocGlobal>(rt: &R, goal: &Goal, nodes: u64) -> Said {
    let mut sink = ToWrite::new(Vec::new(rt.alloc()));
    let (diagram, length) = (&goal.diagram, goal.length);
    let journeys: Box<dyn Bound> = journeys_to(rt, diagram);
    let bounds = [journeys];
    match search_by_journeys(
        rt.alloc(),
        diagram,
        length,
        nodes,
        &bounds,
        &mut sink,
        &mut Unwatched,
    ) {
        Ok(games) => {
            let mut batch = Batch::new();
            batch.heard.hear_games(&games);
            batch.add(words(&games.len()).as_str());
            batch.row()
        }
        Err(fault) => words(&format_args!("{fault:?}")),
    }
}

// What was found with `nodes` nodes is found by journeys with as many; whether it was.
fn check_found<R: Abort + AllocGlobal>(rt: &R, row: &str, nodes: u64, state: &mut u64) -> bool {
    let (drawn_so, wanted) = halves(rt, row, " => ");
    let plies = number(rt, field(drawn_so, 1));
    let goal = drawn_goal(rt, begun_in(rt, drawn_so), plies, state);
    if wanted == "Budget" {
        return false;
    }
    assert_eq!(rt; said(rt, &goal, nodes).as_str(), wanted, "{drawn_so}");
    true
}

// Which game begins, and how many plies by chance follow; what the first form answered with 4,000 nodes: a fault, or
// how many games, and their digest.
const GAMES: &str = "0 | 0 => 1 | 509c41b379fe466e
0 | 1 => Shorter(1)
0 | 2 => Shorter(2)
0 | 3 => Shorter(3)
0 | 4 => Shorter(4)
0 | 5 => 6 | 7898bc2659cbf431
0 | 6 => Shorter(6)
1 | 0 => 1 | 9cab0971998eee14
1 | 1 => 4 | c85e353e03e19775
1 | 2 => 1 | 6a2e7f117c5a0258
1 | 3 => Shorter(10)
1 | 4 => Shorter(12)
1 | 5 => Shorter(13)
1 | 6 => Budget
2 | 0 => 9 | 99d4b41557d12cfd
2 | 1 => 36 | fe80ebcdd3c29635
2 | 2 => Shorter(7)
2 | 3 => Budget
2 | 4 => Shorter(9)
2 | 5 => Budget
2 | 6 => Shorter(12)
3 | 0 => 16 | c3d45e3cc02fc67d
3 | 1 => Shorter(9)
3 | 2 => Budget
3 | 3 => Budget
3 | 4 => Shorter(11)
3 | 5 => Shorter(12)
3 | 6 => Shorter(13)
4 | 0 => 2 | 66764fc188d32ddb
4 | 1 => Shorter(5)
4 | 2 => 9 | 0ac54bfc413afc11
4 | 3 => 36 | f1c2f35cbc7f9ba5
4 | 4 => Budget
4 | 5 => Shorter(9)
4 | 6 => Budget
5 | 0 => 1 | b4a6f5853cc90236
5 | 1 => Shorter(7)
5 | 2 => 8 | 5271465f45ecc7f3
5 | 3 => Shorter(8)
5 | 4 => Budget
5 | 5 => Shorter(10)
5 | 6 => Budget
6 | 0 => 4 | b42af22326826661
6 | 1 => 8 | f77817725ef69453
6 | 2 => 42 | 791edf5f66edc055
6 | 3 => Budget
6 | 4 => Budget
6 | 5 => Shorter(9)
6 | 6 => Budget";

#[test]
fn searches_by_journeys_find_the_same_games(rt: HostRuntime) {
    let mut state = 4;
    let mut count = 0u32;
    for row in GAMES.lines() {
        count = count.saturating_add(u32::from(check_found(&rt, row, 4_000, &mut state)));
    }
    assert!(rt; count > 19, "{count}");
}
