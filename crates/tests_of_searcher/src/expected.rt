//! What a search may be expected to take: the forecast, the next tree, the slack of either side.

use crate::shared::{field, goal_of};
use pg_searcher::{forecast, next_tree, slacks};
use std::process::Abort;

// A diagram and a length; the plies that White has to spare, and Black, or - where he has too few.
const SLACKS: &str = "array | 0 | 0 | 0
array | 2.5 | 3 | 2
after-e4-e5 | 1.0 | 0 | 0
after-e4-e5 | 0.5 | 0 | -
rnbq1rk1/ppppppbp/5np1/8/8/5NP1/PPPPPPBP/RNBQ1RK1 | 4.5 | 1 | 0";

// Whether a colour has as many plies to spare as a text says.
fn is_said(slack: Option<u8>, text: &str) -> bool {
    slack == text.parse().ok()
}

// Whether both colours of a row have what stands there.
fn are_said<R: Abort + AllocGlobal>(rt: &R, row: &str) -> bool {
    let goal = goal_of(rt, field(row, 0), field(row, 1));
    let found = slacks(rt.alloc(), &goal.diagram, goal.length).expect(rt, row);
    is_said(found.white, field(row, 2)) && is_said(found.black, field(row, 3))
}

#[test]
fn slacks_are_the_plies_to_spare(rt: HostRuntime) {
    for row in SLACKS.lines() {
        assert!(rt; are_said(&rt, row), "{row}");
    }
}

// 10^(-0.6 + 0.65 * 7 + 0.26 * 8) = 10^6.03, and a tree of 60 after 20 and 10.
#[test]
fn forecasts(rt: HostRuntime) {
    assert!(rt; forecast(3, 4, 8) == 603 && forecast(0, 0, 2) == 0);
    assert!(rt; next_tree(10, 20, 30).unwrap_or(0) == 60);
    assert!(rt; next_tree(0, 20, 30).is_none());
    assert!(rt; next_tree(1, u64::MAX, 2).unwrap_or(0) == u64::MAX);
}
