//! A led search with each growth refused in turn.

use super::*;

// How many times a list, or a search that it leads, is refused memory; else this is answered. Two games are mates in
// two moves.
fn refusals(rt: &impl Abort, alloc: Global, text: &str, wanted: &str) -> u8 {
    let goal = goal_of(rt, "fools-mate", "2.0");
    let Ok(games) = read_games(alloc, text) else {
        return 1;
    };
    let asked = Asked {
        diagram: goal.diagram,
        length: goal.length,
        games,
    };
    let said = answer(rt, alloc, &asked, limits_of(1_000, "0"), &mut Unwatched);
    let is_refused = said.as_str() == "out of memory";
    assert!(rt; is_refused || said.as_str() == wanted, "{said}");
    u8::from(is_refused)
}

// Passes too where `rt try --test --fail-alloc N` refuses the N-th growth: then one search or one list of all answers
// that memory was refused.
#[test]
fn refused_growths_of_led_searches(rt: HostRuntime) {
    let first = "1. f3 e5 2. g4 Qh4#";
    let both = "1. f3 e5 2. g4 Qh4#\n1. g4 e5 2. f3 Qh4#";
    let one = refusals(&rt, rt.alloc(), first, "4 plies");
    let both = refusals(&rt, rt.alloc(), both, "none with 0");
    assert!(rt; one.saturating_add(both) <= 1);
}
