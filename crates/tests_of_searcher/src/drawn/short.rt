//! Short problems by chance, held against a search that goes through all games.

use super::*;
use crate::shared::{chosen, next};
use pg_certificate::ToWrite;
use pg_fen::{Diagram, Length};
use pg_position::Position;
use pg_searcher::{SearchFault, search};

// Where a game of `plies` drawn moves ends; before them where none is legal.
fn end_by_chance(rt: &impl Abort, alloc: Global, state: u64, plies: u8) -> Position {
    let mut position = Position::array();
    let mut state = state;
    for _ in 0..plies {
        state = next(state);
        if let Some(m) = chosen(rt, alloc, &position, state >> 33) {
            position = position.play(m).expect(rt, "a legal move");
        }
    }
    position
}

// How many games a search finds that goes through all, two where there are more; none where a shorter one is met.
fn games_of<R: Abort + AllocGlobal>(rt: &R, goal: &Goal) -> Option<usize> {
    let mut sink = ToWrite::new(Vec::new(rt.alloc()));
    match search(rt.alloc(), &goal.diagram, goal.length, 1_000_000, &mut sink) {
        Ok(games) => Some(games.len().min(2)),
        Err(SearchFault::TooManyGames) => Some(2),
        Err(_) => None,
    }
}

// What a drawn search comes to that goes through all games, with journeys or without.
fn drawn_games<R: Abort + AllocGlobal>(rt: &R, goal: &Goal, bounds: &[Box<dyn Bound>]) -> usize {
    let limits = DrawnLimits {
        seed: 5,
        starts: 1,
        max_nodes: 1_000_000,
    };
    let (diagram, length) = (&goal.diagram, goal.length);
    let drawn = search_drawn(rt.alloc(), diagram, length, limits, bounds, &mut Unwatched);
    let drawn = drawn.expect(rt, "memory");
    assert!(rt; are_games(goal, &drawn) && drawn.shorter.is_none());
    let is_met = drawn.end == DrawnEnd::Met;
    assert!(rt; is_met == (drawn.games.len() == 2));
    assert!(rt; is_met || drawn.end == DrawnEnd::All);
    drawn.games.len()
}

// Games by chance of three to five plies: as many games are met as there are, two at most.
#[test]
fn no_game_of_a_short_tree_is_lost(rt: HostRuntime) {
    let mut held = 0u32;
    for i in 0..40u64 {
        let plies = 3 + (i % 3) as u8;
        let end = end_by_chance(&rt, rt.alloc(), i, plies);
        let goal = Goal {
            diagram: Diagram::of(&end),
            length: Length::from_plies(plies).expect(&rt, "a length"),
        };
        if let Some(games) = games_of(&rt, &goal) {
            let bounds = by_journeys(&rt, &goal);
            assert_eq!(rt; drawn_games(&rt, &goal, bounds.as_slice()), games, "{i}");
            assert_eq!(rt; drawn_games(&rt, &goal, &[]), games, "{i}");
            held = held.saturating_add(1);
        }
    }
    assert!(rt; held > 20, "{held}");
}
