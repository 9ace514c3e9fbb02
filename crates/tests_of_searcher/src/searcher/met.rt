//! The games that a search tells of as it meets them.

use super::*;
use pg_position::Move;
use std::cmp::Ordering;

// The games that a search met: how many, the last one, and whether each came after the one before it.
#[derive(Drop)]
struct Met {
    games: usize,
    last: Game,
    in_order: bool,
}

impl SearchProgress for Met {
    fn reached(&mut self, _plies: u8, _left: u64) {}

    fn met(&mut self, game: &[Move]) {
        let is_next = self.games == 0 || self.last.as_slice().cmp(game) == Ordering::Less;
        self.in_order = self.in_order && is_next;
        self.games = self.games.saturating_add(1);
        self.last.clear();
        let _ = self.last.try_extend_from_slice(game);
    }
}

// How many games a search of `nodes` nodes tells of, and what it answers.
fn told_of<R: Abort + AllocGlobal>(rt: &R, goal: &Goal, nodes: u64) -> Said {
    let mut watch = Met {
        games: 0,
        last: Game::new(),
        in_order: true,
    };
    let said = watched(rt, goal, nodes, &mut watch);
    assert!(rt; watch.in_order);
    words(&format_args!("{} met, {said}", watch.games))
}

// A diagram, a length and how many nodes are allowed: how many games are told, and how many there are or why the search
// has no answer.
const MET: &str = "array | 0 | 0 => 1 met, 1
after-e4 | 0.5 | 100 => 1 met, 1
rnbqkbnr/1pp1pppp/p2P4/8/8/8/PPPP1PPP/RNBQKBNR | 2.5 | 100000 => 4 met, 4
rnb1kb1r/ppppqppp/8/8/8/5P2/PPPP1KPP/RNB2BNn | 5.0 | 100000 => 3 met, 3
rnbqkbnr/p1pppppp/8/8/8/3QP3/PPP2PPP/RNB1K1NR | 3.5 | 8312 => 2 met, Budget
after-e4 | 2.0 | 100000 => 0 met, Shorter(1)
rnbqkbnr/5ppp/ppppp3/8/8/PPPPP3/5PPP/RNBQKBNR | 5.0 | 1000000 => 4096 met, TooManyGames";

#[test]
fn games_are_told_as_they_are_met(rt: HostRuntime) {
    for row in MET.lines() {
        let (asked, wanted) = halves(&rt, row, " => ");
        let goal = goal_of(&rt, field(asked, 0), field(asked, 1));
        let said = told_of(&rt, &goal, number(&rt, field(asked, 2)));
        assert_eq!(rt; said.as_str(), wanted, "{row}");
    }
}
