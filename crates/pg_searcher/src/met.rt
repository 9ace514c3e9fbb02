//! The games that a search meets, kept as they are told.

use crate::progress::SearchProgress;
use pg_position::Move;
use pg_san::{AddFault, Games};

/// Adds the games that a search meets to those that are known, keeps how far it came, and tells another watch of that.
#[derive(Drop)]
pub struct Met<'a, P> {
    watch: &'a mut P,
    games: &'a mut Games,
    /// Whether a growth was refused for a game, which is then not among them.
    pub is_short: bool,
    /// The plies of the tree at work, as far as it was told.
    pub tree: u8,
    /// How many nodes more may be visited.
    pub left: u64,
}

impl<'a, P> Met<'a, P> {
    /// Of a search of `limit` nodes at most.
    pub fn new(watch: &'a mut P, games: &'a mut Games, limit: u64) -> Met<'a, P> {
        Met {
            watch,
            games,
            is_short: false,
            tree: 0,
            left: limit,
        }
    }

    /// How many games are known.
    pub fn count(&self) -> usize {
        self.games.len()
    }
}

impl<P: SearchProgress> SearchProgress for Met<'_, P> {
    fn reached(&mut self, plies: u8, left: u64) {
        self.tree = plies;
        self.left = left;
        self.watch.reached(plies, left);
    }

    fn met(&mut self, game: &[Move]) {
        if self.games.add(game) == Err(AddFault::Memory) {
            self.is_short = true;
        }
        self.watch.met(game);
    }

    fn goes_on(&mut self) -> bool {
        self.watch.goes_on()
    }
}
