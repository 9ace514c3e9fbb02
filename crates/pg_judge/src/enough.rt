//! A search that ends where enough games are known.

use crate::limits::Limits;
use crate::progress::JudgeProgress;
use pg_position::Move;
use pg_san::Games;
use pg_searcher::{Met, SearchProgress};

// Adds the games that a search meets to those that are known, keeps how far it came, tells another watch of that, and
// ends the search where enough are known.
#[derive(Drop)]
pub(crate) struct UntilEnough<'a, P> {
    pub(crate) met: Met<'a, P>,
    limits: Limits,
}

impl<'a, P: JudgeProgress> UntilEnough<'a, P> {
    // Of a search of `limit` nodes at most.
    pub(crate) fn new(
        watch: &'a mut P,
        games: &'a mut Games,
        limit: u64,
        limits: Limits,
    ) -> UntilEnough<'a, P> {
        UntilEnough {
            met: Met::new(watch, games, limit),
            limits,
        }
    }
}

impl<P: JudgeProgress> SearchProgress for UntilEnough<'_, P> {
    fn reached(&mut self, plies: u8, left: u64) {
        self.met.reached(plies, left);
    }

    fn met(&mut self, game: &[Move]) {
        self.met.met(game);
    }

    fn goes_on(&mut self) -> bool {
        self.limits.search_on(self.met.count()) && self.met.goes_on()
    }
}
