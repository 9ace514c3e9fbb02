//! How far a led search came, kept while it goes on.

use crate::progress::JudgeProgress;
use pg_searcher::LedProgress;

/// Keeps how far a led search came, and tells another watch.
#[derive(Drop)]
pub(crate) struct Reach<'a, P> {
    watch: &'a mut P,
    /// How many nodes more may be visited.
    pub(crate) left: u64,
}

impl<'a, P> Reach<'a, P> {
    // Of a search of `limit` nodes at most.
    pub(crate) fn new(watch: &'a mut P, limit: u64) -> Reach<'a, P> {
        Reach { watch, left: limit }
    }
}

impl<P: JudgeProgress> LedProgress for Reach<'_, P> {
    fn reached(&mut self, _foreign: u8, plies: u8, left: u64) {
        self.left = left;
        self.watch.reached(plies, left);
    }

    fn goes_on(&mut self) -> bool {
        self.watch.goes_on()
    }
}
