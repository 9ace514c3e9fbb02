//! Who is told how far a problem is judged.

use pg_moves::Unwatched;
use pg_searcher::SearchProgress;

/// A search for the games of a problem.
#[derive(Clone, Copy, Debug, PartialEq, Eq)]
pub enum Effort {
    /// A search for a game beside the author's, led by it.
    Cooks,
    /// A search of all games, which writes a certificate.
    Search,
    /// The same with cuts by journeys too.
    Journeys,
    /// A search that draws its order of moves, for two games or a shorter one.
    Drawn,
    /// A search for tariffs, which writes no certificate.
    Tariffs,
    /// A search with cuts by tariffs too, and by journeys.
    Tolls,
}

/// Is told how far a problem is judged, and may end that. Nothing else that it does changes what is found. Whether it
/// goes on it is asked before each search too but the first; where it does not, that is as if the
/// last limit of nodes was reached.
pub trait JudgeProgress: SearchProgress {
    /// A search begins, of `limit` nodes at most.
    fn begins(&mut self, _effort: Effort, _limit: u64) {}

    /// The search by drawn orders has ended: what ended it alone ends no other search.
    fn has_drawn(&mut self) {}
}

impl JudgeProgress for Unwatched {}
