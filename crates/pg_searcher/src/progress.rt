//! Who is told how far a search is.

use pg_moves::Unwatched;
use pg_position::Move;

/// Is told how far a search is, and may end it. Nothing else that it does changes what is found.
pub trait SearchProgress {
    /// The tree of `plies` plies is at work, and `left` more nodes may be visited.
    fn reached(&mut self, plies: u8, left: u64);

    /// A game of the stated length that ends on the diagram was met: its moves. Each is told once, in canonical
    /// order, also where the search has no answer in the end.
    fn met(&mut self, _game: &[Move]) {}

    /// Whether the search goes on. It is asked each time after `reached`; where it does not the search ends as at its
    /// limit of nodes.
    fn goes_on(&mut self) -> bool {
        true
    }
}

impl SearchProgress for Unwatched {
    fn reached(&mut self, _plies: u8, _left: u64) {}
}
