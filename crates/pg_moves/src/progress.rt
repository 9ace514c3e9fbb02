//! Who is told how far a long run is.

/// Is told how far a count is. Nothing that it does changes the number.
pub trait CountProgress {
    /// `games` more games are counted.
    fn counted(&mut self, games: u64);
}

/// Nobody is told.
#[derive(Clone, Copy, Debug, PartialEq, Eq)]
pub struct Unwatched;

impl CountProgress for Unwatched {
    fn counted(&mut self, _games: u64) {}
}
