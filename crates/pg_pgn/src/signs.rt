//! What tokens say of games.

/// What a token says.
#[derive(Clone, Copy, Debug, PartialEq, Eq)]
pub(crate) enum Sign {
    /// Nothing of the games.
    Nothing,
    /// A tag pair: a game begins, or goes on to begin.
    Heads,
    /// A tag pair that gives a position.
    Fen,
    /// A tag pair that says that a position is given.
    SetUp,
    /// A variation begins.
    Opening,
    /// A variation ends.
    Closing,
    /// The game ends.
    Result,
    /// A move.
    Moves,
}
