//! Why a search ends without its certificate.

use thiserror::Error;

/// Why a search ends without a certificate. What was written so far is to be thrown away.
#[derive(Clone, Copy, Debug, PartialEq, Eq, Error)]
pub enum SearchFault {
    /// A position more has to be visited than the limit allows, or who watches the search ends it.
    #[error("node limit reached")]
    Budget,
    /// A game of this number of plies, fewer than stated, ends on the diagram.
    #[error("a game of {0} plies reaches the diagram")]
    Shorter(u8),
    /// More games end on the diagram than a list holds.
    #[error("more than 4096 games")]
    TooManyGames,
    /// The sink has failed.
    #[error("write fault")]
    Write,
    /// Memory was refused.
    #[error("out of memory")]
    Memory,
}
