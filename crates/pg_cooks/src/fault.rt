//! Why no game is found, and why nothing is written.

use pg_checker::ListFault;
use thiserror::Error;

/// Why no game is looked for beside a list, or the search gives nothing, in the order of testing.
#[derive(Clone, Copy, Debug, PartialEq, Eq, Error)]
pub enum CooksFault {
    /// The list has no game that leads the search.
    #[error("no game to go by")]
    NoGame,
    /// A listed game is no solution.
    #[error("{0}")]
    Listed(ListFault),
    /// A growth was refused.
    #[error("out of memory")]
    Memory,
}

/// Why a run that looks for games beside a list ends without its report.
#[derive(Clone, Copy, Debug, PartialEq, Eq, Error)]
pub enum CooksRunFault {
    /// There is no answer.
    #[error("{0}")]
    Cooks(CooksFault),
    /// The sink has failed. How many bytes went out is not known.
    #[error("write fault")]
    Write,
}

/// Why games that are known are not written, the first of these that holds.
#[derive(Clone, Copy, Debug, PartialEq, Eq, Error)]
pub enum ListingFault {
    /// A game of the list is no solution.
    #[error("{0}")]
    Listed(ListFault),
    /// The sink has failed. How many bytes went out is not known.
    #[error("write fault")]
    Write,
}
