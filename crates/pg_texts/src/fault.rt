//! Why nothing is written, or nothing more.

use pg_fen::FenFault;
use pg_moves::CountFault;
use thiserror::Error;

/// Why the moves of a position are not written.
#[derive(Debug, Clone, Copy, PartialEq, Eq, Error)]
pub enum MovesFault {
    /// The text is refused as a position.
    #[error("{0}")]
    Position(FenFault),
    /// A growth was refused.
    #[error("out of memory")]
    Memory,
    /// The sink has failed. How many bytes went out is not known.
    #[error("write fault")]
    Write,
}

/// Why the number of games from a position is not written.
#[derive(Debug, Clone, Copy, PartialEq, Eq, Error)]
pub enum CountRunFault {
    /// The text is refused as a position.
    #[error("{0}")]
    Position(FenFault),
    /// The games are not counted.
    #[error("{0}")]
    Count(CountFault),
    /// The sink has failed. How many bytes went out is not known.
    #[error("write fault")]
    Write,
}

/// Why a certificate is not copied as one of version 2.
#[derive(Debug, Clone, Copy, PartialEq, Eq, Error)]
pub enum UpgradeFault {
    /// There are fewer than 37 bytes, or they end inside a record.
    #[error("truncated certificate")]
    Truncated,
    /// There are 37 bytes, and they begin with no header of version 1.
    #[error("not a certificate of version 1")]
    NotVersion1,
    /// The first byte that no record of version 1 can have at its place.
    #[error("unknown record byte {0}")]
    UnknownRecord(u8),
    /// The source has failed.
    #[error("read fault")]
    Read,
    /// A byte is left behind as many records as are allowed.
    #[error("record limit reached")]
    Budget,
    /// The sink has failed. How many bytes went out is not known.
    #[error("write fault")]
    Write,
}
