//! Why nothing is measured.

use pg_fen::FenFault;
use pg_moves::CountFault;

#[derive(Debug, Clone, Copy, PartialEq, Eq, thiserror::Error)]
pub(crate) enum Fault {
    #[error("write attacked or play and a number of rounds, or count, a number of plies and perhaps a position")]
    Usage,
    #[error("{0}")]
    Text(FenFault),
    #[error("{0}")]
    Count(CountFault),
    #[error("out of memory")]
    Memory,
}
