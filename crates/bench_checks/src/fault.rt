//! Why nothing is measured.

use pg_checker::Fault as CheckFault;
use pg_fen::{FenFault, LengthFault};
use pg_searcher::{LedFault, SearchFault};

#[derive(Debug, Drop, thiserror::Error)]
pub(crate) enum Fault {
    #[error("write CASE NUMBER, table, search D L N [journeys] [check], cooks G N [D] or chance SEED N COUNT [D]")]
    Usage,
    #[error("a text is not read")]
    Text,
    #[error("{0}")]
    Diagram(FenFault),
    #[error("{0}")]
    Length(LengthFault),
    #[error("{0}")]
    Check(CheckFault),
    #[error("{0}")]
    Search(SearchFault),
    #[error("{0}")]
    Led(LedFault),
    #[error("a certificate is refused")]
    Refused,
}
