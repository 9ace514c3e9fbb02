//! Why a certificate is not shown.

use pg_checker::AnswerFault;
use thiserror::Error;

/// Why there is no page of a certificate, the first of these that holds.
#[derive(Debug, PartialEq, Eq, Drop, Error)]
pub enum PageFault {
    /// The certificate does not give its games.
    #[error("{0}")]
    Answer(AnswerFault),
    /// Room was refused for the lines of its trees.
    #[error("out of memory")]
    Memory,
    /// The sink has failed. How many bytes went out is not known.
    #[error("write fault")]
    Write,
}
