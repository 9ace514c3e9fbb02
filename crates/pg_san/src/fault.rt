//! Why a text names no move.

use thiserror::Error;

/// Why a text names no move of a position.
#[derive(Debug, Clone, Copy, PartialEq, Eq, Error)]
pub enum SanFault {
    /// The text is spelled as no move is.
    #[error("not a move")]
    Shape,
    /// No legal move is as the text says.
    #[error("no such legal move")]
    NoSuchMove,
    /// More than one legal move is as the text says.
    #[error("ambiguous move")]
    Ambiguous,
}
