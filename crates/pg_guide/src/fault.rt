//! Why a line is not explained.

use pg_checker::AnswerFault;
use pg_san::GamesFault;
use thiserror::Error;

/// Why a line of moves is not explained by a certificate that is right, the first of these that holds.
#[derive(Debug, PartialEq, Eq, Drop, Error)]
pub enum WhyFault {
    /// The text of the moves is refused as a list of games.
    #[error("{0}")]
    Games(GamesFault),
    /// The text of the moves is not one game: it has no line with words, or more than one.
    #[error("not one line of moves")]
    Moves,
    /// The certificate does not give its games.
    #[error("{0}")]
    Answer(AnswerFault),
    /// Room was refused for the node that ends the line.
    #[error("out of memory")]
    Memory,
    /// The sink has failed. How many bytes went out is not known.
    #[error("write fault")]
    Write,
}
