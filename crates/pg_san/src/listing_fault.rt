//! Why a text is no list of games.

use crate::fault::SanFault;
use thiserror::Error;

/// Why a text is no list of games. Lines and plies are counted from 1.
#[derive(Debug, Clone, Copy, PartialEq, Eq, Error)]
pub enum GamesFault {
    /// The word at this ply of this line is not read.
    #[error("line {line}, ply {ply}: {cause}")]
    At {
        line: usize,
        ply: usize,
        cause: SanFault,
    },
    /// This line would be the 4,097th game.
    #[error("line {line}: more than 4096 games")]
    TooMany {
        line: usize,
    },
    /// An earlier line is the game of this line.
    #[error("line {line}: repeated game")]
    Repeated {
        line: usize,
    },
    /// Memory was refused for a line that is a game.
    #[error("out of memory")]
    Memory,
}
