//! Why a text is no file of games.

use arrayvec::ArrayString;
use pg_san::SanFault;
use std::fmt;
use std::fmt::{Display, Formatter};
use thiserror::Error;

/// What is wrong with the form of a text.
#[derive(Debug, Clone, Copy, PartialEq, Eq, Error)]
pub enum FormFault {
    /// A comment has no `}`.
    #[error("a comment is not closed")]
    Comment,
    /// A tag pair has no `]`, or a line end stands in its string.
    #[error("a tag pair is not closed")]
    Tag,
    /// A tag pair, or the end of the text, stands in a variation.
    #[error("a variation is not closed")]
    Variation,
    /// A `)` stands where no variation is open.
    #[error("a bracket closes nothing")]
    Closing,
    /// A tag pair `FEN`.
    #[error("the tag FEN sets up a position")]
    Fen,
    /// A tag pair `SetUp` with the value 1.
    #[error("the tag SetUp sets up a position")]
    SetUp,
}

/// Why a text is no file of games. Lines, columns, games and plies are counted from 1; a column is a character.
#[derive(Debug, Clone, Copy, PartialEq, Eq)]
pub enum PgnFault {
    /// The word at this place, the move of this ply of this game, is not read.
    At {
        line: usize,
        column: usize,
        game: usize,
        ply: usize,
        word: ArrayString<24>,
        cause: SanFault,
    },
    /// The form of the text is wrong at this place.
    Form {
        line: usize,
        column: usize,
        game: usize,
        fault: FormFault,
    },
    /// Memory was refused.
    Memory,
}

// What is said of a word that is not read.
fn said_of(cause: SanFault) -> &'static str {
    match cause {
        SanFault::Shape => "is not a move",
        SanFault::NoSuchMove => "is no legal move",
        SanFault::Ambiguous => "is ambiguous",
    }
}

impl Display for PgnFault {
    fn fmt<W: fmt::Write>(&self, f: &mut Formatter<W>) -> fmt::Result {
        match self {
            PgnFault::At {
                line,
                column,
                game,
                ply,
                word,
                cause,
            } => {
                let said = said_of(*cause);
                write!(
                    f,
                    "line {line}, column {column}: game {game}, ply {ply}: {word} {said}"
                )
            }
            PgnFault::Form {
                line,
                column,
                game,
                fault,
            } => write!(f, "line {line}, column {column}: game {game}: {fault}"),
            PgnFault::Memory => write!(f, "out of memory"),
        }
    }
}

impl std::error::Error for PgnFault {}

/// Why no list of problems is written.
#[derive(Debug, Clone, Copy, PartialEq, Eq, Error)]
pub enum ProblemsFault {
    /// Memory was refused.
    #[error("out of memory")]
    Memory,
    /// The sink has failed.
    #[error("write fault")]
    Write,
}
