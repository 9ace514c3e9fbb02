//! Why a problem, a list of games or a certificate is refused.
use arrayvec::ArrayVec;
use pg_certificate::ReadFault;
use pg_fen::{FenFault, LengthFault};
use pg_position::Move;
use thiserror::Error;

/// Why a listed game is no solution. Games are counted from 0, in canonical order.
#[derive(Clone, Copy, Debug, PartialEq, Eq, Error)]
pub enum ListFault {
    /// The game has another number of plies than the stated one.
    #[error("game {} does not have the stated length", .0.saturating_add(1))]
    WrongLength(usize),
    /// The game's last placement is not the diagram.
    #[error("game {} does not end on the diagram", .0.saturating_add(1))]
    NotReaching(usize),
}

/// Why a check does not say yes, in the order of testing.
#[derive(Debug, PartialEq, Eq, Drop, Error)]
pub enum Fault {
    /// A listed game is no solution.
    #[error(transparent)]
    Listed(ListFault),
    /// The first 37 bytes are there and are no header.
    #[error("not a certificate")]
    Magic,
    /// The header has another number of plies.
    #[error("certificate for another length")]
    OtherLength,
    /// The header has another diagram.
    #[error("certificate for another diagram")]
    OtherDiagram,
    /// A record more is needed than the limit allows.
    #[error("record limit reached")]
    Budget,
    /// The bytes end inside the header or a record, or where a record must stand.
    #[error("truncated certificate")]
    Truncated,
    /// The source has failed.
    #[error("read fault")]
    Read,
    /// No record begins with this byte.
    #[error("unknown record byte {0}")]
    UnknownRecord(u8),
    /// No bound in the list has this code.
    #[error("unknown bound {0}")]
    UnknownBound(u8),
    /// The first bound in the list with this code does not exclude at the node.
    #[error("cut {0} does not exclude")]
    CutFails(u8),
    /// No closed node has the number.
    #[error("reference to no closed node")]
    RefUnknown,
    /// The node of the number has another position or other plies left.
    #[error("reference to another position")]
    RefDiffers,
    /// Below the node of the number a game ends on the diagram.
    #[error("reference to a node with a game")]
    RefFertile,
    /// A named node more is met than the limit allows.
    #[error("too many named nodes")]
    TooManyNamed,
    /// A growth of the table of named nodes was refused.
    #[error("out of memory")]
    Memory,
    /// A game of fewer plies ends on the diagram.
    #[error("a game of {0} plies reaches the diagram")]
    Shorter(u8),
    /// A game of the stated length ends on the diagram, and the list does not have it.
    #[error("unlisted game: ")]
    Unlisted(ArrayVec<Move, 128>),
    /// A byte stands behind the last tree.
    #[error("bytes after the certificate")]
    Trailing,
}

/// Why a certificate is not answered with its games, in the order of testing.
#[derive(Debug, PartialEq, Eq, Drop, Error)]
pub enum AnswerFault {
    /// A fault of a check, which is neither of a listed game nor of an unlisted one.
    #[error("{0}")]
    Check(Fault),
    /// More than 4,096 games solve the problem.
    #[error("more than 4096 games")]
    TooManyGames,
    /// A growth of the list of games was refused.
    #[error("out of memory")]
    Memory,
}

/// Why a certificate is not opened, the first of these that holds.
#[derive(Debug, PartialEq, Eq, Drop, Error)]
pub enum OpenFault {
    /// Its header is not read: `Read`, `Truncated` or `Magic` of a check.
    #[error("{0}")]
    Header(Fault),
    /// Its header names no problem: no diagram has those 32 bytes, or no length those plies.
    #[error("certificate for no problem")]
    NoProblem,
}

/// Why two texts are no problem, the first of these that holds.
#[derive(Clone, Copy, Debug, PartialEq, Eq, Error)]
pub enum ProblemFault {
    /// The text is refused as a diagram.
    #[error("{0}")]
    Diagram(FenFault),
    /// The text is refused as a length.
    #[error("{0}")]
    Length(LengthFault),
}
