//! Why a text is not read.

use pg_position::BadPosition;
use thiserror::Error;

/// Why a text is no diagram: the first fault that it has, in the order of the variants over the
/// whole text.
#[derive(Debug, Clone, Copy, PartialEq, Eq, Error)]
pub enum FenFault {
    /// It has neither one field nor six.
    #[error("wrong number of fields")]
    Fields,
    /// The placement has not eight ranks, or the widths of a rank do not add up to 8. A digit 1 to
    /// 8 is as wide as it says, every other character has width 1.
    #[error("bad rank")]
    Rank,
    /// The placement has a character that is no man's letter, no digit 1 to 8 and no slash.
    #[error("bad letter in the placement")]
    Letter,
    /// A colour has no king, or several.
    #[error("each side must have one king")]
    Kings,
    /// A pawn stands on rank 1 or 8.
    #[error("a pawn stands on rank 1 or 8")]
    PawnRank,
    /// The second field is neither `w` nor `b`.
    #[error("bad side to move")]
    Side,
    /// The third field is neither `-` nor one to four different letters of `KQkq`.
    #[error("bad castling rights")]
    Rights,
    /// The fourth field is neither `-` nor a square of rank 3 or 6.
    #[error("bad en passant square")]
    EnPassant,
    /// The fifth or the sixth field is no decimal number up to 65,535.
    #[error("bad move number")]
    Number,
    /// A position alone: the first clause of a position that the text breaks, `Rights`, `EnPassant`
    /// or `Check`.
    #[error("impossible position: {0}")]
    Invalid(BadPosition),
}

/// Why a text is no length.
#[derive(Debug, Clone, Copy, PartialEq, Eq, Error)]
pub enum LengthFault {
    /// It is not one or more digits and then nothing, `.0` or `.5`.
    #[error("bad length")]
    Shape,
    /// It is a length above 128 plies, that is above `64.0`.
    #[error("length above 64.0")]
    TooLong,
}
