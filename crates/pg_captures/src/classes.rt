//! The classes of men that a pawn may become.

/// The five classes of men that a pawn may become, bishops told apart by the colour of their
/// squares.
#[derive(Clone, Copy, Debug, PartialEq, Eq)]
pub enum Class {
    Queens,
    Rooks,
    Knights,
    LightBishops,
    DarkBishops,
}
