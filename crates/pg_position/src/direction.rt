//! The eight directions in which men move along lines.
ghost use Rattle.std.specs.Prelude.{◌≡◌, ◌↔◌, ◌⊎◌, true, false};
ghost use Rattle.pg_position.specs.inner.Rays.{direction_number, is_straight, ascends, slides};

use pg_board::Kind;

/// The directions of the files, the ranks and the diagonals, clockwise from White's forward
/// (FIDE articles 3.2 to 3.4).
#[derive(Clone, Copy, PartialEq, Eq)]
pub enum Direction {
    North,
    NorthEast,
    East,
    SouthEast,
    South,
    SouthWest,
    West,
    NorthWest,
}

impl Direction {
    // The place in the table of rays, 0 to 7.
    pub(crate) fn place(self) -> usize
        ensures { result ≡ direction_number self }
    {
        self as usize
    }

    // Whether it goes along a file or a rank, and not along a diagonal.
    pub(crate) fn is_straight(self) -> bool
        ensures { result ≡ is_straight self }
    {
        match self {
            Direction::North | Direction::East | Direction::South | Direction::West => true,
            _ => false,
        }
    }

    // Whether the indices of its squares grow.
    pub(crate) fn ascends(self) -> bool
        ensures { result ≡ ascends self }
    {
        match self {
            Direction::North | Direction::NorthEast | Direction::East | Direction::NorthWest =>
                true,
            _ => false,
        }
    }

    // The kind of man that moves this way, beside the queen.
    pub(crate) fn slider(self) -> Kind
        ensures { (k : Kind) → (slides self k ≡ true) ↔ ((k ≡ result) ⊎ (k ≡ Kind.Queen)) }
    {
        if self.is_straight() {
            Kind::Rook
        } else {
            Kind::Bishop
        }
    }
}
