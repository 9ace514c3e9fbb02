//! Squares of the board: files, ranks and indexes.
ghost use Rattle.std.specs.Prelude.{◌≡◌, ℕ, ◌+◌, ◌-◌, ◌*◌, ◌<◌, ◌≤◌, ◌↔◌, IfSome, IsSome};
ghost use Rattle.pg_board.specs.Squares.{file, rank};

use std::marker::Model;

/// One of the 64 squares of the board. Contracts see it as its index, `8 * (rank - 1) + file - 1`:
/// a1 is 0, h1 is 7 and h8 is 63. Squares are ordered by that index (FIDE articles 2.1 and 2.4).
#[derive(Clone, Copy, Debug, PartialEq, Eq, PartialOrd, Ord, Hash)]
pub struct Square {
    index: u8,
}

impl Model for Square {
    ghost Value = { ℕ };

    ghost view = { λ s. s.index };

    ghost inverse = { λ n. record { index = n } };

    ghost invariant = { λ s. s.index < 64 };
}

impl Square {
    /// The square on a file (1 for a to 8 for h) and a rank (1 to 8); none where either is out of
    /// its range.
    pub fn new(file: u8, rank: u8) -> Option<Square>
        ensures valid { IsSome result ↔ ((1 ≤ file) × (file ≤ 8) × (1 ≤ rank) × (rank ≤ 8)) }
        ensures value { IfSome result (λ s. s ≡ 8 * (rank - 1) + file - 1) }
    {
        if file >= 1 && file <= 8 && rank >= 1 && rank <= 8 {
            Some(Square {
                index: 8 * (rank - 1) + file - 1,
            })
        } else {
            None
        }
    }

    /// The square with this index, 0 to 63; none from 64 on.
    pub fn from_index(index: u8) -> Option<Square>
        ensures valid { IsSome result ↔ (index < 64) }
        ensures value { IfSome result (λ s. s ≡ index) }
    {
        if index < 64 {
            Some(Square { index })
        } else {
            None
        }
    }

    /// The square with an index, 0 to 63, that the caller knows to be on the board.
    pub fn at(index: u8) -> Square
        requires { index < 64 }
        ensures { result ≡ index }
    {
        Square { index }
    }

    /// The index, 0 to 63.
    pub fn index(self) -> u8
        ensures value { result ≡ self }
        ensures bound { self < 64 }
    {
        self.index
    }

    /// The file, 1 for a to 8 for h.
    pub fn file(self) -> u8
        ensures value { result ≡ file self }
        ensures bound { result ≤ 8 }
    {
        self.index % 8 + 1
    }

    /// The rank, 1 to 8.
    pub fn rank(self) -> u8
        ensures value { result ≡ rank self }
        ensures bound { result ≤ 8 }
    {
        self.index / 8 + 1
    }
}
